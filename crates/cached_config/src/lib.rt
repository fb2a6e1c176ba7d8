//! The configuration file of a server: which namespaces it has, each with its port and the values that its loads find.
#![tactic(auto)]

mod good;
mod hosting;
mod listed;
mod places;
mod reading;
mod unread;
mod values;
mod words;

pub use listed::{
    ConfigError, ConfigFault, ConfigReport, HostedNamespace, Hosting, ItemLimits, Listed, Notices,
    Protocol,
};
pub use places::line_of_bind;
pub use reading::{Hosted, check_config, check_hosted, read_config, read_hosted};
pub use unread::Unread;
