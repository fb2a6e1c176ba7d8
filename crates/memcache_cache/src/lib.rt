//! The memcache service over the lent cache of `moka`, and one of its connections between the wake-ups of its socket.
#![tactic(auto)]

mod lent;
mod link;
mod rules;

pub use lent::LentShelf;
pub use link::MemcacheLink;
pub use rules::{ITEM_COST, ItemRules};
