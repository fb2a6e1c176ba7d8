//! Rows of a cache of one part: calls and their expected results.
mod calls;
mod generators;
mod rules;
mod script;
mod values;

pub use calls::put;
pub use rules::{Folding, ITSELF, Numbers};
pub use script::{
    CASE, Case, Look, Row, SECOND, SETTINGS, at, empty_cache, none_wrong, wrong_among,
};
pub use values::NOT_CLONED;
