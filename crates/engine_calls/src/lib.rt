//! The calls of a cache of one part over its tables: looks, writes, removals, uses, predicates. A key is found by its hash.
#![tactic(auto)]

mod entries;
mod looks;
mod predicates;
mod settings;
mod times;
mod uses;
mod writes;

pub use looks::{clone_found, clone_key, clone_value, find, find_unless, held, look_up, pass_over};
pub use predicates::{commit, draw_id, invalidate, prepare, reserve};
pub use settings::policy_of;
pub use uses::{use_found, use_in};
pub use writes::{prepare_removal, remove_in, remove_reserved, tell_removed, write, write_by_name};
