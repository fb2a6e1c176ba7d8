//! Rows of a cache that is lent: calls, their expected results, and what plays them.
mod closures;
mod hashing;
mod rules;
mod script;
mod selecting;
mod turning;

pub use hashing::Times;
pub use rules::IsEither;
pub use script::{
    Call, Case, Closure, Done, Form, ONE, Played, SPREAD, Start, all_right, empty_cache,
    is_right_in_segments, none_wrong, wrong_call,
};
pub use selecting::Select;
pub use turning::Turning;
