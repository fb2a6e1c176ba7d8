//! Receipts: what a service returned for an input, with the number of the input's record.
mod asking;
mod laws;
mod output;
mod receipt;
mod standing;

pub use asking::{copy_input, copy_outcome};
pub use laws::receipts_in_order;
pub use output::{Output, output_of};
pub use receipt::Receipt;
pub use standing::{are_of, receipts_stand, stands};
