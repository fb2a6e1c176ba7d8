//! What the caller keeps of an input.
use crate::receipts::output::Output;
use audit_model::Input;

/// An input that a service accepted, with its output and the number of its record, which counts the records of that namespace from 1.
#[derive(Drop)]
pub struct Receipt {
    /// The namespace, counted from 0.
    pub namespace: u64,
    /// The number of the record in that namespace's journal, counted from 1.
    pub number: u64,
    /// The input.
    pub input: Input,
    /// The output.
    pub output: Output,
}
