//! What the errors of a service say.
use crate::rows::no_row_wrong;
use audit_model::{Input, LineError, Outcome, ServiceError};
use cache_run::RunError;
use cache_spaces::{AnswerError, Refusal};
use std::alloc::{AllocError, Global};
use std::fmt::Display;

const SERVICE_ERRORS: [(ServiceError, &str); 12] = [
    (ServiceError::NoNamespace, "no namespace"),
    (ServiceError::NoConnection, "no connection"),
    (ServiceError::Closed, "closed"),
    (ServiceError::NoLoad, "no load"),
    (ServiceError::Moment, "moment"),
    (ServiceError::OutOfMemory, "out of memory"),
    (ServiceError::HeldAgain, "held again"),
    (ServiceError::LineEnd, "line end"),
    (ServiceError::TooLong, "too long"),
    (ServiceError::Deadline, "deadline"),
    (ServiceError::UsedUp, "used up"),
    (ServiceError::Config, "config"),
];

const RUN_ERRORS: [(RunError, &str); 5] = [
    (RunError::Read, "read"),
    (RunError::Write, "write"),
    (RunError::OutOfMemory, "out of memory"),
    (RunError::UsedUp, "used up"),
    (RunError::Moment, "moment"),
];

const LINE_ERRORS: [(LineError, &str); 4] = [
    (LineError::Command, "command"),
    (LineError::Syntax, "syntax"),
    (LineError::Deadline, "deadline"),
    (LineError::Number, "number"),
];

fn has_text<E: Display>(alloc: Global, error: &E, text: &str) -> Result<bool, AllocError> {
    Ok(format!(in alloc; "{error}")?.as_str() == text)
}

/// Whether an error has its text, which is written once more if memory was refused.
fn says<E: Display>(alloc: Global, error: &E, text: &str) -> bool {
    has_text(alloc, error, text) == Ok(true) || has_text(alloc, error, text) == Ok(true)
}

/// The place of the first row that does not say so.
fn first_unsaid<E: Display>(alloc: Global, rows: &[(E, &str)]) -> Option<usize> {
    for (place, (error, text)) in rows.iter().enumerate() {
        if !says(alloc, error, text) {
            return Some(place);
        }
    }
    None
}

#[test]
fn errors_have_texts(rt: HostRuntime) {
    no_row_wrong(&rt, first_unsaid(rt.alloc(), SERVICE_ERRORS.as_slice()));
    no_row_wrong(&rt, first_unsaid(rt.alloc(), RUN_ERRORS.as_slice()));
    no_row_wrong(&rt, first_unsaid(rt.alloc(), LINE_ERRORS.as_slice()));
}

/// Whether an input that is handed back says why.
fn input_says_why(alloc: Global) -> bool {
    let refusal = Refusal {
        error: ServiceError::Closed,
        input: Input::Open { namespace: 0 },
    };
    says(alloc, &refusal, "closed")
}

/// Whether an outcome that is handed back says why.
fn outcome_says_why(alloc: Global) -> bool {
    let answer = AnswerError {
        error: ServiceError::NoLoad,
        outcome: Outcome::None,
    };
    says(alloc, &answer, "no load")
}

#[test]
fn what_is_handed_back_says_why(rt: HostRuntime) {
    assert!(rt; input_says_why(rt.alloc()) && outcome_says_why(rt.alloc()));
}
