//! What is kept of an answer.
use crate::Printed;

/// What a client was told of an operation, as it is printed, and whether the operation was done.
#[derive(Debug, Drop)]
pub struct Answered {
    pub text: Printed,
    pub done: bool,
}
