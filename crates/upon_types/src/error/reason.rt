// What an error says of what is wrong, beside its kind.
ghost use Rattle.std.specs.Prelude.{◌≡◌, Some, None, IfOk, option_map, string_bytes, unwrap_or};
ghost use Rattle.upon_types.specs.Cause.{cause_text};

use crate::error::cause::Cause;
use std::alloc::{AllocError, Global};

/// What is wrong, beside the kind of an error.
#[derive(Debug, Drop)]
pub enum Reason {
    /// Nothing is said.
    None,
    /// A text that is not one of the engine's own, as one of a function.
    Text(String),
    /// Why there is a fault.
    Cause(Box<Cause>),
}

/// What an error says, as a text that can be lent, and its cause, if that is one of the engine's own.
#[derive(Debug, Drop)]
pub(crate) struct Said {
    pub(crate) text: String,
    pub(crate) cause: Option<Cause>,
    ghost told: { unwrap_or (option_map cause_text cause) (string_bytes text) ≡ string_bytes text },
}

impl Said {
    /// Says a text that is none of the engine's own.
    pub(crate) fn of_text(text: String) -> Said
        ensures text { string_bytes result.text ≡ string_bytes text }
        ensures cause { result.cause ≡ None }
    {
        Said { text, cause: None }
    }

    /// Makes the words of a cause. The error is that memory is out.
    pub(crate) fn of_cause(alloc: Global, cause: Cause) -> Result<Said, AllocError>
        ensures text { IfOk result (λ said. string_bytes said.text ≡ cause_text cause) }
        ensures cause { IfOk result (λ said. said.cause ≡ Some cause) }
    {
        let text = cause.text(alloc)?;
        Ok(Said {
            text,
            cause: Some(cause),
        })
    }
}
