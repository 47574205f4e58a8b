// What a callable may return, and what becomes of it.
ghost use Rattle.std.specs.Prelude.{Bool, List, ℕ, Option};
ghost use Rattle.upon_functions.specs.Outcome.{Returned};
ghost use Rattle.upon_functions.specs.Says.{Returns, DeclinesCall};

use crate::function::CallError;
use std::alloc::Global;
use upon_types::value::Value;

mod errors;
mod owners;
mod scalars;

/// What a callable may return.
pub trait FunctionReturn {
    // The outcome that it is; none where memory was refused.
    ghost outcome: { Self → Option Returned };

    // Whether its value or its message is a copy, for which alone memory is wanted.
    ghost is_copy: { Self → Bool };

    /// Returns the value, or the refusal as a `Fault`. The error is `Memory` when there is no memory for a copy, or
    /// when that is what was returned.
    fn to_value(self, alloc: Global) -> Result<Value, CallError>
        ensures { Returns (is_copy self) result (outcome self) };
}

/// What a callable may refuse with.
pub trait FunctionError {
    // The message; none where memory was refused.
    ghost message: { Self → Option (List ℕ) };

    // Whether the message is a copy, for which alone memory is wanted.
    ghost is_copy: { Bool };

    /// Returns the refusal as a `Fault`, or `Memory` when there is no memory for a copy of the message or when that is
    /// the error.
    fn to_error(self, alloc: Global) -> CallError
        ensures { DeclinesCall is_copy result (message self) };
}

impl<T: FunctionReturn> FunctionReturn for Option<T> {
    ghost use Rattle.upon_functions.specs.Outcome.{option_outcome};
    ghost use Rattle.upon_functions.specs.Says.{option_is_copy};

    ghost outcome = { option_outcome T.outcome };

    ghost is_copy = { option_is_copy T.is_copy };

    fn to_value(self, alloc: Global) -> Result<Value, CallError> {
        match self {
            Some(returned) => returned.to_value(alloc),
            None => Ok(Value::None),
        }
    }
}

impl<T: FunctionReturn, E: FunctionError> FunctionReturn for Result<T, E> {
    ghost use Rattle.upon_functions.specs.Outcome.{result_outcome};
    ghost use Rattle.upon_functions.specs.Says.{result_is_copy};

    ghost outcome = { result_outcome T.outcome E.message };

    ghost is_copy = { result_is_copy T.is_copy E.is_copy };

    fn to_value(self, alloc: Global) -> Result<Value, CallError> {
        match self {
            Ok(returned) => returned.to_value(alloc),
            Err(error) => Err(error.to_error(alloc)),
        }
    }
}
