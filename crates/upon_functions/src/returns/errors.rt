// What callables refuse with: a message, or that memory was refused.
ghost use Rattle.std.specs.Prelude.{None, Some, string_bytes, true, false};

use crate::function::CallError;
use crate::returns::FunctionError;
use std::alloc::{AllocError, Global};

impl FunctionError for String {
    ghost message = { λ text. Some (string_bytes text) };

    ghost is_copy = { false };

    fn to_error(self, _alloc: Global) -> CallError {
        CallError::Fault(self)
    }
}

impl FunctionError for &'static str {
    ghost message = { λ text. Some text.now };

    ghost is_copy = { true };

    fn to_error(self, alloc: Global) -> CallError {
        match String::from_str(alloc, self) {
            Ok(text) => CallError::Fault(text),
            Err(error) => CallError::from(error),
        }
    }
}

impl FunctionError for AllocError {
    ghost message = { λ _. None };

    ghost is_copy = { false };

    fn to_error(self, _alloc: Global) -> CallError {
        CallError::Memory
    }
}
