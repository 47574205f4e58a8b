// Texts that are copied into values.
ghost use Rattle.std.specs.Cow.{cow_str_bytes};
ghost use Rattle.std.specs.Prelude.{◌≡◌, true, IfOk, OnErr};
ghost use Rattle.upon_types.specs.Cow.{is_borrowed};
ghost use Rattle.upon_types.specs.Val.{text_val};
ghost use Rattle.upon_types.specs.View.{view};

use super::Value;
use std::alloc::{AllocError, Global};
use std::borrow::CowStr;

impl Value {
    /// Creates a text value that holds a copy of the text. It fails if there is no memory for the copy.
    pub fn from_text(alloc: Global, text: &str) -> Result<Value, AllocError>
        ensures { IfOk result (λ v. view v ≡ text_val text.now) }
    {
        Ok(Value::String(String::from_str(alloc, text)?))
    }

    /// Creates a text value that keeps the text if it is owned, else holds a copy of it. It fails if there is no
    /// memory for the copy.
    pub fn from_cow(alloc: Global, text: CowStr) -> Result<Value, AllocError>
        ensures value { IfOk result (λ v. view v ≡ text_val (cow_str_bytes text.entry)) }
        ensures copied { OnErr result (is_borrowed text.entry ≡ true) }
    {
        match text {
            CowStr::Borrowed(text) => Value::from_text(alloc, text),
            CowStr::Owned(text) => Ok(Value::String(text)),
        }
    }
}
