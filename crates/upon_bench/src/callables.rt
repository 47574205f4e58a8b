// What the templates that are measured call: two functions.
ghost use Rattle.std.specs.Prelude.{string_bytes};
ghost use Rattle.upon_bench.specs.Callables.{doubled_long, prefixed_text};

use std::alloc::{AllocError, Global};
use upon::functions::{Call1, Call1S, Fn1, Fn1S};

/// A text, or memory is out.
type Text = Result<String, AllocError>;

/// A text after another, which is kept.
#[derive(Drop)]
pub(crate) struct Prefix {
    text: String,
}

impl Call1S<Text> for Prefix {
    ghost meaning = { λ prefix. prefixed_text (string_bytes prefix.text) };

    fn call(&self, alloc: Global, first: &str) -> Text {
        let mut whole = String::from_str(alloc, &self.text)?;
        whole.push_str(first)?;
        Ok(whole)
    }
}

/// Twice an integer.
#[derive(Drop)]
pub(crate) struct Double;

impl Call1<i64, i64> for Double {
    ghost meaning = { λ _. doubled_long };

    fn call(&self, _alloc: Global, first: i64) -> i64 {
        first.wrapping_add(first)
    }
}

/// Creates a function that puts `get_` before a text.
pub(crate) fn getter(alloc: Global) -> Result<Fn1S<Prefix, Text>, AllocError> {
    let text = String::from_str(alloc, "get_")?;
    Ok(Fn1S::new(Prefix { text }))
}

/// Creates a function that doubles an integer.
pub(crate) fn doubling() -> Fn1<Double, i64, i64> {
    Fn1::new(Double)
}
