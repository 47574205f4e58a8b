// Functions and formatters of the tests.
ghost use Rattle.std.specs.Prelude.{◌≡◌, Some, false};
ghost use Rattle.upon.specs.FormatError.{message_of};
ghost use Rattle.upon.specs.Formatter.{is_marked, text_of};
ghost use Rattle.upon_examples.specs.Callables.{added, declined, doubled, echoed, listed_nothing};

use std::alloc::{AllocError, Global};
use upon::Value;
use upon::fmt::{self, Format, Formatter};
use upon::functions::{Call1, Call1S, Call1V, Call2};

/// Twice an integer.
#[derive(Drop)]
pub struct Double;

impl Call1<i64, i64> for Double {
    ghost meaning = { λ _. doubled };

    fn call(&self, _alloc: Global, first: i64) -> i64 {
        first.wrapping_add(first)
    }
}

/// The sum of two integers.
#[derive(Drop)]
pub struct Add;

impl Call2<i64, i64, i64> for Add {
    ghost meaning = { λ _. added };

    fn call(&self, _alloc: Global, first: i64, second: i64) -> i64 {
        first.wrapping_add(second)
    }
}

/// An integer of eight bits, as it is.
#[derive(Drop)]
pub struct Low;

impl Call1<u8, u8> for Low {
    ghost meaning = { λ _. echoed };

    fn call(&self, _alloc: Global, first: u8) -> u8 {
        first
    }
}

/// It refuses each text.
#[derive(Drop)]
pub struct No;

impl Call1S<Result<Result<bool, String>, AllocError>> for No {
    ghost meaning = { λ _. declined };

    fn call(&self, alloc: Global, _first: &str) -> Result<Result<bool, String>, AllocError> {
        Ok(Err(String::from_str(alloc, "no")?))
    }
}

/// A list for each value.
#[derive(Drop)]
pub struct Pair;

impl Call1V<Vec<Value>> for Pair {
    ghost meaning = { λ _. listed_nothing };

    fn call(&self, alloc: Global, _first: &Value) -> Vec<Value> {
        Vec::new(alloc)
    }
}

// A refusal with a message; where there is no memory for that, the formatter's mark is set.
fn refuse(f: &mut Formatter, message: &str) -> fmt::Error
    ensures text { text_of f.new ≡ text_of f.old }
    ensures refused { is_marked f.new ≡ false → (is_marked f.old ≡ false) × (message_of result ≡ Some message.now) }
{
    match fmt::Error::from_text(f.allocator(), message) {
        Ok(error) => error,
        Err(_) => {
            f.out_of_memory();
            fmt::Error::from(std::fmt::Error)
        }
    }
}

/// It writes two letters, and then refuses.
#[derive(Drop)]
pub struct Half;

impl Format for Half {
    ghost use Rattle.upon_examples.specs.Callables.{half_written};

    ghost formats = { λ _. half_written };

    fn format(&self, f: &mut Formatter, _value: &Value) -> fmt::Result {
        f.write_str("ab")?;
        Err(refuse(f, "bad"))
    }
}

/// It refuses each value, without a message.
#[derive(Drop)]
pub struct Mute;

impl Format for Mute {
    ghost use Rattle.upon_examples.specs.Callables.{without_words};

    ghost formats = { λ _. without_words };

    fn format(&self, _f: &mut Formatter, _value: &Value) -> fmt::Result {
        Err(fmt::Error::from(std::fmt::Error))
    }
}

/// It refuses no value, and else writes as the default does.
#[derive(Drop)]
pub struct NoNone;

impl Format for NoNone {
    ghost use Rattle.upon_examples.specs.Callables.{none_refused};

    ghost formats = { λ _. none_refused };

    fn format(&self, f: &mut Formatter, value: &Value) -> fmt::Result {
        if let Value::None = value {
            return Err(refuse(f, "unable to format None"));
        }
        fmt::default(f, value)
    }
}
