// The examples of docs/FUNCTIONS.md, and functions of integers of 64 bits.
ghost use Rattle.std.specs.Prelude.{◌∷◌, [], string_bytes};
ghost use Rattle.upon.specs.Adapters.{adapter_answer};
ghost use Rattle.upon.specs.Misfits.{integer_misfit};
ghost use Rattle.upon.specs.Integers.{i64_range};
ghost use Rattle.upon_examples.specs.Callables.{added, doubled, echoed};
ghost use Rattle.upon_examples.specs.Functions.{after_text, is_longer, positive};

use std::alloc::{AllocError, Global};
use upon::functions::{
    Call1, Call1S, Call1V, Call2, Call2SO, CallError, Function, Meaning, call_1,
};
use upon::value::{Value, ValueCow};

/// Twice an integer.
#[derive(Drop)]
pub struct Double;

impl Call1<i64, i64> for Double {
    ghost meaning = { λ _. doubled };

    fn call(&self, _alloc: Global, first: i64) -> i64 {
        first.wrapping_add(first)
    }
}

/// Whether a text has more bytes than a number.
#[derive(Drop)]
pub struct IsLonger;

impl Call2SO<usize, bool> for IsLonger {
    ghost meaning = { λ _. is_longer };

    fn call(&self, _alloc: Global, first: &str, second: usize) -> bool {
        second < first.len()
    }
}

/// A number above 0; others are refused.
#[derive(Drop)]
pub struct Positive;

impl Call1<i64, Result<Result<i64, String>, AllocError>> for Positive {
    ghost meaning = { λ _. positive };

    fn call(&self, alloc: Global, first: i64) -> Result<Result<i64, String>, AllocError> {
        if 0 < first {
            return Ok(Ok(first));
        }
        Ok(Err(String::from_str(alloc, "not a positive number")?))
    }
}

/// A number above 0, by a closure; others are refused.
#[derive(Drop)]
pub struct PositiveByClosure;

impl Meaning for PositiveByClosure {
    ghost means = { positive };
}

impl Function for PositiveByClosure {
    ghost answers = { λ _. adapter_answer (integer_misfit i64_range ∷ []) positive };

    fn call(&self, alloc: Global, args: &[ValueCow]) -> Result<Value, CallError> {
        let positive = |first: i64| {
            if 0 < first {
                Ok(first)
            } else {
                Err("not a positive number")
            }
        };
        call_1::<PositiveByClosure, i64, Result<i64, &'static str>, _>(alloc, args, positive)
    }
}

/// A text after another, which is kept.
#[derive(Drop)]
pub struct Prefix {
    /// The text before.
    pub text: String,
}

impl Call1S<Result<String, AllocError>> for Prefix {
    ghost meaning = { λ prefix. after_text (string_bytes prefix.text) };

    fn call(&self, alloc: Global, first: &str) -> Result<String, AllocError> {
        let mut whole = String::from_str(alloc, &self.text)?;
        whole.push_str(first)?;
        Ok(whole)
    }
}

/// The sum of two integers.
#[derive(Drop)]
pub struct Add;

impl Call2<i64, i64, i64> for Add {
    ghost meaning = { λ _. added };

    fn call(&self, _alloc: Global, first: i64, second: i64) -> i64 {
        first.wrapping_add(second)
    }
}

/// An integer of eight bits, as it is.
#[derive(Drop)]
pub struct Low;

impl Call1<u8, u8> for Low {
    ghost meaning = { λ _. echoed };

    fn call(&self, _alloc: Global, first: u8) -> u8 {
        first
    }
}

/// A copy of any value.
#[derive(Drop)]
pub struct Echo;

impl Call1V<Result<Value, AllocError>> for Echo {
    ghost meaning = { λ _. echoed };

    fn call(&self, _alloc: Global, first: &Value) -> Result<Value, AllocError> {
        first.try_clone()
    }
}
