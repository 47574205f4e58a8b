// Functions of texts.
ghost use Rattle.std.specs.List.{starts_with, ends_with};
ghost use Rattle.std.specs.Prelude.{◌≡◌, nat_eq};
ghost use Rattle.std.specs.Str.{trim};
ghost use Rattle.std.specs.StrCase.Lower.{str_to_lowercase};
ghost use Rattle.std.specs.StrCase.Upper.{str_to_uppercase};
ghost use Rattle.upon_std.specs.Basic.Parts.{has_part};

use std::alloc::{AllocError, Global};
use upon_functions::function::{CallError, Function};
use upon_functions::{Call1S, Call2SO, Call2SS, Fn1S, Fn2SO, Fn2SS};
use upon_types::value::{Value, ValueCow};

/// A function of texts.
#[derive(Clone, Copy)]
pub enum Texts {
    /// `trim(a)` returns the text without white space at its ends, which is what Unicode's property White_Space says.
    Trim,
    /// `lower(a)` returns the text in lower case.
    Lower,
    /// `upper(a)` returns the text in upper case.
    Upper,
    /// `starts_with(a, b)` returns whether a text begins with another.
    StartsWith,
    /// `ends_with(a, b)` returns whether a text ends with another.
    EndsWith,
    /// `contains(a, b)` returns whether a text has another as a part.
    Contains,
    /// `repeat(a, n)` returns the text so many times. It refuses to make more than 1000000 bytes.
    Repeat,
}

impl Function for Texts {
    ghost use Rattle.upon_std.specs.Basic.Texts.{texts_answer};

    ghost answers = { texts_answer };

    fn call(&self, alloc: Global, args: &[ValueCow]) -> Result<Value, CallError> {
        match *self {
            Texts::Trim => Fn1S::<Trim, Result<String, AllocError>>::new(Trim).call(alloc, args),
            Texts::Lower => Fn1S::<Lower, Result<String, AllocError>>::new(Lower).call(alloc, args),
            Texts::Upper => Fn1S::<Upper, Result<String, AllocError>>::new(Upper).call(alloc, args),
            Texts::StartsWith => Fn2SS::<StartsWith, bool>::new(StartsWith).call(alloc, args),
            Texts::EndsWith => Fn2SS::<EndsWith, bool>::new(EndsWith).call(alloc, args),
            Texts::Contains => Fn2SS::<Contains, bool>::new(Contains).call(alloc, args),
            Texts::Repeat => {
                Fn2SO::<Repeat, usize, Result<Result<String, &'static str>, AllocError>>::new(
                    Repeat,
                ).call(alloc, args)
            }
        }
    }
}

// A text without white space at its ends.
#[derive(Drop)]
struct Trim;

impl Call1S<Result<String, AllocError>> for Trim {
    ghost use Rattle.upon_std.specs.Basic.Parts.{changed_outcome};

    ghost meaning = { λ _. changed_outcome trim };

    fn call(&self, alloc: Global, first: &str) -> Result<String, AllocError> {
        String::from_str(alloc, first.trim())
    }
}

// A text in lower case.
#[derive(Drop)]
struct Lower;

impl Call1S<Result<String, AllocError>> for Lower {
    ghost use Rattle.upon_std.specs.Basic.Parts.{changed_outcome};

    ghost meaning = { λ _. changed_outcome str_to_lowercase };

    fn call(&self, alloc: Global, first: &str) -> Result<String, AllocError> {
        first.to_lowercase(alloc)
    }
}

// A text in upper case.
#[derive(Drop)]
struct Upper;

impl Call1S<Result<String, AllocError>> for Upper {
    ghost use Rattle.upon_std.specs.Basic.Parts.{changed_outcome};

    ghost meaning = { λ _. changed_outcome str_to_uppercase };

    fn call(&self, alloc: Global, first: &str) -> Result<String, AllocError> {
        first.to_uppercase(alloc)
    }
}

// Whether a text begins with another.
#[derive(Drop)]
struct StartsWith;

impl Call2SS<bool> for StartsWith {
    ghost use Rattle.upon_std.specs.Basic.Parts.{tested_outcome};

    ghost meaning = { λ _. tested_outcome (starts_with nat_eq) };

    fn call(&self, _alloc: Global, first: &str, second: &str) -> bool {
        has_start(first, second)
    }
}

fn has_start(text: &str, start: &str) -> bool
    ensures { result ≡ starts_with nat_eq text.now start.now }
{
    text.starts_with(start)
}

// Whether a text ends with another.
#[derive(Drop)]
struct EndsWith;

impl Call2SS<bool> for EndsWith {
    ghost use Rattle.upon_std.specs.Basic.Parts.{tested_outcome};

    ghost meaning = { λ _. tested_outcome (ends_with nat_eq) };

    fn call(&self, _alloc: Global, first: &str, second: &str) -> bool {
        has_end(first, second)
    }
}

fn has_end(text: &str, end: &str) -> bool
    ensures { result ≡ ends_with nat_eq text.now end.now }
{
    text.ends_with(end)
}

// Whether a text has another as a part.
#[derive(Drop)]
struct Contains;

impl Call2SS<bool> for Contains {
    ghost use Rattle.upon_std.specs.Basic.Parts.{tested_outcome};

    ghost meaning = { λ _. tested_outcome has_part };

    fn call(&self, _alloc: Global, first: &str, second: &str) -> bool {
        has_inside(first, second)
    }
}

fn has_inside(text: &str, part: &str) -> bool
    ensures { result ≡ has_part text.now part.now }
{
    text.contains(part)
}

// The most bytes that `repeat` makes.
const MOST_BYTES: usize = 1_000_000;

// A text so many times.
#[derive(Drop)]
struct Repeat;

impl Call2SO<usize, Result<Result<String, &'static str>, AllocError>> for Repeat {
    ghost use Rattle.upon_std.specs.Basic.Parts.{repeat_outcome};

    ghost meaning = { λ _. repeat_outcome };

    fn call(
        &self,
        alloc: Global,
        first: &str,
        second: usize,
    ) -> Result<Result<String, &'static str>, AllocError> {
        match first.len().checked_mul(second) {
            Some(bytes) if bytes <= MOST_BYTES => Ok(Ok(first.repeat(alloc, second)?)),
            _ => Ok(Err("repeat makes more than 1000000 bytes")),
        }
    }
}
