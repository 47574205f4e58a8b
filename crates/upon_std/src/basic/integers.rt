// Functions of integers of 64 bits. None wraps: what 64 bits do not hold is refused.
use crate::basic::decimal::text_with_places;
use std::alloc::{AllocError, Global};
use upon_functions::function::{CallError, Function};
use upon_functions::{Call1, Call2, Fn1, Fn2};
use upon_types::value::{Value, ValueCow};

/// What is made of two integers.
#[derive(Clone, Copy)]
pub enum Operation {
    /// Their sum.
    Add,
    /// Their difference.
    Subtract,
    /// Their product.
    Multiply,
    /// Their quotient, rounded towards 0.
    Divide,
    /// What the quotient leaves, which has the sign of the dividend.
    Remainder,
    /// The smaller.
    Minimum,
    /// The larger.
    Maximum,
}

/// What is made of one integer.
#[derive(Clone, Copy)]
pub enum Sign {
    /// The integer with the other sign.
    Negate,
    /// Its distance from 0.
    Absolute,
}

/// A function of integers. It refuses with `integer overflow` where 64 bits do not hold the result, and with
/// `division by zero`.
#[derive(Clone, Copy)]
pub enum Integers {
    /// `add(a, b)`, `sub(a, b)`, `mul(a, b)`, `div(a, b)`, `rem(a, b)`, `min(a, b)` and `max(a, b)`.
    OfTwo(Operation),
    /// `neg(a)` and `abs(a)`.
    OfOne(Sign),
    /// `decimal(a, places)` returns the text of an integer whose last places stand after a point: of 1990 and 2 it is
    /// `19.90`. It refuses places that are not from 0 to 18.
    Decimal,
}

impl Function for Integers {
    ghost use Rattle.upon_std.specs.Basic.Integers.{integers_answer};

    ghost answers = { integers_answer };

    fn call(&self, alloc: Global, args: &[ValueCow]) -> Result<Value, CallError> {
        match *self {
            Integers::OfTwo(operation) => {
                Fn2::<Operation, i64, i64, Result<i64, &'static str>>::new(operation).call(
                    alloc, args,
                )
            }
            Integers::OfOne(operation) => {
                Fn1::<Sign, i64, Result<i64, &'static str>>::new(operation).call(alloc, args)
            }
            Integers::Decimal => {
                Fn2::<Decimal, i64, i64, Result<Result<String, &'static str>, AllocError>>::new(
                    Decimal,
                ).call(alloc, args)
            }
        }
    }
}

const OVERFLOW: &str = "integer overflow";

impl Call2<i64, i64, Result<i64, &'static str>> for Operation {
    ghost use Rattle.upon_std.specs.Basic.Integers.{of_two_outcome};

    ghost meaning = { of_two_outcome };

    fn call(&self, _alloc: Global, first: i64, second: i64) -> Result<i64, &'static str> {
        match *self {
            Operation::Add => first.checked_add(second).ok_or(OVERFLOW),
            Operation::Subtract => first.checked_sub(second).ok_or(OVERFLOW),
            Operation::Multiply => first.checked_mul(second).ok_or(OVERFLOW),
            Operation::Divide if second == 0 => Err("division by zero"),
            Operation::Divide => first.checked_div(second).ok_or(OVERFLOW),
            Operation::Remainder if second == 0 => Err("division by zero"),
            Operation::Remainder => Ok(first.wrapping_rem(second)),
            Operation::Minimum => Ok(first.min(second)),
            Operation::Maximum => Ok(first.max(second)),
        }
    }
}

impl Call1<i64, Result<i64, &'static str>> for Sign {
    ghost use Rattle.upon_std.specs.Basic.Integers.{of_one_outcome};

    ghost meaning = { of_one_outcome };

    fn call(&self, _alloc: Global, first: i64) -> Result<i64, &'static str> {
        match *self {
            Sign::Negate => first.checked_neg().ok_or(OVERFLOW),
            Sign::Absolute => first.checked_abs().ok_or(OVERFLOW),
        }
    }
}

// The greatest number of places.
const MOST_PLACES: u32 = 18;

// An integer whose last places stand after a point.
#[derive(Drop)]
struct Decimal;

impl Call2<i64, i64, Result<Result<String, &'static str>, AllocError>> for Decimal {
    ghost use Rattle.upon_std.specs.Basic.Integers.{decimal_outcome};

    ghost meaning = { λ _. decimal_outcome };

    fn call(
        &self,
        alloc: Global,
        first: i64,
        second: i64,
    ) -> Result<Result<String, &'static str>, AllocError> {
        match u32::try_from(second) {
            Ok(places) if places <= MOST_PLACES => Ok(Ok(text_with_places(alloc, first, places)?)),
            _ => Ok(Err("decimal takes 0 to 18 places")),
        }
    }
}
