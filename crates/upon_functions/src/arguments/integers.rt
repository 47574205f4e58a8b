// Integer arguments: each takes an integer in its type's range.
ghost use Rattle.std.specs.Prelude.{pos, false};
ghost use Rattle.upon_types.specs.Misfits.{integer_misfit};
ghost use Rattle.upon_types.proofs.FairMisfits.{integer_misfit-fair};
ghost use Rattle.upon_functions.specs.Integers.{u8_range, u16_range, u32_range, u64_range, u128_range, usize_range, i8_range, i16_range, i32_range, i64_range, i128_range, isize_range};
ghost use Rattle.upon_types.specs.Val.{int_val};

use crate::arguments::OwnedArgument;
use crate::function::{ArgError, CallError};
use std::alloc::Global;
use upon_types::value::Value;

// The integer of this type that a value is, or what is wrong with the value, at the argument's index.
macro_rules! integer_argument {
    ($integer:ty, $index:expr, $from:expr) => {
        match $from {
            Value::Integer(number) => match <$integer>::try_from(*number) {
                Ok(number) => Ok(number),
                Err(_) => Err(CallError::Arg($index, ArgError::OutOfRange(stringify!($integer)))),
            },
            _ => Err(CallError::Arg($index, ArgError::WrongType(stringify!($integer)))),
        }
    };
}

impl OwnedArgument for u8 {
    ghost stands_for = { λ number. int_val (pos number) };

    ghost is_copy = { false };

    ghost misfit = { integer_misfit u8_range };

    ghost is_fair = { integer_misfit-fair u8_range };

    fn from_value(_alloc: Global, index: usize, from: &Value) -> Result<u8, CallError> {
        integer_argument!(u8, index, from)
    }
}

impl OwnedArgument for u16 {
    ghost stands_for = { λ number. int_val (pos number) };

    ghost is_copy = { false };

    ghost misfit = { integer_misfit u16_range };

    ghost is_fair = { integer_misfit-fair u16_range };

    fn from_value(_alloc: Global, index: usize, from: &Value) -> Result<u16, CallError> {
        integer_argument!(u16, index, from)
    }
}

impl OwnedArgument for u32 {
    ghost stands_for = { λ number. int_val (pos number) };

    ghost is_copy = { false };

    ghost misfit = { integer_misfit u32_range };

    ghost is_fair = { integer_misfit-fair u32_range };

    fn from_value(_alloc: Global, index: usize, from: &Value) -> Result<u32, CallError> {
        integer_argument!(u32, index, from)
    }
}

impl OwnedArgument for u64 {
    ghost stands_for = { λ number. int_val (pos number) };

    ghost is_copy = { false };

    ghost misfit = { integer_misfit u64_range };

    ghost is_fair = { integer_misfit-fair u64_range };

    fn from_value(_alloc: Global, index: usize, from: &Value) -> Result<u64, CallError> {
        integer_argument!(u64, index, from)
    }
}

impl OwnedArgument for u128 {
    ghost stands_for = { λ number. int_val (pos number) };

    ghost is_copy = { false };

    ghost misfit = { integer_misfit u128_range };

    ghost is_fair = { integer_misfit-fair u128_range };

    fn from_value(_alloc: Global, index: usize, from: &Value) -> Result<u128, CallError> {
        integer_argument!(u128, index, from)
    }
}

impl OwnedArgument for usize {
    ghost stands_for = { λ number. int_val (pos number) };

    ghost is_copy = { false };

    ghost misfit = { integer_misfit usize_range };

    ghost is_fair = { integer_misfit-fair usize_range };

    fn from_value(_alloc: Global, index: usize, from: &Value) -> Result<usize, CallError> {
        integer_argument!(usize, index, from)
    }
}

impl OwnedArgument for i8 {
    ghost stands_for = { int_val };

    ghost is_copy = { false };

    ghost misfit = { integer_misfit i8_range };

    ghost is_fair = { integer_misfit-fair i8_range };

    fn from_value(_alloc: Global, index: usize, from: &Value) -> Result<i8, CallError> {
        integer_argument!(i8, index, from)
    }
}

impl OwnedArgument for i16 {
    ghost stands_for = { int_val };

    ghost is_copy = { false };

    ghost misfit = { integer_misfit i16_range };

    ghost is_fair = { integer_misfit-fair i16_range };

    fn from_value(_alloc: Global, index: usize, from: &Value) -> Result<i16, CallError> {
        integer_argument!(i16, index, from)
    }
}

impl OwnedArgument for i32 {
    ghost stands_for = { int_val };

    ghost is_copy = { false };

    ghost misfit = { integer_misfit i32_range };

    ghost is_fair = { integer_misfit-fair i32_range };

    fn from_value(_alloc: Global, index: usize, from: &Value) -> Result<i32, CallError> {
        integer_argument!(i32, index, from)
    }
}

impl OwnedArgument for i64 {
    ghost stands_for = { int_val };

    ghost is_copy = { false };

    ghost misfit = { integer_misfit i64_range };

    ghost is_fair = { integer_misfit-fair i64_range };

    fn from_value(_alloc: Global, index: usize, from: &Value) -> Result<i64, CallError> {
        integer_argument!(i64, index, from)
    }
}

impl OwnedArgument for i128 {
    ghost stands_for = { int_val };

    ghost is_copy = { false };

    ghost misfit = { integer_misfit i128_range };

    ghost is_fair = { integer_misfit-fair i128_range };

    fn from_value(_alloc: Global, index: usize, from: &Value) -> Result<i128, CallError> {
        integer_argument!(i128, index, from)
    }
}

impl OwnedArgument for isize {
    ghost stands_for = { int_val };

    ghost is_copy = { false };

    ghost misfit = { integer_misfit isize_range };

    ghost is_fair = { integer_misfit-fair isize_range };

    fn from_value(_alloc: Global, index: usize, from: &Value) -> Result<isize, CallError> {
        integer_argument!(isize, index, from)
    }
}
