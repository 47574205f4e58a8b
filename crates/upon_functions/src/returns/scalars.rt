// Returns that become values without memory: none, truth values and integers.
ghost use Rattle.std.specs.Prelude.{pos, Some, false};
ghost use Rattle.upon_functions.specs.Outcome.{value};
ghost use Rattle.upon_types.specs.Val.{none_val, bool_val, int_val};

use crate::function::CallError;
use crate::returns::FunctionReturn;
use std::alloc::Global;
use upon_types::value::Value;

impl FunctionReturn for () {
    ghost outcome = { λ _. Some (value none_val) };

    ghost is_copy = { λ _. false };

    fn to_value(self, _alloc: Global) -> Result<Value, CallError> {
        Ok(Value::None)
    }
}

impl FunctionReturn for bool {
    ghost outcome = { λ truth. Some (value (bool_val truth)) };

    ghost is_copy = { λ _. false };

    fn to_value(self, _alloc: Global) -> Result<Value, CallError> {
        Ok(Value::Bool(self))
    }
}

impl FunctionReturn for u8 {
    ghost outcome = { λ number. Some (value (int_val (pos number))) };

    ghost is_copy = { λ _. false };

    fn to_value(self, _alloc: Global) -> Result<Value, CallError> {
        Ok(Value::from(self))
    }
}

impl FunctionReturn for u16 {
    ghost outcome = { λ number. Some (value (int_val (pos number))) };

    ghost is_copy = { λ _. false };

    fn to_value(self, _alloc: Global) -> Result<Value, CallError> {
        Ok(Value::from(self))
    }
}

impl FunctionReturn for u32 {
    ghost outcome = { λ number. Some (value (int_val (pos number))) };

    ghost is_copy = { λ _. false };

    fn to_value(self, _alloc: Global) -> Result<Value, CallError> {
        Ok(Value::from(self))
    }
}

impl FunctionReturn for i8 {
    ghost outcome = { λ number. Some (value (int_val number)) };

    ghost is_copy = { λ _. false };

    fn to_value(self, _alloc: Global) -> Result<Value, CallError> {
        Ok(Value::from(self))
    }
}

impl FunctionReturn for i16 {
    ghost outcome = { λ number. Some (value (int_val number)) };

    ghost is_copy = { λ _. false };

    fn to_value(self, _alloc: Global) -> Result<Value, CallError> {
        Ok(Value::from(self))
    }
}

impl FunctionReturn for i32 {
    ghost outcome = { λ number. Some (value (int_val number)) };

    ghost is_copy = { λ _. false };

    fn to_value(self, _alloc: Global) -> Result<Value, CallError> {
        Ok(Value::from(self))
    }
}

impl FunctionReturn for i64 {
    ghost outcome = { λ number. Some (value (int_val number)) };

    ghost is_copy = { λ _. false };

    fn to_value(self, _alloc: Global) -> Result<Value, CallError> {
        Ok(Value::Integer(self))
    }
}
