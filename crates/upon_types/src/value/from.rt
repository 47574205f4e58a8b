// What becomes a value without memory: none, truth values, integers, what a value keeps, and an option of these.
ghost use Rattle.std.specs.Prelude.{◌≡◌, pos, string_bytes, MatchOption};
ghost use Rattle.upon_types.specs.Val.{none_val, bool_val, int_val, text_val, list_val, map_val};
ghost use Rattle.upon_types.specs.View.{view, vals_view, entries_view};

use super::Value;
use std::collections::BTreeMap;

impl From<()> for Value {
    ghost from_gives = { λ _ v. view v ≡ none_val };

    fn from(_none: ()) -> Value {
        Value::None
    }
}

impl From<bool> for Value {
    ghost from_gives = { λ truth v. view v ≡ bool_val truth };

    fn from(truth: bool) -> Value {
        Value::Bool(truth)
    }
}

impl From<u8> for Value {
    ghost from_gives = { λ number v. view v ≡ int_val (pos number) };

    fn from(number: u8) -> Value {
        Value::Integer(i64::from(number))
    }
}

impl From<u16> for Value {
    ghost from_gives = { λ number v. view v ≡ int_val (pos number) };

    fn from(number: u16) -> Value {
        Value::Integer(i64::from(number))
    }
}

impl From<u32> for Value {
    ghost from_gives = { λ number v. view v ≡ int_val (pos number) };

    fn from(number: u32) -> Value {
        Value::Integer(i64::from(number))
    }
}

impl From<i8> for Value {
    ghost from_gives = { λ number v. view v ≡ int_val number };

    fn from(number: i8) -> Value {
        Value::Integer(i64::from(number))
    }
}

impl From<i16> for Value {
    ghost from_gives = { λ number v. view v ≡ int_val number };

    fn from(number: i16) -> Value {
        Value::Integer(i64::from(number))
    }
}

impl From<i32> for Value {
    ghost from_gives = { λ number v. view v ≡ int_val number };

    fn from(number: i32) -> Value {
        Value::Integer(i64::from(number))
    }
}

impl From<i64> for Value {
    ghost from_gives = { λ number v. view v ≡ int_val number };

    fn from(number: i64) -> Value {
        Value::Integer(number)
    }
}

impl From<String> for Value {
    ghost from_gives = { λ text v. view v ≡ text_val (string_bytes text) };

    fn from(text: String) -> Value {
        Value::String(text)
    }
}

impl From<Vec<Value>> for Value {
    ghost from_gives = { λ items v. view v ≡ list_val (vals_view items.items) };

    fn from(items: Vec<Value>) -> Value {
        Value::List(items)
    }
}

impl From<BTreeMap<String, Value>> for Value {
    ghost from_gives = { λ entries v. view v ≡ map_val (entries_view entries.entries) };

    fn from(entries: BTreeMap<String, Value>) -> Value {
        Value::Map(entries)
    }
}

impl<T: Into<Value>> From<Option<T>> for Value {
    ghost from_gives = { λ option v. MatchOption option (view v ≡ none_val) (λ x. T.converts x v) };

    fn from(option: Option<T>) -> Value {
        match option {
            Some(inner) => inner.into(),
            None => Value::None,
        }
    }
}
