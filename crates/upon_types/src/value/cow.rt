// A value that is borrowed or owned, as rendering holds it.
ghost use Rattle.std.specs.Prelude.{◌≡◌};
ghost use Rattle.upon_types.specs.Cow.{cow_view};
ghost use Rattle.upon_types.specs.Truth.{truth};
ghost use Rattle.upon_types.specs.View.{view};

use super::Value;
use std::ops::Deref;

/// A value that is borrowed or owned.
#[derive(Drop)]
pub enum ValueCow<'a> {
    /// A value that someone else keeps.
    Borrowed(&'a Value),
    /// A value of its own.
    Owned(Value),
}

impl Deref for ValueCow<'_> {
    type Target = Value;

    ghost deref_gives = { λ cow v. view v ≡ cow_view cow };

    fn deref(&self) -> &Value {
        match self {
            ValueCow::Borrowed(value) => value,
            ValueCow::Owned(value) => value,
        }
    }
}

impl ValueCow<'_> {
    /// Returns whether the value counts as true: no value, `false`, 0, the empty text, the empty list and the empty map
    /// do not.
    pub fn as_bool(&self) -> bool
        ensures { result ≡ truth (cow_view self.now) }
    {
        is_true(self)
    }
}

fn is_true(value: &Value) -> bool
    ensures { result ≡ truth (view value.now) }
{
    match value {
        Value::None => false,
        Value::Bool(truth) => *truth,
        Value::Integer(number) => *number != 0,
        Value::String(text) => !text.is_empty(),
        Value::List(items) => !items.is_empty(),
        Value::Map(entries) => !entries.is_empty(),
    }
}
