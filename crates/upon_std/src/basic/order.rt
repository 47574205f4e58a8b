// How two values are ordered, and whether a value counts as true.
ghost use Rattle.std.specs.Prelude.{◌≡◌, IfOk, string_bytes};
ghost use Rattle.upon_types.specs.Truth.{truth};
ghost use Rattle.upon_types.specs.View.{view};
ghost use Rattle.upon_std.specs.Basic.Order.{order_of, unordered};

use std::alloc::{AllocError, Global};
use std::cmp::Ordering;
use upon_types::value::{Value, ValueCow};

/// A relation of two integers or of two texts.
#[derive(Clone, Copy)]
pub enum Relation {
    /// The first is below the second.
    Less,
    /// The first is not above the second.
    LessOrEqual,
    /// The first is above the second.
    Greater,
    /// The first is not below the second.
    GreaterOrEqual,
}

impl Relation {
    ghost use Rattle.upon_std.specs.Basic.Order.{relation_holds};

    // Whether the relation holds of two values that are in this order.
    pub(crate) fn holds(self, order: Ordering) -> bool
        ensures { result ≡ relation_holds self order }
    {
        match self {
            Relation::Less => order.is_lt(),
            Relation::LessOrEqual => order.is_le(),
            Relation::Greater => order.is_gt(),
            Relation::GreaterOrEqual => order.is_ge(),
        }
    }
}

// How two values are ordered, if they are.
pub(crate) fn order(first: &Value, second: &Value) -> Option<Ordering>
    ensures { result ≡ order_of (view first.now) (view second.now) }
{
    match (first, second) {
        (Value::Integer(one), Value::Integer(other)) => Some(one.cmp(other)),
        (Value::String(one), Value::String(other)) => Some(one.cmp(other)),
        _ => None,
    }
}

// The refusal to order two values.
pub(crate) fn refusal(alloc: Global, first: &Value, second: &Value) -> Result<String, AllocError>
    ensures { IfOk result (λ text. string_bytes text ≡ unordered (view first.now) (view second.now)) }
{
    let mut text = String::from_str(alloc, "cannot compare ")?;
    text.push_str(first.human())?;
    text.push_str(" with ")?;
    text.push_str(second.human())?;
    Ok(text)
}

// Whether a value counts as true.
pub(crate) fn is_true(value: &Value) -> bool
    ensures { result ≡ truth (view value.now) }
{
    ValueCow::Borrowed(value).as_bool()
}
