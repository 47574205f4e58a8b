// Lists and maps that are made on the operands: each item and each entry is moved in.
ghost use Rattle.std.specs.Prelude.{◌≡◌, ◌∷◌, IfOk, MatchOption, Some, None};
ghost use Rattle.upon_types.specs.AstPath.{string_of};
ghost use Rattle.upon_types.specs.Cow.{cow_view};
ghost use Rattle.upon_types.specs.View.{view};
ghost use Rattle.upon_meaning_spec.specs.Evaluation.{operand};
ghost use Rattle.upon_vm_steps.specs.Items.{with_item, with_operand_pair};
ghost use Rattle.upon_vm_steps.specs.Operands.{operands_of};

use crate::operands::Operands;
use std::alloc::AllocError;
use upon_types::types::Span;
use upon_types::types::ast::String as Quoted;
use upon_types::value::{Value, ValueCow};

/// Moves the operand on top to the end of the list below it; returns `None` if there is no such list. A lent operand is
/// copied.
pub fn push_item(operands: &mut Operands) -> Result<Option<()>, AllocError>
    ensures { IfOk result (λ pushed. MatchOption
        pushed
        (with_item (operands_of operands.old) ≡ None)
        (λ _. with_item (operands_of operands.old) ≡ Some (operands_of operands.new))) }
{
    let Some((item, _)) = operands.pop() else {
        return Ok(None);
    };
    operands.push_to_top(into_value(item)?)
}

/// Puts a copy of a value at the end of the list on top; returns `None` if there is no such list.
pub fn push_copy(operands: &mut Operands, item: &Value) -> Result<Option<()>, AllocError>
    ensures { (at : Span) → IfOk result (λ pushed. MatchOption
        pushed
        (with_item (operand (view item.now) at ∷ operands_of operands.old) ≡ None)
        (λ _. with_item (operand (view item.now) at ∷ operands_of operands.old) ≡ Some (operands_of operands.new))) }
{
    operands.push_to_top(item.try_clone()?)
}

/// Moves the operand on top at this key into the map below it; returns `None` if there is no such map. A lent operand
/// is copied.
pub fn insert_entry(operands: &mut Operands, key: &Quoted) -> Result<Option<()>, AllocError>
    ensures { IfOk result (λ inserted. MatchOption
        inserted
        (with_operand_pair (string_of key.now) (operands_of operands.old) ≡ None)
        (λ _. with_operand_pair (string_of key.now) (operands_of operands.old) ≡ Some (operands_of operands.new))) }
{
    let Some((value, _)) = operands.pop() else {
        return Ok(None);
    };
    operands.insert_into_top(key, into_value(value)?)
}

/// Puts a copy of a value at this key into the map on top; returns `None` if there is no such map.
pub fn insert_copy(
    operands: &mut Operands,
    key: &Quoted,
    value: &Value,
) -> Result<Option<()>, AllocError>
    ensures { (at : Span) → IfOk result (λ inserted. MatchOption
        inserted
        (with_operand_pair (string_of key.now) (operand (view value.now) at ∷ operands_of operands.old) ≡ None)
        (λ _. with_operand_pair (string_of key.now) (operand (view value.now) at ∷ operands_of operands.old)
        ≡ Some (operands_of operands.new))) }
{
    operands.insert_into_top(key, value.try_clone()?)
}

// The value itself: moved where it is owned, and copied where it is lent.
fn into_value(value: ValueCow) -> Result<Value, AllocError>
    ensures { IfOk result (λ v. view v ≡ cow_view value.entry) }
{
    match value {
        ValueCow::Borrowed(value) => value.try_clone(),
        ValueCow::Owned(value) => Ok(value),
    }
}
