// The operands of a running program: values that instructions leave for later ones.
ghost use Rattle.std.specs.Prelude.{◌≡◌, ◌∷◌, IfOk, IsTrue, MatchOption, Some, None, List, length};
ghost use Rattle.upon_types.specs.AstPath.{string_of};
ghost use Rattle.upon_types.specs.Cow.{cow_view};
ghost use Rattle.upon_types.specs.Val.{map_val, no_entries};
ghost use Rattle.upon_types.specs.View.{view};
ghost use Rattle.upon_meaning_spec.specs.Evaluation.{Operand, operand};
ghost use Rattle.upon_vm_steps.specs.Items.{list_with, map_with_operand};

use std::alloc::{AllocError, Global};
use upon_types::types::Span;
use upon_types::types::ast::String as Quoted;
use upon_types::value::{Value, ValueCow};

/// Values with their spans, the last on top. Calls are lent the values on top as one slice, so the spans are in a row
/// of their own.
#[derive(Drop)]
pub struct Operands<'a> {
    values: Vec<ValueCow<'a>>,
    spans: Vec<Span>,
    ghost paired: { length values.items ≡ length spans.items },
}

impl<'a> Operands<'a> {
    ghost use Rattle.std.specs.Prelude.{◌≡◌, ◌==◌, ◌∷◌, [], IfOk, IfSome, OnOk, MatchOption, Some, None, List, length, option_map, slice_get};
    ghost use Rattle.upon_types.specs.AstPath.{string_of};
    ghost use Rattle.upon_types.specs.Cow.{cow_view};
    ghost use Rattle.upon_meaning_spec.specs.Evaluation.{Operand, operand};
    ghost use Rattle.upon_machine_spec.specs.Operands.{taken};
    ghost use Rattle.upon_types.specs.View.{view};
    ghost use Rattle.upon_vm_steps.specs.Items.{with_item, with_operand_pair};
    ghost use Rattle.upon_vm_steps.specs.Operands.{IsOnlyEntry, row, operands_of};

    /// No operand.
    pub fn new(alloc: Global) -> Operands<'a>
        ensures { operands_of result ≡ [] }
    {
        Operands {
            values: Vec::new(alloc),
            spans: Vec::new(alloc),
        }
    }

    /// Returns whether there is none.
    pub fn is_empty(&self) -> bool
        ensures { result ≡ (length (operands_of self.now) == 0) }
    {
        self.values.is_empty()
    }

    /// One more on top.
    #[inline(always)]
    pub fn push(&mut self, value: ValueCow<'a>, span: Span) -> Result<(), AllocError>
        ensures { OnOk result (operands_of self.new ≡ operand (cow_view value.entry) span ∷ operands_of self.old) }
    {
        self.spans.reserve(1)?;
        self.values.reserve(1)?;
        self.spans.push_reserved(span);
        self.values.push_reserved(value);
        Ok(())
    }

    /// Removes the operand on top, and returns it.
    #[inline(always)]
    pub fn pop(&mut self) -> Option<(ValueCow<'a>, Span)>
        ensures { MatchOption
            result
            (operands_of self.old ≡ [])
            (λ o. operands_of self.old ≡ operand (cow_view o.0) o.1 ∷ operands_of self.new) }
    {
        match self.values.pop() {
            Some(value) => match self.spans.pop() {
                Some(span) => Some((value, span)),
                None => None,
            },
            None => None,
        }
    }

    /// Returns the operand on top, if that is lent, and below it is nothing but a map without entries.
    #[inline(always)]
    pub fn only_entry(&self) -> Option<&'a Value>
        ensures { IfSome
            result
            (λ value. IsOnlyEntry (view value.now) (operands_of self.now)) }
    {
        match self.values.as_slice() {
            [below, top] => match top {
                ValueCow::Borrowed(value) => {
                    if is_empty_map(below) {
                        Some(*value)
                    } else {
                        None
                    }
                }
                ValueCow::Owned(_) => None,
            },
            _ => None,
        }
    }

    /// Returns the value on top, or `None` if there is no operand.
    pub fn on_top(&self) -> Option<&ValueCow<'a>>
        ensures { option_map (λ v. cow_view v.now) result
            ≡ option_map (λ o. o.value) (slice_get (operands_of self.now) 0) }
    {
        self.values.last()
    }

    /// So many from the top, in the order in which they were left; `None` if there are fewer.
    pub(crate) fn top(&self, count: usize) -> Option<(&[ValueCow<'a>], &[Span])>
        ensures { MatchOption
            result
            (taken count (operands_of self.now) ≡ None)
            (λ both. (rest : List Operand) × (taken count (operands_of self.now)
            ≡ Some (row both.0.now both.1.now, rest)) × (length both.0.now ≡ length both.1.now)) }
    {
        let len = self.values.len();
        if count > len {
            return None;
        }
        let start = len - count;
        Some((&self.values[start..], &self.spans[start..]))
    }

    /// Puts a value at the end of the list on top, which is copied first if it is lent; returns `None` if there is no
    /// such list.
    #[inline(always)]
    pub(crate) fn push_to_top(&mut self, item: Value) -> Result<Option<()>, AllocError>
        ensures { (at : Span) → IfOk result (λ pushed. MatchOption
            pushed
            (with_item (operand (view item) at ∷ operands_of self.old) ≡ None)
            (λ _. with_item (operand (view item) at ∷ operands_of self.old) ≡ Some (operands_of self.new))) }
    {
        let len = self.values.len();
        if len == 0 {
            return Ok(None);
        }
        push_to(&mut self.values[len - 1], item)
    }

    /// Puts a value at a key into the map on top, which is copied first if it is lent; returns `None` if there is no
    /// such map.
    #[inline(always)]
    pub(crate) fn insert_into_top(
        &mut self,
        key: &Quoted,
        value: Value,
    ) -> Result<Option<()>, AllocError>
        ensures { (at : Span) → IfOk result (λ inserted. MatchOption
            inserted
            (with_operand_pair (string_of key.now) (operand (view value) at ∷ operands_of self.old) ≡ None)
            (λ _. with_operand_pair (string_of key.now) (operand (view value) at ∷ operands_of self.old)
            ≡ Some (operands_of self.new))) }
    {
        let len = self.values.len();
        if len == 0 {
            return Ok(None);
        }
        insert_into(&mut self.values[len - 1], key, value)
    }

    /// Takes so many from the top.
    #[inline(always)]
    pub fn drop_top(&mut self, count: usize)
        ensures { (os rest : List Operand) → taken count (operands_of self.old) ≡ Some (os, rest)
            → operands_of self.new ≡ rest }
    {
        if count == 1 {
            drop(self.pop());
            return;
        }
        let len = self.values.len();
        if count <= len {
            self.values.truncate(len - count);
            self.spans.truncate(len - count);
        }
    }
}

// Puts a value at the end of a list, which is copied first if it is lent.
#[inline(always)]
fn push_to(list: &mut ValueCow, item: Value) -> Result<Option<()>, AllocError>
    ensures { (at : Span) (ops : List Operand) → IfOk result (λ pushed. MatchOption
        pushed
        (list_with (cow_view list.old) (view item) at ops ≡ None)
        (λ _. list_with (cow_view list.old) (view item) at ops ≡ Some (operand (cow_view list.new) at ∷ ops))) }
{
    match list {
        ValueCow::Owned(owned) => push_to_owned(owned, item),
        ValueCow::Borrowed(lent) => {
            let mut copy = lent.try_clone()?;
            let pushed = push_to_owned(&mut copy, item)?;
            *list = ValueCow::Owned(copy);
            Ok(pushed)
        }
    }
}

// Does the same of a list that is owned.
#[inline(always)]
fn push_to_owned(list: &mut Value, item: Value) -> Result<Option<()>, AllocError>
    ensures { (at : Span) (ops : List Operand) → IfOk result (λ pushed. MatchOption
        pushed
        (list_with (view list.old) (view item) at ops ≡ None)
        (λ _. list_with (view list.old) (view item) at ops ≡ Some (operand (view list.new) at ∷ ops))) }
{
    match list {
        Value::List(items) => {
            items.reserve(1)?;
            items.push_reserved(item);
            Ok(Some(()))
        }
        _ => Ok(None),
    }
}

// Puts a value at a key into a map, which is copied first if it is lent.
#[inline(always)]
fn insert_into(map: &mut ValueCow, key: &Quoted, value: Value) -> Result<Option<()>, AllocError>
    ensures { (at : Span) (ops : List Operand) → IfOk result (λ inserted. MatchOption
        inserted
        (map_with_operand (cow_view map.old) (string_of key.now) (view value) at ops ≡ None)
        (λ _. map_with_operand (cow_view map.old) (string_of key.now) (view value) at ops
        ≡ Some (operand (cow_view map.new) at ∷ ops))) }
{
    match map {
        ValueCow::Owned(owned) => insert_into_owned(owned, key, value),
        ValueCow::Borrowed(lent) => {
            let mut copy = lent.try_clone()?;
            let inserted = insert_into_owned(&mut copy, key, value)?;
            *map = ValueCow::Owned(copy);
            Ok(inserted)
        }
    }
}

// Does the same of a map that is owned.
#[inline(always)]
fn insert_into_owned(map: &mut Value, key: &Quoted, value: Value) -> Result<Option<()>, AllocError>
    ensures { (at : Span) (ops : List Operand) → IfOk result (λ inserted. MatchOption
        inserted
        (map_with_operand (view map.old) (string_of key.now) (view value) at ops ≡ None)
        (λ _. map_with_operand (view map.old) (string_of key.now) (view value) at ops
        ≡ Some (operand (view map.new) at ∷ ops))) }
{
    match map {
        Value::Map(entries) => {
            drop(entries.insert(key.value.clone()?, value)?);
            Ok(Some(()))
        }
        _ => Ok(None),
    }
}

// Whether it is a map of its own, without entries.
#[inline(always)]
fn is_empty_map(value: &ValueCow<'_>) -> bool
    ensures { IsTrue result → cow_view value.now ≡ map_val no_entries }
{
    match value {
        ValueCow::Owned(Value::Map(entries)) => entries.is_empty(),
        _ => false,
    }
}
