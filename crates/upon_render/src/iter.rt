// Loops: the items that a loop goes over, and what a path finds at the item that it is at.
ghost use Rattle.std.specs.Prelude.{◌≡◌, ◌↔◌, ◌∷◌, [], ◌+◌, ◌^◌, ◌<◌, true, IsTrue, Some, None, length, map, option_map, IfOk};
ghost use Rattle.upon_types.specs.AstPath.{member_of, first_member, rest_members, loop_vars_of, ident_of};
ghost use Rattle.upon_types.specs.Cow.{cow_view};
ghost use Rattle.upon_types.specs.Path.{item};
ghost use Rattle.upon_types.specs.Span.{LiesIn};
ghost use Rattle.upon_types.specs.View.{view};
ghost use Rattle.upon_lookup.specs.Answer.{AnswersAlways, Answers, TellsFault, maybe_view, is_borrowed_value, IsLentIfAny, Lends};
ghost use Rattle.upon_lookup.specs.Environment.{first_bound};
ghost use Rattle.upon_render.specs.Cursor.{advance, is_over, has_begun, loop_bindings, loop_walk, lends_bound};
ghost use Rattle.upon_lookup.specs.Items.{items_of};
ghost use Rattle.upon_lookup.specs.Lookup.{bindings_walk, maybe_bound, key_walk, state_map, state_walk};
ghost use Rattle.upon_render.specs.declared.items.Item.TheVariants.{Lone};
ghost use Rattle.upon_types.specs.declared.value.cow.ValueCow.TheVariants.{Borrowed, Owned};
ghost use Rattle.upon_render.specs.LoopItems.{names_of_both, IsNoList, IsNoMap, KeysRise, given, is_lent_here, is_lent_rest, is_lent_item, items_left, item_of, binds};
ghost use Rattle.upon_lookup.specs.Seen.{TellsMade, TellsSeen};
ghost use Rattle.upon_lookup.specs.PathSpans.{MembersLieIn};
ghost use Rattle.upon_lookup.specs.Walk.{as_some};

use crate::items::{Here, Item, Rest};
use std::alloc::{AllocError, Global};
use std::collections::BTreeMap;
use upon_lookup::faults;
use upon_lookup::value::{Found, Made, find_bound, lookup_bound};
use upon_types::error::cause::Cause;
use upon_types::error::{Error, Result};
use upon_types::types::Span;
use upon_types::types::ast::{Access, AccessOp, Ident, KeyValue, LoopVars, Member, Var};
use upon_types::value::{Value, ValueCow};

/// A loop, before its first item or at one.
#[derive(Drop)]
pub struct LoopState<'a> {
    vars: &'a LoopVars,
    here: Option<Here<'a>>,
    rest: Rest<'a>,
    ghost fits: { given here + length (items_left rest) < 2 ^ 63 },
    ghost lent: { is_lent_here here (is_lent_rest rest) ≡ is_lent_rest rest },
}

impl<'a> LoopState<'a> {
    ghost use Rattle.upon_render.specs.Loop.{cursor, is_lent_loop, loop_lends, names_span};

    /// Creates the loop over these items, before the first one.
    ///
    /// It is a fault if there is another number of names than the items have, at the names, and if the value has no
    /// items, at `span`. Memory is taken for a fault alone.
    pub fn new(
        alloc: Global,
        source: &str,
        vars: &'a LoopVars,
        iterable: ValueCow<'a>,
        span: Span,
    ) -> Result<Self>
        requires span { LiesIn source.now span }
        requires names { LiesIn source.now (names_span (loop_vars_of vars.now)) }
        ensures items { AnswersAlways
            (λ state. (cursor state).left)
            source.now
            (items_of (loop_vars_of vars.entry.now) (cow_view iterable.entry) span)
            result }
        ensures start { IfOk result (λ state. (cursor state).here ≡ None) }
        ensures lent { IfOk result (λ state. is_lent_loop state ≡ is_borrowed_value iterable.entry) }
        ensures ascending { IfOk result (λ state. KeysRise (cow_view iterable.entry)) }
    {
        let rest = match vars {
            LoopVars::Item(name) => list_items(alloc, source, name, iterable, span)?,
            LoopVars::KeyValue(names) => map_items(alloc, source, names, iterable, span)?,
        };
        Ok(LoopState {
            vars,
            here: None,
            rest,
        })
    }

    /// Goes to the next item; at the end it stays at the last one. It takes no memory.
    pub fn iterate(&mut self) -> Option<()>
        ensures next { option_map (λ _. cursor self.new) result ≡ advance (cursor self.old) }
        ensures end { result ≡ None → cursor self.new ≡ cursor self.old }
        ensures lent { is_lent_loop self.new ≡ is_lent_loop self.old }
    {
        match &mut self.rest {
            Rest::ListLent(items) => match items.next() {
                None => None,
                Some(value) => {
                    turns_to(&mut self.here, value);
                    Some(())
                }
            },
            _ => self.iterate_any(),
        }
    }

    // Does the same over any items.
    #[inline(never)]
    fn iterate_any(&mut self) -> Option<()>
        ensures next { option_map (λ _. cursor self.new) result ≡ advance (cursor self.old) }
        ensures end { result ≡ None → cursor self.new ≡ cursor self.old }
        ensures lent { is_lent_loop self.new ≡ is_lent_loop self.old }
    {
        match &mut self.rest {
            Rest::ListOwned(items) => {
                let value = items.next()?;
                turns_to_owned(&mut self.here, value);
            }
            _ => {
                let item = self.rest.next()?;
                turns_to_any(&mut self.here, item);
            }
        }
        Some(())
    }

    /// Returns whether no item is left, so that the loop is at its last one, or has none. It takes no memory.
    pub fn is_empty(&self) -> bool
        ensures over { result ≡ is_over (cursor self.now) }
        ensures end { IsTrue result ↔ (advance (cursor self.now) ≡ None) }
    {
        self.rest.len() == 0
    }

    /// Returns whether the loop is at an item: not before its first one. It takes no memory.
    pub fn has_begun(&self) -> bool
        ensures { result ≡ has_begun (cursor self.now) }
    {
        self.here.is_some()
    }

    /// Returns what the loop binds to the path, or `None` if it does not bind the name that is the path's first
    /// member, and before the first item.
    ///
    /// What a lent list or map binds is lent; the key and the loop's state are made for the answer.
    pub fn lookup_var(&self, alloc: Global, source: &str, var: &Var) -> Result<Option<ValueCow<'a>>>
        requires { MembersLieIn source.now (rest_members var.now) }
        ensures answer { Answers
            maybe_view
            source.now
            (bindings_walk (loop_bindings (cursor self.now)) (first_member var.now) (rest_members var.now))
            result }
        ensures lent { loop_lends self.now (first_member var.now).access ≡ true → Lends
            IsLentIfAny
            (bindings_walk (loop_bindings (cursor self.now)) (first_member var.now) (rest_members var.now))
            result }
    {
        match (&var.first().access, &self.here) {
            (Access::Key(ident), Some(here)) => {
                let name = ident.name.as_str();
                if name == "loop" {
                    let count = here.index + 1 + self.rest.len();
                    return lookup_state(alloc, source, here.index, count, var.rest());
                }
                lookup_item(alloc, source, self.vars, &here.item, name, var.rest())
            }
            _ => Ok(None),
        }
    }

    /// Returns what the loop binds to the path, where it is.
    #[inline(always)]
    pub(crate) fn find<'s>(&'s self, var: &Var) -> Found<'s, 'a>
        ensures { TellsSeen
            (bindings_walk (loop_bindings (cursor self.now)) (first_member var.now) (rest_members var.now))
            result }
    {
        match (&var.first().access, &self.here) {
            (Access::Key(ident), Some(here)) => {
                let name = ident.name.as_str();
                if name == "loop" {
                    return Found::Unknown;
                }
                find_item(self.vars, &here.item, name, var.rest())
            }
            _ => Found::Below,
        }
    }

    /// Returns what the path finds of the loop itself; `None` says nothing.
    pub(crate) fn find_made(&self, var: &Var) -> Option<Made<'_>>
        ensures { TellsMade
            (bindings_walk (loop_bindings (cursor self.now)) (first_member var.now) (rest_members var.now))
            result }
    {
        match (&var.first().access, &self.here) {
            (Access::Key(ident), Some(here)) => {
                let name = ident.name.as_str();
                if name == "loop" {
                    let count = here.index + 1 + self.rest.len();
                    return made_of_state(here.index, count, var.rest());
                }
                made_of_key(self.vars, &here.item, name, var.rest())
            }
            _ => None,
        }
    }

    /// Returns what the path finds in the loop's state, which its first member names, or `None` before the first item.
    pub fn lookup_loop(
        &self,
        alloc: Global,
        source: &str,
        path: &[Member],
    ) -> Result<Option<ValueCow<'a>>>
        requires some { 0 < length path.now }
        requires spans { MembersLieIn source.now (map member_of path.now) }
        ensures { Answers maybe_view source.now (loop_walk (cursor self.now) (map member_of path.now)) result }
    {
        match (path, &self.here) {
            ([_, rest @ ..], Some(here)) => {
                let count = here.index + 1 + self.rest.len();
                lookup_state(alloc, source, here.index, count, rest)
            }
            _ => Ok(None),
        }
    }
}

// Goes on to a lent item of a list.
#[inline(always)]
fn turns_to<'a>(here: &mut Option<Here<'a>>, value: &'a Value)
    requires { given here.old < 2 ^ 63 }
    ensures { here.new ≡ Some (record { index = given here.old; item = Lone (Borrowed value.entry) }) }
{
    match here {
        Some(at) => {
            at.index += 1;
            puts_lent(&mut at.item, value);
        }
        None => begins(here, value),
    }
}

// Begins with the first item of a list, which is lent.
#[inline(never)]
fn begins<'a>(here: &mut Option<Here<'a>>, value: &'a Value)
    ensures { here.new ≡ Some (record { index = 0; item = Lone (Borrowed value.entry) }) }
{
    *here = Some(Here {
        index: 0,
        item: Item::Lone(ValueCow::Borrowed(value)),
    });
}

// Puts a lent item in the place of another. Where that is lent too, only the reference is written.
#[inline(always)]
fn puts_lent<'a>(item: &mut Item<'a>, value: &'a Value)
    ensures { item.new ≡ Lone (Borrowed value.entry) }
{
    match item {
        Item::Lone(ValueCow::Borrowed(lent)) => *lent = value,
        _ => replaces(item, value),
    }
}

// Puts a lent item in the place of one that is dropped.
#[inline(never)]
fn replaces<'a>(item: &mut Item<'a>, value: &'a Value)
    ensures { item.new ≡ Lone (Borrowed value.entry) }
{
    *item = Item::Lone(ValueCow::Borrowed(value));
}

// Goes on to any item: the one before is let go.
#[inline(always)]
fn turns_to_any<'a>(here: &mut Option<Here<'a>>, item: Item<'a>)
    requires { given here.old < 2 ^ 63 }
    ensures { here.new ≡ Some (record { index = given here.old; item = item.entry }) }
{
    match here {
        Some(at) => {
            at.index += 1;
            at.item = item;
        }
        None => *here = Some(Here { index: 0, item }),
    }
}

// Goes on to an owned item of a list. In the place of another, only the value is written.
#[inline(always)]
fn turns_to_owned(here: &mut Option<Here<'_>>, value: Value)
    requires { given here.old < 2 ^ 63 }
    ensures { here.new ≡ Some (record { index = given here.old; item = Lone (Owned value) }) }
{
    match here {
        Some(at) => {
            at.index += 1;
            puts_owned(&mut at.item, value);
        }
        None => {
            *here = Some(Here {
                index: 0,
                item: Item::Lone(ValueCow::Owned(value)),
            });
        }
    }
}

// Puts an owned item in the place of another, which is let go.
#[inline(always)]
fn puts_owned(item: &mut Item<'_>, value: Value)
    ensures { item.new ≡ Lone (Owned value) }
{
    match item {
        Item::Lone(ValueCow::Owned(owned)) => *owned = value,
        _ => *item = Item::Lone(ValueCow::Owned(value)),
    }
}

// What the members find in a loop's state, at the item of this index, of so many.
fn lookup_state<'a>(
    alloc: Global,
    source: &str,
    index: usize,
    count: usize,
    path: &[Member],
) -> Result<Option<ValueCow<'a>>>
    requires index { index < 2 ^ 63 }
    requires count { index < count }
    requires spans { MembersLieIn source.now (map member_of path.now) }
    ensures { Answers maybe_view source.now (as_some (state_walk index count (map member_of path.now))) result }
{
    match walk_state(alloc, source, index, count, path) {
        Ok(value) => Ok(Some(ValueCow::Owned(value))),
        Err(error) => Err(error),
    }
}

fn walk_state(
    alloc: Global,
    source: &str,
    index: usize,
    count: usize,
    path: &[Member],
) -> Result<Value>
    requires index { index < 2 ^ 63 }
    requires count { index < count }
    requires spans { MembersLieIn source.now (map member_of path.now) }
    ensures { Answers view source.now (state_walk index count (map member_of path.now)) result }
{
    match path {
        [] => Ok(state_map(alloc, index, count)?),
        [member] => state_field(alloc, source, index, count, member),
        [member, next, ..] => {
            let value = state_field(alloc, source, index, count, member)?;
            Err(faults::index_into(alloc, source, &value, next.span))
        }
    }
}

// The map of the three.
fn state_map(alloc: Global, index: usize, count: usize) -> std::result::Result<Value, AllocError>
    requires index { index < 2 ^ 63 }
    requires count { index < count }
    ensures { IfOk result (λ value. view value ≡ state_map index count) }
{
    let mut map = BTreeMap::new(alloc);
    drop(map.insert(String::from_str(alloc, "first")?, Value::Bool(index == 0))?);
    drop(map.insert(
        String::from_str(alloc, "index")?,
        Value::Integer(index as i64),
    )?);
    drop(map.insert(
        String::from_str(alloc, "last")?,
        Value::Bool(index == count - 1),
    )?);
    Ok(Value::Map(map))
}

// One of the three, or no value after a miss by `?.`.
fn state_field(
    alloc: Global,
    source: &str,
    index: usize,
    count: usize,
    member: &Member,
) -> Result<Value>
    requires index { index < 2 ^ 63 }
    requires count { index < count }
    requires span { LiesIn source.now member.now.span }
    ensures { AnswersAlways view source.now (state_walk index count (member_of member.now ∷ [])) result }
{
    let Access::Key(name) = &member.access else {
        return Err(faults::caused(alloc, source, Cause::IntegerIndex, member.span));
    };
    match (name.name.as_str(), member.op) {
        ("index", _) => Ok(Value::Integer(index as i64)),
        ("first", _) => Ok(Value::Bool(index == 0)),
        ("last", _) => Ok(Value::Bool(index == count - 1)),
        (_, AccessOp::Optional) => Ok(Value::None),
        (_, AccessOp::Direct) => {
            Err(faults::caused(alloc, source, Cause::NotInMap, member.span))
        }
    }
}

// What the item binds to a name, with the members after it.
fn lookup_item<'a>(
    alloc: Global,
    source: &str,
    vars: &LoopVars,
    item: &Item<'a>,
    name: &str,
    path: &[Member],
) -> Result<Option<ValueCow<'a>>>
    requires { MembersLieIn source.now (map member_of path.now) }
    ensures answer { Answers
        maybe_view
        source.now
        (maybe_bound (first_bound name.now (binds (loop_vars_of vars.now) (item_of item.now))) (map member_of path.now))
        result }
    ensures lent { lends_bound (is_lent_item item.now)
        (first_bound name.now (binds (loop_vars_of vars.now) (item_of item.now))) ≡ true → Lends
        IsLentIfAny
        (maybe_bound (first_bound name.now (binds (loop_vars_of vars.now) (item_of item.now))) (map member_of path.now))
        result }
{
    match (vars, item) {
        (LoopVars::Item(only), Item::Lone(value)) => {
            if name == only.name.as_str() {
                return lookup_bound(alloc, source, value, path);
            }
            Ok(None)
        }
        (LoopVars::KeyValue(both), Item::Entry(key, value)) => {
            if name == both.key.name.as_str() {
                return lookup_key(alloc, source, key.as_str(), path);
            }
            if name == both.value.name.as_str() {
                return lookup_bound(alloc, source, value, path);
            }
            Ok(None)
        }
        _ => Ok(None),
    }
}

// One of the three that a loop's state has, if the path ends there.
fn made_of_state<'s>(index: usize, count: usize, path: &[Member]) -> Option<Made<'s>>
    requires index { index < 2 ^ 63 }
    requires count { index < count }
    ensures { TellsMade (as_some (state_walk index count (map member_of path.now))) result }
{
    let [member] = path else {
        return None;
    };
    let Access::Key(name) = &member.access else {
        return None;
    };
    match name.name.as_str() {
        "index" => Some(Made::Integer(index as i64)),
        "first" => Some(Made::Bool(index == 0)),
        "last" => Some(Made::Bool(index == count - 1)),
        _ => None,
    }
}

// The key of an entry, if that is the name and the path ends there.
fn made_of_key<'s>(
    vars: &LoopVars,
    item: &'s Item<'_>,
    name: &str,
    path: &[Member],
) -> Option<Made<'s>>
    ensures { TellsMade
        (maybe_bound (first_bound name.now (binds (loop_vars_of vars.now) (item_of item.now))) (map member_of path.now))
        result }
{
    match (vars, item) {
        (LoopVars::KeyValue(both), Item::Entry(key, _))
            if name == both.key.name.as_str() && path.is_empty() => {
            Some(Made::Text(key.as_str()))
        }
        _ => None,
    }
}

// What the item binds to a name, with the members after it, where it is.
#[inline(always)]
fn find_item<'s, 'a>(
    vars: &LoopVars,
    item: &'s Item<'a>,
    name: &str,
    path: &[Member],
) -> Found<'s, 'a>
    ensures { TellsSeen
        (maybe_bound (first_bound name.now (binds (loop_vars_of vars.now) (item_of item.now))) (map member_of path.now))
        result }
{
    match (vars, item) {
        (LoopVars::Item(only), Item::Lone(value)) => {
            if name == only.name.as_str() {
                return find_bound(value, path);
            }
            Found::Below
        }
        (LoopVars::KeyValue(both), Item::Entry(_, value)) => {
            if name == both.key.name.as_str() {
                return Found::Unknown;
            }
            if name == both.value.name.as_str() {
                return find_bound(value, path);
            }
            Found::Below
        }
        _ => Found::Unknown,
    }
}

// A loop's key, which has no members.
fn lookup_key<'a>(
    alloc: Global,
    source: &str,
    key: &str,
    path: &[Member],
) -> Result<Option<ValueCow<'a>>>
    requires { MembersLieIn source.now (map member_of path.now) }
    ensures { Answers maybe_view source.now (as_some (key_walk key.now (map member_of path.now))) result }
{
    match path {
        [] => Ok(Some(ValueCow::Owned(Value::from_text(alloc, key)?))),
        [member, ..] => Err(faults::caused(alloc, source, Cause::IndexIntoString, member.span)),
    }
}

// The items of a list, for one name.
#[tactic(auto, using(crate::proofs::Starts::starts))]
fn list_items<'a>(
    alloc: Global,
    source: &str,
    name: &Ident,
    iterable: ValueCow<'a>,
    span: Span,
) -> Result<Rest<'a>>
    requires span { LiesIn source.now span }
    requires name { LiesIn source.now name.now.span }
    ensures items { AnswersAlways
        (λ rest. map (binds (item (ident_of name.now))) (items_left rest))
        source.now
        (items_of (item (ident_of name.now)) (cow_view iterable.entry) span)
        result }
    ensures lent { IfOk result (λ rest. is_lent_rest rest ≡ is_borrowed_value iterable.entry) }
    ensures fits { IfOk result (λ rest. length (items_left rest) < 2 ^ 63) }
    ensures ascending { IfOk result (λ rest. KeysRise (cow_view iterable.entry)) }
{
    match iterable {
        ValueCow::Borrowed(value) => match value {
            Value::List(items) => Ok(Rest::ListLent(items.iter())),
            _ => Err(not_listed(alloc, source, name, value, span)),
        },
        ValueCow::Owned(value) => match value.into_items() {
            Ok(items) => Ok(Rest::ListOwned(items.into_iter())),
            Err(other) => Err(not_listed(alloc, source, name, &other, span)),
        },
    }
}

// The entries of a map, for a name for the key and one for the value.
#[tactic(auto, using(crate::proofs::Starts::starts))]
fn map_items<'a>(
    alloc: Global,
    source: &str,
    names: &KeyValue,
    iterable: ValueCow<'a>,
    span: Span,
) -> Result<Rest<'a>>
    requires span { LiesIn source.now span }
    requires names { LiesIn source.now names.now.span }
    ensures items { AnswersAlways
        (λ rest. map (binds (names_of_both names.now)) (items_left rest))
        source.now
        (items_of (names_of_both names.now) (cow_view iterable.entry) span)
        result }
    ensures lent { IfOk result (λ rest. is_lent_rest rest ≡ is_borrowed_value iterable.entry) }
    ensures fits { IfOk result (λ rest. length (items_left rest) < 2 ^ 63) }
    ensures ascending { IfOk result (λ rest. KeysRise (cow_view iterable.entry)) }
{
    match iterable {
        ValueCow::Borrowed(value) => match value {
            Value::Map(entries) => Ok(Rest::MapLent(entries.iter())),
            _ => Err(not_mapped(alloc, source, names, value, span)),
        },
        ValueCow::Owned(value) => match value.into_entries() {
            Ok(entries) => {
                // Asked for what it says of the keys: that they ascend.
                let _ = entries.len();
                Ok(Rest::MapOwned(entries))
            }
            Err(other) => Err(not_mapped(alloc, source, names, &other, span)),
        },
    }
}

// The fault of a value that is no list, for one name.
fn not_listed(alloc: Global, source: &str, name: &Ident, value: &Value, span: Span) -> Error
    requires span { LiesIn source.now span }
    requires name { LiesIn source.now name.now.span }
    requires no_list { IsNoList (view value.now) }
    ensures { TellsFault source.now (items_of (item (ident_of name.now)) (view value.now) span) result }
{
    match value {
        Value::Map(_) => faults::caused(alloc, source, Cause::MapItemIntoOne, name.span),
        _ => faults::not_iterable(alloc, source, value, span),
    }
}

// The fault of a value that is no map, for two names.
fn not_mapped(alloc: Global, source: &str, names: &KeyValue, value: &Value, span: Span) -> Error
    requires span { LiesIn source.now span }
    requires names { LiesIn source.now names.now.span }
    requires no_map { IsNoMap (view value.now) }
    ensures { TellsFault source.now (items_of (names_of_both names.now) (view value.now) span) result }
{
    match value {
        Value::List(_) => faults::caused(alloc, source, Cause::ListItemIntoTwo, names.span),
        _ => faults::not_iterable(alloc, source, value, span),
    }
}
