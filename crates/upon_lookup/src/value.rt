// Members of a value, and walks over members.
ghost use Rattle.std.specs.Prelude.{◌≡◌, ◌<◌, true, Ok, None, IfOk, length, map, option_map, slice_get};
ghost use Rattle.upon_types.specs.AstPath.{member_of};
ghost use Rattle.upon_types.specs.Cow.{cow_view};
ghost use Rattle.upon_types.specs.Span.{LiesIn};
ghost use Rattle.upon_types.specs.View.{view, vals_view};
ghost use Rattle.upon_lookup.specs.Answer.{AnswersAlways, Answers, TellsFault, lent_view, lent_or_none, maybe_view, is_borrowed_value, IsLent, IsLentIfAny, Lends};
ghost use Rattle.upon_lookup.specs.Finding.{found, found_only};
ghost use Rattle.upon_lookup.specs.Seen.{IsFound, TellsSeen, WalksTo, made_view};
ghost use Rattle.upon_lookup.specs.PathSpans.{MembersLieIn};
ghost use Rattle.upon_lookup.specs.Vals.{val_list};
ghost use Rattle.upon_lookup.specs.Walk.{lookup_member as member_in, walk, as_some, context_walk, path_in_context, found_or_missed};
ghost use Rattle.upon_types.specs.Fault.{Fault};

use crate::faults;
use std::alloc::{AllocError, Global};
use upon_types::error::cause::Cause;
use upon_types::error::{Error, Result};
use upon_types::types::ast::{Access, AccessOp, Member};
use upon_types::value::look::entry;
use upon_types::value::{Value, ValueCow};

/// Returns the member of the value, or `None` if it misses by `?.`.
///
/// It is a fault at the member if it misses by `.`, and if the value has no members of its kind. Memory is taken
/// for a fault alone.
pub fn lookup<'a>(
    alloc: Global,
    source: &str,
    value: &'a Value,
    member: &Member,
) -> Result<Option<&'a Value>>
    requires { LiesIn source.now member.now.span }
    ensures { AnswersAlways lent_view source.now (member_in (view value.now) (member_of member.now)) result }
{
    match reach(value, member) {
        Some(found) => Ok(found),
        None => Err(not_reached(alloc, source, value, member)),
    }
}

/// Returns the value that the members lead to from this one, which is no value after a miss by `?.`. No members give
/// the value.
///
/// The fault of a member that is not there lies at that member. From a borrowed value what is found is borrowed too,
/// and memory is taken for a fault alone.
#[inline(always)]
pub fn lookup_path<'a>(
    alloc: Global,
    source: &str,
    value: &ValueCow<'a>,
    path: &[Member],
) -> Result<ValueCow<'a>>
    requires { MembersLieIn source.now (map member_of path.now) }
    ensures answer { Answers cow_view source.now (walk (map member_of path.now) (cow_view value.now)) result }
    ensures lent { is_borrowed_value value.now ≡ true
        → Lends IsLent (walk (map member_of path.now) (cow_view value.now)) result }
{
    match value {
        ValueCow::Borrowed(start) => match descend(alloc, source, *start, path)? {
            Some(end) => Ok(ValueCow::Borrowed(end)),
            None => Ok(ValueCow::Owned(Value::None)),
        },
        ValueCow::Owned(start) => match descend(alloc, source, start, path)? {
            Some(end) => Ok(ValueCow::Owned(end.try_clone()?)),
            None => Ok(ValueCow::Owned(Value::None)),
        },
    }
}

/// Returns the value that the path leads to from a context, or `None` if the context has nothing at its first
/// member.
///
/// If the first member misses by `?.`, that is no value. Later members are as in [`lookup_path`].
pub fn lookup_path_maybe<'a>(
    alloc: Global,
    source: &str,
    value: &ValueCow<'a>,
    path: &[Member],
) -> Result<Option<ValueCow<'a>>>
    requires some { 0 < length path.now }
    requires spans { MembersLieIn source.now (map member_of path.now) }
    ensures answer { Answers maybe_view source.now (path_in_context (map member_of path.now) (cow_view value.now))
        result }
    ensures lent { is_borrowed_value value.now ≡ true
        → Lends IsLentIfAny (path_in_context (map member_of path.now) (cow_view value.now)) result }
    ensures unbound { path_in_context (map member_of path.now) (cow_view value.now) ≡ found None → result ≡ Ok None }
{
    match path {
        [first, rest @ ..] => lookup_in_context(alloc, source, value, first, rest),
        [] => Ok(None),
    }
}

/// Returns the value that the members lead to from a value that a name is bound to, as in [`lookup_path`].
pub fn lookup_bound<'a>(
    alloc: Global,
    source: &str,
    value: &ValueCow<'a>,
    path: &[Member],
) -> Result<Option<ValueCow<'a>>>
    requires { MembersLieIn source.now (map member_of path.now) }
    ensures answer { Answers maybe_view source.now (as_some (walk (map member_of path.now) (cow_view value.now)))
        result }
    ensures lent { is_borrowed_value value.now ≡ true
        → Lends IsLentIfAny (as_some (walk (map member_of path.now) (cow_view value.now))) result }
{
    match lookup_path(alloc, source, value, path) {
        Ok(end) => Ok(Some(end)),
        Err(error) => Err(error),
    }
}

/// Returns the same as [`lookup_path_maybe`], by the path's first member and its others.
pub fn lookup_in_context<'a>(
    alloc: Global,
    source: &str,
    value: &ValueCow<'a>,
    first: &Member,
    rest: &[Member],
) -> Result<Option<ValueCow<'a>>>
    requires { MembersLieIn source.now (map member_of rest.now) }
    ensures answer { Answers maybe_view source.now
        (context_walk (member_of first.now) (map member_of rest.now) (cow_view value.now)) result }
    ensures lent { is_borrowed_value value.now ≡ true
        → Lends IsLentIfAny (context_walk (member_of first.now) (map member_of rest.now) (cow_view value.now)) result }
    ensures unbound { context_walk (member_of first.now) (map member_of rest.now) (cow_view value.now) ≡ found None
        → result ≡ Ok None }
{
    match value {
        ValueCow::Borrowed(start) => match reach(*start, first) {
            Some(Some(found)) => { lookup_bound(alloc, source, &ValueCow::Borrowed(found), rest) }
            Some(None) => Ok(Some(ValueCow::Owned(Value::None))),
            None => Ok(None),
        },
        ValueCow::Owned(start) => match reach(start, first) {
            Some(Some(found)) => match descend(alloc, source, found, rest)? {
                Some(end) => Ok(Some(ValueCow::Owned(end.try_clone()?))),
                None => Ok(Some(ValueCow::Owned(Value::None))),
            },
            Some(None) => Ok(Some(ValueCow::Owned(Value::None))),
            None => Ok(None),
        },
    }
}

/// What a search that copies nothing says of a path.
#[derive(Drop)]
pub enum Found<'s, 'a> {
    /// A value that is lent for longer than the frames.
    Lent(&'a Value),
    /// A value that a frame has.
    Held(&'s Value),
    /// Nothing.
    Unknown,
    /// What is below answers.
    Below,
}

/// What a loop says of itself, which no frame has as a value.
#[derive(Drop)]
pub enum Made<'s> {
    /// The key of its item.
    Text(&'s str),
    /// The index of its item.
    Integer(i64),
    /// Whether its item is the first, or the last.
    Bool(bool),
}

impl Made<'_> {
    /// Returns it as a value. Memory is taken for a text alone.
    pub fn to_value(self, alloc: Global) -> std::result::Result<Value, AllocError>
        ensures { IfOk result (λ value. view value ≡ made_view self.entry) }
    {
        match self {
            Made::Text(text) => Value::from_text(alloc, text),
            Made::Integer(number) => Ok(Value::Integer(number)),
            Made::Bool(truth) => Ok(Value::Bool(truth)),
        }
    }
}

/// Returns the value that the members lead to from this one, if each is there; `None` says nothing.
#[inline(always)]
pub fn find<'a>(value: &'a Value, path: &[Member]) -> Option<&'a Value>
    ensures { IsFound (walk (map member_of path.now) (view value.now)) result }
{
    let mut here = value;
    for member in path {
        match reach(here, member) {
            Some(Some(found)) => here = found,
            Some(None) => return None,
            None => return None,
        }
    }
    Some(here)
}

/// Returns the same as [`find`] from a value that a name is bound to.
#[inline(always)]
pub fn find_bound<'s, 'a>(value: &'s ValueCow<'a>, path: &[Member]) -> Found<'s, 'a>
    ensures { TellsSeen (as_some (walk (map member_of path.now) (cow_view value.now))) result }
{
    match value {
        ValueCow::Borrowed(start) => match find(*start, path) {
            Some(end) => Found::Lent(end),
            None => Found::Unknown,
        },
        ValueCow::Owned(start) => match find(start, path) {
            Some(end) => Found::Held(end),
            None => Found::Unknown,
        },
    }
}

/// Returns the same as [`find`] from a context, by the path's first member and its others; `None` says nothing.
#[inline(always)]
pub fn find_in_context<'a>(value: &'a Value, first: &Member, rest: &[Member]) -> Option<&'a Value>
    ensures { WalksTo (member_of first.now) (map member_of rest.now) (view value.now) result }
{
    match reach(value, first) {
        Some(Some(found)) => find(found, rest),
        _ => None,
    }
}

// The value that the members lead to; `None` after a miss by `?.`.
#[inline(always)]
fn descend<'a>(
    alloc: Global,
    source: &str,
    start: &'a Value,
    path: &[Member],
) -> Result<Option<&'a Value>>
    requires { MembersLieIn source.now (map member_of path.now) }
    ensures { AnswersAlways lent_or_none source.now (walk (map member_of path.now) (view start.now)) result }
{
    let mut here = start;
    for member in path {
        match lookup(alloc, source, here, member)? {
            Some(found) => here = found,
            None => return Ok(None),
        }
    }
    Ok(Some(here))
}

// What the value has at the member: `Some(None)` is a miss by `?.`, and `None` a fault.
fn reach<'a>(value: &'a Value, member: &Member) -> Option<Option<&'a Value>>
    ensures { option_map lent_view result ≡ found_only (member_in (view value.now) (member_of member.now)) }
{
    match (value, &member.access) {
        (Value::List(items), Access::Index(index)) => {
            found_or_missed(item(items, index.value), member.op)
        }
        (Value::Map(_), Access::Key(ident)) => {
            found_or_missed(entry(value, ident.name.as_str()), member.op)
        }
        _ => None,
    }
}

// The fault of a member that the value does not have.
#[cold]
#[inline(never)]
fn not_reached(alloc: Global, source: &str, value: &Value, member: &Member) -> Error
    requires span { LiesIn source.now member.now.span }
    requires missed { found_only (member_in (view value.now) (member_of member.now)) ≡ None }
    ensures { TellsFault source.now (member_in (view value.now) (member_of member.now)) result }
{
    let at = member.span;
    match (value, &member.access) {
        (Value::List(items), Access::Index(_)) => {
            faults::out_of_bounds(alloc, source, items.len(), at)
        }
        (Value::Map(_), Access::Key(_)) => faults::caused(alloc, source, Cause::NotInMap, at),
        (_, Access::Index(_)) => faults::no_index_access(alloc, source, value, at),
        (_, Access::Key(_)) => faults::no_key_access(alloc, source, value, at),
    }
}

fn item(items: &Vec<Value>, index: usize) -> Option<&Value>
    ensures { lent_view result ≡ slice_get (val_list (vals_view items.now.items)) index }
{
    items.get(index)
}

/// Returns what was found, or, if nothing was, `Some(None)` after `?.` and `None`, which is a fault, after `.`.
pub fn found_or_missed(found: Option<&Value>, op: AccessOp) -> Option<Option<&Value>>
    ensures { (fault : Fault) → option_map lent_view result
        ≡ found_only (found_or_missed (lent_view found.entry) op fault) }
{
    match (found, op) {
        (Some(value), _) => Some(Some(value)),
        (None, AccessOp::Optional) => Some(None),
        (None, AccessOp::Direct) => None,
    }
}
