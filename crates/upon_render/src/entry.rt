// A context of one entry, whose value is lent: what a path finds in it.
ghost use Rattle.std.specs.Prelude.{◌≡◌, map, option_map};
ghost use Rattle.upon_types.specs.AstPath.{member_of, string_of};
ghost use Rattle.upon_types.specs.Cow.{cow_view};
ghost use Rattle.upon_types.specs.Span.{LiesIn};
ghost use Rattle.upon_types.specs.Val.{entry_at, entry_then, no_entries};
ghost use Rattle.upon_types.specs.View.{view};
ghost use Rattle.upon_lookup.specs.Answer.{Answers, IsLent, Lends, lent_view};
ghost use Rattle.upon_lookup.specs.Finding.{found_only};
ghost use Rattle.upon_render.specs.Frames.{entry_context};
ghost use Rattle.upon_lookup.specs.Lookup.{or_not_in_scope};
ghost use Rattle.upon_lookup.specs.PathSpans.{MembersLieIn};
ghost use Rattle.upon_lookup.specs.Seen.{WalksTo};
ghost use Rattle.upon_lookup.specs.Walk.{context_walk, lookup_member as member_in};

use std::alloc::Global;
use upon_lookup::faults;
use upon_lookup::value::{find, found_or_missed, lookup_path};
use upon_types::error::Result;
use upon_types::types::ast::{Access, Member, String as Quoted};
use upon_types::value::{Value, ValueCow};

/// Returns what the path, by its first member and its others, finds in the context of this entry; `None` says nothing.
#[inline(always)]
pub(crate) fn find_in_entry<'a>(
    key: &Quoted,
    value: &'a Value,
    first: &Member,
    rest: &[Member],
) -> Option<&'a Value>
    ensures { WalksTo
        (member_of first.now)
        (map member_of rest.now)
        (entry_context (string_of key.now).text (view value.now))
        result }
{
    match reach(key, value, first) {
        Some(Some(found)) => find(found, rest),
        _ => None,
    }
}

/// Returns the same, or the fault that the context does not have it. What is found is lent.
pub(crate) fn lookup_in_entry<'a>(
    alloc: Global,
    source: &str,
    key: &Quoted,
    value: &'a Value,
    first: &Member,
    rest: &[Member],
) -> Result<ValueCow<'a>>
    requires span { LiesIn source.now first.now.span }
    requires spans { MembersLieIn source.now (map member_of rest.now) }
    ensures answer { Answers
        cow_view
        source.now
        (or_not_in_scope (context_walk (member_of first.now) (map member_of rest.now)
        (entry_context (string_of key.now).text (view value.now))) first.now.span)
        result }
    ensures lent { Lends
        IsLent
        (or_not_in_scope (context_walk (member_of first.now) (map member_of rest.now)
        (entry_context (string_of key.now).text (view value.now))) first.now.span)
        result }
{
    match reach(key, value, first) {
        Some(Some(found)) => lookup_path(alloc, source, &ValueCow::Borrowed(found), rest),
        Some(None) => Ok(ValueCow::Owned(Value::None)),
        None => Err(faults::not_in_scope(alloc, source, first.span)),
    }
}

// What the context has at the member: `Some(None)` is a miss by `?.`, and `None` a fault.
#[inline(always)]
fn reach<'a>(key: &Quoted, value: &'a Value, member: &Member) -> Option<Option<&'a Value>>
    ensures { option_map lent_view result
        ≡ found_only (member_in (entry_context (string_of key.now).text (view value.now)) (member_of member.now)) }
{
    match &member.access {
        Access::Key(ident) => found_or_missed(at(key, value, ident.name.as_str()), member.op),
        Access::Index(_) => None,
    }
}

// The entry's value, if this is its key.
#[inline(always)]
fn at<'a>(key: &Quoted, value: &'a Value, word: &str) -> Option<&'a Value>
    ensures { lent_view result ≡ entry_at word.now (entry_then (string_of key.now).text (view value.now) no_entries) }
{
    if word == key.as_str() {
        Some(value)
    } else {
        None
    }
}
