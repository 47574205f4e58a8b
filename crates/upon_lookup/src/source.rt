// What answers paths by itself: sources of values.
ghost use Rattle.std.specs.Prelude.{◌≡◌, List, ℕ, IfOk, map};
ghost use Rattle.upon_types.specs.AstPath.{member_of};
ghost use Rattle.upon_types.specs.View.{view};
ghost use Rattle.upon_lookup.specs.Asked.{HasReply, asked_member, asked_path};
ghost use Rattle.upon_lookup.specs.Source.{Source, value_member_of, value_members_of};

use std::alloc::{AllocError, Global};
use upon_types::types::ast::{Access, AccessOp, Member};
use upon_types::value::Value;

/// How a member is asked for.
#[derive(Clone, Copy, Debug, PartialEq, Eq, Hash)]
pub enum ValueAccessOp {
    /// By `.`, where a missing member is a fault.
    Direct,
    /// By `?.`, where a missing member is no value.
    Optional,
}

/// What a member asks for.
#[derive(Clone, Copy, Debug, PartialEq, Eq, Hash)]
pub enum ValueAccess<'a> {
    /// The item at this index of a list.
    Index(usize),
    /// The value at this key of a map.
    Key(&'a str),
}

/// A member of a path that a source is asked for.
#[derive(Clone, Copy, Debug, PartialEq, Eq, Hash)]
pub struct ValueMember<'a> {
    pub op: ValueAccessOp,
    pub access: ValueAccess<'a>,
}

/// Why a source gives nothing.
#[derive(Debug, Drop)]
pub enum SourceError {
    /// The source refuses, with this text.
    Refused(String),
    /// There was no memory.
    Memory,
}

/// What gives values by their paths.
///
/// Answer and next state are functions of the state and the path, out of memory aside.
pub trait ValueSource: Drop {
    /// What the answers depend on, beside the path.
    ghost State: { Type 0 };

    ghost value_state: { Self → State };

    /// The answer and the next state, in each state and for each path.
    ghost ask: { Self → Source State };

    /// The references that it holds.
    ghost holds: { Self → List ℕ };

    /// Returns the value at this path.
    fn value(&mut self, path: &[ValueMember]) -> Result<Value, SourceError>
        ensures same { holds self.new ≡ holds self.old }
        ensures stays { ask self.new ≡ ask self.old }
        ensures asked { HasReply view result (value_state self.new)
            (ask self.old (value_state self.old) (asked_path path.now)) };
}

impl<S: ValueSource> ValueSource for &mut S {
    ghost use Rattle.std.specs.Prelude.{◌∷◌};

    ghost State = { S.State };

    ghost value_state = { λ s. S.value_state s.now };

    ghost ask = { λ s. S.ask s.now };

    ghost holds = { λ s. s.ghost_name ∷ S.holds s.now };

    fn value(&mut self, path: &[ValueMember]) -> Result<Value, SourceError> {
        (**self).value(path)
    }
}

/// No source: it refuses every path, without words. A stack whose root is a value names this type, and never asks it.
#[derive(Drop)]
pub struct NoSource {
    alloc: Global,
}

impl NoSource {
    /// Creates a source that refuses every path.
    pub fn new(alloc: Global) -> NoSource {
        NoSource { alloc }
    }
}

impl ValueSource for NoSource {
    ghost use Rattle.std.specs.Prelude.{[]};
    ghost use Rattle.upon_lookup.specs.Asked.{refuses_all};

    ghost State = { Unit {0} };

    ghost value_state = { λ _. tt };

    ghost ask = { λ _. refuses_all };

    ghost holds = { λ _. [] };

    fn value(&mut self, _path: &[ValueMember]) -> Result<Value, SourceError> {
        Err(SourceError::Refused(String::new(self.alloc)))
    }
}

/// Returns the path that a source is asked for.
pub fn members<'b>(alloc: Global, path: &'b [Member]) -> Result<Vec<ValueMember<'b>>, AllocError>
    ensures { IfOk result (λ members. asked_path members.items ≡ value_members_of (map member_of path.now)) }
{
    let mut members = Vec::with_capacity(alloc, path.len())?;
    for one in path {
        members.push(member(one))?;
    }
    Ok(members)
}

fn member(member: &Member) -> ValueMember<'_>
    ensures { asked_member result ≡ value_member_of (member_of member.now) }
{
    let op = match member.op {
        AccessOp::Direct => ValueAccessOp::Direct,
        AccessOp::Optional => ValueAccessOp::Optional,
    };
    match &member.access {
        Access::Index(index) => ValueMember {
            op,
            access: ValueAccess::Index(index.value),
        },
        Access::Key(ident) => ValueMember {
            op,
            access: ValueAccess::Key(ident.name.as_str()),
        },
    }
}
