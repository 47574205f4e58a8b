// Names in a template, and paths that lead from a variable to a value inside it.
ghost use Rattle.std.specs.Prelude.{◌<◌, length};

use crate::types::Span;
use crate::types::ast::Name;

/// A name, and where it is.
#[derive(Drop)]
pub struct Ident {
    pub name: Name,
    pub span: Span,
}

/// A number that picks an item of a list, and where it is.
#[derive(Drop)]
pub struct Index {
    pub value: usize,
    pub span: Span,
}

/// How a member is reached.
#[derive(Clone, Copy, Debug, PartialEq, Eq)]
pub enum AccessOp {
    /// By `.`, where a missing member is a fault.
    Direct,
    /// By `?.`, where a missing member is no value.
    Optional,
}

/// What picks a value out of another.
#[derive(Drop)]
pub enum Access {
    /// The item at this index of a list.
    Index(Index),
    /// The value at this key of a map.
    Key(Ident),
}

/// One step of a path, and where it is, with its operator.
#[derive(Drop)]
pub struct Member {
    pub op: AccessOp,
    pub access: Access,
    pub span: Span,
}

/// A variable, and the steps from there: a path that is never empty.
#[derive(Drop)]
pub struct Var {
    pub path: Vec<Member>,
    ghost not_empty: { 0 < length path.items },
}

impl Access {
    ghost use Rattle.std.specs.Prelude.{◌≡◌};
    ghost use Rattle.upon_types.specs.AstPath.{access_of};
    ghost use Rattle.upon_types.specs.Path.{access_span};

    /// Where the index or the name is.
    pub fn span(&self) -> Span
        ensures { result ≡ access_span (access_of self.now) }
    {
        match self {
            Access::Index(index) => index.span,
            Access::Key(ident) => ident.span,
        }
    }
}

impl Var {
    ghost use Rattle.std.specs.Prelude.{◌≡◌, map};
    ghost use Rattle.upon_types.specs.AstPath.{member_of, first_member, rest_members};
    ghost use Rattle.upon_types.specs.Path.{last_member, path_span};

    /// Returns the variable, which is the first member of the path.
    pub fn first(&self) -> &Member
        ensures { member_of result.now ≡ first_member self.now }
    {
        &self.path[0]
    }

    /// Returns the last member of the path.
    pub fn last(&self) -> &Member
        ensures { member_of result.now ≡ last_member (first_member self.now) (rest_members self.now) }
    {
        &self.path[self.path.len() - 1]
    }

    /// Returns the members after the first.
    pub fn rest(&self) -> &[Member]
        ensures { map member_of result.now ≡ rest_members self.now }
    {
        &self.path[1..]
    }

    /// Where the path is: from its first member to its last.
    pub fn span(&self) -> Span
        ensures { result ≡ path_span (first_member self.now) (rest_members self.now) }
    {
        self.first().span.combine(self.last().span)
    }
}
