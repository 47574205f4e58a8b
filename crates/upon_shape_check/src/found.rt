// What a path finds in a scope.
ghost use Rattle.std.specs.Prelude.{◌≡◌, IfOk, None, map, option_copied, option_map};
ghost use Rattle.upon_types.specs.AstPath.{first_member, member_of, rest_members};
ghost use Rattle.upon_lookup.specs.Lookup.{state_map};
ghost use Rattle.upon_shape_spec.specs.Doubts as doubts;
ghost use Rattle.upon_shape_spec.specs.Join.{shape_of};
ghost use Rattle.upon_shape_spec.specs.Paths.{walk_shape};
ghost use Rattle.upon_shape_spec.specs.Scope as spec;
ghost use Rattle.upon_shape.specs.View.{shape_view};
ghost use Rattle.upon_shape_check.specs.Doubt.{maybe_doubt};
ghost use Rattle.upon_shape_check.specs.Found.{found_doubts, found_shape};
ghost use Rattle.upon_shape_check.specs.Scope.{bound_view, names_view, scope_view};

use crate::doubt::{Doubt, Unsure};
use crate::scope::{BoundShape, NameShape, Scope, bound_to};
use std::alloc::{AllocError, Global};
use upon_shape::paths::MemberShape;
use upon_shape::shape::{Keys, Shape};
use upon_types::types::Span;
use upon_types::types::ast::{Access, AccessOp, Member, Var};

// What a path finds.
#[derive(Drop)]
pub(crate) enum Found<'t> {
    // Something of this shape.
    Surely(Shape),
    // It is in doubt that something is there.
    InDoubt(Doubt<'t>),
}

impl<'t> Found<'t> {
    // Returns the shape, if something is sure to be there, and else the doubt.
    pub(crate) fn parts(self) -> (Option<Shape>, Option<Doubt<'t>>)
        ensures shape { option_map shape_view result.0 ≡ found_shape self.entry }
        ensures doubts { maybe_doubt result.1 ≡ found_doubts self.entry }
    {
        match self {
            Found::Surely(shape) => (Some(shape), None),
            Found::InDoubt(doubt) => (None, Some(doubt)),
        }
    }
}

// Returns what a path finds.
pub(crate) fn path_found<'t>(
    alloc: Global,
    scope: &Scope<'_>,
    path: &Var,
) -> Result<Found<'t>, AllocError>
    ensures shape { IfOk result (λ f. found_shape f
        ≡ spec.path_shape (scope_view scope.now) (first_member path.now) (rest_members path.now)) }
    ensures doubts { IfOk result (λ f. found_doubts f
        ≡ doubts.path_doubts (scope_view scope.now) (first_member path.now) (rest_members path.now)) }
{
    match first_bound(&scope.names, path.first()) {
        Some(bound) => bound_found(alloc, bound, path.rest()),
        None => walk(alloc, &scope.root, &path.path),
    }
}

// Returns what is known of what is bound to the first member of a path.
fn first_bound<'a>(names: &'a [NameShape<'_>], first: &Member) -> Option<&'a BoundShape>
    ensures { option_map bound_view (option_copied result)
        ≡ spec.bound_shape_of (member_of first.now).access (names_view names.now) }
{
    match &first.access {
        Access::Index(_) => None,
        Access::Key(word) => bound_to(names, word.name.as_str()),
    }
}

// Returns what is found after a name.
fn bound_found<'t>(
    alloc: Global,
    bound: &BoundShape,
    members: &[Member],
) -> Result<Found<'t>, AllocError>
    ensures shape { IfOk result (λ f. found_shape f
        ≡ spec.bound_walk_shape (bound_view bound.now) (map member_of members.now)) }
    ensures doubts { IfOk result (λ f. found_doubts f
        ≡ doubts.bound_doubts (bound_view bound.now) (map member_of members.now)) }
{
    match (bound, members) {
        (BoundShape::Value(shape), _) => walk(alloc, shape, members),
        (BoundShape::LoopKey, []) => Ok(Found::Surely(Shape::text())),
        (BoundShape::LoopKey, [member, ..]) => Ok(no_member(member.span)),
        (BoundShape::Loop, []) => Ok(Found::Surely(loop_shape(alloc)?)),
        (BoundShape::Loop, [member]) => match state_shape(member) {
            Some(shape) => Ok(Found::Surely(shape)),
            None => Ok(no_member(member.span)),
        },
        (BoundShape::Loop, [_, next, ..]) => Ok(no_member(next.span)),
    }
}

// Returns the shape of a loop's state.
fn loop_shape(alloc: Global) -> Result<Shape, AllocError>
    ensures { IfOk result (λ s. shape_view s ≡ shape_of (state_map 0 1)) }
{
    let keys = Keys::no_others(alloc)?
        .with_key(String::from_str(alloc, "first")?, true, Shape::truth())?
        .with_key(String::from_str(alloc, "index")?, true, Shape::integer())?
        .with_key(String::from_str(alloc, "last")?, true, Shape::truth())?;
    Ok(Shape::map_of(keys))
}

// Returns the shape of a member of a loop's state.
fn state_shape(member: &Member) -> Option<Shape>
    ensures { option_map shape_view result ≡ spec.state_shape (member_of member.now).op (member_of member.now).access }
{
    let Access::Key(word) = &member.access else {
        return None;
    };
    match (word.name.as_str(), member.op) {
        ("index", _) => Some(Shape::integer()),
        ("first", _) => Some(Shape::truth()),
        ("last", _) => Some(Shape::truth()),
        (_, AccessOp::Optional) => Some(Shape::none()),
        (_, AccessOp::Direct) => None,
    }
}

// Returns the doubt that the key or the state of a loop has a member.
fn no_member<'t>(place: Span) -> Found<'t>
    ensures shape { found_shape result ≡ None }
    ensures doubts { found_doubts result ≡ doubts.doubt place doubts.loop_has_member }
{
    Found::InDoubt(Doubt {
        place,
        unsure: Unsure::LoopHasMember,
    })
}

// Goes from member to member in a value of this shape.
fn walk<'t>(alloc: Global, shape: &Shape, members: &[Member]) -> Result<Found<'t>, AllocError>
    ensures shape { IfOk result (λ f. found_shape f ≡ walk_shape (map member_of members.now) (shape_view shape.now)) }
    ensures doubts { IfOk result (λ f. found_doubts f
        ≡ doubts.walk_doubts (map member_of members.now) (shape_view shape.now)) }
{
    let never = Shape::never();
    let mut current = shape;
    let mut missed = false;
    for member in members {
        match current.member(member.op, &member.access) {
            MemberShape::MayFail => {
                return Ok(Found::InDoubt(Doubt {
                    place: member.span,
                    unsure: Unsure::HasMember(current.try_clone(alloc)?),
                }));
            }
            MemberShape::Never => current = &never,
            MemberShape::Finds(next) => current = next,
            MemberShape::MayMiss(next) => {
                current = next;
                missed = true;
            }
        }
    }
    let found = current.try_clone(alloc)?;
    if missed {
        Ok(Found::Surely(found.optional()))
    } else {
        Ok(Found::Surely(found))
    }
}
