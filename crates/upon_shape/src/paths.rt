// The shape of what a path finds in a value, where it is sure to find something, and what is known where it was found
// true.
ghost use Rattle.std.specs.Prelude.{◌≡◌, map, IfOk, option_map};
ghost use Rattle.upon_types.specs.AstPath.{access_of, member_of};
ghost use Rattle.upon_shape_spec.specs.Narrowed.{narrowed};
ghost use Rattle.upon_shape_spec.specs.Paths.{if_there, key_in_map, index_in_list, member_shape, walk_shape};
ghost use Rattle.upon_shape_spec.specs.Shape.{optional};
ghost use Rattle.upon_shape.specs.Found.{found_view};
ghost use Rattle.upon_shape.specs.View.{shape_view, lists_view, maps_view};

use crate::shape::{Keys, Shape};
use std::alloc::{AllocError, Global};
use upon_types::types::ast::{Access, AccessOp, Member};

/// What a member of a path finds.
#[derive(Clone, Copy)]
pub enum MemberShape<'a> {
    /// It may be a fault.
    MayFail,
    /// There is no value in which it is looked for.
    Never,
    /// Something of this shape.
    Finds(&'a Shape),
    /// Something of this shape, or nothing, which ends the path.
    MayMiss(&'a Shape),
}

impl Shape {
    /// Returns what a member of a path finds in a value of this shape.
    pub fn member(&self, op: AccessOp, access: &Access) -> MemberShape<'_>
        ensures { found_view result ≡ member_shape op (access_of access.now) (shape_view self.now) }
    {
        match self {
            Shape::Any => MemberShape::MayFail,
            Shape::OneOf { plain, items, keys } => match access {
                Access::Key(word) => {
                    if plain.is_any() | items.is_some() {
                        return MemberShape::MayFail;
                    }
                    key_in_map(op, word.name.as_str(), keys)
                }
                Access::Index(_) => {
                    if plain.is_any() | keys.is_some() {
                        return MemberShape::MayFail;
                    }
                    index_in_list(op, items)
                }
            },
        }
    }

    /// Returns the shape of what a path finds in a value of this shape, or `None` where that may be a fault. It fails
    /// if there is no memory for the shape.
    pub fn walk(&self, alloc: Global, path: &[Member]) -> Result<Option<Shape>, AllocError>
        ensures { IfOk result (λ o. option_map shape_view o
            ≡ walk_shape (map member_of path.now) (shape_view self.now)) }
    {
        match path {
            [] => Ok(Some(self.try_clone(alloc)?)),
            [member, rest @ ..] => match self.member(member.op, &member.access) {
                MemberShape::MayFail => Ok(None),
                MemberShape::Never => Ok(Some(Shape::never())),
                MemberShape::Finds(shape) => shape.walk(alloc, rest),
                MemberShape::MayMiss(shape) => Ok(or_none(shape.walk(alloc, rest)?)),
            },
        }
    }

    /// Returns the shape of those of its values in which a path finds what is true. It fails if there is no memory for
    /// the shape.
    pub fn narrowed(&self, alloc: Global, path: &[Member]) -> Result<Shape, AllocError>
        ensures { IfOk result (λ s. shape_view s ≡ narrowed (map member_of path.now) (shape_view self.now)) }
    {
        let [member, rest @ ..] = path else {
            return Ok(self.try_clone(alloc)?.not_none());
        };
        let Some(keys) = self.keys() else {
            return self.try_clone(alloc);
        };
        match &member.access {
            Access::Index(_) => self.try_clone(alloc),
            Access::Key(word) => {
                let shape = keys.at(word.name.as_str()).shape.narrowed(alloc, rest)?;
                let name = String::from_str(alloc, word.name.as_str())?;
                Ok(Shape::map_of(keys.try_clone(alloc)?.with_entry(name, shape)?))
            }
        }
    }
}

fn if_there(op: AccessOp, shape: &Shape) -> MemberShape<'_>
    ensures { found_view result ≡ if_there op (shape_view shape.now) }
{
    match op {
        AccessOp::Direct => MemberShape::MayFail,
        AccessOp::Optional => MemberShape::MayMiss(shape),
    }
}

fn key_in_map<'a>(op: AccessOp, name: &str, maps: &'a Option<Keys<Shape>>) -> MemberShape<'a>
    ensures { found_view result ≡ key_in_map op name.now (maps_view maps.now) }
{
    let Some(keys) = maps else {
        return MemberShape::Never;
    };
    let known = keys.at(name);
    if known.required {
        return MemberShape::Finds(known.shape);
    }
    if_there(op, known.shape)
}

fn index_in_list(op: AccessOp, items: &Option<Box<Shape>>) -> MemberShape<'_>
    ensures { found_view result ≡ index_in_list op (lists_view items.now) }
{
    match items {
        None => MemberShape::Never,
        Some(shape) => if_there(op, shape),
    }
}

fn or_none(found: Option<Shape>) -> Option<Shape>
    ensures { option_map shape_view result ≡ option_map optional (option_map shape_view found) }
{
    match found {
        None => None,
        Some(shape) => Some(shape.optional()),
    }
}
