// Changes of a scope in place, and what undoes them.
ghost use Rattle.std.specs.Prelude.{◌≡◌, ◌<◌, IfOk, OnErr, OnOk, length, map};
ghost use Rattle.upon_types.specs.AstPath.{first_member, member_of, rest_members};
ghost use Rattle.upon_shape_spec.specs.Narrowed as spec;
ghost use Rattle.upon_shape_check.specs.Scope.{bound_view, names_view, scope_view};
ghost use Rattle.upon_shape_check.specs.Undo as undoing;

use crate::scope::{BoundShape, NameShape, Scope, find};
use std::alloc::{AllocError, Global};
use std::mem;
use upon_shape::shape::Shape;
use upon_types::types::ast::{Access, Member, Var};

// What undoes a change of a scope.
#[derive(Drop)]
pub(crate) enum Undo {
    // There was no change.
    Nothing,
    // What was known of the context.
    Root(Shape),
    // What was known of a name, by how many names are innermore.
    Name(usize, BoundShape),
}

// Adds what is known where this path is true, and returns what undoes that.
pub(crate) fn narrow(alloc: Global, scope: &mut Scope<'_>, path: &Var) -> Result<Undo, AllocError>
    ensures narrowed { OnOk result (scope_view scope.new
        ≡ spec.narrowed_scope (first_member path.now) (rest_members path.now) (scope_view scope.old)) }
    ensures undo { IfOk result (λ u. undoing.undone u (scope_view scope.new) ≡ scope_view scope.old) }
    ensures err { OnErr result (scope_view scope.new ≡ scope_view scope.old) }
{
    let Access::Key(word) = &path.first().access else {
        return Ok(Undo::Nothing);
    };
    match find(&scope.names, word.name.as_str()) {
        None => {
            let inside = scope.root.narrowed(alloc, &path.path)?;
            Ok(Undo::Root(mem::replace(&mut scope.root, inside)))
        }
        Some(place) => {
            let depth = place.depth;
            let inside = narrowed_bound(alloc, place.bound, path.rest())?;
            Ok(Undo::Name(depth, rebind(&mut scope.names, depth, inside)))
        }
    }
}

// Returns what is known of what a name is bound to, where these members found what is true in it.
fn narrowed_bound(
    alloc: Global,
    bound: &BoundShape,
    members: &[Member],
) -> Result<BoundShape, AllocError>
    ensures { IfOk result (λ b. bound_view b ≡ spec.narrowed_bound (map member_of members.now) (bound_view bound.now)) }
{
    match bound {
        BoundShape::Value(shape) => Ok(BoundShape::Value(shape.narrowed(alloc, members)?)),
        BoundShape::LoopKey => Ok(BoundShape::LoopKey),
        BoundShape::Loop => Ok(BoundShape::Loop),
    }
}

// Binds the name at this depth to something else, and returns what it was bound to.
fn rebind(names: &mut [NameShape<'_>], depth: usize, bound: BoundShape) -> BoundShape
    requires { depth < length names.old }
    ensures names { names_view names.new ≡ undoing.bound_anew depth (bound_view bound) (names_view names.old) }
    ensures undo { undoing.bound_anew depth (bound_view result) (names_view names.new) ≡ names_view names.old }
{
    let index = names.len() - 1 - depth;
    mem::replace(&mut names[index].bound, bound)
}

// Undoes a change.
pub(crate) fn go_back(scope: &mut Scope<'_>, change: Undo)
    ensures { scope_view scope.new ≡ undoing.undone change (scope_view scope.old) }
{
    match change {
        Undo::Nothing => {}
        Undo::Root(shape) => scope.root = shape,
        Undo::Name(depth, bound) => {
            if depth < scope.names.len() {
                rebind(&mut scope.names, depth, bound);
            }
        }
    }
}
