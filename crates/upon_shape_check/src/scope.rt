// What is known of names, and of the context under them.
ghost use Rattle.std.specs.Prelude.{◌≡◌, ◌∷◌, [], None, Some, MatchOption, IfOk, OnOk, OnErr, drop, option_copied, option_map};
ghost use Rattle.upon_shape_spec.specs.Scope as spec;
ghost use Rattle.upon_shape.specs.View.{shape_view};
ghost use Rattle.upon_shape_check.specs.Scope.{bound_view, name_depth, names_view, scope_view};

use std::alloc::{AllocError, Global};
use upon_shape::shape::Shape;

/// What is known of what a name is bound to.
#[derive(Drop)]
pub enum BoundShape {
    /// A value of this shape.
    Value(Shape),
    /// The key of a loop over a map.
    LoopKey,
    /// The state of a loop.
    Loop,
}

/// A name, and what is known of what it is bound to.
#[derive(Drop)]
pub struct NameShape<'t> {
    /// The name.
    pub name: &'t str,
    /// What is known.
    pub bound: BoundShape,
}

/// What is known of the names that are bound, of which the last is innermost, and of the context under them.
#[derive(Drop)]
pub struct Scope<'t> {
    pub(crate) names: Vec<NameShape<'t>>,
    pub(crate) root: Shape,
}

impl BoundShape {
    /// Returns a copy. It fails if there is no memory for it.
    pub fn try_clone(&self, alloc: Global) -> Result<BoundShape, AllocError>
        ensures { IfOk result (λ copy. bound_view copy ≡ bound_view self.now) }
    {
        match self {
            BoundShape::Value(shape) => Ok(BoundShape::Value(shape.try_clone(alloc)?)),
            BoundShape::LoopKey => Ok(BoundShape::LoopKey),
            BoundShape::Loop => Ok(BoundShape::Loop),
        }
    }

    /// Returns whether it is at least as wide as another.
    pub fn is_as_wide_as(&self, other: &BoundShape) -> bool
        ensures { result ≡ spec.bound_wider (bound_view self.now) (bound_view other.now) }
    {
        match (self, other) {
            (BoundShape::Value(shape), BoundShape::Value(other)) => shape.is_as_wide_as(other),
            (BoundShape::LoopKey, BoundShape::LoopKey) => true,
            (BoundShape::Loop, BoundShape::Loop) => true,
            _ => false,
        }
    }
}

impl<'t> Scope<'t> {
    /// Returns a context alone.
    pub fn over(alloc: Global, root: Shape) -> Scope<'t>
        ensures { scope_view result ≡ spec.scope_over (shape_view root) }
    {
        Scope {
            names: Vec::new(alloc),
            root,
        }
    }

    /// Binds a name, the innermost. If there is no memory, nothing changes.
    pub fn bind(&mut self, name: &'t str, bound: BoundShape) -> Result<(), AllocError>
        ensures ok { OnOk result (scope_view self.new
            ≡ spec.with_names (spec.name_shape name.now (bound_view bound) ∷ []) (scope_view self.old)) }
        ensures err { OnErr result (scope_view self.new ≡ scope_view self.old) }
    {
        self.names.push(NameShape { name, bound })?;
        Ok(())
    }

    /// Leaves so many of the innermost names.
    pub(crate) fn leave(&mut self, count: usize)
        ensures { scope_view self.new ≡ record (scope_view self.old)
            { names = drop count (scope_view self.old).names } }
    {
        let kept = self.names.len().saturating_sub(count);
        self.names.truncate(kept);
    }

    /// Returns a copy. It fails if there is no memory for it.
    pub fn try_clone(&self, alloc: Global) -> Result<Scope<'t>, AllocError>
        ensures { IfOk result (λ copy. scope_view copy ≡ scope_view self.now) }
    {
        let mut names = Vec::with_capacity(alloc, self.names.len())?;
        for name in &self.names {
            names.push(NameShape {
                name: name.name,
                bound: name.bound.try_clone(alloc)?,
            })?;
        }
        Ok(Scope {
            names,
            root: self.root.try_clone(alloc)?,
        })
    }

    /// Returns whether it is at least as wide as another: of each name that either has, and of the context.
    pub fn is_as_wide_as(&self, other: &Scope<'_>) -> bool
        ensures { result ≡ spec.scope_wider (scope_view self.now) (scope_view other.now) }
    {
        self.root.is_as_wide_as(&other.root)
            && names_are_as_wide(&self.names, &self.names, &other.names)
            && names_are_as_wide(&other.names, &self.names, &other.names)
    }
}

// Where a name is bound.
#[derive(Clone, Copy)]
pub(crate) struct Place<'a> {
    // How many names are innermore.
    pub(crate) depth: usize,
    // What is known.
    pub(crate) bound: &'a BoundShape,
}

// Returns where the innermost binding of a name is.
pub(crate) fn find<'a>(names: &'a [NameShape<'_>], name: &str) -> Option<Place<'a>>
    ensures { MatchOption
        result
        ((name_depth name.now (names_view names.now) ≡ None)
        × (spec.first_bound_shape name.now (names_view names.now) ≡ None))
        (λ found. (name_depth name.now (names_view names.now) ≡ Some found.depth)
        × (spec.first_bound_shape name.now (names_view names.now) ≡ Some (bound_view found.bound.now))) }
{
    let mut left = names.len();
    while left > 0 {
        left -= 1;
        if name == names[left].name {
            return Some(Place {
                depth: names.len() - 1 - left,
                bound: &names[left].bound,
            });
        }
    }
    None
}

// Returns what is known of the innermost binding of a name.
pub(crate) fn bound_to<'a>(names: &'a [NameShape<'_>], name: &str) -> Option<&'a BoundShape>
    ensures { option_map bound_view (option_copied result) ≡ spec.first_bound_shape name.now (names_view names.now) }
{
    match find(names, name) {
        Some(place) => Some(place.bound),
        None => None,
    }
}

// Returns whether each of these names is bound in neither, or in both, in the first at least as widely.
fn names_are_as_wide(
    names: &[NameShape<'_>],
    wide: &[NameShape<'_>],
    others: &[NameShape<'_>],
) -> bool
    ensures { result ≡ spec.names_wider (names_view names.now) (names_view wide.now) (names_view others.now) }
{
    let mut left = names.len();
    while left > 0 {
        left -= 1;
        if !is_bound_as_widely(
            bound_to(wide, names[left].name),
            bound_to(others, names[left].name),
        ) {
            return false;
        }
    }
    true
}

// Returns whether a name is bound in neither, or in both, in the first at least as widely.
fn is_bound_as_widely(wide: Option<&BoundShape>, other: Option<&BoundShape>) -> bool
    ensures { result ≡ spec.both_wider (option_map bound_view (option_copied wide.entry))
        (option_map bound_view (option_copied other.entry)) }
{
    match (wide, other) {
        (Some(wide), Some(other)) => wide.is_as_wide_as(other),
        (None, None) => true,
        _ => false,
    }
}
