// What is not sure in a template, and where.

use crate::scope::Scope;
use upon_shape::shape::Shape;
use upon_types::types::Span;

/// What is not sure.
#[derive(Drop)]
pub enum Unsure<'t> {
    /// That a value of this shape has the member.
    HasMember(Shape),
    /// That the key or the state of a loop has the member.
    LoopHasMember,
    /// That a callable takes values of these shapes.
    TakesValues(Vec<Shape>),
    /// That a value of this shape has a text.
    HasText(Shape),
    /// That a value of this shape has items for the names of a loop.
    HasItems(Shape),
    /// That the template of this name does not fail where this is known.
    IsIncluded(&'t str, Scope<'t>),
}

/// What is not sure, and where.
#[derive(Drop)]
pub struct Doubt<'t> {
    /// Where.
    pub place: Span,
    /// What.
    pub unsure: Unsure<'t>,
}
