// Steps of a walk at calls.
ghost use Rattle.std.specs.Prelude.{◌≡◌, None, Some, ℕ, IfOk, map, option_copied, option_map};
ghost use Rattle.upon_types.specs.AstPath.{ident_of};
ghost use Rattle.upon_machine_spec.specs.Instr as instr;
ghost use Rattle.upon_shape_spec.specs.Doubts as doubts;
ghost use Rattle.upon_shape_spec.specs.ExpressionShapes.{call_shape, value_given};
ghost use Rattle.upon_shape_spec.specs.Scope.{Scope as SpecScope};
ghost use Rattle.upon_shape_spec.specs.ProgramDoubts as walks;
ghost use Rattle.upon_shape.specs.View.{shape_view};
ghost use Rattle.upon_shape_check.specs.Callables.{callable_view, declared_view};
ghost use Rattle.upon_shape_check.specs.Doubt.{maybe_doubt};
ghost use Rattle.upon_shape_check.specs.Known.{known_view, operand_view};
ghost use Rattle.upon_shape_check.specs.Steps.{StepsDeclared};

use crate::declared::{Declared, DeclaredCallable, given_by, is_formatted};
use crate::doubt::{Doubt, Unsure};
use crate::known::{Known, Operand};
use crate::steps::text_doubt;
use std::alloc::{AllocError, Global};
use upon_shape::shape::Shape;
use upon_types::types::Span;
use upon_types::types::ast::Ident;

// What a callable makes of so many operands is shown.
pub(crate) fn emits_with<'t>(
    alloc: Global,
    declared: &Declared,
    known: &mut Known<'t>,
    name: &Ident,
    count: usize,
    whole: Span,
) -> Result<Option<Doubt<'t>>, AllocError>
    ensures { IfOk result (λ d. (number : ℕ) → StepsDeclared (declared_view declared.now) number (known_view known.old)
        (instr.emit_with (ident_of name.now) count whole) (maybe_doubt d) (known_view known.new)) }
{
    match known.take(count)? {
        None => Ok(None),
        Some(operands) => shown_of(alloc, declared, name, whole, &operands),
    }
}

// Returns the doubt that what a callable gives for operands is shown, if all are sure to come to something.
fn shown_of<'t>(
    alloc: Global,
    declared: &Declared,
    name: &Ident,
    whole: Span,
    operands: &[Operand<'_>],
) -> Result<Option<Doubt<'t>>, AllocError>
    ensures { IfOk result (λ d. (scope : SpecScope) → maybe_doubt d
        ≡ doubts.if_some (walks.shapes_of (map operand_view operands.now))
        (doubts.shown_call_doubts (declared_view declared.now) scope name.now.span whole
        ((declared_view declared.now).callables (ident_of name.now).text))) }
{
    match shapes_of(alloc, operands)? {
        None => Ok(None),
        Some(shapes) => shown_doubt(alloc, declared, name, whole, shapes),
    }
}

// Returns the shapes of operands, if all are sure to come to something.
fn shapes_of(alloc: Global, operands: &[Operand<'_>]) -> Result<Option<Vec<Shape>>, AllocError>
    ensures { IfOk result (λ some. option_map (λ shapes. map shape_view shapes.items) some
        ≡ walks.shapes_of (map operand_view operands.now)) }
{
    let mut shapes = Vec::with_capacity(alloc, operands.len())?;
    for operand in operands {
        match &operand.shape {
            None => return Ok(None),
            Some(shape) => shapes.push(shape.try_clone(alloc)?)?,
        }
    }
    Ok(Some(shapes))
}

// Returns the doubt that what a callable gives is shown.
fn shown_doubt<'t>(
    alloc: Global,
    declared: &Declared,
    name: &Ident,
    whole: Span,
    shapes: Vec<Shape>,
) -> Result<Option<Doubt<'t>>, AllocError>
    ensures { IfOk result (λ d. (scope : SpecScope) → maybe_doubt d
        ≡ doubts.shown_call_doubts (declared_view declared.now) scope name.now.span whole
        ((declared_view declared.now).callables (ident_of name.now).text) (map shape_view shapes.items)) }
{
    match declared.callable(name.name.as_str()) {
        None => Ok(Some(not_taken(name.span, shapes))),
        Some(callable) => shown_by(alloc, declared, callable, name.span, whole, shapes),
    }
}

// Returns the doubt that what this callable gives is shown.
fn shown_by<'t>(
    alloc: Global,
    declared: &Declared,
    callable: &DeclaredCallable,
    place: Span,
    whole: Span,
    shapes: Vec<Shape>,
) -> Result<Option<Doubt<'t>>, AllocError>
    ensures { IfOk result (λ d. (scope : SpecScope) → maybe_doubt d
        ≡ doubts.shown_call_doubts (declared_view declared.now) scope place whole (Some (callable_view callable.now))
        (map shape_view shapes.items)) }
{
    match callable {
        DeclaredCallable::Gives(signatures) => {
            let given = given_by(signatures, &shapes);
            shown_value(alloc, declared, place, whole, given, shapes)
        }
        DeclaredCallable::Formats(shape) => {
            if is_formatted(shape, &shapes) {
                Ok(None)
            } else {
                Ok(Some(not_taken(place, shapes)))
            }
        }
    }
}

// Returns the doubt that what a function gives has a text.
fn shown_value<'t>(
    alloc: Global,
    declared: &Declared,
    place: Span,
    whole: Span,
    given: Option<&Shape>,
    shapes: Vec<Shape>,
) -> Result<Option<Doubt<'t>>, AllocError>
    ensures { IfOk result (λ d. (scope : SpecScope) → maybe_doubt d
        ≡ doubts.shown_value_doubts (declared_view declared.now) scope place whole (map shape_view shapes.items)
        (option_map shape_view (option_copied given.entry))) }
{
    match given {
        None => Ok(Some(not_taken(place, shapes))),
        Some(shape) => Ok(text_doubt(declared, whole, shape.try_clone(alloc)?)),
    }
}

// Returns the doubt that a callable takes values of these shapes.
fn not_taken<'t>(place: Span, shapes: Vec<Shape>) -> Doubt<'t>
    ensures { maybe_doubt (Some result) ≡ doubts.doubt place (doubts.takes_values (map shape_view shapes.items)) }
{
    Doubt {
        place,
        unsure: Unsure::TakesValues(shapes),
    }
}

// What a function gives for so many operands is left.
pub(crate) fn applies<'t>(
    alloc: Global,
    declared: &Declared,
    known: &mut Known<'t>,
    name: &Ident,
    count: usize,
    place: Span,
) -> Result<Option<Doubt<'t>>, AllocError>
    ensures { IfOk result (λ d. (number : ℕ) → StepsDeclared (declared_view declared.now) number (known_view known.old)
        (instr.apply (ident_of name.now) count place) (maybe_doubt d) (known_view known.new)) }
{
    match known.take(count)? {
        None => Ok(None),
        Some(operands) => {
            let given = called(alloc, declared, name, &operands)?;
            known.push(Operand {
                shape: given.0,
                place,
                path: None,
            })?;
            Ok(given.1)
        }
    }
}

// Returns the shape of what a call gives for operands, or else the doubt that the callable takes them, if all are sure
// to come to something.
fn called<'t>(
    alloc: Global,
    declared: &Declared,
    name: &Ident,
    operands: &[Operand<'_>],
) -> Result<(Option<Shape>, Option<Doubt<'t>>), AllocError>
    ensures shape { IfOk result (λ both. option_map shape_view both.0
        ≡ call_shape ((declared_view declared.now).callables (ident_of name.now).text)
        (walks.shapes_of (map operand_view operands.now))) }
    ensures doubt { IfOk result (λ both. maybe_doubt both.1
        ≡ doubts.if_some (walks.shapes_of (map operand_view operands.now)) (doubts.given_doubts name.now.span
        ((declared_view declared.now).callables (ident_of name.now).text))) }
{
    match shapes_of(alloc, operands)? {
        None => Ok((None, None)),
        Some(shapes) => given_for(alloc, declared, name, shapes),
    }
}

// Returns the shape of what a call gives, or else the doubt that the callable takes the values.
fn given_for<'t>(
    alloc: Global,
    declared: &Declared,
    name: &Ident,
    shapes: Vec<Shape>,
) -> Result<(Option<Shape>, Option<Doubt<'t>>), AllocError>
    ensures shape { IfOk result (λ both. option_map shape_view both.0
        ≡ value_given ((declared_view declared.now).callables (ident_of name.now).text) (map shape_view shapes.items)) }
    ensures doubt { IfOk result (λ both. maybe_doubt both.1
        ≡ doubts.given_doubts name.now.span ((declared_view declared.now).callables (ident_of name.now).text)
        (map shape_view shapes.items)) }
{
    match declared.value_given(name.name.as_str(), &shapes) {
        Some(shape) => Ok((Some(shape.try_clone(alloc)?), None)),
        None => Ok((None, Some(not_taken(name.span, shapes)))),
    }
}
