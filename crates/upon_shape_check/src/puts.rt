// Steps of a walk inside literals of lists and maps.
ghost use Rattle.std.specs.Prelude.{◌≡◌, ℕ, false, IfErr, IfOk, MatchResult, option_map};
ghost use Rattle.upon_shape_spec.specs.Known.{both_shapes, with_operand};
ghost use Rattle.upon_shape.specs.View.{shape_view};
ghost use Rattle.upon_shape_check.specs.DeepLiterals.{EndsAtOne, put_too_deep};
ghost use Rattle.upon_shape_check.specs.Depth.{RefusesLiteral, is_too_deep};
ghost use Rattle.upon_shape_check.specs.Doubt.{maybe_doubt};
ghost use Rattle.upon_shape_check.specs.Known.{known_view, operand_view};
ghost use Rattle.upon_shape_check.specs.Puts.{part_instr, with_part as spec_with_part};
ghost use Rattle.upon_shape_check.specs.Steps.{AlwaysSteps};

use crate::doubt::Doubt;
use crate::known::{Known, Operand};
use crate::unchecked::Unchecked;
use std::alloc::{AllocError, Global};
use upon_shape::shape::Shape;
use upon_types::types::Span;
use upon_types::types::ast::String as Quoted;

// How many levels of lists and maps there are at most in what is put into a literal: shapes are worked on by
// recursion.
const DEEPEST: usize = 128;

// What the operand on top becomes in the literal under it.
#[derive(Clone, Copy)]
pub(crate) enum Part<'a> {
    // The last item of a list.
    Item,
    // What a map has at this key.
    Entry(&'a Quoted),
}

// The operand on top is put into the literal under it.
pub(crate) fn puts<'t>(
    alloc: Global,
    known: &mut Known<'t>,
    part: Part<'_>,
) -> Result<Option<Doubt<'t>>, Unchecked>
    ensures steps { IfOk result (λ d. (number : ℕ) → AlwaysSteps
        number (known_view known.old) (part_instr part.entry) (maybe_doubt d) (known_view known.new)) }
    ensures deep { IfErr result (EndsAtOne (put_too_deep (known_view known.old))) }
{
    match known.pop() {
        None => Ok(None),
        Some(added) => put_into(alloc, known, part, added),
    }
}

// This operand is put into the literal on top.
fn put_into<'t>(
    alloc: Global,
    known: &mut Known<'t>,
    part: Part<'_>,
    added: Operand<'t>,
) -> Result<Option<Doubt<'t>>, Unchecked>
    ensures steps { IfOk result (λ d. (number : ℕ) → AlwaysSteps
        number (with_operand (operand_view added.entry) (known_view known.old)) (part_instr part.entry) (maybe_doubt d)
        (known_view known.new)) }
    ensures deep { IfErr result
        (EndsAtOne (put_too_deep (with_operand (operand_view added.entry) (known_view known.old)))) }
{
    match known.pop() {
        None => {
            known.push(added)?;
            Ok(None)
        }
        Some(into) => {
            let shape = shape_with(alloc, into.place, part, into.shape, added.shape)?;
            known.push(Operand {
                shape,
                place: into.place,
                path: into.path,
            })?;
            Ok(None)
        }
    }
}

// Returns the shape of a literal into which something is put, if both are sure to come to something.
fn shape_with(
    alloc: Global,
    place: Span,
    part: Part<'_>,
    into: Option<Shape>,
    added: Option<Shape>,
) -> Result<Option<Shape>, Unchecked>
    ensures shape { IfOk result (λ s. option_map shape_view s
        ≡ both_shapes (spec_with_part part.entry) (option_map shape_view into) (option_map shape_view added)) }
    ensures deep { MatchResult
        result
        (λ s. is_too_deep 128 (option_map shape_view into) (option_map shape_view added) ≡ false)
        (RefusesLiteral place (is_too_deep 128 (option_map shape_view into) (option_map shape_view added))) }
{
    match (into, added) {
        (Some(into), Some(added)) => {
            if added.is_deeper_than(DEEPEST) {
                return Err(Unchecked::TooDeep(place));
            }
            Ok(Some(with_part(alloc, part, into, added)?))
        }
        _ => Ok(None),
    }
}

// Returns the shape of a literal of this shape into which something of that shape is put.
fn with_part(alloc: Global, part: Part<'_>, into: Shape, added: Shape) -> Result<Shape, AllocError>
    ensures { IfOk result (λ s. shape_view s ≡ spec_with_part part.entry (shape_view into) (shape_view added)) }
{
    match part {
        Part::Item => into.with_item(alloc, &added),
        Part::Entry(key) => into.with_entry(key.value.clone()?, added),
    }
}
