// Steps of a walk, one for each kind of instruction.
ghost use Rattle.std.specs.Prelude.{◌≡◌, None, Some, ℕ, IfOk, OnOk, if◌then◌else◌, option_map};
ghost use Rattle.upon_types.specs.AstPath.{first_member, ident_of, loop_vars_of, rest_members, string_of};
ghost use Rattle.upon_types.specs.View.{view};
ghost use Rattle.upon_shape_spec.specs.Accepted.{is_planned};
ghost use Rattle.upon_shape_spec.specs.Doubts as doubts;
ghost use Rattle.upon_shape_spec.specs.ExpressionShapes.{literal_shape as spec_literal_shape};
ghost use Rattle.upon_machine_spec.specs.Instr as instr;
ghost use Rattle.upon_shape_spec.specs.Declared.{Declared as SpecDeclared};
ghost use Rattle.upon_shape_spec.specs.Scope.{Scope as SpecScope};
ghost use Rattle.upon_shape_spec.specs.Known as spec;
ghost use Rattle.upon_shape_spec.specs.ProgramDoubts as walks;
ghost use Rattle.upon_shape.specs.View.{shape_view};
ghost use Rattle.upon_shape_check.specs.Callables.{declared_view};
ghost use Rattle.upon_shape_check.specs.Doubt.{maybe_doubt};
ghost use Rattle.upon_shape_check.specs.Known.{known_view};
ghost use Rattle.upon_shape_check.specs.Plan.{plan_view};
ghost use Rattle.upon_shape_check.specs.Scope.{scope_view};
ghost use Rattle.upon_shape_check.specs.Steps.{AlwaysSteps, Steps, StepsDeclared};

use crate::declared::Declared;
use crate::doubt::{Doubt, Unsure};
use crate::found::path_found;
use crate::known::{Known, Operand};
use crate::loops::looped;
use crate::plan::Plan;
use crate::scope::{BoundShape, Scope};
use std::alloc::{AllocError, Global};
use upon_shape::shape::{Keys, Shape};
use upon_types::types::Span;
use upon_types::types::ast::{Ident, Literal, LoopVars, String as Quoted, Var};
use upon_types::value::Value;

// After a body the other case begins; at its own end a block is left.
pub(crate) fn jumps<'t>(
    alloc: Global,
    known: &mut Known<'t>,
    number: usize,
    to: usize,
) -> Result<Option<Doubt<'t>>, AllocError>
    ensures { IfOk result (λ d. AlwaysSteps
        number (known_view known.old) (instr.jump to) (maybe_doubt d) (known_view known.new)) }
{
    if to <= number {
        known.leave();
        Ok(None)
    } else {
        known.begin_other(alloc, to)?;
        Ok(None)
    }
}

// Begins the body of an `if`, in which the operand on top is true if `so` is, and else false.
pub(crate) fn tests<'t>(
    alloc: Global,
    known: &mut Known<'t>,
    so: bool,
    to: usize,
) -> Result<Option<Doubt<'t>>, AllocError>
    ensures { IfOk result (λ d. (number : ℕ) → AlwaysSteps
        number (known_view known.old) (if so then instr.jump_if_false to else instr.jump_if_true to) (maybe_doubt d)
        (known_view known.new)) }
{
    match known.pop() {
        None => Ok(None),
        Some(operand) => {
            known.test(alloc, so, to, operand.path)?;
            Ok(None)
        }
    }
}

// The operand on top is shown.
pub(crate) fn emits<'t>(declared: &Declared, known: &mut Known<'t>) -> Option<Doubt<'t>>
    ensures { (number : ℕ) → StepsDeclared (declared_view declared.now) number (known_view known.old) instr.emit
        (maybe_doubt result) (known_view known.new) }
{
    let operand = known.pop()?;
    text_doubt(declared, operand.place, operand.shape?)
}

// Returns the doubt that a value has a text.
pub(crate) fn text_doubt<'t>(declared: &Declared, place: Span, shape: Shape) -> Option<Doubt<'t>>
    ensures { (scope : SpecScope) → maybe_doubt result
        ≡ doubts.text_doubts (declared_view declared.now) scope place (shape_view shape) }
{
    if declared.default_formats.is_as_wide_as(&shape) {
        return None;
    }
    Some(Doubt {
        place,
        unsure: Unsure::HasText(shape),
    })
}

// A loop begins over the operand on top.
pub(crate) fn starts_loop<'t>(
    alloc: Global,
    known: &mut Known<'t>,
    names: &'t LoopVars,
    span: Span,
) -> Result<Option<Doubt<'t>>, AllocError>
    ensures { IfOk result (λ d. (number : ℕ) → AlwaysSteps
        number (known_view known.old) (instr.loop_start (loop_vars_of names.now) span) (maybe_doubt d)
        (known_view known.new)) }
{
    match known.pop() {
        None => Ok(None),
        Some(operand) => loops_over(alloc, known, names, span, or_never(operand.shape)),
    }
}

// A loop begins over a value of this shape.
fn loops_over<'t>(
    alloc: Global,
    known: &mut Known<'t>,
    names: &'t LoopVars,
    span: Span,
    shape: Shape,
) -> Result<Option<Doubt<'t>>, AllocError>
    ensures { IfOk result (λ d. (number : ℕ) (o : spec.KnownOperand) → shape_view shape ≡ doubts.or_never o.shape
        → AlwaysSteps
        number (spec.with_operand o (known_view known.old)) (instr.loop_start (loop_vars_of names.now) span)
        (maybe_doubt d)
        (known_view known.new)) }
{
    match looped(alloc, names, &shape)? {
        Some(item) => {
            known.bind_loop(names, item)?;
            Ok(None)
        }
        None => {
            known.bind_loop(names, Shape::never())?;
            Ok(Some(Doubt {
                place: span,
                unsure: Unsure::HasItems(shape),
            }))
        }
    }
}

// Returns the shape, or that of no value.
fn or_never(shape: Option<Shape>) -> Shape
    ensures { shape_view result ≡ doubts.or_never (option_map shape_view shape) }
{
    match shape {
        Some(shape) => shape,
        None => Shape::never(),
    }
}

// The operand on top gets a name.
pub(crate) fn starts_with<'t>(
    known: &mut Known<'t>,
    name: &'t Ident,
) -> Result<Option<Doubt<'t>>, AllocError>
    ensures { IfOk result (λ d. (number : ℕ) → AlwaysSteps
        number (known_view known.old) (instr.with_start (ident_of name.now)) (maybe_doubt d) (known_view known.new)) }
{
    match known.pop() {
        None => Ok(None),
        Some(operand) => {
            known.bind(
                name.name.as_str(),
                BoundShape::Value(or_never(operand.shape)),
            )?;
            Ok(None)
        }
    }
}

// The innermost block ends.
pub(crate) fn ends_with<'t>(known: &mut Known<'t>) -> Option<Doubt<'t>>
    ensures { (number : ℕ) → AlwaysSteps
        number (known_view known.old) instr.with_end (maybe_doubt result) (known_view known.new) }
{
    known.leave();
    None
}

// Another template is shown, which sees all names.
pub(crate) fn includes<'t>(
    alloc: Global,
    plan: &Plan<'_>,
    known: &Known<'t>,
    name: &'t Quoted,
) -> Result<Option<Doubt<'t>>, AllocError>
    ensures { IfOk result (λ d. (declared : SpecDeclared) (number : ℕ)
        → Steps declared (is_planned (plan_view plan.now))
        number (known_view known.now) (instr.include (string_of name.now)) (maybe_doubt d) (known_view known.now)) }
{
    if plan.is_planned(&name.value, &known.scope) {
        return Ok(None);
    }
    Ok(Some(not_included(name, known.scope.try_clone(alloc)?)))
}

// Returns the doubt that a template does not fail where this is known.
fn not_included<'t>(name: &'t Quoted, scope: Scope<'t>) -> Doubt<'t>
    ensures { maybe_doubt (Some result)
        ≡ doubts.doubt (string_of name.now).span
        (doubts.is_included (string_of name.now).text (scope_view scope.entry)) }
{
    Doubt {
        place: name.span,
        unsure: Unsure::IsIncluded(&name.value, scope),
    }
}

// Another template is shown, which sees the operand on top alone.
pub(crate) fn includes_with<'t>(
    alloc: Global,
    plan: &Plan<'_>,
    known: &mut Known<'t>,
    name: &'t Quoted,
) -> Option<Doubt<'t>>
    ensures { (declared : SpecDeclared) (number : ℕ) → Steps declared (is_planned (plan_view plan.now)) number
        (known_view known.old) (instr.include_with (string_of name.now)) (maybe_doubt result) (known_view known.new) }
{
    let operand = known.pop()?;
    included_doubt(plan, name, Scope::over(alloc, operand.shape?))
}

// Returns the doubt that a template does not fail where this is known, unless the plan has it.
fn included_doubt<'t>(plan: &Plan<'_>, name: &'t Quoted, scope: Scope<'t>) -> Option<Doubt<'t>>
    ensures { (declared : SpecDeclared) → maybe_doubt result
        ≡ walks.include_doubts declared (is_planned (plan_view plan.now)) (string_of name.now)
        (scope_view scope.entry) }
{
    if plan.is_planned(&name.value, &scope) {
        return None;
    }
    Some(not_included(name, scope))
}

// What a path leads to is left.
pub(crate) fn starts_var<'t>(
    alloc: Global,
    known: &mut Known<'t>,
    path: &'t Var,
) -> Result<Option<Doubt<'t>>, AllocError>
    ensures { IfOk result (λ d. (number : ℕ) → AlwaysSteps
        number (known_view known.old) (instr.expr_start_var (first_member path.now) (rest_members path.now))
        (maybe_doubt d)
        (known_view known.new)) }
{
    let found = path_found(alloc, &known.scope, path)?.parts();
    known.push(Operand {
        shape: found.0,
        place: path.span(),
        path: Some(path),
    })?;
    Ok(found.1)
}

// A value that occurs in the template is left.
pub(crate) fn starts_literal<'t>(
    known: &mut Known<'t>,
    literal: &Literal,
) -> Result<Option<Doubt<'t>>, AllocError>
    ensures { IfOk result (λ d. (number : ℕ) → AlwaysSteps
        number (known_view known.old) (instr.expr_start_literal (view literal.now.value) literal.now.span)
        (maybe_doubt d) (known_view known.new)) }
{
    leave(known, literal_shape(&literal.value), literal.span)?;
    Ok(None)
}

// Returns the shape of a value that occurs in a template.
fn literal_shape(value: &Value) -> Shape
    ensures { shape_view result ≡ spec_literal_shape (view value.now) }
{
    match value {
        Value::None => Shape::none(),
        Value::Bool(_) => Shape::truth(),
        Value::Integer(_) => Shape::integer(),
        Value::String(_) => Shape::text(),
        Value::List(_) => Shape::any(),
        Value::Map(_) => Shape::any(),
    }
}

// Leaves an operand of this shape that no path found.
fn leave<'t>(known: &mut Known<'t>, shape: Shape, place: Span) -> Result<(), AllocError>
    ensures { OnOk result (known_view known.new
        ≡ spec.with_operand (spec.known_operand (Some (shape_view shape)) place None) (known_view known.old)) }
{
    known.push(Operand {
        shape: Some(shape),
        place,
        path: None,
    })
}

// A list without items is left.
pub(crate) fn starts_list<'t>(
    alloc: Global,
    known: &mut Known<'t>,
    place: Span,
) -> Result<Option<Doubt<'t>>, AllocError>
    ensures { IfOk result (λ d. (number : ℕ) → AlwaysSteps
        number (known_view known.old) (instr.expr_start_list place) (maybe_doubt d) (known_view known.new)) }
{
    let shape = Shape::list_of(alloc, Shape::never())?;
    leave(known, shape, place)?;
    Ok(None)
}

// A map without entries is left.
pub(crate) fn starts_map<'t>(
    alloc: Global,
    known: &mut Known<'t>,
    place: Span,
) -> Result<Option<Doubt<'t>>, AllocError>
    ensures { IfOk result (λ d. (number : ℕ) → AlwaysSteps
        number (known_view known.old) (instr.expr_start_map place) (maybe_doubt d) (known_view known.new)) }
{
    let shape = Shape::map_of(Keys::no_others(alloc)?);
    leave(known, shape, place)?;
    Ok(None)
}
