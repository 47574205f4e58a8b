// The calls of functions on operands, and their faults.
ghost use Rattle.std.specs.Prelude.{◌≡◌, ◌∷◌, [], Err, IfOk, length, slice_get};
ghost use Rattle.upon_functions.specs.Says.{Says, misfit_of};
ghost use Rattle.upon_types.specs.Answers.{Answer, wrong_type, out_of_range};
ghost use Rattle.upon_types.specs.AstPath.{ident_of};
ghost use Rattle.upon_types.specs.Val.{int_val};
ghost use Rattle.upon_types.specs.View.{view};
ghost use Rattle.upon_meaning_spec.specs.CallFaults.{argument_misfits, number_text};
ghost use Rattle.upon_meaning_spec.specs.Evaluation.{answer_value, call_value, misfit_at, operand};
ghost use Rattle.upon_vm_steps.specs.Halt.{IsHalt, GivesFinding};
ghost use Rattle.upon_vm_steps.specs.Operands.{row};

use crate::callables::{Callables, Called};
use crate::fault::{self, Halt};
use std::alloc::{AllocError, Global};
use std::slice;
use upon_functions::function::{ArgError, CallError};
use upon_types::error::cause::{Argument, Cause};
use upon_types::types::Span;
use upon_types::types::ast::Ident;
use upon_types::types::ast::name::Name;
use upon_types::value::{Value, ValueCow};

/// Calls the function of a name on operands, and returns its value or its fault: of an argument at the argument, else
/// at the whole.
#[inline(always)]
pub fn call<C: Callables>(
    alloc: Global,
    callables: &C,
    name: &Ident,
    values: &[ValueCow],
    spans: &[Span],
    whole: Span,
) -> Result<Value, Halt>
    requires { length values.now ≡ length spans.now }
    ensures { GivesFinding
        result
        (call_value (ident_of name.now) whole (row values.now spans.now)
        (C.callables callables.now name.now.name)) }
{
    match callables.call(alloc, name.name.as_str(), values) {
        Called::Unknown => Err(fault::wrong(alloc, Cause::UnknownFunction, name.span)),
        Called::Formatter => Err(fault::wrong(alloc, Cause::FormatterFound, name.span)),
        Called::Function(answer) => report(alloc, answer, name, values, spans, whole),
    }
}

/// Does the same on one value of a span.
#[inline(always)]
pub fn call_on<C: Callables>(
    alloc: Global,
    callables: &C,
    name: &Ident,
    value: &Value,
    span: Span,
    whole: Span,
) -> Result<Value, Halt>
    ensures { GivesFinding
        result
        (call_value (ident_of name.now) whole (operand (view value.now) span ∷ [])
        (C.callables callables.now name.now.name)) }
{
    let given = ValueCow::Borrowed(value);
    let values = slice::from_ref(&given);
    let spans = slice::from_ref(&span);
    call(alloc, callables, name, values, spans, whole)
}

// The value of an answer, or its fault.
#[inline(always)]
pub(crate) fn report(
    alloc: Global,
    answer: Result<Value, CallError>,
    name: &Ident,
    values: &[ValueCow],
    spans: &[Span],
    whole: Span,
) -> Result<Value, Halt>
    requires { length values.now ≡ length spans.now }
    ensures { (a : Answer) → Says answer a → GivesFinding result
        (answer_value (ident_of name.now) whole (row values.now spans.now) a) }
{
    match answer {
        Ok(value) => Ok(value),
        Err(error) => Err(refused(alloc, error, name, values, spans, whole)),
    }
}

// Why a call gives no value. It is rare, so it is out of line.
#[cold]
#[inline(never)]
fn refused(
    alloc: Global,
    error: CallError,
    name: &Ident,
    values: &[ValueCow],
    spans: &[Span],
    whole: Span,
) -> Halt
    requires { length values.now ≡ length spans.now }
    ensures { (a : Answer) → Says (Err error) a → GivesFinding (Err result)
        (answer_value (ident_of name.now) whole (row values.now spans.now) a) }
{
    match error {
        CallError::Arity(expected) => {
            fault::function_expects(alloc, expected, values.len(), whole)
        }
        CallError::Arg(index, error) => misfit(alloc, name, index, error, values, spans, whole),
        CallError::Fault(text) => fault::function_declined(text, whole),
        CallError::Memory => Halt::Memory,
    }
}

// An argument that does not fit.
#[tactic(auto, using(crate::proofs::Rows::row_at, crate::proofs::Rows::row_past))]
fn misfit(
    alloc: Global,
    name: &Ident,
    index: usize,
    error: ArgError,
    values: &[ValueCow],
    spans: &[Span],
    whole: Span,
) -> Halt
    requires { length values.now ≡ length spans.now }
    ensures { IsHalt (misfit_at (ident_of name.now) (misfit_of error) (slice_get (row values.now spans.now) index)
        whole) result }
{
    if index < values.len() {
        return argument_misfits(
            alloc,
            name.name.as_str(),
            error,
            &values[index],
            spans[index],
        );
    }
    fault::function_declined(String::new(alloc), whole)
}

// The fault of an argument that is given.
fn argument_misfits(alloc: Global, name: &str, error: ArgError, value: &Value, span: Span) -> Halt
    ensures { IsHalt (argument_misfits name.now (misfit_of error) (view value.now) span) result }
{
    match error {
        ArgError::WrongType(word) => wrong_type(alloc, name, word, value, span),
        ArgError::OutOfRange(word) => match value {
            Value::Integer(number) => number_out_of_range(alloc, name, word, *number, span),
            _ => out_of_range(alloc, name, word, value, span),
        },
    }
}

// An argument is of another kind.
fn wrong_type(alloc: Global, name: &str, word: &str, value: &Value, span: Span) -> Halt
    ensures { IsHalt (argument_misfits name.now (wrong_type word.now) (view value.now) span) result }
{
    match argument_of(alloc, name, word) {
        Ok(argument) => fault::wrong(alloc, Cause::WrongType(argument, value.kind()), span),
        Err(_) => Halt::Memory,
    }
}

// An argument is an integer that its type does not hold.
fn number_out_of_range(alloc: Global, name: &str, word: &str, number: i64, span: Span) -> Halt
    ensures { IsHalt (argument_misfits name.now (out_of_range word.now) (int_val number) span) result }
{
    match argument_of(alloc, name, word) {
        Ok(argument) => fault::wrong(alloc, Cause::OutOfRange(argument, Some(number)), span),
        Err(_) => Halt::Memory,
    }
}

// Out of range, which only an integer can be.
fn out_of_range(alloc: Global, name: &str, word: &str, value: &Value, span: Span) -> Halt
    requires { number_text (view value.now) ≡ [] }
    ensures { IsHalt (argument_misfits name.now (out_of_range word.now) (view value.now) span) result }
{
    let _ = value;
    match argument_of(alloc, name, word) {
        Ok(argument) => fault::wrong(alloc, Cause::OutOfRange(argument, None), span),
        Err(_) => Halt::Memory,
    }
}

// An argument of the function of a name, which expects this type.
fn argument_of(alloc: Global, name: &str, word: &str) -> Result<Argument, AllocError>
    ensures function { IfOk result (λ argument. argument.function ≡ name.now) }
    ensures wanted { IfOk result (λ argument. argument.wanted ≡ word.now) }
{
    let function = Name::from_str(alloc, name)?;
    let wanted = Name::from_str(alloc, word)?;
    Ok(Argument { function, wanted })
}
