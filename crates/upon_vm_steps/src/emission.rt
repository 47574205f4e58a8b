// What is shown: a value through a formatter, into an output.
ghost use Rattle.std.specs.Prelude.{◌≡◌, ◌∷◌, [], false, length, IfSome};
ghost use Rattle.std.specs.Fmt.{signed_decimal};
ghost use Rattle.upon_types.specs.Answers.{Formatted};
ghost use Rattle.upon_types.specs.AstPath.{ident_of};
ghost use Rattle.upon_types.specs.Val.{Val};
ghost use Rattle.upon_types.specs.View.{view};
ghost use Rattle.upon_lookup.specs.Finding.{Finding};
ghost use Rattle.upon_lookup.specs.Seen.{made_view};
ghost use Rattle.upon_meaning_spec.specs.Emission.{callable_outcome, format_outcome, nothing_but, or_fault};
ghost use Rattle.upon_meaning_spec.specs.Evaluation.{operand};
ghost use Rattle.upon_meaning_spec.specs.DefaultFormat.{bool_text, default_format};
ghost use Rattle.upon_meaning_spec.specs.CallFaults.{unknown_callable};
ghost use Rattle.upon_fmt.specs.Formatter.{text_of, is_marked, Formats, HasEnd};
ghost use Rattle.upon_fmt.specs.Given.{Gave};
ghost use Rattle.upon_vm_steps.specs.Halt.{Emits, GivesFinding, Marks};
ghost use Rattle.upon_vm_steps.specs.Operands.{row};

use crate::callables::{Applied, Callables};
use crate::calls::report;
use crate::fault::{self, Fault, FaultKind, Halt};
use itoa::Buffer;
use std::alloc::Global;
use std::slice;
use upon_fmt::fmt::{self, Formatter};
use upon_fmt::output::Output;
use upon_lookup::value::Made;
use upon_types::error::cause::Cause;
use upon_types::types::Span;
use upon_types::types::ast::Ident;
use upon_types::value::{Value, ValueCow};

/// Shows a value by the default formatter, whose fault lies at the span. It writes into `f`, whose text and mark are
/// taken away first; but what the plain one writes of a text, an integer or a truth value goes out without `f`.
pub fn emit_value<C: Callables, W: Output>(
    callables: &C,
    value: &Value,
    span: Span,
    f: &mut Formatter,
    out: &mut W,
) -> Result<(), Halt>
    ensures same { W.holds out.new ≡ W.holds out.old }
    ensures mark { Marks result (W.mark out.old) (W.mark out.new) }
    ensures emitted { Emits
        result
        (W.given out.old)
        (W.given out.new)
        (format_outcome (C.default_formatter callables.now (view value.now)) span) }
{
    if callables.is_plain() {
        if let Some(part) = plain_part(value) {
            return match give_part(part, out) {
                Ok(()) => Ok(()),
                Err(_) => Err(Halt::Output),
            };
        }
    }
    emit_formatted(callables, value, span, f, out)
}

/// Does the same of what a loop says of itself. It becomes a value only if the default formatter is not the plain one.
pub fn emit_made<C: Callables, W: Output>(
    callables: &C,
    made: Made<'_>,
    span: Span,
    f: &mut Formatter,
    out: &mut W,
) -> Result<(), Halt>
    ensures same { W.holds out.new ≡ W.holds out.old }
    ensures mark { Marks result (W.mark out.old) (W.mark out.new) }
    ensures emitted { Emits
        result
        (W.given out.old)
        (W.given out.new)
        (format_outcome (C.default_formatter callables.now (made_view made.entry)) span) }
{
    if callables.is_plain() {
        return match give_part(made, out) {
            Ok(()) => Ok(()),
            Err(_) => Err(Halt::Output),
        };
    }
    match made.to_value(f.allocator()) {
        Ok(value) => emit_formatted(callables, &value, span, f, out),
        Err(_) => Err(Halt::Memory),
    }
}

/// Shows what the formatter or the function of a name makes of operands. A formatter writes into `f`, whose text and
/// mark are taken away first.
pub fn emit_with<C: Callables, W: Output>(
    alloc: Global,
    callables: &C,
    name: &Ident,
    values: &[ValueCow],
    spans: &[Span],
    whole: Span,
    f: &mut Formatter,
    out: &mut W,
) -> Result<(), Halt>
    requires { length values.now ≡ length spans.now }
    ensures same { W.holds out.new ≡ W.holds out.old }
    ensures mark { Marks result (W.mark out.old) (W.mark out.new) }
    ensures emitted { Emits
        result
        (W.given out.old)
        (W.given out.new)
        (callable_outcome (C.default_formatter callables.now) (ident_of name.now) whole (row values.now spans.now)
        (C.callables callables.now name.now.name)) }
{
    f.clear();
    match callables.apply(alloc, name.name.as_str(), &mut *f, values) {
        Applied::Formatted(end) => give(&*f, end, name.span, out),
        Applied::Called(answer) => {
            let found = report(alloc, answer, name, values, spans, name.span);
            emit_found(callables, found, whole, f, out)
        }
        Applied::Miscounted => Err(fault::formatter_expects(alloc, values.len(), name.span)),
        Applied::Unknown => emit_unknown(alloc, name, out),
    }
}

/// Shows what the formatter or the function of a name makes of one value of a span, as [`emit_with`] does.
#[inline(always)]
pub fn emit_with_one<C: Callables, W: Output>(
    alloc: Global,
    callables: &C,
    name: &Ident,
    value: &Value,
    span: Span,
    whole: Span,
    f: &mut Formatter,
    out: &mut W,
) -> Result<(), Halt>
    ensures same { W.holds out.new ≡ W.holds out.old }
    ensures mark { Marks result (W.mark out.old) (W.mark out.new) }
    ensures emitted { Emits
        result
        (W.given out.old)
        (W.given out.new)
        (callable_outcome (C.default_formatter callables.now) (ident_of name.now) whole
        (operand (view value.now) span ∷ [])
        (C.callables callables.now name.now.name)) }
{
    let given = ValueCow::Borrowed(value);
    let values = slice::from_ref(&given);
    let spans = slice::from_ref(&span);
    emit_with(alloc, callables, name, values, spans, whole, f, out)
}

// The name is no callable's.
fn emit_unknown<W: Output>(alloc: Global, name: &Ident, out: &W) -> Result<(), Halt>
    ensures { Emits result (W.given out.now) (W.given out.now) (nothing_but (unknown_callable name.now.span)) }
{
    let _ = out;
    Err(fault::wrong(alloc, Cause::UnknownCallable, name.span))
}

// A function's value goes through the default formatter, whose fault lies at the whole.
#[inline(always)]
fn emit_found<C: Callables, W: Output>(
    callables: &C,
    found: Result<Value, Halt>,
    whole: Span,
    f: &mut Formatter,
    out: &mut W,
) -> Result<(), Halt>
    ensures same { W.holds out.new ≡ W.holds out.old }
    ensures mark { Marks result (W.mark out.old) (W.mark out.new) }
    ensures emitted { (x : Finding Val) → GivesFinding found x → Emits
        result
        (W.given out.old)
        (W.given out.new)
        (or_fault x (λ v. format_outcome (C.default_formatter callables.now v) whole)) }
{
    match found {
        Ok(value) => emit_value(callables, &value, whole, f, out),
        Err(halt) => Err(halt),
    }
}

// Shows any value by the default formatter, which writes into `f`, whose text and mark are taken away first.
fn emit_formatted<C: Callables, W: Output>(
    callables: &C,
    value: &Value,
    span: Span,
    f: &mut Formatter,
    out: &mut W,
) -> Result<(), Halt>
    ensures same { W.holds out.new ≡ W.holds out.old }
    ensures mark { Marks result (W.mark out.old) (W.mark out.new) }
    ensures emitted { Emits
        result
        (W.given out.old)
        (W.given out.new)
        (format_outcome (C.default_formatter callables.now (view value.now)) span) }
{
    f.clear();
    let end = callables.default_format(&mut *f, value);
    give(&*f, end, span, out)
}

// The text, the integer or the truth value that a value is.
#[inline(always)]
fn plain_part(value: &Value) -> Option<Made<'_>>
    ensures { IfSome result (λ part. view value.now ≡ made_view part) }
{
    match value {
        Value::String(text) => Some(Made::Text(text.as_str())),
        Value::Integer(number) => Some(Made::Integer(*number)),
        Value::Bool(truth) => Some(Made::Bool(*truth)),
        _ => None,
    }
}

// What the plain formatter writes of it goes out, without a buffer. The output's own answer is returned: it is smaller
// than one with a halt, which each call on the way would copy.
#[inline(always)]
fn give_part<W: Output>(part: Made<'_>, out: &mut W) -> std::fmt::Result
    ensures same { W.holds out.new ≡ W.holds out.old }
    ensures gave { Gave
        (W.given out.old)
        (W.given out.new)
        (W.mark out.old)
        (W.mark out.new)
        result
        (default_format (made_view part.entry)).text }
{
    match part {
        Made::Text(text) => out.give(text),
        Made::Integer(number) => give_number(number, out),
        Made::Bool(truth) => out.give(word_of(truth)),
    }
}

// The word of a truth value.
fn word_of(truth: bool) -> &'static str
    ensures { result.now ≡ bool_text truth }
{
    if truth { "true" } else { "false" }
}

// An integer goes out in decimal.
#[inline(always)]
fn give_number<W: Output>(number: i64, out: &mut W) -> std::fmt::Result
    ensures same { W.holds out.new ≡ W.holds out.old }
    ensures gave { Gave
        (W.given out.old)
        (W.given out.new)
        (W.mark out.old)
        (W.mark out.new)
        result
        (signed_decimal number) }
{
    let mut digits = Buffer::new();
    out.give(digits.format(number))
}

// What was written goes out, also before the formatter's fault; where memory was refused, nothing does.
fn give<W: Output>(f: &Formatter, end: fmt::Result, span: Span, out: &mut W) -> Result<(), Halt>
    ensures same { W.holds out.new ≡ W.holds out.old }
    ensures mark { Marks result (W.mark out.old) (W.mark out.new) }
    ensures emitted { (o : Formatted) → (is_marked f.now ≡ false → (text_of f.now ≡ o.text) × HasEnd end o.end) → Emits
        result
        (W.given out.old)
        (W.given out.new)
        (format_outcome o span) }
{
    let Some(text) = f.text() else {
        return Err(Halt::Memory);
    };
    if out.give(text).is_err() {
        return Err(Halt::Output);
    }
    match end {
        Ok(()) => Ok(()),
        Err(error) => Err(Halt::Fault(Fault {
            kind: FaultKind::Format,
            reason: error.into_reason(),
            span,
        })),
    }
}
