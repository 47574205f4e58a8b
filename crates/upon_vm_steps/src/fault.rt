// Why an instruction is not carried out.
ghost use Rattle.std.specs.Prelude.{string_bytes};
ghost use Rattle.upon_types.specs.Cause.{cause_text};
ghost use Rattle.upon_lookup.specs.LookupFaults.{wrong};
ghost use Rattle.upon_meaning_spec.specs.CallFaults.{formatter_expects, function_declined, function_expects};
ghost use Rattle.upon_vm_steps.specs.Halt.{IsHalt};

use std::alloc::Global;
use upon_types::error::cause::Cause;
use upon_types::error::reason::Reason;
use upon_types::types::Span;

/// The kinds of faults that a running program meets.
#[derive(Clone, Copy, Debug, PartialEq, Eq)]
pub enum FaultKind {
    /// A template could not be rendered.
    Render,
    /// A function refused its arguments.
    Function,
    /// A formatter refused a value.
    Format,
}

/// A fault of the template that runs: its kind, its reason, and its span in the template's source.
#[derive(Drop)]
pub struct Fault {
    pub kind: FaultKind,
    pub reason: Reason,
    pub span: Span,
}

/// Why an instruction is not carried out.
#[derive(Drop)]
pub enum Halt {
    /// The template has a fault.
    Fault(Fault),
    /// There was no memory.
    Memory,
    /// The output did not receive a text whole.
    Output,
}

/// Creates a fault of rendering of this cause, at this span.
#[cold]
#[inline(never)]
pub fn wrong(alloc: Global, cause: Cause, span: Span) -> Halt
    ensures { IsHalt (wrong (cause_text cause) span) result }
{
    match Box::new(alloc, cause) {
        Ok(cause) => Halt::Fault(Fault {
            kind: FaultKind::Render,
            reason: Reason::Cause(cause),
            span,
        }),
        Err(_) => Halt::Memory,
    }
}

/// Returns the halt of a function that is given another number of arguments than it expects.
pub fn function_expects(alloc: Global, expected: usize, given: usize, span: Span) -> Halt
    ensures { IsHalt (function_expects expected given span) result }
{
    wrong(alloc, Cause::FunctionExpects(expected, given), span)
}

/// Returns the halt of a formatter that is given another number of values than one.
pub fn formatter_expects(alloc: Global, given: usize, span: Span) -> Halt
    ensures { IsHalt (formatter_expects given span) result }
{
    wrong(alloc, Cause::FormatterExpects(given), span)
}

/// Returns the halt of a function that refuses, with this text.
pub fn function_declined(text: String, span: Span) -> Halt
    ensures { IsHalt (function_declined (string_bytes text) span) result }
{
    Halt::Fault(Fault {
        kind: FaultKind::Function,
        reason: Reason::Text(text),
        span,
    })
}
