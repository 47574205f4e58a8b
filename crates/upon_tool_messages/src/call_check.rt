// Calls in templates that fail on any values: of functions that there are not, and with another number of arguments
// than a function expects.
ghost use Rattle.std.specs.Prelude.{◌≡◌, IfOk, false, not, true};
ghost use Rattle.upon_types.specs.Span.{LiesIn};
ghost use Rattle.upon_engine.specs.Template.{template_tree};
ghost use Rattle.upon_needs.specs.Places.{call_at};
ghost use Rattle.upon_tool_messages.specs.Judged.{calls_are_right, fault_cause, is_right_call};

use crate::failure::report_hinted;
use crate::judge::{CallFault, Declared, fault_of};
use crate::near::callable_hint;
use crate::picture::PICTURES;
use std::alloc::{AllocError, Global};
use std::io;
use upon_engine::template::Template;
use upon_needs::places::{CallPlace, calls};
use upon_types::error::cause::Cause;
use upon_types::error::{Error, ErrorKind};

/// Says which calls fail in a template, the first hundred with their pictures, and returns whether none does. It fails
/// if there is no memory.
pub fn check_calls<E: io::Write>(
    alloc: Global,
    callables: &Declared<'_>,
    name: &str,
    template: &Template<'_>,
    err: &mut E,
) -> Result<bool, AllocError>
    ensures right { IfOk result
        (λ are_right. are_right ≡ calls_are_right callables.now (template_tree template.now)) }
    ensures silent { IfOk result (λ are_right. are_right ≡ true → err.new ≡ err.old) }
{
    let calls = calls(template)?;
    let source = template.source();
    let mut wrong = 0usize;
    for call in calls.as_slice() {
        if check_call(alloc, callables, name, source, *call, wrong < PICTURES, err)? {
            wrong = wrong.saturating_add(1);
        }
    }
    Ok(wrong == 0)
}

// Says what is wrong with a call, and answers whether something is.
fn check_call<E: io::Write>(
    alloc: Global,
    callables: &Declared<'_>,
    name: &str,
    source: &str,
    call: CallPlace<'_>,
    is_pictured: bool,
    err: &mut E,
) -> Result<bool, AllocError>
    requires { LiesIn source.now call.span }
    ensures wrong { IfOk result (λ is_wrong.
        is_wrong ≡ not (is_right_call callables.now (call_at call.entry))) }
    ensures silent { IfOk result (λ is_wrong. is_wrong ≡ false → err.new ≡ err.old) }
{
    let called = call.name;
    let Some(fault) = fault_of(alloc, callables, called, call.arguments)? else {
        return Ok(false);
    };
    let cause = cause_of(fault, call.arguments);
    if is_pictured {
        let at = Some((source, call.span));
        let error = Error::from_cause(alloc, ErrorKind::Render, cause, at);
        let hint = match fault {
            CallFault::Unknown => callable_hint(alloc, callables, called)?,
            CallFault::Arguments(_) | CallFault::FormatterArguments => None,
        };
        let hint = hint.as_ref().map(|hint| hint.as_str());
        report_hinted(alloc, &error.with_name(alloc, name), hint, err);
    } else {
        let reason = cause.text(alloc)?;
        let _ = writeln!(err, "upon-tool: {name}: {called}: {reason}");
    }
    Ok(true)
}

// Why a call fails that has so many arguments.
fn cause_of(fault: CallFault, given: usize) -> Cause
    ensures { result ≡ fault_cause fault given }
{
    match fault {
        CallFault::Unknown => Cause::UnknownFunction,
        CallFault::Arguments(expected) => Cause::FunctionExpects(expected, given),
        CallFault::FormatterArguments => Cause::FormatterExpects(given),
    }
}
