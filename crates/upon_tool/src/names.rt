// What a template needs: names of its context, and other templates.
ghost use Rattle.std.specs.Prelude.{◌≡◌, ◌≤◌, None, Some, IfErr, IfOk, IsErrAnd, OnOk};
ghost use Rattle.std.specs.Io.KnownBytes.{Appends};
ghost use Rattle.upon_meaning_spec.specs.Engine.{Template as TemplateMeant};
ghost use Rattle.upon_engine.specs.Engine.{engine_templates};
ghost use Rattle.upon_needs.specs.declared.needs.Needs.{Needs as Listed};
ghost use Rattle.upon_tool_messages.specs.Status.{tool_status};
ghost use Rattle.upon_calls.specs.Names.{NeededBy};
ghost use Rattle.upon_tool.specs.Names.{needs_text};

use crate::names_text::needs_text;
use std::alloc::Global;
use std::io;
use upon_engine::engine::Engine;
use upon_needs::needs::{Needs, needs_of};
use upon_tool_messages::failure::{Failure, report};
use upon_tool_messages::library::{Library, report_refusal};

/// Returns what the template of a name needs. It fails if the engine has none, and if there is no memory.
pub fn needed<'n, 'a>(engine: &'n Engine<'_>, name: &'a str) -> Result<Needs<'n>, Failure<'a>>
    // If the engine has a template of the name, these are what it needs, or memory is out.
    ensures needed { let table = engine_templates engine.now in
        (t : TemplateMeant) → table name.entry.now ≡ Some t → IfOk result (NeededBy table t.tree) }
    ensures memory { let table = engine_templates engine.now in
        (t : TemplateMeant) → table name.entry.now ≡ Some t → IfErr result (λ f. tool_status f ≡ 1) }
    // If it has none, there is an error.
    ensures absent { let table = engine_templates engine.now in
        table name.entry.now ≡ None → IsErrAnd result (λ f. tool_status f ≡ 2) }
{
    match needs_of(engine, name) {
        Some(needs) => Ok(needs?),
        None => Err(Failure::Unreadable(name, io::ErrorKind::NotFound.into())),
    }
}

/// Writes what the template of a name needs, or says what is wrong, and returns the status: 0 if all went well, else 1
/// or 2. Of the files that it reaches and that are no templates, it says what is wrong there, and writes nothing.
pub fn show<O: io::Write, E: io::Write>(
    alloc: Global,
    engine: &Engine<'_>,
    library: &Library,
    name: &str,
    as_json: bool,
    out: &mut O,
    err: &mut E,
) -> u8
    ensures range { result ≤ 2 }
    // If the engine has a template of the name, and the status is 0, the output has received what it needs.
    ensures needed { let table = engine_templates engine.now in
        (t : TemplateMeant) → table name.now ≡ Some t → result ≡ 0
        → (needs : Listed) × NeededBy table t.tree needs
        × Appends (O.contents out.old) (O.contents out.new) (needs_text as_json needs) }
    // If it has none, the status is not 0.
    ensures absent { let table = engine_templates engine.now in
        table name.now ≡ None → 1 ≤ result }
{
    let needs = match needed(engine, name) {
        Ok(needs) => needs,
        Err(failure) => return report(alloc, &failure, err),
    };
    if report_refused(alloc, library, needs.missing(), err) {
        return 1;
    }
    match send(alloc, &needs, as_json, out) {
        Ok(()) => 0,
        Err(failure) => report(alloc, &failure, err),
    }
}

// Says why files are no templates that have one of the names, and returns whether there are such.
fn report_refused<E: io::Write>(
    alloc: Global,
    library: &Library,
    names: &[&str],
    err: &mut E,
) -> bool {
    let mut is_refused = false;
    for name in names {
        if let Some((found, refusal)) = library.refused_on_way(name) {
            report_refusal(alloc, found, refusal, err);
            is_refused = true;
        }
    }
    is_refused
}

// Writes what a template needs, and flushes.
fn send<'a, O: io::Write>(
    alloc: Global,
    needs: &Needs<'_>,
    as_json: bool,
    out: &mut O,
) -> Result<(), Failure<'a>>
    ensures { OnOk result (Appends (O.contents out.old) (O.contents out.new) (needs_text as_json needs.now)) }
{
    let text = needs_text(alloc, needs, as_json)?;
    match write_flushed(text.as_slice(), out) {
        Ok(()) => Ok(()),
        Err(error) => Err(Failure::Fault(error.into())),
    }
}

// Writes bytes, and flushes.
fn write_flushed<O: io::Write>(bytes: &[u8], out: &mut O) -> io::Result<()>
    ensures { OnOk result (Appends (O.contents out.old) (O.contents out.new) bytes.now) }
{
    out.write_all(bytes)?;
    out.flush()
}
