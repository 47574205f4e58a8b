// A template rendered on a value.
ghost use Rattle.std.specs.Prelude.{◌≡◌, ◌≤◌, ◌↔◌, None, Some, IsErr, IsNone, IsSomeAnd, Ok, option_map};
ghost use Rattle.upon_types.specs.Tree.{Statements};
ghost use Rattle.upon_types.specs.View.{view};
ghost use Rattle.upon_language_spec.specs.Grammar.{HasTree};
ghost use Rattle.upon_engine.specs.Texts.{Stored};
ghost use Rattle.upon_tool_messages.specs.Status.{tool_status};
ghost use Rattle.upon_vm.specs.Limits.{is_limited};
ghost use Rattle.upon_tool_pages.specs.Rendering.{SendsPage, SendsWhole, ShowsPage, StaysWithin};

use std::alloc::Global;
use std::io;
use upon_engine::engine::Engine;
use upon_engine::texts::{AnyEngine, EngineTexts};
use upon_engine::within::Limits;
use upon_tool_messages::failure::{Failure, report};
use upon_tool_messages::known::Known;
use upon_tool_messages::library::{Library, report_refusal};
use upon_tool_messages::near::report_near;
use upon_types::value::Value;

/// A template of an engine, with what it is rendered on.
#[derive(Clone, Copy)]
pub struct Page<'a, 'v> {
    /// The template's name.
    pub name: &'a str,
    /// The value that it is rendered on.
    pub value: &'v Value,
    /// How far its rendering may go.
    pub limits: Limits,
}

/// Writes the text of a page.
pub fn render<'a, O: io::Write>(
    engine: &Engine<'_>,
    page: &Page<'a, '_>,
    out: &mut O,
) -> Result<(), Failure<'a>>
    // If a text is held under the name, the output receives what its tree means on the value.
    ensures means { let texts = ⟦<AnyEngine as EngineTexts>⟧.texts engine.now in
        (held : Stored) (tree : Statements) → texts.texts page.now.name.now ≡ Some held
        → ∥ HasTree held.syntax held.text tree ∥₁
        → SendsWhole (λ r. SendsPage page.now.limits texts (Some page.now.name.now) held.text tree
        (view page.now.value.now) r (O.contents out.old) (O.contents out.new)) result }
    // It never receives more bytes than the limit is, if that is set.
    ensures bounded { StaysWithin page.now.limits.output (O.contents out.old) (O.contents out.new) }
    // If none is, there is an error.
    ensures absent { let texts = ⟦<AnyEngine as EngineTexts>⟧.texts engine.now in
        texts.texts page.now.name.now ≡ None → IsErr result }
{
    let Some(rendered) = send_on(engine, page, out) else {
        return Err(Failure::Unreadable(page.name, io::ErrorKind::NotFound.into()));
    };
    match rendered {
        Ok(()) => Ok(()),
        Err(error) => Err(Failure::Fault(error)),
    }
}

// Sends the text of a page's template on its value. If no limit is set, nothing is counted.
fn send_on<O: io::Write>(
    engine: &Engine<'_>,
    page: &Page<'_, '_>,
    out: &mut O,
) -> Option<upon_types::error::Result<()>>
    ensures means { let texts = ⟦<AnyEngine as EngineTexts>⟧.texts engine.now in
        (held : Stored) (tree : Statements) → texts.texts page.now.name.now ≡ Some held
        → ∥ HasTree held.syntax held.text tree ∥₁
        → IsSomeAnd result (λ r. SendsPage page.now.limits texts (Some page.now.name.now) held.text tree
        (view page.now.value.now) r (O.contents out.old) (O.contents out.new)) }
    ensures bounded { StaysWithin page.now.limits.output (O.contents out.old) (O.contents out.new) }
    ensures absent { let texts = ⟦<AnyEngine as EngineTexts>⟧.texts engine.now in
        IsNone result ↔ (texts.texts page.now.name.now ≡ None) }
{
    if is_limited(&page.limits) {
        engine.render_template_to_within(&page.limits, page.name, page.value, out)
    } else {
        engine.render_template_to(page.name, page.value, out)
    }
}

/// Returns whether a limit is set.
pub fn is_limited(limits: &Limits) -> bool
    ensures { result ≡ is_limited limits.now }
{
    limits.steps.is_some() || limits.output.is_some() || limits.values.is_some()
}

/// Writes the same, and flushes.
pub fn send<'a, O: io::Write>(
    engine: &Engine<'_>,
    page: &Page<'a, '_>,
    out: &mut O,
) -> Result<(), Failure<'a>>
    // If a text is held under the name, the output receives what its tree means on the value.
    ensures means { let texts = ⟦<AnyEngine as EngineTexts>⟧.texts engine.now in
        (held : Stored) (tree : Statements) → texts.texts page.now.name.now ≡ Some held
        → ∥ HasTree held.syntax held.text tree ∥₁
        → SendsWhole (λ r. SendsPage page.now.limits texts (Some page.now.name.now) held.text tree
        (view page.now.value.now) r (O.contents out.old) (O.contents out.new)) result }
    // It never receives more bytes than the limit is, if that is set.
    ensures bounded { StaysWithin page.now.limits.output (O.contents out.old) (O.contents out.new) }
    // If none is, there is an error.
    ensures absent { let texts = ⟦<AnyEngine as EngineTexts>⟧.texts engine.now in
        texts.texts page.now.name.now ≡ None → IsErr result }
{
    render(engine, page, out)?;
    match out.flush() {
        Ok(()) => Ok(()),
        Err(error) => Err(Failure::Fault(error.into())),
    }
}

/// Writes the same, says what is wrong if it fails, and returns the status: 0 if all went well, else 1 or 2.
pub fn show<O: io::Write, E: io::Write>(
    alloc: Global,
    engine: &Engine<'_>,
    library: &Library,
    page: &Page<'_, '_>,
    out: &mut O,
    err: &mut E,
) -> u8
    ensures range { result ≤ 2 }
    // If a text is held under the name, the output receives what its tree means, up to an end of this status.
    ensures ends { ShowsPage
        (⟦<AnyEngine as EngineTexts>⟧.texts engine.now)
        page.now
        result
        (O.contents out.old)
        (O.contents out.new) }
    // So if the status is 0, it has received it whole.
    ensures means { let texts = ⟦<AnyEngine as EngineTexts>⟧.texts engine.now in
        (held : Stored) (tree : Statements) → texts.texts page.now.name.now ≡ Some held
        → ∥ HasTree held.syntax held.text tree ∥₁
        → result ≡ 0 → SendsPage page.now.limits texts (Some page.now.name.now) held.text tree (view page.now.value.now)
        (Ok tt) (O.contents out.old) (O.contents out.new) }
    // If none is, the status is not 0.
    ensures absent { let texts = ⟦<AnyEngine as EngineTexts>⟧.texts engine.now in
        texts.texts page.now.name.now ≡ None → 1 ≤ result }
{
    let failure = match send(engine, page, out) {
        Ok(()) => return 0,
        Err(failure) => failure,
    };
    let _ = out.flush();
    explain(alloc, engine, &known_of(library, page), &failure, err)
}

/// Returns what there is for a page.
pub fn known_of<'k>(library: &'k Library, page: &Page<'k, 'k>) -> Known<'k>
    ensures library { result.library.now ≡ library.now }
    ensures value { option_map (λ value. value.now) result.value ≡ Some page.now.value.now }
    ensures page { option_map (λ name. name.now) result.page ≡ Some page.now.name.now }
{
    Known {
        library,
        value: Some(page.value),
        page: Some(page.name),
    }
}

/// Says why a run failed, and returns its status. Of a file that it reached and that is no template, it says what is
/// wrong there; of a name that is not there, which names of what is known are near to it.
pub fn explain<E: io::Write>(
    alloc: Global,
    engine: &Engine<'_>,
    known: &Known<'_>,
    failure: &Failure<'_>,
    err: &mut E,
) -> u8
    ensures { result ≡ tool_status failure.now }
{
    let Failure::Fault(error) = failure else {
        return report(alloc, failure, err);
    };
    match known.library.reached(engine, error) {
        Ok(Some((name, refusal))) => report_refusal(alloc, name, refusal, err),
        Ok(None) => report_near(alloc, engine, known, error, err),
        Err(_) => {
            let _ = writeln!(err, "out of memory");
        }
    }
    1
}
