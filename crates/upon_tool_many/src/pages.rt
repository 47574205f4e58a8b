// The text of a page, and how a page ends.
ghost use Rattle.std.specs.Prelude.{◌≡◌, ◌↔◌, ◌&&◌, Err, IfErr, IsErr, IsNone, IsSomeAnd, None, Some, not};
ghost use Rattle.std.specs.List.{list_any};
ghost use Rattle.upon_types.specs.Tree.{Statements};
ghost use Rattle.upon_types.specs.View.{view};
ghost use Rattle.upon_language_spec.specs.Grammar.{HasTree};
ghost use Rattle.upon_syntax.specs.TagReading.{IsSyntaxError};
ghost use Rattle.upon_engine.specs.Texts.{Stored};
ghost use Rattle.upon_tool_io.specs.Paths.{joined_path};
ghost use Rattle.upon_tool_many.specs.Pages.{as_page, is_failed, AnswersIn, PageEndsBy, IsHeldText, IsOfWriting, IsSourceText};
ghost use Rattle.upon_tool_many.specs.declared.pages.PageFault.TheVariants.{NoTemplate};

use crate::written::write_page;
use std::alloc::AllocError;
use upon_engine::engine::Engine;
use upon_engine::texts::{AnyEngine, EngineTexts};
use upon_engine::within::Limits;
use upon_tool_io::files::ReadFault;
use upon_tool_io::output::WriteFault;
use upon_tool_io::sources::Sources;
use upon_tool_io::targets::Targets;
use upon_types::error::Error;
use upon_types::value::Value;

/// A page that is to be written to a file.
#[derive(Drop)]
pub struct Page<T> {
    /// The name of the file in the folder of the pages.
    pub name: String,
    /// What it is made from.
    pub from: T,
}

/// A page that is done.
#[derive(Drop)]
pub struct DonePage {
    /// The name of its file in the folder of the pages.
    pub name: String,
    /// How it ended.
    pub end: PageEnd,
}

/// How a page ends.
#[derive(Drop)]
pub enum PageEnd {
    /// Its file was written.
    Written,
    /// Its file had this text already, and was not written.
    Unchanged,
    /// Its file is as it was.
    Failed(PageFault),
}

/// Why a page is not written.
#[derive(Drop)]
pub enum PageFault {
    /// The file that it is made from was not read.
    Unread(ReadFault),
    /// Its text could not be rendered.
    Fault(Error),
    /// The engine holds no template of the name.
    NoTemplate,
    /// Its file could not be written.
    Unwritten(WriteFault),
}

impl From<AllocError> for PageFault {
    ghost use Rattle.std.specs.Prelude.{◌≡◌};
    ghost use Rattle.upon_types.specs.Error.{fault_of};
    ghost use Rattle.upon_types.specs.Fault.{out_of_memory};
    ghost use Rattle.upon_types.specs.declared.error.Error.{Error};
    ghost use Rattle.upon_tool_many.specs.declared.pages.PageFault.TheVariants.{Fault};

    ghost from_gives = { λ _ fault. (error : Error) × (fault_of error ≡ out_of_memory) × (fault ≡ Fault error) };

    fn from(error: AllocError) -> PageFault {
        PageFault::Fault(error.into())
    }
}

/// Returns whether a page was not written, as something failed.
pub fn is_failed(end: &PageEnd) -> bool
    ensures { result ≡ is_failed end.now }
{
    match end {
        PageEnd::Written | PageEnd::Unchanged => false,
        PageEnd::Failed(_) => true,
    }
}

/// Returns whether one of some pages was not written, as something failed.
pub fn is_any_failed(pages: &[DonePage]) -> bool
    ensures { result ≡ list_any (λ page. is_failed page.end) pages.now }
{
    pages.iter().any(|page| is_failed(&page.end))
}

/// Returns whether the pages after one that ended so are not to be done.
pub fn is_last(end: &PageEnd, keep_going: bool) -> bool
    ensures { result ≡ (is_failed end.now && not keep_going) }
{
    is_failed(end) && !keep_going
}

/// Returns the text of the template of a name that an engine holds on a value, within limits if there are some, or why
/// there is none.
pub fn held_text(
    engine: &Engine<'_>,
    limits: Option<Limits>,
    name: &str,
    value: &Value,
) -> Result<String, PageFault>
    // If a text is held under the name, it is what that answers on the value.
    ensures text { IsHeldText limits (⟦<AnyEngine as EngineTexts>⟧.texts engine.now) name.now (view value.now) result }
    // If none is, and only then, the fault is `NoTemplate`.
    ensures absent { (result ≡ Err NoTemplate) ↔
        ((⟦<AnyEngine as EngineTexts>⟧.texts engine.now).texts name.now ≡ None) }
{
    match answer_of_held(engine, limits, name, value) {
        Some(answer) => text_of(answer),
        None => Err(PageFault::NoTemplate),
    }
}

// What the template of a name answers, if the engine holds one.
fn answer_of_held(
    engine: &Engine<'_>,
    limits: Option<Limits>,
    name: &str,
    value: &Value,
) -> Option<upon_types::error::Result<String>>
    ensures means { (held : Stored) (tree : Statements)
        → (⟦<AnyEngine as EngineTexts>⟧.texts engine.now).texts name.now ≡ Some held
        → ∥ HasTree held.syntax held.text tree ∥₁ → IsSomeAnd result
        (AnswersIn limits (⟦<AnyEngine as EngineTexts>⟧.texts engine.now) (Some name.now) held.text tree
        (view value.now)) }
    ensures absent { IsNone result ↔ ((⟦<AnyEngine as EngineTexts>⟧.texts engine.now).texts name.now ≡ None) }
{
    match limits {
        Some(limits) => engine.render_template_within(&limits, name, value),
        None => engine.render_template(name, value),
    }
}

/// Returns the text of a template's source on a value, within limits if there are some, or why there is none.
pub fn source_text(
    engine: &Engine<'_>,
    limits: Option<Limits>,
    source: &str,
    value: &Value,
) -> Result<String, PageFault>
    // If the text has a tree, it is what that answers on the value; if not, it is a fault of the text.
    ensures { IsSourceText limits (⟦<AnyEngine as EngineTexts>⟧.texts engine.now) source.now (view value.now) result }
{
    text_of(answer_of_source(engine, limits, source, value))
}

// What a template's source answers.
fn answer_of_source(
    engine: &Engine<'_>,
    limits: Option<Limits>,
    source: &str,
    value: &Value,
) -> upon_types::error::Result<String>
    ensures means { (tree : Statements) → HasTree (⟦<AnyEngine as EngineTexts>⟧.texts engine.now).syntax source.now tree
        → AnswersIn limits (⟦<AnyEngine as EngineTexts>⟧.texts engine.now) None source.now tree (view value.now)
        result }
    ensures refused { ((tree : Statements)
        → HasTree (⟦<AnyEngine as EngineTexts>⟧.texts engine.now).syntax source.now tree → ⊥)
        → IsErr result × IfErr result (IsSyntaxError (⟦<AnyEngine as EngineTexts>⟧.texts engine.now).syntax
        source.now) }
{
    match limits {
        Some(limits) => engine.render_text_within(&limits, source, value),
        None => engine.render_text(source, value),
    }
}

// What a rendering answers, with its fault as that of a page.
fn text_of(answer: upon_types::error::Result<String>) -> Result<String, PageFault>
    ensures { result ≡ as_page answer }
{
    match answer {
        Ok(text) => Ok(text),
        Err(error) => Err(PageFault::Fault(error)),
    }
}

/// Writes the text of a page to the file of its name in a folder, unless there is none, and answers how it ended.
pub fn end_with<R: Sources + AllocGlobal, T: Targets>(
    rt: &R,
    targets: &mut T,
    folder: &str,
    name: &str,
    text: Result<String, PageFault>,
) -> PageEnd
    ensures { PageEndsBy (R.world rt.now) (joined_path folder.now name.now) text result
        (T.written targets.old) (T.written targets.new) }
{
    match text {
        Ok(text) => end_of_write(rt, targets, folder, name, text.as_bytes()),
        Err(fault) => PageEnd::Failed(fault),
    }
}

/// Writes bytes to the file of a name in a folder, and answers how that ended.
pub fn end_of_write<R: Sources + AllocGlobal, T: Targets>(
    rt: &R,
    targets: &mut T,
    folder: &str,
    name: &str,
    bytes: &[u8],
) -> PageEnd
    ensures { IsOfWriting (R.world rt.now) (joined_path folder.now name.now) bytes.now result
        (T.written targets.old) (T.written targets.new) }
{
    match write_page(rt, targets, folder, name, bytes) {
        Ok(true) => PageEnd::Written,
        Ok(false) => PageEnd::Unchanged,
        Err(fault) => PageEnd::Failed(PageFault::Unwritten(fault)),
    }
}
