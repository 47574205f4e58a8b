// A folder that is built into another: its templates are rendered, its other files are copied.
ghost use Rattle.std.specs.Prelude.{◌≡◌, IfErr, IfOk, Ok, OnErr, OnOk, length, string_bytes};
ghost use Rattle.upon_types.specs.View.{view};
ghost use Rattle.upon_tool_io.specs.Paths.{joined_path};
ghost use Rattle.upon_tool_io.specs.World.{GivesBytes, GivesFileText};
ghost use Rattle.upon_tool_many.specs.Build.{DoesBuild, DoesPage, EndsOf, EndsOfCopy, EndsOfTemplate, FramesText, IsPageOf, IsPageText, RefusesBuild, RefusesSame};
ghost use Rattle.upon_tool_many.specs.Names.{page_names, DifferBelow};
ghost use Rattle.upon_tool_many.specs.Pages.{DoneInOrder, EachWith};

use crate::names::{first_again, name_at, page_name};
use crate::pages::{
    DonePage, Page, PageEnd, PageFault, end_of_write, end_with, held_text, is_last, source_text,
};
use crate::progress::Progress;
use crate::values::content_value;
use std::alloc::{AllocError, AllocFailed, Global};
use std::collections::BTreeMap;
use upon_engine::engine::Engine;
use upon_engine::texts::{AnyEngine, EngineTexts};
use upon_engine::within::Limits;
use upon_tool_io::files::{ReadFault, joined, read_file};
use upon_tool_io::sources::Sources;
use upon_tool_io::targets::Targets;
use upon_types::value::Value;

/// What is built, and where to.
#[derive(Clone, Copy)]
pub struct Build<'a> {
    /// The folder of the sources.
    pub source: &'a str,
    /// Whether links that lead out of it are followed.
    pub follows: bool,
    /// The folder of the pages.
    pub out: &'a str,
    /// The name of the template that a page's text is put into, which the engine holds; none if there is no such.
    pub layout: Option<&'a str>,
    /// How far the rendering of a text may go; none is as far as it goes.
    pub limits: Option<Limits>,
    /// Whether the pages after one that fails are built.
    pub keep_going: bool,
}

/// A file that a page is made from.
#[derive(Drop)]
pub struct Source {
    /// Its path in the folder of the sources.
    pub path: String,
    /// Whether it is a template.
    pub is_template: bool,
    /// Why it can't be read, if that is known.
    pub fault: Option<ReadFault>,
}

/// Why nothing is built.
#[derive(Drop)]
pub enum BuildFault {
    /// The folder of the sources could not be read.
    Unread(ReadFault),
    /// The folder of the pages is that of the sources, or in it.
    OutInSource,
    /// Two files have the page of this name.
    Twice(String),
    /// There was no memory.
    OutOfMemory,
}

impl From<AllocError> for BuildFault {
    ghost use Rattle.std.specs.Prelude.{◌≡◌};
    ghost use Rattle.upon_tool_many.specs.declared.build.BuildFault.TheVariants.{OutOfMemory as MemoryIsOut};

    ghost from_gives = { λ _ fault. fault ≡ MemoryIsOut };

    fn from(_: AllocError) -> BuildFault {
        BuildFault::OutOfMemory
    }
}

impl<T: Drop> From<AllocFailed<T>> for BuildFault {
    ghost use Rattle.std.specs.Prelude.{◌≡◌};
    ghost use Rattle.upon_tool_many.specs.declared.build.BuildFault.TheVariants.{OutOfMemory as MemoryIsOut};

    ghost from_gives = { λ _ fault. fault ≡ MemoryIsOut };

    fn from(_: AllocFailed<T>) -> BuildFault {
        BuildFault::OutOfMemory
    }
}

/// Builds a folder into another: each file with the extension `.upon` is a template, whose text on the context is
/// written to its path without that extension; each other file is copied to its path. If there is a layout, it is
/// rendered on the context with the text under `content`, and what comes of that is the page's. Returns the pages
/// that are done, in the order of the files' paths: if one failed, those after it only if this is asked for.
pub fn build_folder<R: Sources + AllocGlobal, T: Targets, P: Progress>(
    rt: &R,
    targets: &mut T,
    engine: &Engine<'_>,
    asked: &Build<'_>,
    context: &Value,
    progress: &mut P,
) -> Result<Vec<DonePage>, BuildFault>
    ensures done { IfOk result
        (λ done. DoesBuild (R.world rt.now) (⟦<AnyEngine as EngineTexts>⟧.texts engine.now) asked.now (view context.now)
        done.items (T.written targets.old) (T.written targets.new)) }
    // Else nothing is written.
    ensures unwritten { OnErr result (T.written targets.new ≡ T.written targets.old) }
    ensures refused { IfErr result (RefusesBuild (R.world rt.now) asked.now) }
{
    let alloc = rt.alloc();
    let files = match rt.files_of(alloc, asked.source, asked.follows) {
        Ok(files) => files,
        Err(fault) => return Err(BuildFault::Unread(fault)),
    };
    if rt.is_within(alloc, asked.out, asked.source) {
        return Err(BuildFault::OutInSource);
    }
    let pages = planned(alloc, files)?;
    refuse_twice(alloc, pages.as_slice())?;
    Ok(build_all(rt, targets, engine, asked, context, pages, progress)?)
}

// The pages of files: of each its name, and where it comes from.
fn planned(
    alloc: Global,
    files: BTreeMap<String, Option<ReadFault>>,
) -> Result<Vec<Page<Source>>, AllocError>
    ensures { IfOk result (λ pages. EachWith IsPageOf files.entries pages.items) }
{
    let mut pages = Vec::with_capacity(alloc, files.len())?;
    for (path, fault) in files {
        pages.push(page_of(alloc, path, fault)?)?;
    }
    Ok(pages)
}

// The page of a file.
fn page_of(
    alloc: Global,
    path: String,
    fault: Option<ReadFault>,
) -> Result<Page<Source>, AllocError>
    ensures { IfOk result (IsPageOf (path, fault)) }
{
    match page_name(path.as_str()) {
        Some(name) => {
            let name = String::from_str(alloc, name)?;
            let from = Source {
                path,
                is_template: true,
                fault,
            };
            Ok(Page { name, from })
        }
        None => {
            let name = path.clone()?;
            let from = Source {
                path,
                is_template: false,
                fault,
            };
            Ok(Page { name, from })
        }
    }
}

// Refuses two pages of one name.
fn refuse_twice(alloc: Global, pages: &[Page<Source>]) -> Result<(), BuildFault>
    ensures differ { OnOk result (DifferBelow (page_names pages.now) (length (page_names pages.now))) }
    ensures refused { IfErr result (RefusesSame (page_names pages.now)) }
{
    match first_again(alloc, pages)? {
        Some((_, second)) => Err(BuildFault::Twice(name_at(alloc, pages, second)?)),
        None => Ok(()),
    }
}

// Builds the pages.
fn build_all<R: Sources + AllocGlobal, T: Targets, P: Progress>(
    rt: &R,
    targets: &mut T,
    engine: &Engine<'_>,
    asked: &Build<'_>,
    context: &Value,
    pages: Vec<Page<Source>>,
    progress: &mut P,
) -> Result<Vec<DonePage>, AllocError>
    ensures done { IfOk result (λ done. DoneInOrder asked.now.keep_going
        (DoesPage (R.world rt.now) (⟦<AnyEngine as EngineTexts>⟧.texts engine.now) asked.now (view context.now))
        pages.items done.items (T.written targets.old) (T.written targets.new)) }
    ensures unwritten { OnErr result (T.written targets.new ≡ T.written targets.old) }
{
    let alloc = rt.alloc();
    let all = pages.len();
    let mut done = Vec::with_capacity(alloc, all)?;
    for page in pages {
        let ended = build_page(rt, targets, engine, asked, context, page);
        let last = is_last(&ended.end, asked.keep_going);
        done.push(ended)?;
        progress.tell(done.len(), all);
        if last {
            return Ok(done);
        }
    }
    Ok(done)
}

// Builds the page of a file.
fn build_page<R: Sources + AllocGlobal, T: Targets>(
    rt: &R,
    targets: &mut T,
    engine: &Engine<'_>,
    asked: &Build<'_>,
    context: &Value,
    page: Page<Source>,
) -> DonePage
    ensures { DoesPage (R.world rt.now) (⟦<AnyEngine as EngineTexts>⟧.texts engine.now) asked.now (view context.now)
        page result (T.written targets.old) (T.written targets.new) }
{
    let Page { name, from } = page;
    let end = end_of(rt, targets, engine, asked, context, name.as_str(), from);
    DonePage { name, end }
}

// Builds the page of a file, and answers how it ended.
fn end_of<R: Sources + AllocGlobal, T: Targets>(
    rt: &R,
    targets: &mut T,
    engine: &Engine<'_>,
    asked: &Build<'_>,
    context: &Value,
    name: &str,
    from: Source,
) -> PageEnd
    ensures { EndsOf (R.world rt.now) from.fault from.is_template name.now (string_bytes from.path)
        (⟦<AnyEngine as EngineTexts>⟧.texts engine.now) asked.now (view context.now) result
        (T.written targets.old) (T.written targets.new) }
{
    let Source {
        path,
        is_template,
        fault,
    } = from;
    if let Some(fault) = fault {
        return PageEnd::Failed(PageFault::Unread(fault));
    }
    if is_template {
        end_of_template(rt, targets, engine, asked, context, name, path.as_str())
    } else {
        copy_file(rt, targets, asked, path.as_str())
    }
}

// Builds the page of a template's file, and answers how it ended.
fn end_of_template<R: Sources + AllocGlobal, T: Targets>(
    rt: &R,
    targets: &mut T,
    engine: &Engine<'_>,
    asked: &Build<'_>,
    context: &Value,
    name: &str,
    path: &str,
) -> PageEnd
    ensures { EndsOfTemplate (R.world rt.now) name.now path.now (⟦<AnyEngine as EngineTexts>⟧.texts engine.now)
        asked.now (view context.now) result
        (T.written targets.old) (T.written targets.new) }
{
    match read_source(rt, asked.source, path) {
        Ok(source) => {
            let text = page_text(rt.alloc(), engine, asked, context, source.as_str());
            end_with(rt, targets, asked.out, name, text)
        }
        Err(fault) => PageEnd::Failed(PageFault::Unread(fault)),
    }
}

// The text of a file of the sources.
fn read_source<R: Sources + AllocGlobal>(
    rt: &R,
    folder: &str,
    path: &str,
) -> Result<String, ReadFault>
    ensures { GivesFileText (R.world rt.now) (joined_path folder.now path.now) result }
{
    let path = joined(rt.alloc(), folder, path)?;
    read_file(rt, rt.alloc(), path.as_str())
}

// Copies a file, and answers how that ended.
fn copy_file<R: Sources + AllocGlobal, T: Targets>(
    rt: &R,
    targets: &mut T,
    asked: &Build<'_>,
    path: &str,
) -> PageEnd
    ensures { EndsOfCopy (R.world rt.now) path.now asked.now result (T.written targets.old) (T.written targets.new) }
{
    match read_bytes(rt, asked.source, path) {
        Ok(bytes) => end_of_write(rt, targets, asked.out, path, bytes.as_slice()),
        Err(fault) => PageEnd::Failed(PageFault::Unread(fault)),
    }
}

// The bytes of a file of the sources.
fn read_bytes<R: Sources + AllocGlobal>(
    rt: &R,
    folder: &str,
    path: &str,
) -> Result<Vec<u8>, ReadFault>
    ensures { GivesBytes (R.world rt.now) (joined_path folder.now path.now) result }
{
    let path = joined(rt.alloc(), folder, path)?;
    rt.bytes_of(rt.alloc(), path.as_str())
}

// The text of a page: what its template means on the context, in the layout if there is one.
fn page_text(
    alloc: Global,
    engine: &Engine<'_>,
    asked: &Build<'_>,
    context: &Value,
    source: &str,
) -> Result<String, PageFault>
    ensures { IsPageText (⟦<AnyEngine as EngineTexts>⟧.texts engine.now) asked.now (view context.now) source.now
        result }
{
    match source_text(engine, asked.limits, source, context) {
        Ok(text) => framed_text(alloc, engine, asked, context, text),
        Err(fault) => Err(fault),
    }
}

// The text of a page in the layout, if there is one.
fn framed_text(
    alloc: Global,
    engine: &Engine<'_>,
    asked: &Build<'_>,
    context: &Value,
    text: String,
) -> Result<String, PageFault>
    ensures { FramesText asked.now.limits (⟦<AnyEngine as EngineTexts>⟧.texts engine.now) asked.now.layout
        (view context.now) (Ok text) result }
{
    let Some(layout) = asked.layout else {
        return Ok(text);
    };
    let value = content_value(alloc, context, text)?;
    held_text(engine, asked.limits, layout, &value)
}
