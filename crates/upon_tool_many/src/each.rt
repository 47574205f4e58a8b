// A template that is rendered once for each item of a list, to a file of each item's own name.
ghost use Rattle.std.specs.Prelude.{◌≡◌, IfErr, IfOk, OnErr, OnOk, length};
ghost use Rattle.upon_types.specs.View.{view, entries_view};
ghost use Rattle.upon_tool_many.specs.Each.{DoesEach, DoesItem, IsItemName, IsItemText, NamesItem, NamesItems, RefusesEach, RefusesItem, RefusesNames, RefusesTwice};
ghost use Rattle.upon_tool_many.specs.Names.{page_names, DifferBelow};
ghost use Rattle.upon_tool_many.specs.Pages.{DoneInOrder};

use crate::names::{first_again, is_inside, name_at};
use crate::pages::{DonePage, Page, PageFault, end_with, held_text, is_last, source_text};
use crate::progress::Progress;
use crate::values::{item_value, split};
use std::alloc::{AllocError, AllocFailed, Global};
use std::collections::BTreeMap;
use upon_engine::engine::Engine;
use upon_engine::texts::{AnyEngine, EngineTexts};
use upon_engine::within::Limits;
use upon_tool_io::sources::Sources;
use upon_tool_io::targets::Targets;
use upon_types::value::Value;

/// What is rendered for each item, and where to.
#[derive(Clone, Copy)]
pub struct Each<'a> {
    /// The key of the list in the context.
    pub key: &'a str,
    /// The name of the template of the pages, which the engine holds.
    pub page: &'a str,
    /// The text of the template of the pages' names.
    pub name: &'a str,
    /// The folder of the pages.
    pub out: &'a str,
    /// How far the rendering of a page may go; none is as far as it goes.
    pub limits: Option<Limits>,
    /// Whether the pages after one that fails are rendered.
    pub keep_going: bool,
}

/// Why no page is rendered.
#[derive(Drop)]
pub enum EachFault {
    /// There is no list at the key.
    NoList,
    /// The name of the item of this index could not be rendered.
    Unnamed(usize, PageFault),
    /// The name of the item of this index is none of a file in the folder.
    Outside(usize, String),
    /// The items of these two indices have this name.
    Twice(usize, usize, String),
    /// There was no memory.
    OutOfMemory,
}

impl From<AllocError> for EachFault {
    ghost use Rattle.std.specs.Prelude.{◌≡◌};
    ghost use Rattle.upon_tool_many.specs.declared.each.EachFault.TheVariants.{OutOfMemory as MemoryIsOut};

    ghost from_gives = { λ _ fault. fault ≡ MemoryIsOut };

    fn from(_: AllocError) -> EachFault {
        EachFault::OutOfMemory
    }
}

impl<T: Drop> From<AllocFailed<T>> for EachFault {
    ghost use Rattle.std.specs.Prelude.{◌≡◌};
    ghost use Rattle.upon_tool_many.specs.declared.each.EachFault.TheVariants.{OutOfMemory as MemoryIsOut};

    ghost from_gives = { λ _ fault. fault ≡ MemoryIsOut };

    fn from(_: AllocFailed<T>) -> EachFault {
        EachFault::OutOfMemory
    }
}

/// Renders a template once for each item of a list of the context, on the entries of the item over the others of the
/// context, to the file of the name that another template has on the same value. If a name is refused, nothing is
/// written. It tells after each page how many are done. Returns the pages that are done, in the order of the items:
/// if one failed, those after it only if this is asked for.
pub fn render_each<R: Sources + AllocGlobal, T: Targets, P: Progress>(
    rt: &R,
    targets: &mut T,
    engine: &Engine<'_>,
    asked: &Each<'_>,
    context: Value,
    progress: &mut P,
) -> Result<Vec<DonePage>, EachFault>
    ensures done { IfOk result
        (λ done. DoesEach (R.world rt.now) (⟦<AnyEngine as EngineTexts>⟧.texts engine.now) asked.now (view context)
        done.items (T.written targets.old) (T.written targets.new)) }
    // Else nothing is written.
    ensures unwritten { OnErr result (T.written targets.new ≡ T.written targets.old) }
    ensures refused { IfErr result (RefusesEach (⟦<AnyEngine as EngineTexts>⟧.texts engine.now) asked.now
        (view context)) }
{
    let alloc = rt.alloc();
    let Some((others, items)) = split(context, asked.key) else {
        return Err(EachFault::NoList);
    };
    let pages = named(alloc, engine, asked, &others, items)?;
    refuse_twice(alloc, pages.as_slice())?;
    Ok(render_all(rt, targets, engine, asked, &others, pages, progress)?)
}

// The pages of items, with their names.
fn named(
    alloc: Global,
    engine: &Engine<'_>,
    asked: &Each<'_>,
    others: &BTreeMap<String, Value>,
    items: Vec<Value>,
) -> Result<Vec<Page<Value>>, EachFault>
    ensures named { IfOk result (λ pages. NamesItems (⟦<AnyEngine as EngineTexts>⟧.texts engine.now) asked.now
        (entries_view others.now.entries) items.items pages.items) }
    ensures refused { IfErr result (RefusesNames (⟦<AnyEngine as EngineTexts>⟧.texts engine.now) asked.now
        (entries_view others.now.entries) items.items) }
{
    let mut pages = Vec::new(alloc);
    for item in items {
        let page = page_of_item(alloc, engine, asked, others, pages.len(), item)?;
        pages.push(page)?;
    }
    Ok(pages)
}

// The page of the item at a place, with its name.
fn page_of_item(
    alloc: Global,
    engine: &Engine<'_>,
    asked: &Each<'_>,
    others: &BTreeMap<String, Value>,
    place: usize,
    item: Value,
) -> Result<Page<Value>, EachFault>
    ensures named { IfOk result (NamesItem (⟦<AnyEngine as EngineTexts>⟧.texts engine.now) asked.now
        (entries_view others.now.entries) item) }
    ensures refused { IfErr result (RefusesItem (⟦<AnyEngine as EngineTexts>⟧.texts engine.now) asked.now
        (entries_view others.now.entries) place item) }
{
    let name = match item_name(alloc, engine, asked, others, &item) {
        Ok(name) => name,
        Err(fault) => return Err(EachFault::Unnamed(place, fault)),
    };
    if is_inside(name.as_str()) {
        Ok(Page { name, from: item })
    } else {
        Err(EachFault::Outside(place, name))
    }
}

// The name of the page of an item, or why it has none.
fn item_name(
    alloc: Global,
    engine: &Engine<'_>,
    asked: &Each<'_>,
    others: &BTreeMap<String, Value>,
    item: &Value,
) -> Result<String, PageFault>
    ensures { IsItemName (⟦<AnyEngine as EngineTexts>⟧.texts engine.now) asked.now
        (entries_view others.now.entries) (view item.now) result }
{
    let value = item_value(alloc, others, item)?;
    source_text(engine, asked.limits, asked.name, &value)
}

// The text of the page of an item, or why there is none.
fn item_text(
    alloc: Global,
    engine: &Engine<'_>,
    asked: &Each<'_>,
    others: &BTreeMap<String, Value>,
    item: &Value,
) -> Result<String, PageFault>
    ensures { IsItemText (⟦<AnyEngine as EngineTexts>⟧.texts engine.now) asked.now
        (entries_view others.now.entries) (view item.now) result }
{
    let value = item_value(alloc, others, item)?;
    held_text(engine, asked.limits, asked.page, &value)
}

// Refuses two pages of one name.
fn refuse_twice(alloc: Global, pages: &[Page<Value>]) -> Result<(), EachFault>
    ensures differ { OnOk result (DifferBelow (page_names pages.now) (length (page_names pages.now))) }
    ensures refused { IfErr result (RefusesTwice (page_names pages.now)) }
{
    match first_again(alloc, pages)? {
        Some((first, second)) => {
            let name = name_at(alloc, pages, second)?;
            Err(EachFault::Twice(first, second, name))
        }
        None => Ok(()),
    }
}

// Renders the pages and writes them.
fn render_all<R: Sources + AllocGlobal, T: Targets, P: Progress>(
    rt: &R,
    targets: &mut T,
    engine: &Engine<'_>,
    asked: &Each<'_>,
    others: &BTreeMap<String, Value>,
    pages: Vec<Page<Value>>,
    progress: &mut P,
) -> Result<Vec<DonePage>, AllocError>
    ensures done { IfOk result (λ done. DoneInOrder asked.now.keep_going
        (DoesItem (R.world rt.now) (⟦<AnyEngine as EngineTexts>⟧.texts engine.now) asked.now
        (entries_view others.now.entries)) pages.items done.items (T.written targets.old) (T.written targets.new)) }
    ensures unwritten { OnErr result (T.written targets.new ≡ T.written targets.old) }
{
    let alloc = rt.alloc();
    let all = pages.len();
    let mut done = Vec::with_capacity(alloc, all)?;
    for page in pages {
        let ended = render_page(rt, targets, engine, asked, others, page);
        let last = is_last(&ended.end, asked.keep_going);
        done.push(ended)?;
        progress.tell(done.len(), all);
        if last {
            return Ok(done);
        }
    }
    Ok(done)
}

// Renders the page of an item and writes it.
fn render_page<R: Sources + AllocGlobal, T: Targets>(
    rt: &R,
    targets: &mut T,
    engine: &Engine<'_>,
    asked: &Each<'_>,
    others: &BTreeMap<String, Value>,
    page: Page<Value>,
) -> DonePage
    ensures { DoesItem (R.world rt.now) (⟦<AnyEngine as EngineTexts>⟧.texts engine.now) asked.now
        (entries_view others.now.entries) page result (T.written targets.old) (T.written targets.new) }
{
    let Page { name, from } = page;
    let text = item_text(rt.alloc(), engine, asked, others, &from);
    let end = end_with(rt, targets, asked.out, name.as_str(), text);
    DonePage { name, end }
}
