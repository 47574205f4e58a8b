// What is done with an engine that holds templates. The engine stays in one function: a function that takes `&mut
// Engine` or returns an engine would have a contract that says nothing of what is behind its `dyn`.
ghost use Rattle.std.specs.Prelude.{◌≡◌, ◌≤◌, ◌↔◌, ℕ, List, IfErr, IfOk, IfSome, None, OnErr, Some, false, is_some, not, true};
ghost use Rattle.upon_types.specs.Tree.{Statements};
ghost use Rattle.upon_types.specs.View.{view};
ghost use Rattle.upon_language_spec.specs.Grammar.{HasTree};
ghost use Rattle.upon_engine.specs.Engine.{engine_syntax, engine_templates};
ghost use Rattle.upon_engine.specs.Texts.{Stored};
ghost use Rattle.upon_meaning_spec.specs.Engine.{Template as TemplateMeant};
ghost use Rattle.upon_tool_messages.specs.Library.{library_names, refused_as};
ghost use Rattle.upon_tool_pages.specs.Missing.{EachIsRight, EachName, IsRightTemplate, LibraryIsRight};
ghost use Rattle.upon_tool_pages.specs.Rendering.{SendsPage, ShowsPage};
ghost use Rattle.upon_tool_pages.specs.Sources.{AreTexts};
ghost use Rattle.upon_tool.specs.Work.{checked_files, output_name, to_standard, CarriesOut, ChecksFiles, FilesPage, IfChecked, IsUnreadOf, ListsNames, RefusesWork, SendsToFile, Works};

use crate::names;
use std::alloc::{AllocError, Global};
use std::borrow::CowStr;
use std::io::{Read, Write};
use std::time::Clock;
use upon_calls::escaping::Escaping;
use upon_engine::engine::Engine;
use upon_engine::texts::{AnyEngine, EngineTexts};
use upon_engine::{laws_of_templates, theorem};
use upon_html::formatters::Verbatim;
use upon_std::table::StandardFunction;
use upon_tool_data::sources::STANDARD;
use upon_tool_io::arguments::Escape;
use upon_tool_io::output::WriteFault;
use upon_tool_io::sources::Sources;
use upon_tool_io::targets::Targets;
use upon_tool_many::build::Build;
use upon_tool_many::each::Each;
use upon_tool_messages::failure::Failure;
use upon_tool_messages::judge::Declared;
use upon_tool_messages::library::{Library, Refusal};
use upon_tool_pages::check::{check_file, check_text};
use upon_tool_pages::fitting::language_for;
use upon_tool_pages::many::{show_build, show_each};
use upon_tool_pages::rendering::{Page, explain, known_of, send, show};
use upon_tool_pages::sources::{FolderFile, text_of};
use upon_types::value::Value;

/// What an engine is to hold.
#[derive(Drop)]
pub(crate) struct Templates<'a> {
    /// The files of a folder.
    pub(crate) files: Vec<FolderFile>,
    /// A template, by its name.
    pub(crate) page: Option<(&'a str, String)>,
    /// The language that values are escaped for, if they are.
    pub(crate) escape: Option<Escape>,
    /// The functions that templates may call.
    pub(crate) functions: &'static [StandardFunction],
}

/// What is done with it.
#[derive(Drop)]
pub(crate) enum Work<'w, 'a> {
    /// A page is rendered, to a file if one is given.
    Render(&'w Page<'a, 'w>, Option<&'a str>),
    /// Files are checked, and those of the folder, which may call these.
    Check(&'w [&'a str], Declared<'w>),
    /// It is listed what the template of a name needs, as JSON if that is asked for.
    Names(&'a str, bool),
    /// A page is rendered for each item of a list of a value, and a user may wait for that at a terminal.
    Each(Value, &'w Each<'a>, bool),
    /// A folder is built into another, on a value; likewise.
    Build(&'w Value, &'w Build<'a>, bool),
}

/// Puts templates into an engine, does a piece of work with it, and returns the status.
pub(crate) fn carry_out<
    'a,
    R: Sources + Clock + AllocGlobal,
    T: Targets,
    I: Read,
    O: Write,
    E: Write,
>(
    rt: &R,
    targets: &mut T,
    templates: Templates<'a>,
    work: Work<'_, 'a>,
    input: &mut I,
    out: &mut O,
    err: &mut E,
) -> Result<u8, Failure<'a>>
    ensures range { IfOk result (λ status. status ≤ 2) }
    ensures ends { IfOk result (λ status.
        CarriesOut (R.world rt.now)
        templates.entry
        work.entry
        (I.remaining input.old)
        status
        (O.contents out.old)
        (O.contents out.new)
        (T.written targets.old)
        (T.written targets.new)) }
    ensures unsent { OnErr result (O.contents out.new ≡ O.contents out.old) }
    ensures unwritten { OnErr result (T.written targets.new ≡ T.written targets.old) }
    ensures refused { IfErr result (RefusesWork (R.world rt.now) templates.entry work.entry) }
{
    let alloc = rt.alloc();
    let Templates {
        files,
        page,
        escape,
        functions,
    } = templates;
    let mut engine = Engine::new(alloc);
    if let Some(language) = language_for(escape) {
        engine.add_formatter(CowStr::Borrowed("verbatim"), Box::new(alloc, Verbatim)?)?;
        engine.set_default_formatter(Box::new(alloc, Escaping { language })?);
    }
    for function in functions {
        let boxed = Box::new(alloc, *function)?;
        engine.add_function(CowStr::Borrowed(function.name()), boxed)?;
    }
    let callables = Declared {
        functions,
        has_verbatim: escape.is_some(),
        others: Default::default(),
    };
    let mut library = Library::new(alloc, callables);
    for file in files {
        let FolderFile { name, read } = file;
        let key = CowStr::Borrowed(name.as_str());
        let refusal = match read {
            Ok(text) => Refusal::of_added(engine.add_template(key, CowStr::Owned(text)))?,
            Err(fault) => Some(Refusal::of_read(fault)?),
        };
        library.add(name.as_str(), refusal)?;
    }
    if let Some((name, source)) = page {
        engine.add_template(CowStr::Borrowed(name), CowStr::Owned(source))?;
    }
    theorem::held_has_tree(&engine);
    do_work(rt, targets, &engine, &library, work, input, out, err)
}

// Does a piece of work with an engine, and answers the status.
fn do_work<'a, R: Sources + Clock + AllocGlobal, T: Targets, I: Read, O: Write, E: Write>(
    rt: &R,
    targets: &mut T,
    engine: &Engine<'_>,
    library: &Library,
    work: Work<'_, 'a>,
    input: &mut I,
    out: &mut O,
    err: &mut E,
) -> Result<u8, Failure<'a>>
    ensures range { IfOk result (λ status. status ≤ 2) }
    ensures ends { IfOk result (λ status. Works (R.world rt.now)
        work.entry
        (⟦<AnyEngine as EngineTexts>⟧.texts engine.now)
        (I.remaining input.old)
        status
        (O.contents out.old)
        (O.contents out.new)
        (T.written targets.old)
        (T.written targets.new)) }
    ensures folder { IfOk result (λ status. status ≡ 0 → IfChecked work.entry
        (λ callables. LibraryIsRight callables (⟦<AnyEngine as EngineTexts>⟧.texts engine.now) library.now)) }
    ensures unsent { OnErr result (O.contents out.new ≡ O.contents out.old) }
    ensures unwritten { OnErr result (T.written targets.new ≡ T.written targets.old) }
    ensures refused { IfErr result (IsUnreadOf (R.world rt.now) (checked_files work.entry)) }
{
    match work {
        Work::Render(page, path) => Ok(run_page(
            rt, targets, engine, library, page, path, out, err,
        )),
        Work::Check(names, callables) => {
            check_all(rt, engine, library, names, &callables, input, err)
        }
        Work::Names(name, json) => Ok(list(rt, engine, library, name, json, out, err)),
        Work::Each(value, asked, is_terminal) => {
            Ok(show_each(rt, targets, engine, library, value, asked, is_terminal, err))
        }
        Work::Build(value, asked, is_terminal) => {
            Ok(show_build(rt, targets, engine, library, value, asked, is_terminal, err))
        }
    }
}

// Lists what the template of a name needs, and answers the status.
fn list<R: AllocGlobal, O: Write, E: Write>(
    rt: &R,
    engine: &Engine<'_>,
    library: &Library,
    name: &str,
    json: bool,
    out: &mut O,
    err: &mut E,
) -> u8
    ensures range { result ≤ 2 }
    ensures lists { ListsNames
        (⟦<AnyEngine as EngineTexts>⟧.texts engine.now)
        name.now
        json
        result
        (O.contents out.old)
        (O.contents out.new) }
{
    theorem::one_table(engine);
    laws_of_templates::templates_are_the_table(engine);
    names::show(rt.alloc(), engine, library, name, json, out, err)
}

// How many bytes of output are held until they are written.
const OUTPUT_BUFFER: usize = 64 * 1024;

// Renders a page to where its text is to go.
fn run_page<R: AllocGlobal, T: Targets, O: Write, E: Write>(
    rt: &R,
    targets: &mut T,
    engine: &Engine<'_>,
    library: &Library,
    page: &Page<'_, '_>,
    path: Option<&str>,
    out: &mut O,
    err: &mut E,
) -> u8
    ensures range { result ≤ 2 }
    ensures ends { to_standard path.entry ≡ true → (T.written targets.new ≡ T.written targets.old)
        × ShowsPage (⟦<AnyEngine as EngineTexts>⟧.texts engine.now) page.now result (O.contents out.old)
        (O.contents out.new) }
    ensures filed { to_standard path.entry ≡ false → (O.contents out.new ≡ O.contents out.old)
        × FilesPage (⟦<AnyEngine as EngineTexts>⟧.texts engine.now) page.now (output_name path.entry) result
        (T.written targets.old) (T.written targets.new) }
{
    let alloc = rt.alloc();
    let Some(path) = file_of(path) else {
        return show(alloc, engine, library, page, out, err);
    };
    match write_file(rt, targets, engine, page, path) {
        Ok(()) => 0,
        Err(failure) => explain(alloc, engine, &known_of(library, page), &failure, err),
    }
}

// The file of an output, if it is not standard output.
fn file_of<'p>(path: Option<&'p str>) -> Option<&'p str>
    ensures file { is_some result ≡ not (to_standard path.entry) }
    ensures name { IfSome result (λ name. name.now ≡ output_name path.entry) }
{
    match path {
        Some(path) if path != STANDARD => Some(path),
        _ => None,
    }
}

// Writes the text of a page to a file, which is replaced if all went well.
fn write_file<'a, R: AllocGlobal, T: Targets>(
    rt: &R,
    targets: &mut T,
    engine: &Engine<'_>,
    page: &Page<'a, '_>,
    path: &'a str,
) -> Result<(), Failure<'a>>
    ensures { let texts = ⟦<AnyEngine as EngineTexts>⟧.texts engine.now in
        (held : Stored) (tree : Statements) → texts.texts page.now.name.now ≡ Some held
        → ∥ HasTree held.syntax held.text tree ∥₁
        → SendsToFile (λ r first last. SendsPage page.now.limits texts (Some page.now.name.now) held.text tree
        (view page.now.value.now) r first last) path.now result (T.written targets.old) (T.written targets.new) }
{
    let mut new = match targets.open(rt.alloc(), path, OUTPUT_BUFFER) {
        Ok(new) => new,
        Err(fault) => return Err(Failure::Unwritable(path, fault)),
    };
    match send(engine, page, &mut new) {
        Ok(()) => match targets.keep(path, new) {
            Ok(()) => Ok(()),
            Err(error) => Err(Failure::Unwritable(path, WriteFault::Io(error))),
        },
        Err(failure) => {
            targets.discard(new);
            Err(failure)
        }
    }
}

// Checks files and those of the library, and answers the status.
fn check_all<'a, R: Sources + AllocGlobal, I: Read, E: Write>(
    rt: &R,
    engine: &Engine<'_>,
    library: &Library,
    names: &[&'a str],
    callables: &Declared<'_>,
    input: &mut I,
    err: &mut E,
) -> Result<u8, Failure<'a>>
    ensures range { IfOk result (λ status. status ≤ 2) }
    ensures checks { IfOk result (λ status. ChecksFiles (R.world rt.now)
        callables.now
        (⟦<AnyEngine as EngineTexts>⟧.texts engine.now)
        names.now
        (I.remaining input.old)
        status) }
    ensures folder { IfOk result (λ status. status ≡ 0
        → LibraryIsRight callables.now (⟦<AnyEngine as EngineTexts>⟧.texts engine.now) library.now) }
    ensures refused { IfErr result (IsUnreadOf (R.world rt.now) names.now) }
{
    theorem::one_table(engine);
    laws_of_templates::templates_are_the_table(engine);
    let alloc = rt.alloc();
    let is_right = check_each(rt, engine, library, names, callables, input, err)?;
    let is_whole = check_folder(alloc, engine, library, callables, err)?;
    Ok(if is_right && is_whole { 0 } else { 1 })
}

// Whether nothing is wrong with files.
fn check_each<'a, R: Sources + AllocGlobal, I: Read, E: Write>(
    rt: &R,
    engine: &Engine<'_>,
    library: &Library,
    names: &[&'a str],
    callables: &Declared<'_>,
    input: &mut I,
    err: &mut E,
) -> Result<bool, Failure<'a>>
    ensures right { IfOk result (λ is_right. (texts : List (List ℕ))
        × AreTexts (R.world rt.now) names.now (I.remaining input.old) texts (I.remaining input.new)
        × ((is_right ≡ true)
        ↔ EachIsRight callables.now (engine_syntax engine.now) (engine_templates engine.now) names.now texts)) }
    ensures refused { IfErr result (IsUnreadOf (R.world rt.now) names.now) }
{
    let alloc = rt.alloc();
    let mut is_right = true;
    for name in names {
        let source = text_of(rt, name, input)?;
        let source = CowStr::Owned(source);
        is_right &= check_text(alloc, engine, library, name, source, callables, err)?;
    }
    Ok(is_right)
}

// Whether nothing is wrong with the files of the library.
fn check_folder<E: Write>(
    alloc: Global,
    engine: &Engine<'_>,
    library: &Library,
    callables: &Declared<'_>,
    err: &mut E,
) -> Result<bool, AllocError>
    ensures { let table = engine_templates engine.now in
        IfOk result (λ is_right. is_right ≡ true → EachName (λ name. (refused_as library.now name ≡ None)
        × ((t : TemplateMeant) → table name ≡ Some t
        → IsRightTemplate callables.now (engine_syntax engine.now) table name t.source))
        (library_names library.now)) }
{
    let names = library.names();
    let mut is_right = true;
    for name in names {
        is_right &= check_file(alloc, engine, library, name.as_str(), callables, err)?;
    }
    Ok(is_right)
}
