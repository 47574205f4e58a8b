// Templates by their names, with the files that are none.
ghost use Rattle.std.specs.Prelude.{◌≡◌, ◌++◌, ◌∷◌, [], ℕ, List, map, None, Some, IfOk, OnErr, OnOk, option_map, bytes_eq, string_bytes};
ghost use Rattle.std.specs.Map.{update};
ghost use Rattle.upon_types.specs.Conversions.{or_else};
ghost use Rattle.upon_engine.specs.Engine.{engine_templates};
ghost use Rattle.upon_engine.specs.Template.{template_tree};
ghost use Rattle.upon_tool_messages.specs.Gone.{IsOfGone};
ghost use Rattle.upon_tool_messages.specs.Included.{include_at_span, lacking_include, IsRefusedIfNamed, IsRefusedOnWay};
ghost use Rattle.upon_tool_messages.specs.Library.{library_callables, library_names, refused_as, read_refusal, IsOfAdded};

use crate::failure::{is_memory, report_fault};
use crate::judge::Declared;
use std::alloc::{AllocError, Global};
use std::collections::BTreeMap;
use std::io;
use upon_engine::engine::Engine;
use upon_engine::template::Template;
use upon_needs::places::include_places;
use upon_tool_io::files::ReadFault;
use upon_types::error::Error;
use upon_types::error::cause::Cause;
use upon_types::types::Span;

/// Why a file is no template.
#[derive(Drop)]
pub enum Refusal {
    /// It could not be read, by this error of the system.
    Unreadable(io::Error),
    /// It is not UTF-8.
    NotText,
    /// It is a link that leads out of the folder.
    Outside,
    /// Its text is no template.
    Fault(Error),
}

impl Refusal {
    /// Returns why a file is no template that could not be read as text. It fails if there was no memory.
    pub fn of_read(fault: ReadFault) -> Result<Refusal, AllocError>
        ensures read { IfOk result (λ refusal. read_refusal fault ≡ Some refusal) }
        ensures memory { OnErr result (read_refusal fault ≡ None) }
    {
        match fault {
            ReadFault::NotText => Ok(Refusal::NotText),
            ReadFault::Outside => Ok(Refusal::Outside),
            ReadFault::Unreadable(error) => Ok(Refusal::Unreadable(error)),
            ReadFault::OutOfMemory => Err(AllocError),
        }
    }

    /// Returns why a text is no template, or `None` if an engine took it. It fails if there was no memory.
    pub fn of_added(added: upon_types::error::Result<()>) -> Result<Option<Refusal>, AllocError>
        ensures { IsOfAdded added result }
    {
        let Err(error) = added else {
            return Ok(None);
        };
        if is_memory(&error) {
            drop(error);
            return Err(AllocError);
        }
        Ok(Some(Refusal::Fault(error)))
    }
}

/// Says why a file is no template; nothing, if that is an error of which nothing is said, as [`report_fault`] has it.
pub fn report_refusal<E: io::Write>(alloc: Global, name: &str, refusal: &Refusal, err: &mut E)
    ensures { IsOfGone refusal.now → err.new ≡ err.old }
{
    match refusal {
        Refusal::Fault(error) => report_fault(alloc, error, err),
        Refusal::Unreadable(error) => {
            let _ = writeln!(err, "upon-tool: cannot read {name}: {error}");
        }
        Refusal::NotText => {
            let _ = writeln!(err, "upon-tool: {name} is not UTF-8");
        }
        Refusal::Outside => {
            let _ = writeln!(
                err,
                "upon-tool: {name} is a link out of the folder (--follow follows it)"
            );
        }
    }
}

/// The files of a folder by their names, with the reasons why some are no templates, and what templates may call. An
/// engine holds the templates.
#[derive(Drop)]
pub struct Library {
    alloc: Global,
    callables: Declared<'static>,
    names: Vec<String>,
    refused: BTreeMap<String, Refusal>,
}

impl Library {
    /// Creates a library without files.
    pub fn new(alloc: Global, callables: Declared<'static>) -> Library
        ensures callables { library_callables result ≡ callables.entry }
        ensures names { library_names result ≡ [] }
        ensures refused { (name : List ℕ) → refused_as result name ≡ None }
    {
        Library {
            alloc,
            callables,
            names: Vec::new(alloc),
            refused: BTreeMap::new(alloc),
        }
    }

    /// Returns what templates may call.
    pub fn callables(&self) -> Declared<'static>
        ensures { result ≡ library_callables self.now }
    {
        self.callables
    }

    /// Returns the names of the files, in the order in which they were added.
    pub fn names(&self) -> &[String]
        ensures { map string_bytes result.now ≡ library_names self.now }
    {
        self.names.as_slice()
    }

    /// Returns why the file of a name is no template, or `None` if it is one or is not there.
    pub fn refusal(&self, name: &str) -> Option<&Refusal>
        ensures { option_map (λ refusal. refusal.now) result ≡ refused_as self.now name.now }
    {
        self.refused.get(name)
    }

    /// Keeps the name of a file, and the reason why it is no template, if it is none. It fails if there is no memory.
    pub fn add(&mut self, name: &str, refusal: Option<Refusal>) -> Result<(), AllocError>
        ensures callables { library_callables self.new ≡ library_callables self.old }
        // The name is the last of its names.
        ensures names { OnOk result (library_names self.new ≡ library_names self.old ++ name.now ∷ []) }
        // At the name is the reason, if one is given, and else what was there; at each other name is what was there.
        ensures refused { OnOk result ((other : List ℕ) → refused_as self.new other
            ≡ update bytes_eq (refused_as self.old) name.now (or_else refusal (refused_as self.old name.now)) other) }
    {
        self.names.push(String::from_str(self.alloc, name)?)?;
        if let Some(refusal) = refusal {
            let name = String::from_str(self.alloc, name)?;
            drop(self.refused.insert(name, refusal)?);
        }
        Ok(())
    }

    /// Returns the file that is no template and that a rendering reached, or the folder on the way to it that can't be
    /// read, if that is why it ended with this error. It fails if there is no memory.
    pub fn reached(
        &self,
        engine: &Engine<'_>,
        error: &Error,
    ) -> Result<Option<(&str, &Refusal)>, AllocError>
        ensures { IfOk result (λ found.
            IsRefusedIfNamed self.now (lacking_include (engine_templates engine.now) error.now)
            (option_map (λ found. (found.0.now, found.1.now)) found)) }
    {
        match missing_include(engine, error)? {
            Some(name) => Ok(self.refused_on_way(name)),
            None => Ok(None),
        }
    }

    /// Returns the file of a name that is no template, or the folder on the way to it that can't be read.
    pub fn refused_on_way(&self, name: &str) -> Option<(&str, &Refusal)>
        ensures { IsRefusedOnWay self.now name.now (option_map (λ found. (found.0.now, found.1.now)) result) }
    {
        let mut path = name;
        loop {
            if let Some((found, refusal)) = self.refused.get_key_value(path) {
                return Some((found.as_str(), refusal));
            }
            (path, _) = path.rsplit_once('/')?;
        }
    }
}

/// Returns the name of the include that found no template, if that is what an error says. It fails if there is no
/// memory.
pub(crate) fn missing_include<'n>(
    engine: &'n Engine<'_>,
    error: &Error,
) -> Result<Option<&'n str>, AllocError>
    ensures { IfOk result (λ name.
        option_map (λ name. name.now) name ≡ lacking_include (engine_templates engine.now) error.now) }
{
    // A source of templates refuses by a text, which has no cause.
    if !matches!(error.cause(), Some(Cause::UnknownTemplate) | None) {
        return Ok(None);
    }
    let (Some(name), Some(span)) = (error.template_name(), error.place()) else {
        return Ok(None);
    };
    match engine.held(name) {
        Some(template) => included_at(template, span),
        None => Ok(None),
    }
}

// The name of the include at a span of a template.
fn included_at<'t>(template: &'t Template<'_>, span: Span) -> Result<Option<&'t str>, AllocError>
    ensures { IfOk result (λ name.
        option_map (λ name. name.now) name ≡ include_at_span span (template_tree template.now)) }
{
    let places = include_places(template)?;
    for place in places.as_slice() {
        if place.span == span {
            return Ok(Some(place.name));
        }
    }
    Ok(None)
}
