// A store of templates by their paths.
ghost use Rattle.std.specs.Prelude.{◌≡◌, ℕ, List, None, IfOk, OnErr, OnOk, is_some, option_map};
ghost use Rattle.std.specs.Cow.{cow_str_bytes};
ghost use Rattle.upon_types.specs.View.{view};
ghost use Rattle.upon_syntax.specs.TagReading.{IsSyntaxError};
ghost use Rattle.upon_lookup.specs.Asked.{refuses_all};
ghost use Rattle.upon_lookup.specs.Environment.{context};
ghost use Rattle.upon_meaning_spec.specs.Alone.{alone};
ghost use Rattle.upon_meaning_spec.specs.Engine.{rendering_by};
ghost use Rattle.upon_meaning_spec.specs.Outcome.{states};
ghost use Rattle.upon_engine.specs.Engine.{engine_depth, engine_syntax, engine_templates};
ghost use Rattle.upon_engine.specs.Template.{template_of};
ghost use Rattle.upon_engine.specs.Theorem.{engine_meant};
ghost use Rattle.upon_store.specs.Paths.{is_path, path_texts};
ghost use Rattle.upon_store.specs.Stored.{from_store, paths, stored, AllStay, EndsAdding, HoldsTemplate, OthersStay, RendersStored, PathsRise};

use crate::path::{is_path, resolve};
use std::alloc::{AllocError, Global};
use std::borrow::CowStr;
use std::collections::BTreeMap;
use std::io;
use upon::render::{SourceError, TemplateSource};
use upon::{AnyEngine, Engine, EngineTexts, Error, Template, Value};

/// Why a store refuses.
#[derive(Debug, Drop)]
pub enum StoreError {
    /// The text is no path.
    BadPath,
    /// No template has the path.
    NotFound,
    /// The engine refused.
    Engine(Error),
    /// There was no memory for the store.
    OutOfMemory,
}

/// Templates by their paths. Each may include the others by paths, which begin in the folder of the template that is
/// rendered.
#[derive(Drop)]
pub struct Store<'s> {
    alloc: Global,
    templates: BTreeMap<String, Template<'s>>,
}

/// A store as the source of the templates that a template of this path includes.
#[derive(Clone, Copy)]
struct Folder<'r, 's> {
    store: &'r Store<'s>,
    path: &'r str,
}

impl<'r, 's> TemplateSource<'r> for Folder<'r, 's> {
    ghost use Rattle.std.specs.Prelude.{[]};
    ghost use Rattle.upon.proofs.TemplateSpans.{handed_on_lie};
    ghost use Rattle.upon_store.specs.Stored.{answers_in};

    ghost State = { Unit {0} };

    ghost template_state = { λ _. tt };

    ghost resolve = { λ s. from_store s.store.now s.path.now };

    ghost holds = { λ _. [] };

    ghost templates_lie = { λ s. handed_on_lie (answers_in s.store.now s.path.now) };

    fn template(&mut self, name: &str) -> Result<&'r Template<'r>, SourceError> {
        match resolve(self.store.alloc, self.path, name) {
            Ok(Some(path)) => match self.store.get(path.as_str()) {
                Some(template) => Ok(template.lent()),
                None => match String::from_str(self.store.alloc, "template not found") {
                    Ok(reason) => Err(SourceError::Refused(reason)),
                    Err(_) => Err(SourceError::Memory),
                },
            },
            Ok(None) => match String::from_str(self.store.alloc, "bad template path") {
                Ok(reason) => Err(SourceError::Refused(reason)),
                Err(_) => Err(SourceError::Memory),
            },
            Err(_) => Err(SourceError::Memory),
        }
    }
}

impl<'s> Store<'s> {
    /// Creates a store without templates. It keeps the allocator, and takes no memory.
    pub fn new(alloc: Global) -> Store<'s>
        ensures { (path : List ℕ) → stored result path ≡ None }
    {
        Store {
            alloc,
            templates: BTreeMap::new(alloc),
        }
    }

    /// Adds a template under a path: compiles it under the engine's syntax, and puts it in place of one that is there.
    /// If it is refused, the store stays as it was.
    pub fn add(
        &mut self,
        engine: &Engine<'_>,
        path: &str,
        source: CowStr<'s>,
    ) -> Result<(), StoreError>
        ensures added { OnOk result
            (HoldsTemplate (engine_syntax engine.now) (cow_str_bytes source.entry) (stored self.new path.now)) }
        ensures ends { EndsAdding
            (is_path path.now)
            (IsSyntaxError (engine_syntax engine.now) (cow_str_bytes source.entry))
            result }
        ensures others { OthersStay path.now (stored self.old) (stored self.new) }
        ensures refused { OnErr result (AllStay (stored self.old) (stored self.new)) }
    {
        if !is_path(path) {
            return Err(StoreError::BadPath);
        }
        let template = match engine.compile(source) {
            Ok(template) => template,
            Err(error) => return Err(StoreError::Engine(error)),
        };
        let path = match String::from_str(self.alloc, path) {
            Ok(path) => path,
            Err(_) => return Err(StoreError::OutOfMemory),
        };
        match self.templates.insert(path, template) {
            Ok(old) => {
                drop(old);
                Ok(())
            }
            Err(_) => Err(StoreError::OutOfMemory),
        }
    }

    /// Returns the template of a path. It takes no memory.
    pub fn get(&self, path: &str) -> Option<&Template<'s>>
        ensures { option_map (λ t. template_of t.now) result ≡ stored self.now path.now }
    {
        self.templates.get(path)
    }

    /// Removes the template of a path. The answer is whether there was one. It takes no memory.
    pub fn remove(&mut self, path: &str) -> bool
        ensures removed { stored self.new path.now ≡ None }
        ensures was_there { result ≡ is_some (stored self.old path.now) }
        ensures others { OthersStay path.now (stored self.old) (stored self.new) }
    {
        self.templates.remove(path).is_some()
    }

    /// Returns the paths of all templates, in ascending order.
    pub fn paths(&self) -> Result<Vec<&str>, AllocError>
        ensures all { IfOk result (λ v. path_texts v.items ≡ paths self.now) }
        ensures rise { IfOk result (λ v. PathsRise (path_texts v.items)) }
    {
        let mut paths = Vec::new(self.alloc);
        for path in self.templates.keys() {
            paths.push(path.as_str())?;
        }
        Ok(paths)
    }

    /// Writes what the template of a path means on a value, each include's name answered by the store: by the
    /// template at the path that the name denotes in the folder of this path.
    pub fn render<W: io::Write>(
        &self,
        engine: &Engine<'_>,
        path: &str,
        value: &Value,
        writer: &mut W,
    ) -> Result<(), StoreError>
        ensures means { RendersStored
            (is_path path.now)
            (stored self.now path.now)
            (engine_depth engine.now)
            result
            (W.contents writer.old)
            (W.contents writer.new)
            (λ t. alone (rendering_by
            (engine_meant (⟦<AnyEngine as EngineTexts>⟧.texts engine.now) (engine_templates engine.now))
            refuses_all (from_store self.now path.now) None) t None (context (view value.now))
            (states (tt {0}) (tt {0}))) }
    {
        if !is_path(path) {
            return Err(StoreError::BadPath);
        }
        match self.get(path) {
            None => Err(StoreError::NotFound),
            Some(template) => {
                let folder = Folder { store: self, path };
                let rendering = template.render_from(engine, value).with_template_fn(folder);
                match rendering.to_writer(writer) {
                    Ok(()) => Ok(()),
                    Err(error) => Err(StoreError::Engine(error)),
                }
            }
        }
    }
}
