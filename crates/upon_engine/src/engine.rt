// An engine: templates and callables by their names.
ghost use Rattle.std.specs.Prelude.{◌≡◌, IfSome, IfOk, IfErr, IsSome, OnOk, is_some, option_map};
ghost use Rattle.std.specs.BTreeMap.{get_by_text};
ghost use Rattle.std.specs.Cow.{cow_str_bytes};
ghost use Rattle.upon_types.specs.Answers.{formatter, function};
ghost use Rattle.upon_types.specs.Error.{fault_of};
ghost use Rattle.upon_types.specs.Fault.{syntax};
ghost use Rattle.upon_types.specs.Tree.{Statements};
ghost use Rattle.upon_language_spec.specs.Grammar.{HasTree};
ghost use Rattle.upon_delimiters.specs.Syntax.{syntax_delimiters};
ghost use Rattle.upon_syntax.specs.TagReading.{IsSyntaxError};
ghost use Rattle.upon_vm_steps.specs.Calls.{callable_sort};
ghost use Rattle.upon_engine.specs.Before.{KeepsOldTree, HadNoTree};
ghost use Rattle.upon_engine.specs.Callables.{callable_of};
ghost use Rattle.upon_engine.specs.Faults.{IsSyntaxErrorOf};
ghost use Rattle.upon_engine.specs.Template.{template_of, template_source, template_syntax, template_tree};
ghost use Rattle.upon_engine.specs.Engine.{engine_depth, engine_syntax, engine_templates};
ghost use Rattle.upon_engine.specs.Changes.{empty_engine, unless_refused, with_text, without_text, with_callable, without_callable, with_default_formatter, with_depth, with_syntax};
ghost use Rattle.upon_engine.specs.Texts.{texts_of};

use crate::compile;
use crate::template::Template;
use std::alloc::{AllocError, Global};
use std::borrow::CowStr;
use std::collections::BTreeMap;
use upon_fmt::fmt::Format;
use upon_functions::function::Function;
use upon_syntax::compile::search::Searcher;
use upon_syntax::types::syntax::Syntax;
use upon_types::error::Result;
use upon_vm_steps::callables::EngineCallable;

/// A formatter or a function.
#[derive(Drop)]
pub(crate) enum Callable {
    Formatter(Box<dyn Format>),
    Function(Box<dyn Function>),
}

/// Templates, formatters and functions by their names, with the syntax that templates are compiled under.
#[derive(Drop)]
pub struct Engine<'e> {
    alloc: Global,
    searcher: Searcher,
    default_formatter: Option<Box<dyn Format>>,
    callables: BTreeMap<String, Callable>,
    templates: BTreeMap<String, Template<'e>>,
    depth: usize,
}

impl<'e> Engine<'e> {
    /// Creates an engine without templates and callables, with the default syntax, the default formatter, and 64 as the
    /// depth of includes. It keeps the allocator.
    pub fn new(alloc: Global) -> Engine<'e>
        ensures { texts_of formats answers result ≡ empty_engine }
    {
        Engine {
            alloc,
            searcher: Searcher::new(),
            default_formatter: None,
            callables: BTreeMap::new(alloc),
            templates: BTreeMap::new(alloc),
            depth: 64,
        }
    }

    /// Creates the same engine as [`Engine::new`].
    pub fn default(alloc: Global) -> Engine<'e>
        ensures { texts_of formats answers result ≡ empty_engine }
    {
        Engine::new(alloc)
    }

    /// Sets how deep includes may go in renderings that do not set it themselves. The template that is rendered counts
    /// as one; 0 acts as 1.
    pub fn set_max_include_depth(&mut self, depth: usize)
        ensures { texts_of formats answers self.new ≡ with_depth depth (texts_of formats answers self.old) }
    {
        self.depth = depth;
    }

    /// Sets the syntax for templates that are compiled from now on.
    pub fn set_syntax(&mut self, syntax: Syntax)
        ensures { texts_of formats answers self.new
            ≡ with_syntax (syntax_delimiters syntax) (texts_of formats answers self.old) }
    {
        self.searcher = Searcher::with_syntax(syntax);
    }

    /// Sets what writes the values that are shown without a formatter's name.
    pub fn set_default_formatter(&mut self, formatter: Box<dyn Format>)
        ensures { texts_of formats answers self.new
            ≡ with_default_formatter (formats formatter) (texts_of formats answers self.old) }
    {
        self.default_formatter = Some(formatter);
    }

    /// Returns what takes memory for texts, lists and maps.
    pub(crate) fn alloc(&self) -> Global {
        self.alloc
    }

    /// Returns how deep includes may go.
    pub(crate) fn depth(&self) -> usize
        ensures { result ≡ engine_depth self.now }
    {
        self.depth
    }
}

impl<'e> Engine<'e> {
    /// Compiles a text under the engine's syntax. A text that has no tree is refused, with its first fault; out of
    /// memory has the kind `OutOfMemory`. A text that had a tree before `for .. else` has that tree.
    pub fn compile<'s>(&self, source: CowStr<'s>) -> Result<Template<'s>>
        ensures source { IfOk result (λ t. template_source t ≡ cow_str_bytes source.entry) }
        ensures syntax { IfOk result (λ t. template_syntax t ≡ engine_syntax self.now) }
        ensures has_tree { IfOk result
            (λ t. HasTree (engine_syntax self.now) (cow_str_bytes source.entry) (template_tree t)) }
        ensures only_tree { IfOk result
            (λ t. (tree : Statements)
            → HasTree (engine_syntax self.now) (cow_str_bytes source.entry) tree → tree ≡ template_tree t) }
        ensures fault { IfErr result (IsSyntaxError (engine_syntax self.now) (cow_str_bytes source.entry)) }
        ensures no_tree { IfErr result
            (λ e. (fault_of e).kind ≡ syntax
            → (tree : Statements) → HasTree (engine_syntax self.now) (cow_str_bytes source.entry) tree → ⊥) }
        ensures kept { IfOk result
            (λ t. KeepsOldTree (engine_syntax self.now) (cow_str_bytes source.entry) (template_tree t)) }
        ensures accepted { IfErr result
            (λ e. (fault_of e).kind ≡ syntax → HadNoTree (engine_syntax self.now) (cow_str_bytes source.entry)) }
    {
        compile::with_searcher(self.alloc, &self.searcher, source)
    }

    /// Compiles a template and puts it under a name, in place of one that is there. If the text has no tree or memory
    /// is out, the engine stays as it was; the fault is as for [`Engine::compile`], with the template's name. A text
    /// that had a tree before `for .. else` has that tree.
    pub fn add_template(&mut self, name: CowStr<'_>, source: CowStr<'e>) -> Result<()>
        ensures engine { texts_of formats answers self.new
            ≡ unless_refused result (with_text (cow_str_bytes name.entry) (cow_str_bytes source.entry))
            (texts_of formats answers self.old) }
        // So under the name there is a text, as `Engine::template` asks.
        ensures held { OnOk result (IsSome ((texts_of formats answers self.new).texts (cow_str_bytes name.entry))) }
        ensures fault { IfErr result
            (IsSyntaxErrorOf (cow_str_bytes name.entry) (engine_syntax self.old) (cow_str_bytes source.entry)) }
        ensures no_tree { IfErr result (λ e. (fault_of e).kind ≡ syntax
            → (tree : Statements) → HasTree (engine_syntax self.old) (cow_str_bytes source.entry) tree → ⊥) }
        ensures accepted { IfErr result
            (λ e. (fault_of e).kind ≡ syntax → HadNoTree (engine_syntax self.old) (cow_str_bytes source.entry)) }
    {
        let template = compile::with_name(self.alloc, &self.searcher, name.as_str(), source)?;
        let name = name.into_owned(self.alloc)?;
        match self.templates.insert(name, template) {
            Ok(old) => {
                drop(old);
                Ok(())
            }
            Err(error) => Err(AllocError::from(error).into()),
        }
    }

    /// Removes a template. Returns whether there was one of this name.
    pub fn remove_template(&mut self, name: &str) -> bool
        ensures engine { texts_of formats answers self.new
            ≡ without_text name.now (texts_of formats answers self.old) }
        ensures was_there { result ≡ is_some ((texts_of formats answers self.old).texts name.now) }
    {
        self.templates.remove(name).is_some()
    }

    /// Returns the template of a name.
    pub fn held(&self, name: &str) -> Option<&Template<'e>>
        ensures { option_map (λ t. template_of t.now) result ≡ engine_templates self.now name.now }
    {
        self.templates.get(name)
    }

    /// Returns the template of a name, with the name as the engine keeps it.
    pub(crate) fn held_with_name(&self, name: &str) -> Option<(&str, &Template<'e>)>
        ensures template { option_map (λ p. template_of p.1.now) result ≡ engine_templates self.now name.now }
        ensures name { IfSome result (λ p. p.0.now ≡ name.now) }
    {
        match self.templates.get_key_value(name) {
            Some((kept, template)) => Some((kept.as_str(), template)),
            None => None,
        }
    }

    /// Returns the templates by their names.
    pub fn templates(&self) -> &BTreeMap<String, Template<'e>>
        ensures { result.now ≡ self.now.templates }
    {
        &self.templates
    }
}

impl Callable {
    /// Returns whether it is a formatter or a function.
    pub(crate) fn kind(&self) -> EngineCallable
        ensures { result ≡ callable_sort (callable_of formats answers self.now) }
    {
        match self {
            Callable::Formatter(_) => EngineCallable::Formatter,
            Callable::Function(_) => EngineCallable::Function,
        }
    }
}

impl<'e> Engine<'e> {
    /// Puts a formatter under a name, in place of a callable that is there. Returns which kind that was. If memory is
    /// out, the engine stays as it was.
    pub fn add_formatter(
        &mut self,
        name: CowStr<'_>,
        added: Box<dyn Format>,
    ) -> std::result::Result<Option<EngineCallable>, AllocError>
        ensures engine { texts_of formats answers self.new
            ≡ unless_refused result (with_callable (cow_str_bytes name.entry) (formatter (formats added)))
            (texts_of formats answers self.old) }
        ensures replaced { IfOk result (λ was. was
            ≡ option_map callable_sort ((texts_of formats answers self.old).callables (cow_str_bytes name.entry))) }
    {
        self.put(name, Callable::Formatter(added))
    }

    /// Puts a function under a name, in place of a callable that is there. Returns which kind that was. If memory is
    /// out, the engine stays as it was.
    pub fn add_function(
        &mut self,
        name: CowStr<'_>,
        added: Box<dyn Function>,
    ) -> std::result::Result<Option<EngineCallable>, AllocError>
        ensures engine { texts_of formats answers self.new
            ≡ unless_refused result (with_callable (cow_str_bytes name.entry) (function (answers added)))
            (texts_of formats answers self.old) }
        ensures replaced { IfOk result (λ was. was
            ≡ option_map callable_sort ((texts_of formats answers self.old).callables (cow_str_bytes name.entry))) }
    {
        self.put(name, Callable::Function(added))
    }

    /// Removes a formatter or a function. Returns which of both was there, or `None`.
    pub fn remove_callable(&mut self, name: &str) -> Option<EngineCallable>
        ensures engine { texts_of formats answers self.new
            ≡ without_callable name.now (texts_of formats answers self.old) }
        ensures was_there { result
            ≡ option_map callable_sort ((texts_of formats answers self.old).callables name.now) }
    {
        let old = self.callables.remove(name);
        kind_of_old(old)
    }

    // Puts a callable under a name.
    fn put(
        &mut self,
        name: CowStr<'_>,
        callable: Callable,
    ) -> std::result::Result<Option<EngineCallable>, AllocError>
        ensures engine { texts_of formats answers self.new
            ≡ unless_refused result (with_callable (cow_str_bytes name.entry) (callable_of formats answers callable))
            (texts_of formats answers self.old) }
        ensures replaced { IfOk result (λ was. was
            ≡ option_map callable_sort ((texts_of formats answers self.old).callables (cow_str_bytes name.entry))) }
    {
        let name = name.into_owned(self.alloc)?;
        match self.callables.insert(name, callable) {
            Ok(old) => Ok(kind_of_old(old)),
            Err(error) => Err(error.into()),
        }
    }

    /// Returns the callable of a name.
    pub(crate) fn callable(&self, name: &str) -> Option<&Callable>
        ensures { option_map (λ c. c.now) result ≡ get_by_text self.now.callables name.now }
    {
        self.callables.get(name)
    }

    /// Returns the default formatter that was set.
    pub(crate) fn formatter(&self) -> Option<&Box<dyn Format>>
        ensures { option_map (λ f. f.now) result ≡ self.now.default_formatter }
    {
        self.default_formatter.as_ref()
    }
}

// What a callable was that another one replaced.
fn kind_of_old(old: Option<Callable>) -> Option<EngineCallable>
    ensures { result ≡ option_map (λ c. callable_sort (callable_of formats answers c)) old }
{
    match old {
        Some(callable) => Some(callable.kind()),
        None => None,
    }
}
