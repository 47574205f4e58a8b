// The renderer: a rendering before it is made.
ghost use Rattle.std.specs.Prelude.{◌≡◌, None, true};
ghost use Rattle.upon_types.specs.View.{view};
ghost use Rattle.upon_vm.specs.Reports.{IsAnyIo, IsTakenError, WriteMarks, WritesAndLeaves, WritesReported};
ghost use Rattle.upon_vm.specs.Runs.{Ran, RunMarks};
ghost use Rattle.upon_meaning_spec.specs.Outcome.{states};
ghost use Rattle.upon_engine.specs.Template.{template_of};
ghost use Rattle.upon_engine.specs.Answers.{AnswersText};
ghost use Rattle.upon_lookup.specs.Environment.{Root};
ghost use Rattle.upon_engine.specs.Base.{IsContextOf, on_root};
ghost use Rattle.upon_engine.specs.Calls.{call_of, outcome, engine_in, renderer_values, templates_in, template_in, name_in, limit_in};
ghost use Rattle.upon_engine.specs.Engine.{engine_depth};
ghost use Rattle.upon_engine.specs.KeepsLaws.{KeepsLaws};
ghost use Rattle.upon_engine.specs.Sources.{base_in, engine_of_templates, source_in, value_in};

use crate::engine::Engine;
use crate::sources::{EngineTemplates, TemplateSource, program_of};
use crate::template::Template;
use crate::values::{Context, SerdeContext, SourceValues, Values};
use serde::Serialize;
use std::alloc::Global;
use std::io;
use upon_fmt::output::{LentWriter, Output};
use upon_lookup::source::ValueSource;
use upon_serde::to_value;
use upon_types::error;
use upon_types::value::Value;
use upon_vm::failure::Failure;
use upon_vm::report::reported;
use upon_vm::run::Ending;
use upon_vm_steps::callables::Callables;
use upon_vm_steps::machine::Running;

/// A rendering before it is made: a template, what its names call, what it is rendered on, where the templates that it
/// includes come from, and how deep includes may go.
#[derive(Drop)]
pub struct Renderer<'r, E, V, T> {
    pub(crate) alloc: Global,
    pub(crate) engine: E,
    pub(crate) template: &'r Template<'r>,
    pub(crate) name: Option<&'r str>,
    pub(crate) values: V,
    pub(crate) templates: T,
    pub(crate) limit: usize,
}

impl<'s> Template<'s> {
    /// Returns a rendering on what serde writes of the context, with the engine's callables, templates and depth. It is
    /// not made yet; a context that is no value is reported in place of a text, before anything is written.
    pub fn render<'r, 'e, S: Serialize + Drop>(
        &'r self,
        engine: &'r Engine<'e>,
        context: S,
    ) -> Renderer<'r, &'r Engine<'e>, SerdeContext, EngineTemplates<'r, 'e>>
        ensures template { template_in result ≡ template_of self.now }
        ensures name { name_in result ≡ None }
        ensures engine { (engine_in result).now ≡ engine.now }
        ensures templates { engine_of_templates (templates_in result) ≡ engine.now }
        ensures context { IsContextOf (λ old new. S.writes context old new) (base_in (renderer_values result)) }
        ensures limit { limit_in result ≡ engine_depth engine.now }
    {
        let value = to_value(engine.alloc(), context);
        self.rendering(engine, SerdeContext { value })
    }

    /// Returns a rendering on a value, with the engine's callables, templates and depth. It is not made yet.
    pub fn render_from<'r, 'e>(
        &'r self,
        engine: &'r Engine<'e>,
        value: &'r Value,
    ) -> Renderer<'r, &'r Engine<'e>, Context<'r>, EngineTemplates<'r, 'e>>
        ensures template { template_in result ≡ template_of self.now }
        ensures name { name_in result ≡ None }
        ensures engine { (engine_in result).now ≡ engine.now }
        ensures templates { engine_of_templates (templates_in result) ≡ engine.now }
        ensures value { value_in (renderer_values result) ≡ view value.now }
        ensures limit { limit_in result ≡ engine_depth engine.now }
    {
        self.rendering(engine, Context { value })
    }

    /// Returns a rendering on a source of values, with the engine's callables, templates and depth. It is not made yet.
    pub fn render_from_fn<'r, 'e, S: ValueSource>(
        &'r self,
        engine: &'r Engine<'e>,
        source: S,
    ) -> Renderer<'r, &'r Engine<'e>, SourceValues<S>, EngineTemplates<'r, 'e>>
        ensures template { template_in result ≡ template_of self.now }
        ensures name { name_in result ≡ None }
        ensures engine { (engine_in result).now ≡ engine.now }
        ensures templates { engine_of_templates (templates_in result) ≡ engine.now }
        ensures source { source_in (renderer_values result) ≡ source }
        ensures limit { limit_in result ≡ engine_depth engine.now }
    {
        self.rendering(engine, SourceValues { source })
    }

    // A rendering on these values, with the engine's callables, templates and depth, and without a name.
    fn rendering<'r, 'e, V>(
        &'r self,
        engine: &'r Engine<'e>,
        values: V,
    ) -> Renderer<'r, &'r Engine<'e>, V, EngineTemplates<'r, 'e>>
        ensures template { template_in result ≡ template_of self.now }
        ensures name { name_in result ≡ None }
        ensures engine { (engine_in result).now ≡ engine.now }
        ensures templates { engine_of_templates (templates_in result) ≡ engine.now }
        ensures values { renderer_values result ≡ values }
        ensures limit { limit_in result ≡ engine_depth engine.now }
    {
        Renderer {
            alloc: engine.alloc(),
            engine,
            template: self.lent(),
            name: None,
            values,
            templates: EngineTemplates { engine },
            limit: engine.depth(),
        }
    }
}

impl<'r, E: Drop, V: Drop, T: Drop> Renderer<'r, E, V, T> {
    /// Returns the same rendering with a source of templates in place of the engine's.
    pub fn with_template_fn<S: TemplateSource<'r>>(self, source: S) -> Renderer<'r, E, V, S>
        ensures template { template_in result ≡ template_in self.entry }
        ensures name { name_in result ≡ name_in self.entry }
        ensures engine { engine_in result ≡ engine_in self.entry }
        ensures templates { templates_in result ≡ source }
        ensures values { renderer_values result ≡ renderer_values self.entry }
        ensures limit { limit_in result ≡ limit_in self.entry }
    {
        let Renderer {
            alloc,
            engine,
            template,
            name,
            values,
            templates: _,
            limit,
        } = self;
        Renderer {
            alloc,
            engine,
            template,
            name,
            values,
            templates: source,
            limit,
        }
    }

    /// Returns the same rendering with other callables in place of the engine's.
    pub fn with_callables<C>(self, callables: C) -> Renderer<'r, C, V, T>
        ensures template { template_in result ≡ template_in self.entry }
        ensures name { name_in result ≡ name_in self.entry }
        ensures engine { engine_in result ≡ callables }
        ensures templates { templates_in result ≡ templates_in self.entry }
        ensures values { renderer_values result ≡ renderer_values self.entry }
        ensures limit { limit_in result ≡ limit_in self.entry }
    {
        let Renderer {
            alloc,
            engine: _,
            template,
            name,
            values,
            templates,
            limit,
        } = self;
        Renderer {
            alloc,
            engine: callables,
            template,
            name,
            values,
            templates,
            limit,
        }
    }

    /// Returns the same rendering with a depth of its own for includes. The template that is rendered counts as one; 0
    /// acts as 1.
    pub fn with_max_include_depth(self, depth: usize) -> Renderer<'r, E, V, T>
        ensures template { template_in result ≡ template_in self.entry }
        ensures name { name_in result ≡ name_in self.entry }
        ensures engine { engine_in result ≡ engine_in self.entry }
        ensures templates { templates_in result ≡ templates_in self.entry }
        ensures values { renderer_values result ≡ renderer_values self.entry }
        ensures limit { limit_in result ≡ depth }
    {
        Renderer {
            limit: depth,
            ..self
        }
    }
}

impl<'r, E: Callables + Drop, V: Values<'r, T>, T: TemplateSource<'r>> Renderer<'r, E, V, T> {
    /// Renders the text that the template means. There is no text with a fault: it is the one with which the meaning
    /// ends, or says that memory is out.
    pub fn to_string(self) -> error::Result<String>
        ensures means { AnswersText
            (limit_in self.entry)
            (outcome (call_of E.callables E.default_formatter V.asks V.root V.values_state
            T.resolve T.template_state self.entry))
            result }
        ensures laws { KeepsLaws (call_of E.callables E.default_formatter V.asks V.root V.values_state
            T.resolve T.template_state self.entry) }
    {
        let alloc = self.alloc;
        let limit = self.limit;
        let mut text = String::new(alloc);
        let (ended, _, _) = self.run(&mut text);
        match reported(alloc, ended, limit, &mut text) {
            Ok(()) => Ok(text),
            Err(error) => Err(error),
        }
    }

    /// Writes the text that the template means, up to its fault. If the output does not receive a text whole, the fault
    /// is its error, of the kind `Io`, or says that memory is out. If the kind is `Io`, the fault holds the error that
    /// the output's last failed write answered; if it is not, no write failed.
    pub fn to_output<O: Output>(self, out: &mut O) -> error::Result<()>
        ensures means { WritesReported
            (limit_in self.entry)
            (IsTakenError (O.mark out.new))
            result
            (O.given out.old)
            (O.given out.new)
            (outcome (call_of E.callables E.default_formatter V.asks V.root V.values_state
            T.resolve T.template_state self.entry)) }
        ensures same { O.holds out.new ≡ O.holds out.old }
        ensures mark { WriteMarks result (O.mark out.old) (O.mark out.new) }
        ensures laws { KeepsLaws (call_of E.callables E.default_formatter V.asks V.root V.values_state
            T.resolve T.template_state self.entry) }
    {
        let (result, _, _) = self.to_output_and_sources(out);
        result
    }

    /// Writes the same to a writer, by a [`LentWriter`]. If a write fails or takes nothing, the fault is of the kind
    /// `Io`.
    pub fn to_writer<W: io::Write>(self, writer: &mut W) -> error::Result<()>
        ensures means { WritesReported
            (limit_in self.entry)
            IsAnyIo
            result
            (W.contents writer.old)
            (W.contents writer.new)
            (outcome (call_of E.callables E.default_formatter V.asks V.root V.values_state
            T.resolve T.template_state self.entry)) }
        ensures laws { KeepsLaws (call_of E.callables E.default_formatter V.asks V.root V.values_state
            T.resolve T.template_state self.entry) }
    {
        let mut out = LentWriter::new(writer);
        self.to_output(&mut out)
    }

    /// Writes like `to_output`, and returns what it was rendered on and the source of templates, as the rendering
    /// leaves them. If it ended by itself, well or with a fault of the template, they are in the next states of the
    /// meaning.
    pub fn to_output_and_sources<O: Output>(self, out: &mut O) -> (error::Result<()>, V, T)
        ensures means { WritesAndLeaves
            (limit_in self.entry)
            (IsTakenError (O.mark out.new))
            result.0
            (O.given out.old)
            (O.given out.new)
            (outcome (call_of E.callables E.default_formatter V.asks V.root V.values_state
            T.resolve T.template_state self.entry))
            (states (V.values_state result.1) (T.template_state result.2)) }
        ensures same { O.holds out.new ≡ O.holds out.old }
        ensures mark { WriteMarks result.0 (O.mark out.old) (O.mark out.new) }
        ensures asks { V.asks result.1 ≡ V.asks (renderer_values self.entry) }
        ensures root { (r : Root) → V.root (renderer_values self.entry) ≡ on_root r
            → V.root result.1 ≡ V.root (renderer_values self.entry) }
        ensures held { V.holds result.1 ≡ V.holds (renderer_values self.entry) }
        ensures resolve { T.resolve result.2 ≡ T.resolve (templates_in self.entry) }
        ensures templates_held { T.holds result.2 ≡ T.holds (templates_in self.entry) }
        ensures laws { KeepsLaws (call_of E.callables E.default_formatter V.asks V.root V.values_state
            T.resolve T.template_state self.entry) }
    {
        let alloc = self.alloc;
        let limit = self.limit;
        let (ended, values, templates) = self.run(out);
        (reported(alloc, ended, limit, out), values, templates)
    }

    // Runs the template's program into an output.
    fn run<O: Output>(self, out: &mut O) -> (Result<Ending, Failure>, V, T)
        ensures same { O.holds out.new ≡ O.holds out.old }
        ensures mark { RunMarks result.0 (O.mark out.old) (O.mark out.new) }
        ensures ran { Ran
            result.0
            (O.given out.old)
            (O.given out.new)
            (outcome (call_of E.callables E.default_formatter V.asks V.root V.values_state
            T.resolve T.template_state self.entry))
            (states (V.values_state result.1) (T.template_state result.2)) }
        ensures asks { V.asks result.1 ≡ V.asks (renderer_values self.entry) }
        ensures root { (r : Root) → V.root (renderer_values self.entry) ≡ on_root r
            → V.root result.1 ≡ V.root (renderer_values self.entry) }
        ensures held { V.holds result.1 ≡ V.holds (renderer_values self.entry) }
        ensures resolve { T.resolve result.2 ≡ T.resolve (templates_in self.entry) }
        ensures templates_held { T.holds result.2 ≡ T.holds (templates_in self.entry) }
    {
        let Renderer {
            alloc,
            engine,
            template,
            name,
            values,
            templates,
            limit,
        } = self;
        let running = Running {
            program: program_of(template),
            name,
            left: limit.max(1) - 1,
        };
        values.render(alloc, &engine, running, templates, out)
    }
}
