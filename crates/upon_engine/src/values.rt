// What a template is rendered on: a value that is lent or owned, or a source of values.
ghost use Rattle.std.specs.Prelude.{◌≡◌, ℕ, List, option_map};
ghost use Rattle.upon_types.specs.TreeSpans.{TreeLiesIn};
ghost use Rattle.upon_lookup.specs.Source.{Source};
ghost use Rattle.upon_meaning_spec.specs.Engine.{Template};
ghost use Rattle.upon_meaning_spec.specs.Outcome.{states};
ghost use Rattle.upon_vm_steps.specs.Acts.{calls_on};
ghost use Rattle.upon_vm_steps.specs.Program.{IsProgramOf};
ghost use Rattle.upon_vm.specs.Runs.{Ran, RunMarks};
ghost use Rattle.upon_lookup.specs.Environment.{Root};
ghost use Rattle.upon_engine.specs.Base.{ContextBase, on_root, outcome_within};

use crate::sources::{Programs, ShorterLoans, TemplateSource};
use std::alloc::Global;
use upon_fmt::output::Output;
use upon_lookup::source::{NoSource, ValueSource};
use upon_render::stack::Stack;
use upon_types::error;
use upon_types::value::Value;
use upon_vm::failure::Failure;
use upon_vm::render::render;
use upon_vm::run::Ending;
use upon_vm_steps::callables::Callables;
use upon_vm_steps::machine::Running;

/// What a template is rendered on.
pub trait Values<'r, T: TemplateSource<'r>>: Drop {
    // What the answers of its source depend on, beside the path.
    ghost State: { Type 0 };

    ghost values_state: { Self → State };

    // What its source answers.
    ghost asks: { Self → Source State };

    // What lies under the bindings, or why it is no value.
    ghost root: { Self → ContextBase };

    // The references that its source holds.
    ghost holds: { Self → List ℕ };

    /// Renders a program on it. It comes back, and the source of templates, as the run leaves them; what was no value
    /// comes back as another.
    fn render<C: Callables, W: Output>(
        self,
        alloc: Global,
        callables: &C,
        running: Running<'r>,
        templates: T,
        out: &mut W,
    ) -> (Result<Ending, Failure>, Self, T)
        requires { (t : Template) × IsProgramOf running.program t × TreeLiesIn t.source t.tree }
        ensures same { W.holds out.new ≡ W.holds out.old }
        ensures mark { RunMarks result.0 (W.mark out.old) (W.mark out.new) }
        ensures ran { (t : Template) → IsProgramOf running.entry.program t → Ran
            result.0
            (W.given out.old)
            (W.given out.new)
            (outcome_within (calls_on (C.callables callables.now) (C.default_formatter callables.now) (asks self))
            (T.resolve templates) running.entry.left t (option_map (λ name. name.now) running.entry.name) (root self)
            (states (values_state self) (T.template_state templates)))
            (states (values_state result.1) (T.template_state result.2)) }
        ensures asks { asks result.1 ≡ asks self }
        ensures root { (r : Root) → root self ≡ on_root r → root result.1 ≡ root self }
        ensures held { holds result.1 ≡ holds self }
        ensures resolve { T.resolve result.2 ≡ T.resolve templates }
        ensures templates_held { T.holds result.2 ≡ T.holds templates };
}

/// A value that is lent: the context.
#[derive(Clone, Copy)]
pub struct Context<'r> {
    pub(crate) value: &'r Value,
}

impl<'r, T: TemplateSource<'r>> Values<'r, T> for Context<'r> {
    ghost use Rattle.std.specs.Prelude.{[]};
    ghost use Rattle.upon_types.specs.View.{view};
    ghost use Rattle.upon_lookup.specs.Asked.{refuses_all};
    ghost use Rattle.upon_lookup.specs.Environment.{context};
    ghost use Rattle.upon_engine.specs.Base.{on_root};

    ghost State = { Unit {0} };

    ghost values_state = { λ _. tt };

    ghost asks = { λ _. refuses_all };

    ghost root = { λ c. on_root (context (view c.value.now)) };

    ghost holds = { λ _. [] };

    fn render<C: Callables, W: Output>(
        self,
        alloc: Global,
        callables: &C,
        running: Running<'r>,
        templates: T,
        out: &mut W,
    ) -> (Result<Ending, Failure>, Self, T) {
        let stack: Stack<'r, NoSource> = Stack::over(alloc, self.value);
        let programs = Programs { templates };
        let (ended, _, programs) = render(alloc, callables, running, stack, programs, out);
        (ended, self, programs.templates)
    }
}

/// A value that was made of what serde writes, or why there is none.
#[derive(Drop)]
pub struct SerdeContext {
    pub(crate) value: error::Result<Value>,
}

impl<'r, T: TemplateSource<'r>> Values<'r, T> for SerdeContext {
    ghost use Rattle.std.specs.Prelude.{[]};
    ghost use Rattle.upon_lookup.specs.Asked.{refuses_all};
    ghost use Rattle.upon_engine.specs.Sources.{base_in};

    ghost State = { Unit {0} };

    ghost values_state = { λ _. tt };

    ghost asks = { λ _. refuses_all };

    ghost root = { λ c. base_in c };

    ghost holds = { λ _. [] };

    fn render<C: Callables, W: Output>(
        self,
        alloc: Global,
        callables: &C,
        running: Running<'r>,
        templates: T,
        out: &mut W,
    ) -> (Result<Ending, Failure>, Self, T) {
        let value = match self.value {
            Ok(value) => value,
            Err(error) => {
                let value = Ok(Value::None);
                return (
                    Err(Failure::Error(error)),
                    SerdeContext { value },
                    templates,
                );
            }
        };
        let context = Context { value: &value };
        let lent = ShorterLoans::new(templates);
        let (ended, _, lent) = context.render(alloc, callables, running, lent, out);
        (ended, SerdeContext { value: Ok(value) }, lent.templates)
    }
}

/// A source of values.
#[derive(Drop)]
pub struct SourceValues<S> {
    pub(crate) source: S,
}

impl<S> SourceValues<S> {
    ghost use Rattle.upon_engine.specs.Sources.{source_in};

    /// Returns the source.
    pub fn into_source(self) -> S
        ensures { result ≡ source_in self }
    {
        self.source
    }
}

impl<'r, S: ValueSource, T: TemplateSource<'r>> Values<'r, T> for SourceValues<S> {
    ghost use Rattle.upon_lookup.specs.Environment.{value_source};
    ghost use Rattle.upon_engine.specs.Base.{on_root};

    ghost State = { S.State };

    ghost values_state = { λ v. S.value_state v.source };

    ghost asks = { λ v. S.ask v.source };

    ghost root = { λ _. on_root value_source };

    ghost holds = { λ v. S.holds v.source };

    fn render<C: Callables, W: Output>(
        self,
        alloc: Global,
        callables: &C,
        running: Running<'r>,
        templates: T,
        out: &mut W,
    ) -> (Result<Ending, Failure>, Self, T) {
        let stack: Stack<'r, S> = Stack::over_source(alloc, self.source);
        let programs = Programs { templates };
        let (ended, stack, programs) = render(alloc, callables, running, stack, programs, out);
        let Some(source) = stack.into_source() else {
            unreachable!()
        };
        (ended, SourceValues { source }, programs.templates)
    }
}
