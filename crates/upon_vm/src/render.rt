// A rendering: the program of a template, from its start to its end.
ghost use Rattle.std.specs.Prelude.{◌≡◌, []};
ghost use Rattle.upon_types.specs.TreeSpans.{TreeLiesIn};
ghost use Rattle.upon_render.specs.Roots.{pure_root};
ghost use Rattle.upon_lookup.specs.Source.{Source};
ghost use Rattle.upon_render.specs.Stack.{frames_of, root_of};
ghost use Rattle.upon_meaning_spec.specs.Engine.{Template};
ghost use Rattle.upon_vm_steps.specs.Acts.{calls_on};
ghost use Rattle.upon_vm_steps.specs.Keeps.{HasState, SourceHas};
ghost use Rattle.upon_vm_steps.specs.Program.{IsProgramOf};
ghost use Rattle.upon_vm.specs.Renderings.{SourcesKept, rendered_alone, sources_state};
ghost use Rattle.upon_vm.specs.Runs.{Ran, RunMarks};

use crate::failure::Failure;
use crate::run::{Ending, run};
use std::alloc::Global;
use upon_fmt::fmt::Formatter;
use upon_fmt::output::Output;
use upon_lookup::source::ValueSource;
use upon_render::stack::Stack;
use upon_vm_steps::callables::Callables;
use upon_vm_steps::machine::{Machine, Running};
use upon_vm_steps::operands::Operands;
use upon_vm_steps::source::ProgramSource;

/// Renders a program over a stack without frames: what its template means by itself.
///
/// A failure has the fault's kind, reason, span, picture and the name of the template that ran, or says that memory is
/// out; or the output did not receive a text whole. The output then has a beginning of the text, and all of it up to a
/// fault. The stack and the source of templates come back as the run leaves them.
pub fn render<'r, V: ValueSource, T: ProgramSource<'r>, C: Callables, W: Output>(
    alloc: Global,
    callables: &C,
    running: Running<'r>,
    stack: Stack<'r, V>,
    templates: T,
    out: &mut W,
) -> (Result<Ending, Failure>, Stack<'r, V>, T)
    requires program { (t : Template) × IsProgramOf running.program t × TreeLiesIn t.source t.tree }
    requires state { HasState V.State (root_of stack) }
    requires frames { frames_of stack ≡ [] }
    ensures same { W.holds out.new ≡ W.holds out.old }
    ensures mark { RunMarks result.0 (W.mark out.old) (W.mark out.new) }
    ensures ran { (t : Template) (ask : Source V.State) (q : V.State) → IsProgramOf running.entry.program t
        → SourceHas V.ask (root_of stack.entry) ask → Ran result.0 (W.given out.old) (W.given out.new)
        (rendered_alone (calls_on (C.callables callables.now) (C.default_formatter callables.now) ask)
        (T.resolve templates) running.entry t (pure_root (root_of stack.entry))
        (sources_state V.value_state T.template_state q (root_of stack.entry) templates))
        (sources_state V.value_state T.template_state q (root_of result.1) result.2) }
    ensures sources { SourcesKept V.ask V.holds T.resolve T.holds (root_of stack.entry) (root_of result.1)
        templates result.2 }
{
    let mut machine = Machine {
        running,
        waiting: Vec::new(alloc),
        position: 0,
        operands: Operands::new(alloc),
        stack,
        templates,
        written: Formatter::new(alloc),
    };
    let ended = run(alloc, callables, &mut machine, out);
    let Machine {
        stack,
        templates,
        ..
    } = machine;
    (ended, stack, templates)
}
