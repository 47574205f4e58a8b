// A run: step after step, up to the program's end.
ghost use Rattle.std.specs.Prelude.{◌≡◌};
ghost use Rattle.upon_vm_steps.specs.Keeps.{Kept};
ghost use Rattle.upon_vm_steps.specs.Machine.{state_of};
ghost use Rattle.upon_vm.specs.Runs.{KnownRun, Ran, RunMarks, Starts, ending_of};

use crate::failure::{Failure, stopped};
use crate::steps::Steps;
use std::alloc::Global;
use std::marker::Brand;
use upon_fmt::output::Output;
use upon_lookup::source::ValueSource;
use upon_vm_steps::callables::Callables;
use upon_vm_steps::machine::{Flow, Machine};
use upon_vm_steps::source::ProgramSource;
use upon_vm_steps::step::step;

/// How a run ends by itself.
#[derive(Clone, Copy, Debug, PartialEq, Eq)]
pub enum Ending {
    /// After the last instruction.
    Good,
    /// Where one include more would be too deep inside others.
    TooDeep,
}

/// How a step ends the run, or `None` where it goes on.
pub(crate) fn end_of(flow: Flow) -> Option<Ending>
    requires { flow ≡ Flow.Stuck → ⊥ }
    ensures { result ≡ ending_of flow }
{
    match flow {
        Flow::Goes => None,
        Flow::Ends => Some(Ending::Good),
        Flow::TooDeep => Some(Ending::TooDeep),
        Flow::Stuck => unreachable!(),
    }
}

// Runs the machine's program to its end.
pub(crate) fn run<'r, V: ValueSource, T: ProgramSource<'r>, C: Callables, W: Output>(
    alloc: Global,
    callables: &C,
    machine: &mut Machine<'r, V, T>,
    out: &mut W,
) -> Result<Ending, Failure>
    requires starts { (known : KnownRun V.State T.State)
        × Starts V.ask V.value_state T.template_state (T.resolve machine.old.templates) (C.callables callables.now)
        (C.default_formatter callables.now) known machine.old }
    ensures same { W.holds out.new ≡ W.holds out.old }
    ensures mark { RunMarks result (W.mark out.old) (W.mark out.new) }
    ensures kept { Kept V.ask V.holds T.resolve T.holds machine.old machine.new }
    ensures ran { (known : KnownRun V.State T.State)
        → Starts V.ask V.value_state T.template_state (T.resolve machine.old.templates) (C.callables callables.now)
        (C.default_formatter callables.now) known machine.old
        → Ran result (W.given out.old) (W.given out.new) known.outcome
        (state_of V.value_state T.template_state known.values machine.new).asked }
{
    let mut stop = None;
    let mut left = Steps::some::<_, _, Brand>(callables, &*machine);
    'steps: loop {
        match step(alloc, callables, machine, out, &mut stop) {
            None => return Err(stopped(alloc, machine.running, stop)),
            Some(flow) => {
                if let Some(end) = end_of(flow) {
                    return Ok(end);
                }
            }
        }
        left = Steps::less(&left);
    }
}
