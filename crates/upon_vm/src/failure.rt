// Why a run fails, with the template that ran.
ghost use Rattle.std.specs.Prelude.{◌≡◌, option_map};
ghost use Rattle.upon_types.specs.Error.{fault_of, kind_of};
ghost use Rattle.upon_types.specs.Fault.{fault_with_picture, OrMemory};
ghost use Rattle.upon_types.specs.Span.{LiesIn};
ghost use Rattle.upon_meaning_spec.specs.Meaning.{fault_in};
ghost use Rattle.upon_vm_steps.specs.Halt.{halt_fault, halt_kind};
ghost use Rattle.upon_vm_steps.specs.Acts.{stop_or_memory};
ghost use Rattle.upon_vm.specs.Failures.{FailsBy, FailsSo, HaltLies, Names, StopLies, is_memory};
ghost use Rattle.upon_vm_steps.specs.Machine.{active_of};

use std::alloc::{AllocError, Global};
use upon_types::error::{Error, ErrorKind};
use upon_vm_steps::act::Stop;
use upon_vm_steps::fault::{Fault, FaultKind, Halt};
use upon_vm_steps::machine::Running;

/// Why a run ends before its program does.
#[derive(Drop)]
pub enum Failure {
    /// A template that ran has a fault, or memory is out.
    Error(Error),
    /// The output did not receive a text whole.
    Output,
}

/// Returns the failure of a template that ran, if it stops so; with no reason, memory is out. Faults have its name,
/// and pictures of its text.
pub(crate) fn stopped(alloc: Global, running: Running, stop: Option<Stop>) -> Failure
    requires { StopLies running.program.source.now (stop_or_memory stop) }
    ensures { FailsBy (active_of running.entry).running (stop_or_memory stop) result }
{
    match stop {
        Some(Stop::Error(error)) => Failure::Error(with_name(alloc, running.name, error)),
        Some(Stop::Halt(halt)) => halted(alloc, running, halt),
        None => Failure::Error(AllocError.into()),
    }
}

// Returns the failure of a template that ran, if one of its instructions is not carried out.
fn halted(alloc: Global, running: Running, halt: Halt) -> Failure
    requires { HaltLies running.program.source.now halt }
    ensures { FailsSo (active_of running.entry).running halt result }
{
    match halt {
        Halt::Fault(fault) => Failure::Error(in_template(alloc, running, fault)),
        Halt::Memory => Failure::Error(AllocError.into()),
        Halt::Output => Failure::Output,
    }
}

/// Returns the error of a fault in a template that runs, with its name and the picture of its text.
pub(crate) fn in_template(alloc: Global, running: Running, fault: Fault) -> Error
    requires { LiesIn running.program.source.now fault.span }
    ensures { OrMemory (fault_in (active_of running.entry).running (halt_fault fault)) (fault_of result) }
{
    let error = with_picture(alloc, running.program.source, fault);
    with_name(alloc, running.name, error)
}

// A fault with the picture of its span.
fn with_picture(alloc: Global, source: &str, fault: Fault) -> Error
    requires { LiesIn source.now fault.span }
    ensures { OrMemory (fault_with_picture source.now (halt_fault fault)) (fault_of result) }
{
    let kind = error_kind(fault.kind);
    Error::from_reason(alloc, kind, fault.reason, Some((source, fault.span)))
}

// The kind of its error.
fn error_kind(kind: FaultKind) -> ErrorKind
    ensures { kind_of result ≡ halt_kind kind }
{
    match kind {
        FaultKind::Render => ErrorKind::Render,
        FaultKind::Function => ErrorKind::Function,
        FaultKind::Format => ErrorKind::Format,
    }
}

// An error in a template of this name, or of none. That memory is out has no name.
fn with_name(alloc: Global, name: Option<&str>, error: Error) -> Error
    ensures { Names (option_map (λ n. n.now) name.entry) error result }
{
    if reports_memory(&error) {
        return error;
    }
    match name {
        Some(name) => error.with_name(alloc, name),
        None => error,
    }
}

// Whether the error says that memory is out.
fn reports_memory(error: &Error) -> bool
    ensures { result ≡ is_memory (fault_of error.now).kind }
{
    match error.kind() {
        ErrorKind::OutOfMemory => true,
        ErrorKind::Syntax => false,
        ErrorKind::Serialize => false,
        ErrorKind::Render => false,
        ErrorKind::Function => false,
        ErrorKind::Format => false,
        ErrorKind::Io(_) => false,
    }
}
