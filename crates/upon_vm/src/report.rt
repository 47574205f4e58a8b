// What is reported of a rendering.
ghost use Rattle.std.specs.Prelude.{◌≡◌};
ghost use Rattle.upon_types.specs.Error.{fault_of};
ghost use Rattle.upon_types.specs.Fault.{OrMemory};
ghost use Rattle.upon_meaning_spec.specs.CallFaults.{depth_reached};
ghost use Rattle.upon_fmt.specs.Mark.{set_aside};
ghost use Rattle.upon_vm.specs.Reports.{EndReport, FailureMarks, FailureReport, IsReport, OutputReport, ReportMarks};

use crate::failure::Failure;
use crate::run::Ending;
use std::alloc::{AllocError, Global};
use upon_fmt::output::Output;
use upon_types::error::cause::Cause;
use upon_types::error::{self, Error, ErrorKind};

/// Returns the result of a rendering, right after it: nothing, or the fault that is reported.
///
/// If includes were too deep, the reason has `limit`, the depth as it was set. If the output did not receive a text
/// whole, its error is taken: the kind is `Io`, with this error, or `OutOfMemory` if it has none.
pub fn reported<W: Output>(
    alloc: Global,
    ended: Result<Ending, Failure>,
    limit: usize,
    out: &mut W,
) -> error::Result<()>
    ensures same { W.holds out.new ≡ W.holds out.old }
    ensures report { IsReport limit ended (W.mark out.old) result }
    ensures given { W.given out.new ≡ W.given out.old }
    ensures mark { ReportMarks ended (W.mark out.old) (W.mark out.new) }
{
    match ended {
        Ok(end) => end_reported(alloc, end, limit),
        Err(failure) => Err(failure_reported(failure, out)),
    }
}

// Returns the result of a rendering that came to an end: nothing, or that includes were too deep.
fn end_reported(alloc: Global, end: Ending, limit: usize) -> error::Result<()>
    ensures { EndReport limit end result }
{
    match end {
        Ending::Good => Ok(()),
        Ending::TooDeep => Err(depth_reached(alloc, limit)),
    }
}

// The fault of includes that are too deep.
fn depth_reached(alloc: Global, limit: usize) -> Error
    ensures { OrMemory (depth_reached limit) (fault_of result) }
{
    Error::from_cause(alloc, ErrorKind::Render, Cause::TooDeep(limit), None)
}

// The fault of a failure.
fn failure_reported<W: Output>(failure: Failure, out: &mut W) -> Error
    ensures same { W.holds out.new ≡ W.holds out.old }
    ensures report { FailureReport failure (W.mark out.old) result }
    ensures given { W.given out.new ≡ W.given out.old }
    ensures mark { FailureMarks failure (W.mark out.old) (W.mark out.new) }
{
    match failure {
        Failure::Error(error) => error,
        Failure::Output => output_reported(out),
    }
}

// The error that the output has, or that memory is out.
fn output_reported<W: Output>(out: &mut W) -> Error
    ensures same { W.holds out.new ≡ W.holds out.old }
    ensures report { OutputReport (W.mark out.old) result }
    ensures given { W.given out.new ≡ W.given out.old }
    ensures mark { W.mark out.new ≡ set_aside (W.mark out.old) }
{
    match out.take_err() {
        Some(error) => error.into(),
        None => AllocError.into(),
    }
}
