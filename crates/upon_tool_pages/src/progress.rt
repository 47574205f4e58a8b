// How far a run has come that makes many pages, as lines for the user who waits for it.
ghost use Rattle.std.specs.Prelude.{◌≡◌, None, false};

use std::io::Write;
use std::time::{Clock, Duration};
use upon_tool_many::progress::Progress;

/// Says how many pages are done, once a second, if the run takes more than one.
#[derive(Drop)]
pub(crate) struct Waiting<'e, R, E> {
    rt: &'e R,
    err: &'e mut E,
    // When it is said next; none is never.
    next: Option<Duration>,
}

impl<'e, R: Clock, E: Write> Waiting<'e, R, E> {
    ghost use Rattle.std.specs.Prelude.{◌≡◌, None, false};
    ghost use Rattle.upon_tool_pages.specs.Progress.{next_telling, waiting_writer};

    /// Creates one that begins now, and says nothing where nobody waits.
    pub(crate) fn new(rt: &'e R, err: &'e mut E, is_terminal: bool) -> Waiting<'e, R, E>
        ensures writer { waiting_writer result ≡ err.entry }
        ensures nobody { is_terminal ≡ false → next_telling result ≡ None }
    {
        let next = if is_terminal { in_a_second(rt) } else { None };
        Waiting { rt, err, next }
    }
}

impl<R: Clock, E: Write> Progress for Waiting<'_, R, E> {
    ghost use Rattle.upon_tool_pages.specs.Progress.{TellsWaiting};

    ghost tells = { λ old done all new. TellsWaiting old done all new };

    fn tell(&mut self, done: usize, all: usize) {
        if is_time(self.rt, self.next) && done < all {
            let _ = writeln!(self.err, "upon-tool: {done} of {all} pages are done");
            self.next = in_a_second(self.rt);
        }
    }
}

// The time in a second, if there is a clock.
fn in_a_second<R: Clock>(rt: &R) -> Option<Duration> {
    match rt.monotonic() {
        Ok(now) => Some(now.saturating_add(Duration::from_secs(1))),
        Err(_) => None,
    }
}

// Whether a time has come.
fn is_time<R: Clock>(rt: &R, time: Option<Duration>) -> bool
    ensures { time ≡ None → result ≡ false }
{
    match (time, rt.monotonic()) {
        (Some(time), Ok(now)) => time <= now,
        _ => false,
    }
}
