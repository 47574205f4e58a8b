// How far a rendering may go: how many steps its machine may take, how many bytes it may write, and how many bytes of
// values it may make.
ghost use Rattle.std.specs.Prelude.{◌≡◌, ℕ, MatchOption, None};
ghost use Rattle.upon_types.specs.Cause.{cause_text};
ghost use Rattle.upon_types.specs.declared.error.cause.Cause.TheVariants.{LimitReached};
ghost use Rattle.upon_vm.specs.Limits.{Exceeds, Leaves};
ghost use Rattle.upon_vm.specs.Within.{limit_text};

use upon_types::error::cause::Counted;

/// How far a rendering may go. A limit that is `None` is not set.
#[derive(Clone, Copy, Debug, PartialEq, Eq)]
pub struct Limits {
    /// The most steps that its machine takes: about one for each tag or text that it passes, and a few for each turn
    /// of a loop.
    pub steps: Option<usize>,
    /// The most bytes that it writes.
    pub output: Option<usize>,
    /// The most bytes of values that it makes, also those that it no longer holds.
    pub values: Option<usize>,
}

impl Limits {
    ghost use Rattle.std.specs.Prelude.{◌≡◌};

    /// Returns limits of which none is set.
    pub fn none() -> Limits
        ensures steps { result.steps ≡ None }
        ensures output { result.output ≡ None }
        ensures values { result.values ≡ None }
    {
        Limits {
            steps: None,
            output: None,
            values: None,
        }
    }
}

/// One of the limits.
#[derive(Clone, Copy, Debug, PartialEq, Eq)]
pub enum Limit {
    /// How many steps.
    Steps,
    /// How many bytes of output.
    Output,
    /// How many bytes of values.
    Values,
}

impl Limit {
    /// Returns what it counts.
    pub(crate) fn counted(self) -> Counted
        ensures { (n : ℕ) → cause_text (LimitReached n result) ≡ limit_text self n }
    {
        match self {
            Limit::Steps => Counted::Steps,
            Limit::Output => Counted::Bytes,
            Limit::Values => Counted::BytesOfValues,
        }
    }
}

/// Returns what is left of a limit after so many, or `None` if they are more than it.
pub(crate) fn spend(limit: Option<usize>, count: usize) -> Option<Option<usize>>
    ensures { MatchOption result (Exceeds limit count) (λ left. Leaves limit count left) }
{
    match limit {
        None => Some(None),
        Some(limit) => {
            if limit < count {
                return None;
            }
            Some(Some(limit - count))
        }
    }
}
