// What a callable may take as an argument: what it owns, made of a value, or a part of a value that is lent.
ghost use Rattle.std.specs.Prelude.{Bool, Option};
ghost use Rattle.upon_types.specs.Misfits.{IsFair};
ghost use Rattle.upon_functions.specs.Says.{Takes};
ghost use Rattle.upon_types.specs.Answers.{Misfit};
ghost use Rattle.upon_types.specs.Val.{Val};
ghost use Rattle.upon_types.specs.View.{view};

use crate::function::CallError;
use std::alloc::Global;
use upon_types::value::Value;

mod integers;
mod kinds;
pub mod lent;

/// An owned argument: what is made of a value for a callable to keep.
pub trait OwnedArgument: Sized {
    // The value that it denotes.
    ghost stands_for: { Self → Val };

    // What is wrong with a value that does not fit.
    ghost misfit: { Val → Option Misfit };

    // Whether it is a copy of the value's, for which alone memory is wanted.
    ghost is_copy: { Bool };

    /// Returns the argument at an index. The error is `Arg` with that index when the value does not fit, and `Memory`
    /// when there is no memory for a copy.
    fn from_value(alloc: Global, index: usize, from: &Value) -> Result<Self, CallError>
        ensures { Takes is_copy stands_for (misfit (view from.now)) index (view from.now) result };

    // Only an integer is out of range.
    ghost is_fair: { (v : Val) → IsFair v (misfit v) };
}
