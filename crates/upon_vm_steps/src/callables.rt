// What programs call: functions and formatters, by their names.
ghost use Rattle.std.specs.Prelude.{◌≡◌, List, ℕ, Option, IsTrue};
ghost use Rattle.upon_functions.specs.Says.{arguments_view};
ghost use Rattle.upon_types.specs.Answers.{Callable, Formatter as PureFormatter};
ghost use Rattle.upon_types.specs.View.{view};
ghost use Rattle.upon_meaning_spec.specs.DefaultFormat.{default_format};
ghost use Rattle.upon_fmt.specs.Formatter.{Formats};
ghost use Rattle.upon_vm_steps.specs.Calls.{Applies, WasCalled};

use std::alloc::Global;
use upon_fmt::fmt::{self, Formatter};
use upon_functions::function::CallError;
use upon_types::value::{Value, ValueCow};

/// What a name denotes that can be called.
#[derive(Clone, Copy, Debug, PartialEq, Eq)]
pub enum EngineCallable {
    /// A formatter, which writes a value.
    Formatter,
    /// A function, which makes a value.
    Function,
}

/// What was done with a name and values.
#[derive(Drop)]
pub enum Applied {
    /// Nothing: the name denotes nothing.
    Unknown,
    /// Nothing: the name is a formatter's, and there is not one value.
    Miscounted,
    /// The formatter wrote the value, and ended with this result.
    Formatted(fmt::Result),
    /// The function was called, and answered this.
    Called(Result<Value, CallError>),
}

/// What was called by a name.
#[derive(Drop)]
pub enum Called {
    /// Nothing: the name denotes nothing.
    Unknown,
    /// Nothing: the name is a formatter's.
    Formatter,
    /// The function, and what it answered.
    Function(Result<Value, CallError>),
}

/// Functions and formatters by their names, and the formatter of all values that are shown without one.
pub trait Callables {
    // What each name denotes.
    ghost callables: { Self → List ℕ → Option Callable };

    // What is written where no formatter is named.
    ghost default_formatter: { Self → PureFormatter };

    /// Calls the function that the name denotes on the values. The name is searched once.
    fn call(&self, alloc: Global, name: &str, values: &[ValueCow]) -> Called
        ensures { WasCalled result (arguments_view values.now) (callables self.now name.now) };

    /// Does what the name denotes, which is searched once: calls a function on the values, or appends what a formatter
    /// writes for the only value.
    fn apply(&self, alloc: Global, name: &str, f: &mut Formatter, values: &[ValueCow]) -> Applied
        ensures { Applies result f.old f.new (arguments_view values.now) (callables self.now name.now) };

    /// Returns whether the default formatter is the plain one, which writes a text as it is and an integer in decimal.
    /// `false` says nothing.
    fn is_plain(&self) -> bool
        ensures { IsTrue result → default_formatter self.now ≡ default_format };

    /// Appends what is written for a value if no formatter is named.
    fn default_format(&self, f: &mut Formatter, value: &Value) -> fmt::Result
        ensures { Formats f.old f.new result (default_formatter self.now (view value.now)) };
}
