// Functions from paths to values as sources.
ghost use Rattle.std.specs.Prelude.{◌≡◌};
ghost use Rattle.upon_types.specs.View.{view};
ghost use Rattle.upon_lookup.specs.Asked.{HasReply, asked_path};
ghost use Rattle.upon_lookup.specs.Source.{Source};

use crate::source::{SourceError, ValueMember, ValueSource};
use upon_types::value::Value;

/// A function from paths to values, which may keep a state. It is named by a type, since no field can hold a fact about
/// a closure.
pub trait CallPath: Drop {
    // What its answers depend on, beside the path.
    ghost State: { Type 0 };

    ghost call_state: { Self → State };

    // The answer and the next state, in each state and for each path.
    ghost answers_path: { Source State };

    /// Returns the value at this path. The error is `Refused` if the function refuses, and `Memory` if memory is
    /// out.
    fn call(&mut self, path: &[ValueMember]) -> Result<Value, SourceError>
        ensures { HasReply view result (call_state self.new)
            (answers_path (call_state self.old) (asked_path path.now)) };
}

/// The source that is a function.
#[derive(Drop)]
pub struct ValueFn<C> {
    /// The function.
    pub callable: C,
}

impl<C> ValueFn<C> {
    /// Creates the source that calls this function.
    pub fn new(callable: C) -> Self
        ensures { result.callable ≡ callable }
    {
        ValueFn { callable }
    }
}

impl<C: CallPath> ValueSource for ValueFn<C> {
    ghost use Rattle.std.specs.Prelude.{[]};

    ghost State = { C.State };

    ghost value_state = { λ s. C.call_state s.callable };

    ghost ask = { λ _. C.answers_path };

    ghost holds = { λ _. [] };

    fn value(&mut self, path: &[ValueMember]) -> Result<Value, SourceError> {
        self.callable.call(path)
    }
}
