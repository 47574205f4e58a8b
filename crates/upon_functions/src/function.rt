// What a template's function is, and how it fails.
ghost use Rattle.std.specs.Prelude.{◌≡◌, List};
ghost use Rattle.upon_functions.specs.Blames.{BlamesGiven};
ghost use Rattle.upon_functions.specs.Says.{Says, arguments_view};
ghost use Rattle.upon_types.specs.Answers.{Answer};
ghost use Rattle.upon_types.specs.Val.{Val};

use std::alloc::{AllocError, Global};
use upon_types::value::{Value, ValueCow};

/// What is wrong with an argument, with the word of the type that is expected.
#[derive(Drop)]
pub enum ArgError {
    /// The value is of another kind.
    WrongType(&'static str),
    /// The value is an integer that the type does not hold.
    OutOfRange(&'static str),
}

/// Why a call gives no value.
#[derive(Drop)]
pub enum CallError {
    /// Another number of arguments is given than this one, which is expected.
    Arity(usize),
    /// The argument at this index, counted from 0, does not fit.
    Arg(usize, ArgError),
    /// The function refuses, with a message.
    Fault(String),
    /// There is no memory.
    Memory,
}

impl From<AllocError> for CallError {
    ghost use Rattle.upon_functions.specs.declared.function.CallError.TheVariants.{Memory};

    ghost from_gives = { λ _ e. e ≡ Memory };

    fn from(_error: AllocError) -> CallError {
        CallError::Memory
    }
}

/// A function that templates can call.
pub trait Function: Drop {
    // What it answers, by what its arguments denote.
    ghost answers: { Self → List Val → Answer };

    /// Calls the function. The error is `Arity` for another number of arguments, `Arg` for the first argument that
    /// does not fit, which is always one that is given, `Fault` if the function refuses, and `Memory` if there
    /// is no memory.
    fn call(&self, alloc: Global, args: &[ValueCow]) -> Result<Value, CallError>
        ensures says { Says result (answers self.now (arguments_view args.now)) }
        ensures blames_given { BlamesGiven (arguments_view args.now) (answers self.now (arguments_view args.now)) };
}
