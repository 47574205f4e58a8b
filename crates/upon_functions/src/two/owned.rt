// Functions of callables of two arguments, the first owned and the second lent.
ghost use Rattle.std.specs.Prelude.{◌≡◌, ◌∷◌, [], List};
ghost use Rattle.upon_functions.specs.Adapters.{adapter_answer};
ghost use Rattle.upon_types.specs.Misfits.{str_misfit, any_misfit};
ghost use Rattle.upon_functions.specs.Outcome.{Returned, Gives};
ghost use Rattle.upon_types.specs.Val.{Val, text_val};
ghost use Rattle.upon_types.specs.View.{view};

use crate::arguments::{OwnedArgument, lent};
use crate::function::{CallError, Function};
use crate::returns::FunctionReturn;
use std::alloc::Global;
use std::marker::PhantomData;
use upon_types::value::{Value, ValueCow};

/// A callable of an owned argument and a lent text.
pub trait Call2OS<A: OwnedArgument, R: FunctionReturn>: Drop {
    // Its outcome, by what its arguments denote.
    ghost meaning: { Self → List Val → Returned };

    /// Calls it.
    fn call(&self, alloc: Global, first: A, second: &str) -> R
        ensures { Gives (R.outcome result) (meaning self.now (A.stands_for first ∷ text_val second.now ∷ [])) };
}

/// The function of a callable of an owned argument and a lent text.
#[derive(Drop)]
pub struct Fn2OS<C, A, R> {
    /// The callable.
    pub callable: C,
    types: PhantomData<(A, R)>,
}

impl<C, A, R> Fn2OS<C, A, R> {
    /// Creates the function that calls this callable.
    pub fn new(callable: C) -> Self
        ensures { result.callable ≡ callable }
    {
        Fn2OS {
            callable,
            types: PhantomData,
        }
    }
}

impl<C: Call2OS<A, R>, A: OwnedArgument + Drop, R: FunctionReturn + Drop> Function
    for Fn2OS<C, A, R> {
    ghost answers = { λ s. adapter_answer (A.misfit ∷ str_misfit ∷ []) (C.meaning s.callable) };

    fn call(&self, alloc: Global, args: &[ValueCow]) -> Result<Value, CallError> {
        let [first, second] = args else {
            return Err(CallError::Arity(2));
        };
        let owned = A::from_value(alloc, 0, first)?;
        let text = lent::text(1, second)?;
        self.callable.call(alloc, owned, text).to_value(alloc)
    }
}

/// A callable of an owned argument and a lent value.
pub trait Call2OV<A: OwnedArgument, R: FunctionReturn>: Drop {
    // Its outcome, by what its arguments denote.
    ghost meaning: { Self → List Val → Returned };

    /// Calls it.
    fn call(&self, alloc: Global, first: A, second: &Value) -> R
        ensures { Gives (R.outcome result) (meaning self.now (A.stands_for first ∷ view second.now ∷ [])) };
}

/// The function of a callable of an owned argument and a lent value.
#[derive(Drop)]
pub struct Fn2OV<C, A, R> {
    /// The callable.
    pub callable: C,
    types: PhantomData<(A, R)>,
}

impl<C, A, R> Fn2OV<C, A, R> {
    /// Creates the function that calls this callable.
    pub fn new(callable: C) -> Self
        ensures { result.callable ≡ callable }
    {
        Fn2OV {
            callable,
            types: PhantomData,
        }
    }
}

impl<C: Call2OV<A, R>, A: OwnedArgument + Drop, R: FunctionReturn + Drop> Function
    for Fn2OV<C, A, R> {
    ghost answers = { λ s. adapter_answer (A.misfit ∷ any_misfit ∷ []) (C.meaning s.callable) };

    fn call(&self, alloc: Global, args: &[ValueCow]) -> Result<Value, CallError> {
        let [first, second] = args else {
            return Err(CallError::Arity(2));
        };
        let owned = A::from_value(alloc, 0, first)?;
        self.callable.call(alloc, owned, second).to_value(alloc)
    }
}
