// Functions of callables that own their arguments, up to two.
ghost use Rattle.std.specs.Prelude.{◌≡◌, ◌∷◌, [], List};
ghost use Rattle.upon_functions.specs.Adapters.{adapter_answer};
ghost use Rattle.upon_functions.specs.Outcome.{Returned, Gives};
ghost use Rattle.upon_types.specs.Val.{Val};

use crate::arguments::OwnedArgument;
use crate::function::{CallError, Function};
use crate::returns::FunctionReturn;
use std::alloc::Global;
use std::marker::PhantomData;
use upon_types::value::{Value, ValueCow};

/// A callable without arguments.
pub trait Call0<R: FunctionReturn>: Drop {
    // Its outcome, by what its arguments denote.
    ghost meaning: { Self → List Val → Returned };

    /// Calls it.
    fn call(&self, alloc: Global) -> R
        ensures { Gives (R.outcome result) (meaning self.now []) };
}

/// The function of a callable without arguments.
#[derive(Drop)]
pub struct Fn0<C, R> {
    /// The callable.
    pub callable: C,
    types: PhantomData<R>,
}

impl<C, R> Fn0<C, R> {
    /// Creates the function that calls this callable.
    pub fn new(callable: C) -> Self
        ensures { result.callable ≡ callable }
    {
        Fn0 {
            callable,
            types: PhantomData,
        }
    }
}

impl<C: Call0<R>, R: FunctionReturn + Drop> Function for Fn0<C, R> {
    ghost answers = { λ s. adapter_answer [] (C.meaning s.callable) };

    fn call(&self, alloc: Global, args: &[ValueCow]) -> Result<Value, CallError> {
        let [] = args else {
            return Err(CallError::Arity(0));
        };
        self.callable.call(alloc).to_value(alloc)
    }
}

/// A callable of one owned argument.
pub trait Call1<A: OwnedArgument, R: FunctionReturn>: Drop {
    // Its outcome, by what its arguments denote.
    ghost meaning: { Self → List Val → Returned };

    /// Calls it.
    fn call(&self, alloc: Global, first: A) -> R
        ensures { Gives (R.outcome result) (meaning self.now (A.stands_for first ∷ [])) };
}

/// The function of a callable of one owned argument.
#[derive(Drop)]
pub struct Fn1<C, A, R> {
    /// The callable.
    pub callable: C,
    types: PhantomData<(A, R)>,
}

impl<C, A, R> Fn1<C, A, R> {
    /// Creates the function that calls this callable.
    pub fn new(callable: C) -> Self
        ensures { result.callable ≡ callable }
    {
        Fn1 {
            callable,
            types: PhantomData,
        }
    }
}

impl<C: Call1<A, R>, A: OwnedArgument + Drop, R: FunctionReturn + Drop> Function for Fn1<C, A, R> {
    ghost answers = { λ s. adapter_answer (A.misfit ∷ []) (C.meaning s.callable) };

    fn call(&self, alloc: Global, args: &[ValueCow]) -> Result<Value, CallError> {
        let [first] = args else {
            return Err(CallError::Arity(1));
        };
        let first = A::from_value(alloc, 0, first)?;
        self.callable.call(alloc, first).to_value(alloc)
    }
}

/// A callable of two owned arguments.
pub trait Call2<A: OwnedArgument, B: OwnedArgument, R: FunctionReturn>: Drop {
    // Its outcome, by what its arguments denote.
    ghost meaning: { Self → List Val → Returned };

    /// Calls it.
    fn call(&self, alloc: Global, first: A, second: B) -> R
        ensures { Gives (R.outcome result) (meaning self.now (A.stands_for first ∷ B.stands_for second ∷ [])) };
}

/// The function of a callable of two owned arguments.
#[derive(Drop)]
pub struct Fn2<C, A, B, R> {
    /// The callable.
    pub callable: C,
    types: PhantomData<(A, B, R)>,
}

impl<C, A, B, R> Fn2<C, A, B, R> {
    /// Creates the function that calls this callable.
    pub fn new(callable: C) -> Self
        ensures { result.callable ≡ callable }
    {
        Fn2 {
            callable,
            types: PhantomData,
        }
    }
}

impl<
    C: Call2<A, B, R>,
    A: OwnedArgument + Drop,
    B: OwnedArgument + Drop,
    R: FunctionReturn + Drop,
> Function for Fn2<C, A, B, R> {
    ghost answers = { λ s. adapter_answer (A.misfit ∷ B.misfit ∷ []) (C.meaning s.callable) };

    fn call(&self, alloc: Global, args: &[ValueCow]) -> Result<Value, CallError> {
        let [first, second] = args else {
            return Err(CallError::Arity(2));
        };
        let first = A::from_value(alloc, 0, first)?;
        let second = B::from_value(alloc, 1, second)?;
        self.callable.call(alloc, first, second).to_value(alloc)
    }
}
