// Functions of callables that own their arguments, from three to five.
ghost use Rattle.std.specs.Prelude.{◌≡◌, ◌∷◌, [], List};
ghost use Rattle.upon_functions.specs.Adapters.{adapter_answer};
ghost use Rattle.upon_functions.specs.Outcome.{Returned, Gives};
ghost use Rattle.upon_types.specs.Val.{Val};

use crate::arguments::OwnedArgument;
use crate::function::{CallError, Function};
use crate::returns::FunctionReturn;
use std::alloc::Global;
use std::marker::PhantomData;
use upon_types::value::{Value, ValueCow};

/// A callable of three owned arguments.
pub trait Call3<A: OwnedArgument, B: OwnedArgument, C: OwnedArgument, R: FunctionReturn>: Drop {
    // Its outcome, by what its arguments denote.
    ghost meaning: { Self → List Val → Returned };

    /// Calls it.
    fn call(&self, alloc: Global, first: A, second: B, third: C) -> R
        ensures { Gives (R.outcome result)
            (meaning self.now (A.stands_for first ∷ B.stands_for second ∷ C.stands_for third ∷ [])) };
}

/// The function of a callable of three owned arguments.
#[derive(Drop)]
pub struct Fn3<F, A, B, C, R> {
    /// The callable.
    pub callable: F,
    types: PhantomData<(A, B, C, R)>,
}

impl<F, A, B, C, R> Fn3<F, A, B, C, R> {
    /// Creates the function that calls this callable.
    pub fn new(callable: F) -> Self
        ensures { result.callable ≡ callable }
    {
        Fn3 {
            callable,
            types: PhantomData,
        }
    }
}

impl<
    F: Call3<A, B, C, R>,
    A: OwnedArgument + Drop,
    B: OwnedArgument + Drop,
    C: OwnedArgument + Drop,
    R: FunctionReturn + Drop,
> Function for Fn3<F, A, B, C, R> {
    ghost answers = { λ s. adapter_answer (A.misfit ∷ B.misfit ∷ C.misfit ∷ []) (F.meaning s.callable) };

    fn call(&self, alloc: Global, args: &[ValueCow]) -> Result<Value, CallError> {
        let [first, second, third] = args else {
            return Err(CallError::Arity(3));
        };
        let first = A::from_value(alloc, 0, first)?;
        let second = B::from_value(alloc, 1, second)?;
        let third = C::from_value(alloc, 2, third)?;
        self.callable
            .call(alloc, first, second, third)
            .to_value(alloc)
    }
}

/// A callable of four owned arguments.
pub trait Call4<
    A: OwnedArgument,
    B: OwnedArgument,
    C: OwnedArgument,
    D: OwnedArgument,
    R: FunctionReturn,
>: Drop {
    // Its outcome, by what its arguments denote.
    ghost meaning: { Self → List Val → Returned };

    /// Calls it.
    fn call(&self, alloc: Global, first: A, second: B, third: C, fourth: D) -> R
        ensures { Gives (R.outcome result)
            (meaning self.now
            (A.stands_for first ∷ B.stands_for second ∷ C.stands_for third ∷ D.stands_for fourth ∷ [])) };
}

/// The function of a callable of four owned arguments.
#[derive(Drop)]
pub struct Fn4<F, A, B, C, D, R> {
    /// The callable.
    pub callable: F,
    types: PhantomData<(A, B, C, D, R)>,
}

impl<F, A, B, C, D, R> Fn4<F, A, B, C, D, R> {
    /// Creates the function that calls this callable.
    pub fn new(callable: F) -> Self
        ensures { result.callable ≡ callable }
    {
        Fn4 {
            callable,
            types: PhantomData,
        }
    }
}

impl<
    F: Call4<A, B, C, D, R>,
    A: OwnedArgument + Drop,
    B: OwnedArgument + Drop,
    C: OwnedArgument + Drop,
    D: OwnedArgument + Drop,
    R: FunctionReturn + Drop,
> Function for Fn4<F, A, B, C, D, R> {
    ghost answers = { λ s. adapter_answer (A.misfit ∷ B.misfit ∷ C.misfit ∷ D.misfit ∷ []) (F.meaning s.callable) };

    fn call(&self, alloc: Global, args: &[ValueCow]) -> Result<Value, CallError> {
        let [first, second, third, fourth] = args else {
            return Err(CallError::Arity(4));
        };
        let first = A::from_value(alloc, 0, first)?;
        let second = B::from_value(alloc, 1, second)?;
        let third = C::from_value(alloc, 2, third)?;
        let fourth = D::from_value(alloc, 3, fourth)?;
        self.callable
            .call(alloc, first, second, third, fourth)
            .to_value(alloc)
    }
}

/// A callable of five owned arguments.
pub trait Call5<
    A: OwnedArgument,
    B: OwnedArgument,
    C: OwnedArgument,
    D: OwnedArgument,
    E: OwnedArgument,
    R: FunctionReturn,
>: Drop {
    // Its outcome, by what its arguments denote.
    ghost meaning: { Self → List Val → Returned };

    /// Calls it.
    fn call(&self, alloc: Global, first: A, second: B, third: C, fourth: D, fifth: E) -> R
        ensures { Gives (R.outcome result)
            (meaning self.now
            (A.stands_for first ∷ B.stands_for second ∷ C.stands_for third ∷ D.stands_for fourth
            ∷ E.stands_for fifth ∷ [])) };
}

/// The function of a callable of five owned arguments.
#[derive(Drop)]
pub struct Fn5<F, A, B, C, D, E, R> {
    /// The callable.
    pub callable: F,
    types: PhantomData<(A, B, C, D, E, R)>,
}

impl<F, A, B, C, D, E, R> Fn5<F, A, B, C, D, E, R> {
    /// Creates the function that calls this callable.
    pub fn new(callable: F) -> Self
        ensures { result.callable ≡ callable }
    {
        Fn5 {
            callable,
            types: PhantomData,
        }
    }
}

impl<
    F: Call5<A, B, C, D, E, R>,
    A: OwnedArgument + Drop,
    B: OwnedArgument + Drop,
    C: OwnedArgument + Drop,
    D: OwnedArgument + Drop,
    E: OwnedArgument + Drop,
    R: FunctionReturn + Drop,
> Function for Fn5<F, A, B, C, D, E, R> {
    ghost answers = { λ s. adapter_answer (A.misfit ∷ B.misfit ∷ C.misfit ∷ D.misfit ∷ E.misfit ∷ [])
        (F.meaning s.callable) };

    fn call(&self, alloc: Global, args: &[ValueCow]) -> Result<Value, CallError> {
        let [first, second, third, fourth, fifth] = args else {
            return Err(CallError::Arity(5));
        };
        let first = A::from_value(alloc, 0, first)?;
        let second = B::from_value(alloc, 1, second)?;
        let third = C::from_value(alloc, 2, third)?;
        let fourth = D::from_value(alloc, 3, fourth)?;
        let fifth = E::from_value(alloc, 4, fifth)?;
        self.callable
            .call(alloc, first, second, third, fourth, fifth)
            .to_value(alloc)
    }
}
