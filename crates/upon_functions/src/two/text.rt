// Functions of callables of two arguments, the first a text that is lent.
ghost use Rattle.std.specs.Prelude.{◌≡◌, ◌∷◌, [], List};
ghost use Rattle.upon_functions.specs.Adapters.{adapter_answer};
ghost use Rattle.upon_types.specs.Misfits.{str_misfit, any_misfit};
ghost use Rattle.upon_functions.specs.Outcome.{Returned, Gives};
ghost use Rattle.upon_types.specs.Val.{Val, text_val};
ghost use Rattle.upon_types.specs.View.{view};

use crate::arguments::{OwnedArgument, lent};
use crate::function::{CallError, Function};
use crate::returns::FunctionReturn;
use std::alloc::Global;
use std::marker::PhantomData;
use upon_types::value::{Value, ValueCow};

/// A callable of a lent text and an owned argument.
pub trait Call2SO<A: OwnedArgument, R: FunctionReturn>: Drop {
    // Its outcome, by what its arguments denote.
    ghost meaning: { Self → List Val → Returned };

    /// Calls it.
    fn call(&self, alloc: Global, first: &str, second: A) -> R
        ensures { Gives (R.outcome result) (meaning self.now (text_val first.now ∷ A.stands_for second ∷ [])) };
}

/// The function of a callable of a lent text and an owned argument.
#[derive(Drop)]
pub struct Fn2SO<C, A, R> {
    /// The callable.
    pub callable: C,
    types: PhantomData<(A, R)>,
}

impl<C, A, R> Fn2SO<C, A, R> {
    /// Creates the function that calls this callable.
    pub fn new(callable: C) -> Self
        ensures { result.callable ≡ callable }
    {
        Fn2SO {
            callable,
            types: PhantomData,
        }
    }
}

impl<C: Call2SO<A, R>, A: OwnedArgument + Drop, R: FunctionReturn + Drop> Function
    for Fn2SO<C, A, R> {
    ghost answers = { λ s. adapter_answer (str_misfit ∷ A.misfit ∷ []) (C.meaning s.callable) };

    fn call(&self, alloc: Global, args: &[ValueCow]) -> Result<Value, CallError> {
        let [first, second] = args else {
            return Err(CallError::Arity(2));
        };
        let text = lent::text(0, first)?;
        let owned = A::from_value(alloc, 1, second)?;
        self.callable.call(alloc, text, owned).to_value(alloc)
    }
}

/// A callable of two lent texts.
pub trait Call2SS<R: FunctionReturn>: Drop {
    // Its outcome, by what its arguments denote.
    ghost meaning: { Self → List Val → Returned };

    /// Calls it.
    fn call(&self, alloc: Global, first: &str, second: &str) -> R
        ensures { Gives (R.outcome result) (meaning self.now (text_val first.now ∷ text_val second.now ∷ [])) };
}

/// The function of a callable of two lent texts.
#[derive(Drop)]
pub struct Fn2SS<C, R> {
    /// The callable.
    pub callable: C,
    types: PhantomData<R>,
}

impl<C, R> Fn2SS<C, R> {
    /// Creates the function that calls this callable.
    pub fn new(callable: C) -> Self
        ensures { result.callable ≡ callable }
    {
        Fn2SS {
            callable,
            types: PhantomData,
        }
    }
}

impl<C: Call2SS<R>, R: FunctionReturn + Drop> Function for Fn2SS<C, R> {
    ghost answers = { λ s. adapter_answer (str_misfit ∷ str_misfit ∷ []) (C.meaning s.callable) };

    fn call(&self, alloc: Global, args: &[ValueCow]) -> Result<Value, CallError> {
        let [first, second] = args else {
            return Err(CallError::Arity(2));
        };
        let first = lent::text(0, first)?;
        let second = lent::text(1, second)?;
        self.callable.call(alloc, first, second).to_value(alloc)
    }
}

/// A callable of a lent text and a lent value.
pub trait Call2SV<R: FunctionReturn>: Drop {
    // Its outcome, by what its arguments denote.
    ghost meaning: { Self → List Val → Returned };

    /// Calls it.
    fn call(&self, alloc: Global, first: &str, second: &Value) -> R
        ensures { Gives (R.outcome result) (meaning self.now (text_val first.now ∷ view second.now ∷ [])) };
}

/// The function of a callable of a lent text and a lent value.
#[derive(Drop)]
pub struct Fn2SV<C, R> {
    /// The callable.
    pub callable: C,
    types: PhantomData<R>,
}

impl<C, R> Fn2SV<C, R> {
    /// Creates the function that calls this callable.
    pub fn new(callable: C) -> Self
        ensures { result.callable ≡ callable }
    {
        Fn2SV {
            callable,
            types: PhantomData,
        }
    }
}

impl<C: Call2SV<R>, R: FunctionReturn + Drop> Function for Fn2SV<C, R> {
    ghost answers = { λ s. adapter_answer (str_misfit ∷ any_misfit ∷ []) (C.meaning s.callable) };

    fn call(&self, alloc: Global, args: &[ValueCow]) -> Result<Value, CallError> {
        let [first, second] = args else {
            return Err(CallError::Arity(2));
        };
        let text = lent::text(0, first)?;
        self.callable.call(alloc, text, second).to_value(alloc)
    }
}
