// Functions of callables of two arguments, the first a list that is lent.
ghost use Rattle.std.specs.Prelude.{◌≡◌, ◌∷◌, [], List};
ghost use Rattle.upon_functions.specs.Adapters.{adapter_answer};
ghost use Rattle.upon_types.specs.Misfits.{str_misfit, list_misfit, any_misfit};
ghost use Rattle.upon_functions.specs.Outcome.{Returned, Gives};
ghost use Rattle.upon_types.specs.Val.{Val, text_val, list_val};
ghost use Rattle.upon_types.specs.View.{view, vals_view};

use crate::arguments::{OwnedArgument, lent};
use crate::function::{CallError, Function};
use crate::returns::FunctionReturn;
use std::alloc::Global;
use std::marker::PhantomData;
use upon_types::value::{Value, ValueCow};

/// A callable of a lent list and an owned argument.
pub trait Call2LO<A: OwnedArgument, R: FunctionReturn>: Drop {
    // Its outcome, by what its arguments denote.
    ghost meaning: { Self → List Val → Returned };

    /// Calls it.
    fn call(&self, alloc: Global, first: &[Value], second: A) -> R
        ensures { Gives (R.outcome result)
            (meaning self.now (list_val (vals_view first.now) ∷ A.stands_for second ∷ [])) };
}

/// The function of a callable of a lent list and an owned argument.
#[derive(Drop)]
pub struct Fn2LO<C, A, R> {
    /// The callable.
    pub callable: C,
    types: PhantomData<(A, R)>,
}

impl<C, A, R> Fn2LO<C, A, R> {
    /// Creates the function that calls this callable.
    pub fn new(callable: C) -> Self
        ensures { result.callable ≡ callable }
    {
        Fn2LO {
            callable,
            types: PhantomData,
        }
    }
}

impl<C: Call2LO<A, R>, A: OwnedArgument + Drop, R: FunctionReturn + Drop> Function
    for Fn2LO<C, A, R> {
    ghost answers = { λ s. adapter_answer (list_misfit ∷ A.misfit ∷ []) (C.meaning s.callable) };

    fn call(&self, alloc: Global, args: &[ValueCow]) -> Result<Value, CallError> {
        let [first, second] = args else {
            return Err(CallError::Arity(2));
        };
        let items = lent::list(0, first)?;
        let owned = A::from_value(alloc, 1, second)?;
        self.callable.call(alloc, items, owned).to_value(alloc)
    }
}

/// A callable of a lent list and a lent text.
pub trait Call2LS<R: FunctionReturn>: Drop {
    // Its outcome, by what its arguments denote.
    ghost meaning: { Self → List Val → Returned };

    /// Calls it.
    fn call(&self, alloc: Global, first: &[Value], second: &str) -> R
        ensures { Gives (R.outcome result)
            (meaning self.now (list_val (vals_view first.now) ∷ text_val second.now ∷ [])) };
}

/// The function of a callable of a lent list and a lent text.
#[derive(Drop)]
pub struct Fn2LS<C, R> {
    /// The callable.
    pub callable: C,
    types: PhantomData<R>,
}

impl<C, R> Fn2LS<C, R> {
    /// Creates the function that calls this callable.
    pub fn new(callable: C) -> Self
        ensures { result.callable ≡ callable }
    {
        Fn2LS {
            callable,
            types: PhantomData,
        }
    }
}

impl<C: Call2LS<R>, R: FunctionReturn + Drop> Function for Fn2LS<C, R> {
    ghost answers = { λ s. adapter_answer (list_misfit ∷ str_misfit ∷ []) (C.meaning s.callable) };

    fn call(&self, alloc: Global, args: &[ValueCow]) -> Result<Value, CallError> {
        let [first, second] = args else {
            return Err(CallError::Arity(2));
        };
        let items = lent::list(0, first)?;
        let text = lent::text(1, second)?;
        self.callable.call(alloc, items, text).to_value(alloc)
    }
}

/// A callable of a lent list and a lent value.
pub trait Call2LV<R: FunctionReturn>: Drop {
    // Its outcome, by what its arguments denote.
    ghost meaning: { Self → List Val → Returned };

    /// Calls it.
    fn call(&self, alloc: Global, first: &[Value], second: &Value) -> R
        ensures { Gives (R.outcome result) (meaning self.now (list_val (vals_view first.now) ∷ view second.now ∷ [])) };
}

/// The function of a callable of a lent list and a lent value.
#[derive(Drop)]
pub struct Fn2LV<C, R> {
    /// The callable.
    pub callable: C,
    types: PhantomData<R>,
}

impl<C, R> Fn2LV<C, R> {
    /// Creates the function that calls this callable.
    pub fn new(callable: C) -> Self
        ensures { result.callable ≡ callable }
    {
        Fn2LV {
            callable,
            types: PhantomData,
        }
    }
}

impl<C: Call2LV<R>, R: FunctionReturn + Drop> Function for Fn2LV<C, R> {
    ghost answers = { λ s. adapter_answer (list_misfit ∷ any_misfit ∷ []) (C.meaning s.callable) };

    fn call(&self, alloc: Global, args: &[ValueCow]) -> Result<Value, CallError> {
        let [first, second] = args else {
            return Err(CallError::Arity(2));
        };
        let items = lent::list(0, first)?;
        self.callable.call(alloc, items, second).to_value(alloc)
    }
}
