// Functions of callables of two arguments, the first a value that is lent.
ghost use Rattle.std.specs.Prelude.{◌≡◌, ◌∷◌, [], List};
ghost use Rattle.upon_functions.specs.Adapters.{adapter_answer};
ghost use Rattle.upon_types.specs.Misfits.{str_misfit, any_misfit};
ghost use Rattle.upon_functions.specs.Outcome.{Returned, Gives};
ghost use Rattle.upon_types.specs.Val.{Val, text_val};
ghost use Rattle.upon_types.specs.View.{view};

use crate::arguments::{OwnedArgument, lent};
use crate::function::{CallError, Function};
use crate::returns::FunctionReturn;
use std::alloc::Global;
use std::marker::PhantomData;
use upon_types::value::{Value, ValueCow};

/// A callable of a lent value and an owned argument.
pub trait Call2VO<A: OwnedArgument, R: FunctionReturn>: Drop {
    // Its outcome, by what its arguments denote.
    ghost meaning: { Self → List Val → Returned };

    /// Calls it.
    fn call(&self, alloc: Global, first: &Value, second: A) -> R
        ensures { Gives (R.outcome result) (meaning self.now (view first.now ∷ A.stands_for second ∷ [])) };
}

/// The function of a callable of a lent value and an owned argument.
#[derive(Drop)]
pub struct Fn2VO<C, A, R> {
    /// The callable.
    pub callable: C,
    types: PhantomData<(A, R)>,
}

impl<C, A, R> Fn2VO<C, A, R> {
    /// Creates the function that calls this callable.
    pub fn new(callable: C) -> Self
        ensures { result.callable ≡ callable }
    {
        Fn2VO {
            callable,
            types: PhantomData,
        }
    }
}

impl<C: Call2VO<A, R>, A: OwnedArgument + Drop, R: FunctionReturn + Drop> Function
    for Fn2VO<C, A, R> {
    ghost answers = { λ s. adapter_answer (any_misfit ∷ A.misfit ∷ []) (C.meaning s.callable) };

    fn call(&self, alloc: Global, args: &[ValueCow]) -> Result<Value, CallError> {
        let [first, second] = args else {
            return Err(CallError::Arity(2));
        };
        let owned = A::from_value(alloc, 1, second)?;
        self.callable.call(alloc, first, owned).to_value(alloc)
    }
}

/// A callable of a lent value and a lent text.
pub trait Call2VS<R: FunctionReturn>: Drop {
    // Its outcome, by what its arguments denote.
    ghost meaning: { Self → List Val → Returned };

    /// Calls it.
    fn call(&self, alloc: Global, first: &Value, second: &str) -> R
        ensures { Gives (R.outcome result) (meaning self.now (view first.now ∷ text_val second.now ∷ [])) };
}

/// The function of a callable of a lent value and a lent text.
#[derive(Drop)]
pub struct Fn2VS<C, R> {
    /// The callable.
    pub callable: C,
    types: PhantomData<R>,
}

impl<C, R> Fn2VS<C, R> {
    /// Creates the function that calls this callable.
    pub fn new(callable: C) -> Self
        ensures { result.callable ≡ callable }
    {
        Fn2VS {
            callable,
            types: PhantomData,
        }
    }
}

impl<C: Call2VS<R>, R: FunctionReturn + Drop> Function for Fn2VS<C, R> {
    ghost answers = { λ s. adapter_answer (any_misfit ∷ str_misfit ∷ []) (C.meaning s.callable) };

    fn call(&self, alloc: Global, args: &[ValueCow]) -> Result<Value, CallError> {
        let [first, second] = args else {
            return Err(CallError::Arity(2));
        };
        let text = lent::text(1, second)?;
        self.callable.call(alloc, first, text).to_value(alloc)
    }
}

/// A callable of two lent values.
pub trait Call2VV<R: FunctionReturn>: Drop {
    // Its outcome, by what its arguments denote.
    ghost meaning: { Self → List Val → Returned };

    /// Calls it.
    fn call(&self, alloc: Global, first: &Value, second: &Value) -> R
        ensures { Gives (R.outcome result) (meaning self.now (view first.now ∷ view second.now ∷ [])) };
}

/// The function of a callable of two lent values.
#[derive(Drop)]
pub struct Fn2VV<C, R> {
    /// The callable.
    pub callable: C,
    types: PhantomData<R>,
}

impl<C, R> Fn2VV<C, R> {
    /// Creates the function that calls this callable.
    pub fn new(callable: C) -> Self
        ensures { result.callable ≡ callable }
    {
        Fn2VV {
            callable,
            types: PhantomData,
        }
    }
}

impl<C: Call2VV<R>, R: FunctionReturn + Drop> Function for Fn2VV<C, R> {
    ghost answers = { λ s. adapter_answer (any_misfit ∷ any_misfit ∷ []) (C.meaning s.callable) };

    fn call(&self, alloc: Global, args: &[ValueCow]) -> Result<Value, CallError> {
        let [first, second] = args else {
            return Err(CallError::Arity(2));
        };
        self.callable.call(alloc, first, second).to_value(alloc)
    }
}
