// Functions of callables of two arguments, the first a map that is lent.
ghost use Rattle.std.specs.Prelude.{◌≡◌, ◌∷◌, [], List};
ghost use Rattle.upon_functions.specs.Adapters.{adapter_answer};
ghost use Rattle.upon_types.specs.Misfits.{str_misfit, map_misfit, any_misfit};
ghost use Rattle.upon_functions.specs.Outcome.{Returned, Gives};
ghost use Rattle.upon_types.specs.Val.{Val, text_val, map_val};
ghost use Rattle.upon_types.specs.View.{view, entries_view};

use crate::arguments::{OwnedArgument, lent};
use crate::function::{CallError, Function};
use crate::returns::FunctionReturn;
use std::alloc::Global;
use std::collections::BTreeMap;
use std::marker::PhantomData;
use upon_types::value::{Value, ValueCow};

/// A callable of a lent map and an owned argument.
pub trait Call2MO<A: OwnedArgument, R: FunctionReturn>: Drop {
    // Its outcome, by what its arguments denote.
    ghost meaning: { Self → List Val → Returned };

    /// Calls it.
    fn call(&self, alloc: Global, first: &BTreeMap<String, Value>, second: A) -> R
        ensures { Gives (R.outcome result)
            (meaning self.now (map_val (entries_view first.now.entries) ∷ A.stands_for second ∷ [])) };
}

/// The function of a callable of a lent map and an owned argument.
#[derive(Drop)]
pub struct Fn2MO<C, A, R> {
    /// The callable.
    pub callable: C,
    types: PhantomData<(A, R)>,
}

impl<C, A, R> Fn2MO<C, A, R> {
    /// Creates the function that calls this callable.
    pub fn new(callable: C) -> Self
        ensures { result.callable ≡ callable }
    {
        Fn2MO {
            callable,
            types: PhantomData,
        }
    }
}

impl<C: Call2MO<A, R>, A: OwnedArgument + Drop, R: FunctionReturn + Drop> Function
    for Fn2MO<C, A, R> {
    ghost answers = { λ s. adapter_answer (map_misfit ∷ A.misfit ∷ []) (C.meaning s.callable) };

    fn call(&self, alloc: Global, args: &[ValueCow]) -> Result<Value, CallError> {
        let [first, second] = args else {
            return Err(CallError::Arity(2));
        };
        let entries = lent::map(0, first)?;
        let owned = A::from_value(alloc, 1, second)?;
        self.callable.call(alloc, entries, owned).to_value(alloc)
    }
}

/// A callable of a lent map and a lent text.
pub trait Call2MS<R: FunctionReturn>: Drop {
    // Its outcome, by what its arguments denote.
    ghost meaning: { Self → List Val → Returned };

    /// Calls it.
    fn call(&self, alloc: Global, first: &BTreeMap<String, Value>, second: &str) -> R
        ensures { Gives (R.outcome result)
            (meaning self.now (map_val (entries_view first.now.entries) ∷ text_val second.now ∷ [])) };
}

/// The function of a callable of a lent map and a lent text.
#[derive(Drop)]
pub struct Fn2MS<C, R> {
    /// The callable.
    pub callable: C,
    types: PhantomData<R>,
}

impl<C, R> Fn2MS<C, R> {
    /// Creates the function that calls this callable.
    pub fn new(callable: C) -> Self
        ensures { result.callable ≡ callable }
    {
        Fn2MS {
            callable,
            types: PhantomData,
        }
    }
}

impl<C: Call2MS<R>, R: FunctionReturn + Drop> Function for Fn2MS<C, R> {
    ghost answers = { λ s. adapter_answer (map_misfit ∷ str_misfit ∷ []) (C.meaning s.callable) };

    fn call(&self, alloc: Global, args: &[ValueCow]) -> Result<Value, CallError> {
        let [first, second] = args else {
            return Err(CallError::Arity(2));
        };
        let entries = lent::map(0, first)?;
        let text = lent::text(1, second)?;
        self.callable.call(alloc, entries, text).to_value(alloc)
    }
}

/// A callable of a lent map and a lent value.
pub trait Call2MV<R: FunctionReturn>: Drop {
    // Its outcome, by what its arguments denote.
    ghost meaning: { Self → List Val → Returned };

    /// Calls it.
    fn call(&self, alloc: Global, first: &BTreeMap<String, Value>, second: &Value) -> R
        ensures { Gives (R.outcome result)
            (meaning self.now (map_val (entries_view first.now.entries) ∷ view second.now ∷ [])) };
}

/// The function of a callable of a lent map and a lent value.
#[derive(Drop)]
pub struct Fn2MV<C, R> {
    /// The callable.
    pub callable: C,
    types: PhantomData<R>,
}

impl<C, R> Fn2MV<C, R> {
    /// Creates the function that calls this callable.
    pub fn new(callable: C) -> Self
        ensures { result.callable ≡ callable }
    {
        Fn2MV {
            callable,
            types: PhantomData,
        }
    }
}

impl<C: Call2MV<R>, R: FunctionReturn + Drop> Function for Fn2MV<C, R> {
    ghost answers = { λ s. adapter_answer (map_misfit ∷ any_misfit ∷ []) (C.meaning s.callable) };

    fn call(&self, alloc: Global, args: &[ValueCow]) -> Result<Value, CallError> {
        let [first, second] = args else {
            return Err(CallError::Arity(2));
        };
        let entries = lent::map(0, first)?;
        self.callable.call(alloc, entries, second).to_value(alloc)
    }
}
