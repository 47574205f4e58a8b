// Functions of callables of one argument that is lent: a text, a list, a map or any value.
ghost use Rattle.std.specs.Prelude.{◌≡◌, ◌∷◌, [], List};
ghost use Rattle.upon_functions.specs.Adapters.{adapter_answer};
ghost use Rattle.upon_types.specs.Misfits.{str_misfit, list_misfit, map_misfit, any_misfit};
ghost use Rattle.upon_functions.specs.Outcome.{Returned, Gives};
ghost use Rattle.upon_types.specs.Val.{Val, text_val, list_val, map_val};
ghost use Rattle.upon_types.specs.View.{view, vals_view, entries_view};

use crate::arguments::lent;
use crate::function::{CallError, Function};
use crate::returns::FunctionReturn;
use std::alloc::Global;
use std::collections::BTreeMap;
use std::marker::PhantomData;
use upon_types::value::{Value, ValueCow};

/// A callable of a lent text.
pub trait Call1S<R: FunctionReturn>: Drop {
    // Its outcome, by what its arguments denote.
    ghost meaning: { Self → List Val → Returned };

    /// Calls it.
    fn call(&self, alloc: Global, first: &str) -> R
        ensures { Gives (R.outcome result) (meaning self.now (text_val first.now ∷ [])) };
}

/// The function of a callable of a lent text.
#[derive(Drop)]
pub struct Fn1S<C, R> {
    /// The callable.
    pub callable: C,
    types: PhantomData<R>,
}

impl<C, R> Fn1S<C, R> {
    /// Creates the function that calls this callable.
    pub fn new(callable: C) -> Self
        ensures { result.callable ≡ callable }
    {
        Fn1S {
            callable,
            types: PhantomData,
        }
    }
}

impl<C: Call1S<R>, R: FunctionReturn + Drop> Function for Fn1S<C, R> {
    ghost answers = { λ s. adapter_answer (str_misfit ∷ []) (C.meaning s.callable) };

    fn call(&self, alloc: Global, args: &[ValueCow]) -> Result<Value, CallError> {
        let [first] = args else {
            return Err(CallError::Arity(1));
        };
        let text = lent::text(0, first)?;
        self.callable.call(alloc, text).to_value(alloc)
    }
}

/// A callable of a lent list.
pub trait Call1L<R: FunctionReturn>: Drop {
    // Its outcome, by what its arguments denote.
    ghost meaning: { Self → List Val → Returned };

    /// Calls it.
    fn call(&self, alloc: Global, first: &[Value]) -> R
        ensures { Gives (R.outcome result) (meaning self.now (list_val (vals_view first.now) ∷ [])) };
}

/// The function of a callable of a lent list.
#[derive(Drop)]
pub struct Fn1L<C, R> {
    /// The callable.
    pub callable: C,
    types: PhantomData<R>,
}

impl<C, R> Fn1L<C, R> {
    /// Creates the function that calls this callable.
    pub fn new(callable: C) -> Self
        ensures { result.callable ≡ callable }
    {
        Fn1L {
            callable,
            types: PhantomData,
        }
    }
}

impl<C: Call1L<R>, R: FunctionReturn + Drop> Function for Fn1L<C, R> {
    ghost answers = { λ s. adapter_answer (list_misfit ∷ []) (C.meaning s.callable) };

    fn call(&self, alloc: Global, args: &[ValueCow]) -> Result<Value, CallError> {
        let [first] = args else {
            return Err(CallError::Arity(1));
        };
        let items = lent::list(0, first)?;
        self.callable.call(alloc, items).to_value(alloc)
    }
}

/// A callable of a lent map.
pub trait Call1M<R: FunctionReturn>: Drop {
    // Its outcome, by what its arguments denote.
    ghost meaning: { Self → List Val → Returned };

    /// Calls it.
    fn call(&self, alloc: Global, first: &BTreeMap<String, Value>) -> R
        ensures { Gives (R.outcome result) (meaning self.now (map_val (entries_view first.now.entries) ∷ [])) };
}

/// The function of a callable of a lent map.
#[derive(Drop)]
pub struct Fn1M<C, R> {
    /// The callable.
    pub callable: C,
    types: PhantomData<R>,
}

impl<C, R> Fn1M<C, R> {
    /// Creates the function that calls this callable.
    pub fn new(callable: C) -> Self
        ensures { result.callable ≡ callable }
    {
        Fn1M {
            callable,
            types: PhantomData,
        }
    }
}

impl<C: Call1M<R>, R: FunctionReturn + Drop> Function for Fn1M<C, R> {
    ghost answers = { λ s. adapter_answer (map_misfit ∷ []) (C.meaning s.callable) };

    fn call(&self, alloc: Global, args: &[ValueCow]) -> Result<Value, CallError> {
        let [first] = args else {
            return Err(CallError::Arity(1));
        };
        let entries = lent::map(0, first)?;
        self.callable.call(alloc, entries).to_value(alloc)
    }
}

/// A callable of a lent value.
pub trait Call1V<R: FunctionReturn>: Drop {
    // Its outcome, by what its arguments denote.
    ghost meaning: { Self → List Val → Returned };

    /// Calls it.
    fn call(&self, alloc: Global, first: &Value) -> R
        ensures { Gives (R.outcome result) (meaning self.now (view first.now ∷ [])) };
}

/// The function of a callable of a lent value.
#[derive(Drop)]
pub struct Fn1V<C, R> {
    /// The callable.
    pub callable: C,
    types: PhantomData<R>,
}

impl<C, R> Fn1V<C, R> {
    /// Creates the function that calls this callable.
    pub fn new(callable: C) -> Self
        ensures { result.callable ≡ callable }
    {
        Fn1V {
            callable,
            types: PhantomData,
        }
    }
}

impl<C: Call1V<R>, R: FunctionReturn + Drop> Function for Fn1V<C, R> {
    ghost answers = { λ s. adapter_answer (any_misfit ∷ []) (C.meaning s.callable) };

    fn call(&self, alloc: Global, args: &[ValueCow]) -> Result<Value, CallError> {
        let [first] = args else {
            return Err(CallError::Arity(1));
        };
        self.callable.call(alloc, first).to_value(alloc)
    }
}
