// Functions that compare values and choose among them. Each takes values of every kind.
ghost use Rattle.upon_functions.specs.Says.{Says, arguments_view};
ghost use Rattle.upon_functions.specs.Blames.{BlamesGiven};
ghost use Rattle.upon_std.specs.Basic.Choices.{choose_answer};

pub use crate::basic::order::Relation;
use crate::basic::order::{is_true, order, refusal};
use std::alloc::{AllocError, Global};
use upon_functions::function::{CallError, Function};
use upon_functions::{Call1V, Call2VV, Fn1V, Fn2VV};
use upon_types::value::comparing::try_same;
use upon_types::value::{Value, ValueCow};

/// A function that compares values, or chooses among them. Values that count as false are those of `if`.
#[derive(Clone, Copy)]
pub enum Comparing {
    /// `eq(a, b)` returns whether two values are the same.
    Equal,
    /// `ne(a, b)` returns whether two values differ.
    NotEqual,
    /// `lt(a, b)`, `le(a, b)`, `gt(a, b)` and `ge(a, b)` return whether a relation holds of two integers, or of two
    /// texts in the order of their code points. They refuse other values, with a message that names both kinds.
    Ordered(Relation),
    /// `not(a)` returns whether a value counts as false.
    Not,
    /// `and(a, b)` returns whether both values count as true.
    And,
    /// `or(a, b)` returns whether one of both values counts as true.
    Or,
    /// `default(a, b)` returns the first value, or the second where the first is none.
    Default,
    /// `choose(c, a, b)` returns the second value where the first counts as true, else the third.
    Choose,
}

impl Function for Comparing {
    ghost use Rattle.upon_std.specs.Basic.Comparing.{comparing_answer};

    ghost answers = { comparing_answer };

    fn call(&self, alloc: Global, args: &[ValueCow]) -> Result<Value, CallError> {
        match *self {
            Comparing::Equal => {
                Fn2VV::<Equal, Result<bool, AllocError>>::new(Equal).call(alloc, args)
            }
            Comparing::NotEqual => {
                Fn2VV::<NotEqual, Result<bool, AllocError>>::new(NotEqual).call(alloc, args)
            }
            Comparing::Ordered(relation) => {
                Fn2VV::<Relation, Result<Result<bool, String>, AllocError>>::new(relation).call(
                    alloc, args,
                )
            }
            Comparing::Not => Fn1V::<Not, bool>::new(Not).call(alloc, args),
            Comparing::And => Fn2VV::<And, bool>::new(And).call(alloc, args),
            Comparing::Or => Fn2VV::<Or, bool>::new(Or).call(alloc, args),
            Comparing::Default => {
                Fn2VV::<DefaultTo, Result<Value, AllocError>>::new(DefaultTo).call(alloc, args)
            }
            Comparing::Choose => choose(args),
        }
    }
}

// Whether two values are the same.
#[derive(Drop)]
struct Equal;

impl Call2VV<Result<bool, AllocError>> for Equal {
    ghost use Rattle.upon_std.specs.Basic.Choices.{equal_outcome};

    ghost meaning = { λ _. equal_outcome };

    fn call(&self, alloc: Global, first: &Value, second: &Value) -> Result<bool, AllocError> {
        try_same(alloc, first, second)
    }
}

// Whether two values differ.
#[derive(Drop)]
struct NotEqual;

impl Call2VV<Result<bool, AllocError>> for NotEqual {
    ghost use Rattle.upon_std.specs.Basic.Choices.{not_equal_outcome};

    ghost meaning = { λ _. not_equal_outcome };

    fn call(&self, alloc: Global, first: &Value, second: &Value) -> Result<bool, AllocError> {
        let same = try_same(alloc, first, second)?;
        Ok(!same)
    }
}

impl Call2VV<Result<Result<bool, String>, AllocError>> for Relation {
    ghost use Rattle.upon_std.specs.Basic.Choices.{ordered_outcome};

    ghost meaning = { ordered_outcome };

    fn call(
        &self,
        alloc: Global,
        first: &Value,
        second: &Value,
    ) -> Result<Result<bool, String>, AllocError> {
        match order(first, second) {
            Some(order) => Ok(Ok(self.holds(order))),
            None => Ok(Err(refusal(alloc, first, second)?)),
        }
    }
}

// Whether a value counts as false.
#[derive(Drop)]
struct Not;

impl Call1V<bool> for Not {
    ghost use Rattle.upon_std.specs.Basic.Choices.{not_outcome};

    ghost meaning = { λ _. not_outcome };

    fn call(&self, _alloc: Global, first: &Value) -> bool {
        !is_true(first)
    }
}

// Whether both values count as true.
#[derive(Drop)]
struct And;

impl Call2VV<bool> for And {
    ghost use Rattle.upon_std.specs.Basic.Choices.{and_outcome};

    ghost meaning = { λ _. and_outcome };

    fn call(&self, _alloc: Global, first: &Value, second: &Value) -> bool {
        is_true(first) && is_true(second)
    }
}

// Whether one of both values counts as true.
#[derive(Drop)]
struct Or;

impl Call2VV<bool> for Or {
    ghost use Rattle.upon_std.specs.Basic.Choices.{or_outcome};

    ghost meaning = { λ _. or_outcome };

    fn call(&self, _alloc: Global, first: &Value, second: &Value) -> bool {
        is_true(first) || is_true(second)
    }
}

// A value, or another in place of none.
#[derive(Drop)]
struct DefaultTo;

impl Call2VV<Result<Value, AllocError>> for DefaultTo {
    ghost use Rattle.upon_std.specs.Basic.Choices.{default_outcome};

    ghost meaning = { λ _. default_outcome };

    fn call(&self, _alloc: Global, first: &Value, second: &Value) -> Result<Value, AllocError> {
        match first {
            Value::None => second.try_clone(),
            _ => first.try_clone(),
        }
    }
}

// One of two values. No adapter lends three values, and to own them would copy also the one that is not chosen.
fn choose(args: &[ValueCow]) -> Result<Value, CallError>
    ensures says { Says result (choose_answer (arguments_view args.now)) }
    ensures blames_given { BlamesGiven (arguments_view args.now) (choose_answer (arguments_view args.now)) }
{
    let [condition, then, otherwise] = args else {
        return Err(CallError::Arity(3));
    };
    let chosen = if condition.as_bool() { then } else { otherwise };
    Ok(chosen.try_clone()?)
}
