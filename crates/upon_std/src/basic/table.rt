// All functions of this crate under one type, each with the name under which templates call it.
ghost use Rattle.std.specs.Prelude.{◌≡◌};
ghost use Rattle.upon_std.specs.Basic.Names.{comparing_name, integers_name, texts_name, lists_name};

use crate::basic::comparing::{Comparing, Relation};
use crate::basic::integers::{Integers, Operation, Sign};
use crate::basic::lists::Lists;
use crate::basic::texts::Texts;
use std::alloc::Global;
use upon_functions::function::{CallError, Function};
use upon_types::value::{Value, ValueCow};

/// A function of this crate. [`ALL`] has each of them.
#[derive(Clone, Copy)]
pub enum StandardFunction {
    /// It compares values, or chooses among them.
    Comparing(Comparing),
    /// It computes with integers.
    Integers(Integers),
    /// It makes or tests texts.
    Texts(Texts),
    /// It reads lists and maps.
    Lists(Lists),
}

impl Function for StandardFunction {
    ghost use Rattle.upon_std.specs.Basic.Table.{basic_answer};

    ghost answers = { basic_answer };

    fn call(&self, alloc: Global, args: &[ValueCow]) -> Result<Value, CallError> {
        match self {
            StandardFunction::Comparing(function) => function.call(alloc, args),
            StandardFunction::Integers(function) => function.call(alloc, args),
            StandardFunction::Texts(function) => function.call(alloc, args),
            StandardFunction::Lists(function) => function.call(alloc, args),
        }
    }
}

impl StandardFunction {
    ghost use Rattle.upon_std.specs.Basic.Table.{basic_name};

    /// Returns the name under which templates call the function.
    pub fn name(self) -> &'static str
        ensures { result.now ≡ basic_name self }
    {
        match self {
            StandardFunction::Comparing(function) => comparing_name(function),
            StandardFunction::Integers(function) => integers_name(function),
            StandardFunction::Texts(function) => texts_name(function),
            StandardFunction::Lists(function) => lists_name(function),
        }
    }
}

fn comparing_name(function: Comparing) -> &'static str
    ensures { result.now ≡ comparing_name function }
{
    match function {
        Comparing::Equal => "eq",
        Comparing::NotEqual => "ne",
        Comparing::Ordered(Relation::Less) => "lt",
        Comparing::Ordered(Relation::LessOrEqual) => "le",
        Comparing::Ordered(Relation::Greater) => "gt",
        Comparing::Ordered(Relation::GreaterOrEqual) => "ge",
        Comparing::Not => "not",
        Comparing::And => "and",
        Comparing::Or => "or",
        Comparing::Default => "default",
        Comparing::Choose => "choose",
    }
}

fn integers_name(function: Integers) -> &'static str
    ensures { result.now ≡ integers_name function }
{
    match function {
        Integers::OfTwo(Operation::Add) => "add",
        Integers::OfTwo(Operation::Subtract) => "sub",
        Integers::OfTwo(Operation::Multiply) => "mul",
        Integers::OfTwo(Operation::Divide) => "div",
        Integers::OfTwo(Operation::Remainder) => "rem",
        Integers::OfTwo(Operation::Minimum) => "min",
        Integers::OfTwo(Operation::Maximum) => "max",
        Integers::OfOne(Sign::Negate) => "neg",
        Integers::OfOne(Sign::Absolute) => "abs",
        Integers::Decimal => "decimal",
    }
}

fn texts_name(function: Texts) -> &'static str
    ensures { result.now ≡ texts_name function }
{
    match function {
        Texts::Trim => "trim",
        Texts::Lower => "lower",
        Texts::Upper => "upper",
        Texts::StartsWith => "starts_with",
        Texts::EndsWith => "ends_with",
        Texts::Contains => "contains",
        Texts::Repeat => "repeat",
    }
}

fn lists_name(function: Lists) -> &'static str
    ensures { result.now ≡ lists_name function }
{
    match function {
        Lists::Length => "length",
        Lists::First => "first",
        Lists::Last => "last",
        Lists::Reverse => "reverse",
        Lists::Join => "join",
        Lists::Keys => "keys",
        Lists::Values => "values",
        Lists::Get => "get",
    }
}

/// Each function of this crate, once.
pub const ALL: [StandardFunction; 36] = [
    StandardFunction::Comparing(Comparing::Equal),
    StandardFunction::Comparing(Comparing::NotEqual),
    StandardFunction::Comparing(Comparing::Ordered(Relation::Less)),
    StandardFunction::Comparing(Comparing::Ordered(Relation::LessOrEqual)),
    StandardFunction::Comparing(Comparing::Ordered(Relation::Greater)),
    StandardFunction::Comparing(Comparing::Ordered(Relation::GreaterOrEqual)),
    StandardFunction::Comparing(Comparing::Not),
    StandardFunction::Comparing(Comparing::And),
    StandardFunction::Comparing(Comparing::Or),
    StandardFunction::Comparing(Comparing::Default),
    StandardFunction::Comparing(Comparing::Choose),
    StandardFunction::Integers(Integers::OfTwo(Operation::Add)),
    StandardFunction::Integers(Integers::OfTwo(Operation::Subtract)),
    StandardFunction::Integers(Integers::OfTwo(Operation::Multiply)),
    StandardFunction::Integers(Integers::OfTwo(Operation::Divide)),
    StandardFunction::Integers(Integers::OfTwo(Operation::Remainder)),
    StandardFunction::Integers(Integers::OfTwo(Operation::Minimum)),
    StandardFunction::Integers(Integers::OfTwo(Operation::Maximum)),
    StandardFunction::Integers(Integers::OfOne(Sign::Negate)),
    StandardFunction::Integers(Integers::OfOne(Sign::Absolute)),
    StandardFunction::Integers(Integers::Decimal),
    StandardFunction::Texts(Texts::Trim),
    StandardFunction::Texts(Texts::Lower),
    StandardFunction::Texts(Texts::Upper),
    StandardFunction::Texts(Texts::StartsWith),
    StandardFunction::Texts(Texts::EndsWith),
    StandardFunction::Texts(Texts::Contains),
    StandardFunction::Texts(Texts::Repeat),
    StandardFunction::Lists(Lists::Length),
    StandardFunction::Lists(Lists::First),
    StandardFunction::Lists(Lists::Last),
    StandardFunction::Lists(Lists::Reverse),
    StandardFunction::Lists(Lists::Join),
    StandardFunction::Lists(Lists::Keys),
    StandardFunction::Lists(Lists::Values),
    StandardFunction::Lists(Lists::Get),
];
