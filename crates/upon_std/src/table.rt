// All standard functions under one type, each with the name under which templates call it.
ghost use Rattle.std.specs.Prelude.{◌≡◌};

use crate::basic::comparing::{Comparing, Relation};
use crate::basic::integers::{Integers, Operation, Sign};
use crate::basic::lists::Lists;
use crate::basic::table::StandardFunction as Basic;
use crate::basic::texts::Texts;
use crate::cutting::parts::Parts;
use crate::encoding::writing::Writing;
use crate::ordering::orders::Orders;
use std::alloc::Global;
use upon_functions::function::{CallError, Function};
use upon_types::value::{Value, ValueCow};

/// A standard function. [`ALL`] has each of them.
#[derive(Clone, Copy)]
pub enum StandardFunction {
    /// It compares values, computes with integers, or makes or reads a text, a list or a map.
    Basic(Basic),
    /// It sorts or groups a list.
    Orders(Orders),
    /// It takes texts and lists apart, or puts them together.
    Parts(Parts),
    /// It writes a value for another language, or a text to a width.
    Writing(Writing),
}

impl Function for StandardFunction {
    ghost use Rattle.upon_std.specs.Table.{standard_answer};

    ghost answers = { standard_answer };

    fn call(&self, alloc: Global, args: &[ValueCow]) -> Result<Value, CallError> {
        match self {
            StandardFunction::Basic(function) => function.call(alloc, args),
            StandardFunction::Orders(function) => function.call(alloc, args),
            StandardFunction::Parts(function) => function.call(alloc, args),
            StandardFunction::Writing(function) => function.call(alloc, args),
        }
    }
}

impl StandardFunction {
    ghost use Rattle.upon_std.specs.Table.{standard_name};

    /// Returns the name under which templates call the function.
    pub fn name(self) -> &'static str
        ensures { result.now ≡ standard_name self }
    {
        match self {
            StandardFunction::Basic(function) => function.name(),
            StandardFunction::Orders(function) => function.name(),
            StandardFunction::Parts(function) => function.name(),
            StandardFunction::Writing(function) => function.name(),
        }
    }
}

/// Each standard function, once.
pub const ALL: [StandardFunction; 59] = [
    StandardFunction::Basic(Basic::Comparing(Comparing::Equal)),
    StandardFunction::Basic(Basic::Comparing(Comparing::NotEqual)),
    StandardFunction::Basic(Basic::Comparing(Comparing::Ordered(Relation::Less))),
    StandardFunction::Basic(Basic::Comparing(Comparing::Ordered(Relation::LessOrEqual))),
    StandardFunction::Basic(Basic::Comparing(Comparing::Ordered(Relation::Greater))),
    StandardFunction::Basic(Basic::Comparing(Comparing::Ordered(Relation::GreaterOrEqual))),
    StandardFunction::Basic(Basic::Comparing(Comparing::Not)),
    StandardFunction::Basic(Basic::Comparing(Comparing::And)),
    StandardFunction::Basic(Basic::Comparing(Comparing::Or)),
    StandardFunction::Basic(Basic::Comparing(Comparing::Default)),
    StandardFunction::Basic(Basic::Comparing(Comparing::Choose)),
    StandardFunction::Basic(Basic::Integers(Integers::OfTwo(Operation::Add))),
    StandardFunction::Basic(Basic::Integers(Integers::OfTwo(Operation::Subtract))),
    StandardFunction::Basic(Basic::Integers(Integers::OfTwo(Operation::Multiply))),
    StandardFunction::Basic(Basic::Integers(Integers::OfTwo(Operation::Divide))),
    StandardFunction::Basic(Basic::Integers(Integers::OfTwo(Operation::Remainder))),
    StandardFunction::Basic(Basic::Integers(Integers::OfTwo(Operation::Minimum))),
    StandardFunction::Basic(Basic::Integers(Integers::OfTwo(Operation::Maximum))),
    StandardFunction::Basic(Basic::Integers(Integers::OfOne(Sign::Negate))),
    StandardFunction::Basic(Basic::Integers(Integers::OfOne(Sign::Absolute))),
    StandardFunction::Basic(Basic::Integers(Integers::Decimal)),
    StandardFunction::Basic(Basic::Texts(Texts::Trim)),
    StandardFunction::Basic(Basic::Texts(Texts::Lower)),
    StandardFunction::Basic(Basic::Texts(Texts::Upper)),
    StandardFunction::Basic(Basic::Texts(Texts::StartsWith)),
    StandardFunction::Basic(Basic::Texts(Texts::EndsWith)),
    StandardFunction::Basic(Basic::Texts(Texts::Contains)),
    StandardFunction::Basic(Basic::Texts(Texts::Repeat)),
    StandardFunction::Basic(Basic::Lists(Lists::Length)),
    StandardFunction::Basic(Basic::Lists(Lists::First)),
    StandardFunction::Basic(Basic::Lists(Lists::Last)),
    StandardFunction::Basic(Basic::Lists(Lists::Reverse)),
    StandardFunction::Basic(Basic::Lists(Lists::Join)),
    StandardFunction::Basic(Basic::Lists(Lists::Keys)),
    StandardFunction::Basic(Basic::Lists(Lists::Values)),
    StandardFunction::Basic(Basic::Lists(Lists::Get)),
    StandardFunction::Orders(Orders::Sort),
    StandardFunction::Orders(Orders::SortBy),
    StandardFunction::Orders(Orders::Unique),
    StandardFunction::Orders(Orders::GroupBy),
    StandardFunction::Parts(Parts::Range),
    StandardFunction::Parts(Parts::Slice),
    StandardFunction::Parts(Parts::Concat),
    StandardFunction::Parts(Parts::Pluck),
    StandardFunction::Parts(Parts::Where),
    StandardFunction::Parts(Parts::Sum),
    StandardFunction::Parts(Parts::Split),
    StandardFunction::Parts(Parts::Lines),
    StandardFunction::Parts(Parts::Replace),
    StandardFunction::Parts(Parts::Indent),
    StandardFunction::Writing(Writing::Json),
    StandardFunction::Writing(Writing::Shell),
    StandardFunction::Writing(Writing::Yaml),
    StandardFunction::Writing(Writing::Url),
    StandardFunction::Writing(Writing::Base64),
    StandardFunction::Writing(Writing::Truncate),
    StandardFunction::Writing(Writing::PadLeft),
    StandardFunction::Writing(Writing::PadRight),
    StandardFunction::Writing(Writing::Center),
];
