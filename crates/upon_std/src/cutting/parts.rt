// The functions of this crate, each with the name under which templates call it.
ghost use Rattle.std.specs.Prelude.{◌≡◌};
ghost use Rattle.upon_functions.specs.Says.{Says, arguments_view};
ghost use Rattle.upon_functions.specs.Blames.{BlamesGiven};
ghost use Rattle.upon_std.specs.Cutting.Parts.{slice_answer, where_answer, replace_answer};

use crate::cutting::{lists, numbers, texts};
use std::alloc::{AllocError, Global};
use upon_functions::arguments::{OwnedArgument, lent};
use upon_functions::function::{CallError, Function};
use upon_functions::{
    Call1L, Call1S, Call2, Call2LS, Call2SO, Call2SS, Fn1L, Fn1S, Fn2, Fn2LS, Fn2SO, Fn2SS,
};
use upon_types::value::{Value, ValueCow};

/// A function that takes a list or a text apart, or puts it together. [`ALL`] has each of them.
#[derive(Clone, Copy)]
pub enum Parts {
    /// `range(a, b)` returns the integers from `a` up to but not `b`, and none if `b` is not above `a`. It refuses to
    /// make more than 1000000 items.
    Range,
    /// `slice(a, from, to)` returns the items of a list from the index `from` up to but not `to`, both cut to the
    /// length.
    Slice,
    /// `concat(a, b)` returns the items of one list, then of another.
    Concat,
    /// `pluck(a, key)` returns of each item of a list what is at the key, and none where nothing is.
    Pluck,
    /// `where(a, key, b)` returns the items of a list that have the value `b` at the key. An item with nothing there
    /// has none.
    Where,
    /// `sum(a)` returns the sum of a list of integers. It refuses a sum that 64 bits do not hold, and a list with
    /// another value, with a message that names its kind.
    Sum,
    /// `split(a, separator)` returns the texts that stand between the separators in a text. It refuses an empty
    /// separator.
    Split,
    /// `lines(a)` returns the lines of a text, without what ends them.
    Lines,
    /// `replace(a, from, to)` returns a text with `to` in place of each `from` in it. It refuses an empty `from`, and
    /// to make more than 1000000 bytes.
    Replace,
    /// `indent(a, width)` returns a text with so many blanks before each line, but the first and those that are empty.
    /// It refuses to make more than 1000000 bytes.
    Indent,
}

/// Each function of this crate, once.
pub const ALL: [Parts; 10] = [
    Parts::Range,
    Parts::Slice,
    Parts::Concat,
    Parts::Pluck,
    Parts::Where,
    Parts::Sum,
    Parts::Split,
    Parts::Lines,
    Parts::Replace,
    Parts::Indent,
];

impl Parts {
    ghost use Rattle.upon_std.specs.Cutting.Parts.{parts_name};

    /// Returns the name under which templates call the function.
    pub fn name(self) -> &'static str
        ensures { result.now ≡ parts_name self }
    {
        match self {
            Parts::Range => "range",
            Parts::Slice => "slice",
            Parts::Concat => "concat",
            Parts::Pluck => "pluck",
            Parts::Where => "where",
            Parts::Sum => "sum",
            Parts::Split => "split",
            Parts::Lines => "lines",
            Parts::Replace => "replace",
            Parts::Indent => "indent",
        }
    }
}

impl Function for Parts {
    ghost use Rattle.upon_std.specs.Cutting.Parts.{parts_answer};

    ghost answers = { parts_answer };

    fn call(&self, alloc: Global, args: &[ValueCow]) -> Result<Value, CallError> {
        match *self {
            Parts::Range => {
                Fn2::<Range, i64, i64, Result<Result<Vec<Value>, &'static str>, AllocError>>::new(
                    Range,
                ).call(alloc, args)
            }
            Parts::Slice => slice(alloc, args),
            Parts::Concat => {
                Fn2::<Concat, Vec<Value>, Vec<Value>, Result<Vec<Value>, AllocError>>::new(
                    Concat,
                ).call(alloc, args)
            }
            Parts::Pluck => {
                Fn2LS::<Pluck, Result<Vec<Value>, AllocError>>::new(Pluck).call(alloc, args)
            }
            Parts::Where => items_with(alloc, args),
            Parts::Sum => {
                Fn1L::<Sum, Result<Result<i64, String>, AllocError>>::new(Sum).call(alloc, args)
            }
            Parts::Split => {
                Fn2SS::<Split, Result<Result<Vec<Value>, &'static str>, AllocError>>::new(
                    Split,
                ).call(alloc, args)
            }
            Parts::Lines => {
                Fn1S::<Lines, Result<Vec<Value>, AllocError>>::new(Lines).call(alloc, args)
            }
            Parts::Replace => replace(alloc, args),
            Parts::Indent => {
                Fn2SO::<Indent, usize, Result<Result<String, &'static str>, AllocError>>::new(
                    Indent,
                ).call(alloc, args)
            }
        }
    }
}

// The integers from one up to but not another.
#[derive(Drop)]
struct Range;

impl Call2<i64, i64, Result<Result<Vec<Value>, &'static str>, AllocError>> for Range {
    ghost use Rattle.upon_std.specs.Cutting.Outcomes.{range_outcome};

    ghost meaning = { λ _. range_outcome };

    fn call(
        &self,
        alloc: Global,
        first: i64,
        second: i64,
    ) -> Result<Result<Vec<Value>, &'static str>, AllocError> {
        if numbers::is_long_range(first, second) {
            return Ok(Err("range has more than 1000000 items"));
        }
        Ok(Ok(numbers::integers(alloc, first, second)?))
    }
}

// The items of a list from an index up to but not another. No adapter lends a list beside two integers, and to own it
// would copy all of it.
fn slice(alloc: Global, args: &[ValueCow]) -> Result<Value, CallError>
    ensures says { Says result (slice_answer (arguments_view args.now)) }
    ensures blames_given { BlamesGiven (arguments_view args.now) (slice_answer (arguments_view args.now)) }
{
    let [items, from, to] = args else {
        return Err(CallError::Arity(3));
    };
    let items = lent::list(0, items)?;
    let from = usize::from_value(alloc, 1, from)?;
    let to = usize::from_value(alloc, 2, to)?;
    Ok(Value::List(lists::sliced(alloc, items, from, to)?))
}

// The items of one list, then of another.
#[derive(Drop)]
struct Concat;

impl Call2<Vec<Value>, Vec<Value>, Result<Vec<Value>, AllocError>> for Concat {
    ghost use Rattle.upon_std.specs.Cutting.Outcomes.{concat_outcome};

    ghost meaning = { λ _. concat_outcome };

    fn call(
        &self,
        _alloc: Global,
        first: Vec<Value>,
        second: Vec<Value>,
    ) -> Result<Vec<Value>, AllocError> {
        lists::concatenated(first, second)
    }
}

// Of each item of a list what is at a key.
#[derive(Drop)]
struct Pluck;

impl Call2LS<Result<Vec<Value>, AllocError>> for Pluck {
    ghost use Rattle.upon_std.specs.Cutting.Outcomes.{pluck_outcome};

    ghost meaning = { λ _. pluck_outcome };

    fn call(&self, alloc: Global, first: &[Value], second: &str) -> Result<Vec<Value>, AllocError> {
        lists::plucked(alloc, first, second)
    }
}

// The items of a list that have a value at a key. No adapter lends three values.
fn items_with(alloc: Global, args: &[ValueCow]) -> Result<Value, CallError>
    ensures says { Says result (where_answer (arguments_view args.now)) }
    ensures blames_given { BlamesGiven (arguments_view args.now) (where_answer (arguments_view args.now)) }
{
    let [items, key, wanted] = args else {
        return Err(CallError::Arity(3));
    };
    let items = lent::list(0, items)?;
    let key = lent::text(1, key)?;
    Ok(Value::List(lists::having(alloc, items, key, wanted)?))
}

// The sum of a list of integers.
#[derive(Drop)]
struct Sum;

impl Call1L<Result<Result<i64, String>, AllocError>> for Sum {
    ghost use Rattle.upon_std.specs.Cutting.Outcomes.{sum_outcome};

    ghost meaning = { λ _. sum_outcome };

    fn call(&self, alloc: Global, first: &[Value]) -> Result<Result<i64, String>, AllocError> {
        numbers::sum(alloc, first)
    }
}

// The texts between the separators of a text.
#[derive(Drop)]
struct Split;

impl Call2SS<Result<Result<Vec<Value>, &'static str>, AllocError>> for Split {
    ghost use Rattle.upon_std.specs.Cutting.Outcomes.{split_outcome};

    ghost meaning = { λ _. split_outcome };

    fn call(
        &self,
        alloc: Global,
        first: &str,
        second: &str,
    ) -> Result<Result<Vec<Value>, &'static str>, AllocError> {
        if second.is_empty() {
            return Ok(Err("split needs a separator"));
        }
        Ok(Ok(texts::split(alloc, first, second)?))
    }
}

// The lines of a text.
#[derive(Drop)]
struct Lines;

impl Call1S<Result<Vec<Value>, AllocError>> for Lines {
    ghost use Rattle.upon_std.specs.Cutting.Outcomes.{lines_outcome};

    ghost meaning = { λ _. lines_outcome };

    fn call(&self, alloc: Global, first: &str) -> Result<Vec<Value>, AllocError> {
        texts::lines(alloc, first)
    }
}

// A text with another in place of each that is found. No adapter lends three values.
fn replace(alloc: Global, args: &[ValueCow]) -> Result<Value, CallError>
    ensures says { Says result (replace_answer (arguments_view args.now)) }
    ensures blames_given { BlamesGiven (arguments_view args.now) (replace_answer (arguments_view args.now)) }
{
    let [text, from, to] = args else {
        return Err(CallError::Arity(3));
    };
    let text = lent::text(0, text)?;
    let from = lent::text(1, from)?;
    let to = lent::text(2, to)?;
    if from.is_empty() {
        return Err(CallError::Fault(String::from_str(alloc, "replace needs a text to replace")?));
    }
    match texts::replaced(alloc, text, from, to)? {
        Some(made) => Ok(Value::String(made)),
        None => Err(CallError::Fault(String::from_str(
            alloc,
            "replace makes more than 1000000 bytes",
        )?)),
    }
}

// A text with blanks before its lines.
#[derive(Drop)]
struct Indent;

impl Call2SO<usize, Result<Result<String, &'static str>, AllocError>> for Indent {
    ghost use Rattle.upon_std.specs.Cutting.Outcomes.{indent_outcome};

    ghost meaning = { λ _. indent_outcome };

    fn call(
        &self,
        alloc: Global,
        first: &str,
        second: usize,
    ) -> Result<Result<String, &'static str>, AllocError> {
        match texts::indented(alloc, first, second)? {
            Some(made) => Ok(Ok(made)),
            None => Ok(Err("indent makes more than 1000000 bytes")),
        }
    }
}
