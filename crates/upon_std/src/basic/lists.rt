// Functions of lists and maps.
ghost use Rattle.std.specs.Prelude.{◌≡◌, ◌++◌, IfOk, codes, length, string_bytes};
ghost use Rattle.std.specs.Str.{chars};
ghost use Rattle.upon_functions.specs.Says.{Says, arguments_view};
ghost use Rattle.upon_functions.specs.Blames.{BlamesGiven};
ghost use Rattle.upon_types.specs.Val.{kind_word, list_val};
ghost use Rattle.upon_types.specs.View.{view, vals_view, entries_view};
ghost use Rattle.upon_std.specs.Basic.Items.{count_of, first_val, last_val, reversed, key_vals, value_vals, get_answer};

use crate::basic::copies::copy_at;
use crate::basic::joined::joined;
use std::alloc::{AllocError, Global};
use std::collections::BTreeMap;
use upon_functions::arguments::lent;
use upon_functions::function::{CallError, Function};
use upon_functions::{Call1, Call1L, Call1M, Call1V, Call2LS, Fn1, Fn1L, Fn1M, Fn1V, Fn2LS};
use upon_types::value::{Value, ValueCow};

/// A function of lists and maps.
#[derive(Clone, Copy)]
pub enum Lists {
    /// `length(a)` returns how many code points a text has, items a list or entries a map. It refuses other values,
    /// with a message that names the kind.
    Length,
    /// `first(a)` returns the first item of a list, or none.
    First,
    /// `last(a)` returns the last item of a list, or none.
    Last,
    /// `reverse(a)` returns a list from its last item to its first.
    Reverse,
    /// `join(a, separator)` returns the texts of a list with a separator between them. It refuses a list with another
    /// value, with a message that names its kind.
    Join,
    /// `keys(a)` returns the keys of a map, in their order.
    Keys,
    /// `values(a)` returns the values of a map, in the order of their keys.
    Values,
    /// `get(a, key, b)` returns what is at the key of a map, or the third value where nothing is.
    Get,
}

impl Function for Lists {
    ghost use Rattle.upon_std.specs.Basic.Lists.{lists_answer};

    ghost answers = { lists_answer };

    fn call(&self, alloc: Global, args: &[ValueCow]) -> Result<Value, CallError> {
        match *self {
            Lists::Length => {
                Fn1V::<Length, Result<Result<i64, String>, AllocError>>::new(Length).call(
                    alloc, args,
                )
            }
            Lists::First => Fn1L::<First, Result<Value, AllocError>>::new(First).call(alloc, args),
            Lists::Last => Fn1L::<Last, Result<Value, AllocError>>::new(Last).call(alloc, args),
            Lists::Reverse => Fn1::<Reverse, Vec<Value>, Vec<Value>>::new(Reverse).call(
                alloc, args,
            ),
            Lists::Join => {
                Fn2LS::<Join, Result<Result<String, String>, AllocError>>::new(Join).call(
                    alloc, args,
                )
            }
            Lists::Keys => {
                Fn1M::<Keys, Result<Vec<Value>, AllocError>>::new(Keys).call(alloc, args)
            }
            Lists::Values => {
                Fn1M::<Values, Result<Vec<Value>, AllocError>>::new(Values).call(alloc, args)
            }
            Lists::Get => get(args),
        }
    }
}

// How many code points, items or entries a value has.
#[derive(Drop)]
struct Length;

impl Call1V<Result<Result<i64, String>, AllocError>> for Length {
    ghost use Rattle.upon_std.specs.Basic.Items.{length_outcome};

    ghost meaning = { λ _. length_outcome };

    fn call(&self, alloc: Global, first: &Value) -> Result<Result<i64, String>, AllocError> {
        let Some(count) = count(first) else {
            return Ok(Err(no_length(alloc, first)?));
        };
        match i64::try_from(count) {
            Ok(length) => Ok(Ok(length)),
            Err(_) => Ok(Err(String::from_str(alloc, "integer overflow")?)),
        }
    }
}

fn count(value: &Value) -> Option<usize>
    ensures { result ≡ count_of (view value.now) }
{
    match value {
        Value::String(text) => Some(code_points(text)),
        Value::List(items) => Some(items.len()),
        Value::Map(entries) => Some(entries.len()),
        _ => None,
    }
}

fn code_points(text: &str) -> usize
    ensures { result ≡ length (chars text.now) }
{
    text.chars().count()
}

// The refusal to count a value.
fn no_length(alloc: Global, value: &Value) -> Result<String, AllocError>
    ensures { IfOk result (λ text. string_bytes text ≡ kind_word (view value.now) ++ codes " has no length") }
{
    let mut text = String::from_str(alloc, value.human())?;
    text.push_str(" has no length")?;
    Ok(text)
}

// The first item of a list.
#[derive(Drop)]
struct First;

impl Call1L<Result<Value, AllocError>> for First {
    ghost use Rattle.upon_std.specs.Basic.Items.{list_outcome};

    ghost meaning = { λ _. list_outcome first_val };

    fn call(&self, _alloc: Global, first: &[Value]) -> Result<Value, AllocError> {
        first_item(first)
    }
}

fn first_item(items: &[Value]) -> Result<Value, AllocError>
    ensures { IfOk result (λ v. view v ≡ first_val (vals_view items.now)) }
{
    match items.first() {
        Some(item) => item.try_clone(),
        None => Ok(Value::None),
    }
}

// The last item of a list.
#[derive(Drop)]
struct Last;

impl Call1L<Result<Value, AllocError>> for Last {
    ghost use Rattle.upon_std.specs.Basic.Items.{list_outcome};

    ghost meaning = { λ _. list_outcome last_val };

    fn call(&self, _alloc: Global, first: &[Value]) -> Result<Value, AllocError> {
        last_item(first)
    }
}

fn last_item(items: &[Value]) -> Result<Value, AllocError>
    ensures { IfOk result (λ v. view v ≡ last_val (vals_view items.now)) }
{
    match items.last() {
        Some(item) => item.try_clone(),
        None => Ok(Value::None),
    }
}

// The items of a list from the last to the first.
#[derive(Drop)]
struct Reverse;

impl Call1<Vec<Value>, Vec<Value>> for Reverse {
    ghost use Rattle.upon_std.specs.Basic.Items.{list_outcome};

    ghost meaning = { λ _. list_outcome (λ vs. list_val (reversed vs)) };

    fn call(&self, _alloc: Global, first: Vec<Value>) -> Vec<Value> {
        backwards(first)
    }
}

fn backwards(mut items: Vec<Value>) -> Vec<Value>
    ensures { vals_view result.items ≡ reversed (vals_view items.items) }
{
    items.reverse();
    items
}

// The texts of a list, joined.
#[derive(Drop)]
struct Join;

impl Call2LS<Result<Result<String, String>, AllocError>> for Join {
    ghost use Rattle.upon_std.specs.Basic.Joined.{join_outcome};

    ghost meaning = { λ _. join_outcome };

    fn call(
        &self,
        alloc: Global,
        first: &[Value],
        second: &str,
    ) -> Result<Result<String, String>, AllocError> {
        joined(alloc, first, second)
    }
}

// The keys of a map.
#[derive(Drop)]
struct Keys;

impl Call1M<Result<Vec<Value>, AllocError>> for Keys {
    ghost use Rattle.upon_std.specs.Basic.Items.{map_outcome};

    ghost meaning = { λ _. map_outcome (λ es. list_val (key_vals es)) };

    fn call(
        &self,
        alloc: Global,
        first: &BTreeMap<String, Value>,
    ) -> Result<Vec<Value>, AllocError> {
        keys_of(alloc, first)
    }
}

fn keys_of(alloc: Global, entries: &BTreeMap<String, Value>) -> Result<Vec<Value>, AllocError>
    ensures { IfOk result (λ keys. vals_view keys.items ≡ key_vals (entries_view entries.now.entries)) }
{
    let mut keys = Vec::new(alloc);
    for (key, _) in entries.iter() {
        keys.push(Value::from_text(alloc, key)?)?;
    }
    Ok(keys)
}

// The values of a map.
#[derive(Drop)]
struct Values;

impl Call1M<Result<Vec<Value>, AllocError>> for Values {
    ghost use Rattle.upon_std.specs.Basic.Items.{map_outcome};

    ghost meaning = { λ _. map_outcome (λ es. list_val (value_vals es)) };

    fn call(
        &self,
        alloc: Global,
        first: &BTreeMap<String, Value>,
    ) -> Result<Vec<Value>, AllocError> {
        values_of(alloc, first)
    }
}

fn values_of(alloc: Global, entries: &BTreeMap<String, Value>) -> Result<Vec<Value>, AllocError>
    ensures { IfOk result (λ values. vals_view values.items ≡ value_vals (entries_view entries.now.entries)) }
{
    let mut values = Vec::new(alloc);
    for (_, value) in entries.iter() {
        values.push(value.try_clone()?)?;
    }
    Ok(values)
}

// What is at a key, or another value. No adapter lends three values, and to own them would copy the whole map.
fn get(args: &[ValueCow]) -> Result<Value, CallError>
    ensures says { Says result (get_answer (arguments_view args.now)) }
    ensures blames_given { BlamesGiven (arguments_view args.now) (get_answer (arguments_view args.now)) }
{
    let [entries, key, otherwise] = args else {
        return Err(CallError::Arity(3));
    };
    lent::map(0, entries)?;
    let key = lent::text(1, key)?;
    Ok(copy_at(entries, key, otherwise)?)
}
