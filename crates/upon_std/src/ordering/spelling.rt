// Spells values as lists of numbers, by which a set or a map can tell whether they are the same. A value is spelled
// part by part, without a call a level.
ghost use Rattle.std.specs.Prelude.{◌≡◌, ◌++◌, IfOk, OnOk};
ghost use Rattle.upon_types.specs.View.{view};
ghost use Rattle.upon_types.specs.Walked.{part_of};
ghost use Rattle.upon_std.specs.Ordering.PartSpelling.{leaf_spelling, part_spelling};
ghost use Rattle.upon_std.specs.Ordering.Spelling.{spelling, integer_spelling, text_spelling};

use std::alloc::{AllocError, Global};
use upon_types::value::Value;
use upon_types::value::walk::{Part, Walk};

// The spelling of a value. Two values are the same if and only if their spellings are.
pub(crate) fn spelling(alloc: Global, value: &Value) -> Result<Vec<u64>, AllocError>
    ensures { IfOk result (λ numbers. numbers.items ≡ spelling (view value.now)) }
{
    let mut numbers = Vec::new(alloc);
    let mut walk = Walk::over(alloc, value);
    while let Some(part) = walk.next_part()? {
        spell_part(part, &mut numbers)?;
    }
    Ok(numbers)
}

// Appends the spelling of a part.
fn spell_part(part: Part<'_>, numbers: &mut Vec<u64>) -> Result<(), AllocError>
    ensures { OnOk result (numbers.new.items ≡ numbers.old.items ++ part_spelling (part_of part.entry)) }
{
    match part {
        Part::Leaf(value) => spell_leaf(value, numbers)?,
        Part::ListBegins => numbers.push(4)?,
        Part::MapBegins => numbers.push(5)?,
        Part::ItemBegins(_) => numbers.push(1)?,
        Part::EntryBegins(key, _) => {
            numbers.push(1)?;
            spell_text(key, numbers)?;
        }
        Part::ListEnds | Part::MapEnds => numbers.push(0)?,
    }
    Ok(())
}

// Appends the spelling of a value in which there is no other. It appends nothing for a list or a map.
fn spell_leaf(value: &Value, numbers: &mut Vec<u64>) -> Result<(), AllocError>
    ensures { OnOk result (numbers.new.items ≡ numbers.old.items ++ leaf_spelling (view value.now)) }
{
    match value {
        Value::None => numbers.push(0)?,
        Value::Bool(truth) => {
            numbers.push(1)?;
            numbers.push(u64::from(*truth))?;
        }
        Value::Integer(number) => {
            numbers.push(2)?;
            spell_integer(*number, numbers)?;
        }
        Value::String(text) => {
            numbers.push(3)?;
            spell_text(text, numbers)?;
        }
        Value::List(_) | Value::Map(_) => {}
    }
    Ok(())
}

fn spell_integer(number: i64, numbers: &mut Vec<u64>) -> Result<(), AllocError>
    ensures { OnOk result (numbers.new.items ≡ numbers.old.items ++ integer_spelling number) }
{
    let size = number.unsigned_abs();
    if number < 0 {
        numbers.push(1)?;
        numbers.push(size - 1)?;
    } else {
        numbers.push(0)?;
        numbers.push(size)?;
    }
    Ok(())
}

fn spell_text(text: &str, numbers: &mut Vec<u64>) -> Result<(), AllocError>
    ensures { OnOk result (numbers.new.items ≡ numbers.old.items ++ text_spelling text.now) }
{
    for byte in text.as_bytes() {
        numbers.push(u64::from(*byte) + 1)?;
    }
    numbers.push(0)?;
    Ok(())
}
