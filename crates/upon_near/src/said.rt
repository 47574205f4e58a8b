// What is said of the names that there are: "there is `a`", "there are `a` and `b`", or a list.
ghost use Rattle.std.specs.Prelude.{◌≡◌, IfOk, option_map, string_bytes};
ghost use Rattle.upon_near.specs.Nearest.{nearest};
ghost use Rattle.upon_near.specs.Said.{names_list_text, names_text, two_text};

use crate::nearest::nearest;
use std::alloc::{AllocError, Global};

/// Returns what is said of the names that are near to one that is not there. It is `None` if no name is near. It fails
/// if there is no memory.
pub fn near_text(alloc: Global, name: &str, names: &[&str]) -> Result<Option<String>, AllocError>
    ensures { IfOk result (λ text. option_map string_bytes text ≡ names_text (nearest name.now names.now)) }
{
    let near = nearest(alloc, name, names)?;
    names_text(alloc, near.as_slice())
}

/// Returns what is said of the names that there are. Of more than eight, only the first are named. It is `None` if
/// there are no names. It fails if there is no memory.
pub fn names_text(alloc: Global, names: &[&str]) -> Result<Option<String>, AllocError>
    ensures { IfOk result (λ text. option_map string_bytes text ≡ names_text names.now) }
{
    match names {
        [] => Ok(None),
        [name] => Ok(Some(format!(in alloc; "there is `{name}`")?)),
        [first, second] => Ok(Some(two_text(alloc, first, second)?)),
        _ => Ok(Some(list_text(alloc, names)?)),
    }
}

// What is said of two names.
fn two_text(alloc: Global, first: &str, second: &str) -> Result<String, AllocError>
    ensures { IfOk result (λ text. string_bytes text ≡ two_text first.now second.now) }
{
    format!(in alloc; "there are `{first}` and `{second}`")
}

// How many names are listed.
const LISTED: usize = 8;

// What lists names, or the first of them.
fn list_text(alloc: Global, names: &[&str]) -> Result<String, AllocError>
    ensures { IfOk result (λ text. string_bytes text ≡ names_list_text names.now) }
{
    let mut text = String::from_str(alloc, "there are: ")?;
    match names.get(..LISTED) {
        Some(first) if names.len() > LISTED => {
            text.push_str(first.join(alloc, ", ")?.as_str())?;
            text.push_str(", ..")?;
        }
        _ => text.push_str(names.join(alloc, ", ")?.as_str())?,
    }
    Ok(text)
}
