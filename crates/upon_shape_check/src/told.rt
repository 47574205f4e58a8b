// A shape in a few words: `text`, `integer or none`, `a list of text`, `a map with name, price`.
use std::alloc::{AllocError, Global};
use upon_shape::shape::{Keys, Plain, Shape};

// How many letters the words of a map have at most, but for the last key.
const LETTERS: usize = 60;

/// Returns a shape in a few words. Of a map with many keys the first are named, and a `?` is behind a key that may be
/// missing. It fails if there is no memory.
pub fn told(alloc: Global, shape: &Shape) -> Result<String, AllocError> {
    let Shape::OneOf { plain, items, keys } = shape else {
        return String::from_str(alloc, "any value");
    };
    let mut kinds = plain_kinds(alloc, plain, ["text", "integer", "a truth value"])?;
    if let Some(items) = items {
        kinds.push(list_told(alloc, items)?)?;
    }
    if let Some(keys) = keys {
        kinds.push(map_told(
            alloc,
            keys,
            if is_empty(keys) {
                "an empty map"
            } else {
                "a map"
            },
        )?)?;
    }
    joined(alloc, plain.none, kinds)
}

/// Returns shapes in a few words each, with commas between them. It fails if there is no memory.
pub fn all_told(alloc: Global, shapes: &[Shape]) -> Result<String, AllocError> {
    let mut text = String::new(alloc);
    for shape in shapes {
        if !text.is_empty() {
            text.push_str(", ")?;
        }
        text.push_str(told(alloc, shape)?.as_str())?;
    }
    Ok(text)
}

// The kinds of values without parts, by these words for texts, integers and truth values.
fn plain_kinds(alloc: Global, plain: &Plain, words: [&str; 3]) -> Result<Vec<String>, AllocError> {
    let mut kinds = Vec::new(alloc);
    let [text, integer, truth] = words;
    if plain.text {
        kinds.push(String::from_str(alloc, text)?)?;
    }
    if plain.integer {
        kinds.push(String::from_str(alloc, integer)?)?;
    }
    if plain.truth {
        kinds.push(String::from_str(alloc, truth)?)?;
    }
    Ok(kinds)
}

// A list of items of a shape.
fn list_told(alloc: Global, items: &Shape) -> Result<String, AllocError> {
    let Shape::OneOf { plain, items, keys } = items else {
        return String::from_str(alloc, "a list");
    };
    let mut kinds = plain_kinds(alloc, plain, ["text", "integers", "truth values"])?;
    if items.is_some() {
        kinds.push(String::from_str(alloc, "lists")?)?;
    }
    if let Some(keys) = keys {
        kinds.push(map_told(
            alloc,
            keys,
            if is_empty(keys) { "empty maps" } else { "maps" },
        )?)?;
    }
    if kinds.is_empty() && !plain.none {
        return String::from_str(alloc, "an empty list");
    }
    let mut text = String::from_str(alloc, "a list of ")?;
    text.push_str(joined(alloc, plain.none, kinds)?.as_str())?;
    Ok(text)
}

// A map, by this word, with its keys.
fn map_told(alloc: Global, keys: &Keys<Shape>, word: &str) -> Result<String, AllocError> {
    let mut text = String::from_str(alloc, word)?;
    let mut before = " with ";
    for key in &keys.named {
        text.push_str(before)?;
        before = ", ";
        if letters(text.as_str()).saturating_add(letters(key.name.as_str())) > LETTERS {
            text.push_str("..")?;
            return Ok(text);
        }
        text.push_str(key.name.as_str())?;
        text.push_str(if key.required { "" } else { "?" })?;
    }
    if !keys.named.is_empty() && !is_never(&keys.others) {
        text.push_str(", ..")?;
    }
    Ok(text)
}

// How many letters a text has.
fn letters(text: &str) -> usize {
    text.chars().count()
}

// Whether a map of these keys has none.
fn is_empty(keys: &Keys<Shape>) -> bool {
    keys.named.is_empty() && is_never(&keys.others)
}

// Whether no value has a shape.
fn is_never(shape: &Shape) -> bool {
    match shape {
        Shape::Any => false,
        Shape::OneOf { plain, items, keys } => {
            !plain.is_any() && items.is_none() && keys.is_none()
        }
    }
}

// Kinds of values, and none if that is one: with commas between them, and `or` before the last.
fn joined(alloc: Global, has_none: bool, kinds: Vec<String>) -> Result<String, AllocError> {
    let mut kinds = kinds;
    if has_none {
        kinds.push(String::from_str(alloc, "none")?)?;
    }
    let Some((last, before)) = kinds.as_slice().split_last() else {
        return String::from_str(alloc, "no value");
    };
    let mut text = String::new(alloc);
    for kind in before {
        if !text.is_empty() {
            text.push_str(", ")?;
        }
        text.push_str(kind.as_str())?;
    }
    if !before.is_empty() {
        text.push_str(" or ")?;
    }
    text.push_str(last.as_str())?;
    Ok(text)
}
