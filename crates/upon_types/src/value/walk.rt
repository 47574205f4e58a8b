// A walk over a value, part by part in order, without a call a level: the lists and maps that it is inside of are kept
// in a list of their own.
ghost use Rattle.std.specs.Prelude.{◌≡◌, ◌∷◌, ◌++◌, [], IfOk, MatchOption};
ghost use Rattle.upon_types.specs.View.{view};
ghost use Rattle.upon_types.specs.Walk.{parts_of_value};
ghost use Rattle.upon_types.specs.Walked.{part_of, parts_after, parts_in, parts_left};

use super::Value;
use std::alloc::{AllocError, Global};
use std::collections::btree_map;
use std::{mem, slice};

/// A part of a value, as a walk meets it.
#[derive(Clone, Copy)]
pub enum Part<'v> {
    /// A value in which there is no other: none, a truth value, an integer or a text.
    Leaf(&'v Value),
    /// A list begins.
    ListBegins,
    /// An item of the innermost list begins, which is its first one or not.
    ItemBegins(bool),
    /// The innermost list ends.
    ListEnds,
    /// A map begins.
    MapBegins,
    /// An entry of the innermost map begins, at this key; it is the first one or not.
    EntryBegins(&'v str, bool),
    /// The innermost map ends.
    MapEnds,
}

/// A walk over a value. It wants memory for the lists and maps that it is inside of, and for nothing else.
#[derive(Drop)]
pub struct Walk<'v> {
    // The value whose parts come next, before those of what it is inside of.
    next: Option<&'v Value>,
    // What it is inside of, the innermost last.
    inside: Vec<Inside<'v>>,
}

// A list or a map that a walk is inside of.
#[derive(Drop)]
struct Inside<'v> {
    // What is left of it.
    rest: Rest<'v>,
    // Whether its next item or entry is its first one.
    is_first: bool,
}

// The items of a list, or the entries of a map, that are left.
#[derive(Drop)]
enum Rest<'v> {
    List(slice::Iter<'v, Value>),
    Map(btree_map::Iter<'v, String, Value>),
}

impl<'v> Walk<'v> {
    /// Begins a walk over a value. This takes no memory.
    pub fn over(alloc: Global, value: &'v Value) -> Walk<'v>
        ensures { parts_left result ≡ parts_of_value (view value.now) }
    {
        Walk {
            next: Some(value),
            inside: Vec::new(alloc),
        }
    }

    /// Returns the next part, or `None` after the last one. Without memory to go into a list or a map it fails.
    pub fn next_part(&mut self) -> Result<Option<Part<'v>>, AllocError>
        ensures { IfOk result (λ part. MatchOption
            part
            (parts_left self.old ≡ [])
            (λ p. parts_left self.old ≡ part_of p ∷ parts_left self.new)) }
    {
        match self.next.take() {
            Some(value) => Ok(Some(self.begin(value)?)),
            None => Ok(self.go_on()),
        }
    }

    // Begins the value, which comes next: gives the part that it begins with, and goes into a list or a map.
    #[inline]
    fn begin(&mut self, value: &'v Value) -> Result<Part<'v>, AllocError>
        requires { self.old.next ≡ None }
        ensures { IfOk result (λ part.
            parts_of_value (view value.now) ++ parts_left self.old ≡ part_of part ∷ parts_left self.new) }
    {
        let (part, rest) = match value {
            Value::List(items) => (Part::ListBegins, Rest::List(items.iter())),
            Value::Map(entries) => (Part::MapBegins, Rest::Map(entries.iter())),
            _ => return Ok(Part::Leaf(value)),
        };
        self.inside.push(Inside {
            rest,
            is_first: true,
        })?;
        Ok(part)
    }

    // Goes on in the innermost list or map: to its next item or entry, or out of it.
    #[inline]
    fn go_on(&mut self) -> Option<Part<'v>>
        requires { self.old.next ≡ None }
        ensures { MatchOption
            result
            (parts_left self.old ≡ [])
            (λ part. parts_left self.old ≡ part_of part ∷ parts_left self.new) }
    {
        let innermost = self.inside.last_mut()?;
        let (part, value) = innermost.step();
        if value.is_none() {
            self.inside.pop();
        }
        self.next = value;
        Some(part)
    }
}

impl<'v> Inside<'v> {
    // Returns the part that comes next, and the value that follows it: the next item or entry begins, or, if there is
    // none, this ends.
    #[inline]
    fn step(&mut self) -> (Part<'v>, Option<&'v Value>)
        ensures { parts_in self.old ≡ part_of result.0 ∷ parts_after result.1 self.new }
    {
        let is_first = mem::replace(&mut self.is_first, false);
        match &mut self.rest {
            Rest::List(items) => match items.next() {
                Some(value) => (Part::ItemBegins(is_first), Some(value)),
                None => (Part::ListEnds, None),
            },
            Rest::Map(entries) => match entries.next() {
                Some((key, value)) => (Part::EntryBegins(key.as_str(), is_first), Some(value)),
                None => (Part::MapEnds, None),
            },
        }
    }
}
