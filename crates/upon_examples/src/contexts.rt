// The examples of docs/CONTEXTS.md, as they are there.
use serde::Serialize;
use std::alloc::{AllocError, Global};
use std::collections::BTreeMap;
use upon::render::{SourceError, ValueSource};
use upon::{Result, Value, ValueMember, to_value, value};

/// Returns John, written out.
pub fn john(alloc: Global) -> Result<Value> {
    value! { in alloc;
        name: "John",
        born: 1979,
        posts: [{title: "Hello", likes: [1, 2]}, None],
    }
}

#[derive(Drop, Serialize)]
struct Person<'a> {
    name: &'a str,
    born: u16,
    posts: Vec<Option<Post<'a>>>,
}

#[derive(Drop, Serialize)]
struct Post<'a> {
    title: &'a str,
    likes: Vec<u8>,
}

/// Returns John, of types of the program.
pub fn john_of_a_program(alloc: Global) -> Result<Value> {
    let post = Post {
        title: "Hello",
        likes: vec![in alloc; 1, 2]?,
    };
    let person = Person {
        name: "John",
        born: 1979,
        posts: vec![in alloc; Some(post), None]?,
    };
    to_value(alloc, &person)
}

/// Returns John, put together by hand.
pub fn john_by_hand(alloc: Global) -> std::result::Result<Value, AllocError> {
    let likes = Value::from_array(alloc, [Value::from(1), Value::from(2)])?;
    let post = Value::from_pairs(
        alloc,
        [
            (
                String::from_str(alloc, "title")?,
                Value::from_text(alloc, "Hello")?,
            ),
            (String::from_str(alloc, "likes")?, likes),
        ],
    )?;
    let mut entries = BTreeMap::new(alloc);
    entries.insert(
        String::from_str(alloc, "name")?,
        Value::from_text(alloc, "John")?,
    )?;
    entries.insert(String::from_str(alloc, "born")?, Value::from(1979))?;
    entries.insert(
        String::from_str(alloc, "posts")?,
        Value::from_array(alloc, [post, Value::None])?,
    )?;
    Ok(Value::from(entries))
}

/// A value function that answers one text to each path, for templates whose data are not there yet.
#[derive(Drop)]
pub struct Placeholder {
    pub text: String,
}

impl ValueSource for Placeholder {
    ghost use Rattle.std.specs.Prelude.{[], string_bytes};
    ghost use Rattle.upon.specs.Val.{text_val};
    ghost use Rattle.upon.specs.Finding.{reply};
    ghost use Rattle.upon.specs.Source.{says};

    ghost State = { Unit {0} };

    ghost value_state = { λ _. tt };

    ghost ask = { λ source q path. reply (says (text_val (string_bytes source.text))) q };

    ghost holds = { λ _. [] };

    fn value(&mut self, _path: &[ValueMember]) -> std::result::Result<Value, SourceError> {
        match self.text.clone() {
            Ok(text) => Ok(Value::String(text)),
            Err(_) => Err(SourceError::Memory),
        }
    }
}
