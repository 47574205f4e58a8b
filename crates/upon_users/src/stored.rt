// A caller that builds a store and renders with it, by the public clauses alone.
ghost use Rattle.std.specs.Prelude.{◌≡◌, ◌++◌, ℕ, List, OnOk, codes};
ghost use Rattle.std.specs.Io.KnownBytes.{Appends};
ghost use Rattle.upon_types.specs.View.{view};
ghost use Rattle.upon_users.specs.Greeting.{names};

use std::alloc::Global;
use std::borrow::CowStr;
use std::io;
use upon::{Engine, Value};
use upon_store::store::{Store, StoreError};

/// Greets a writer by a template of a store that it makes, on a map of one text.
pub fn hello<W: io::Write>(alloc: Global, value: &Value, out: &mut W) -> Result<(), StoreError>
    ensures { (name : List ℕ) → view value.now ≡ names name
        → OnOk result (Appends (W.contents out.old) (W.contents out.new) (codes "Hello " ++ name ++ codes "!")) }
{
    let engine = Engine::new(alloc);
    let mut store = Store::new(alloc);
    store.add(&engine, "hello.txt", CowStr::Borrowed("Hello {{ name }}!"))?;
    store.render(&engine, "hello.txt", value, out)
}
