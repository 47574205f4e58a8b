// The examples of docs/STORE.md.
ghost use Rattle.std.specs.Prelude.{◌≡◌, ◌++◌, ℕ, List, Err, IfErr, IfOk, OnErr, Some, false, true};
ghost use Rattle.upon.specs.TagReading.{IsSyntaxError};
ghost use Rattle.upon.specs.EngineParts.{engine_syntax};
ghost use Rattle.upon_store.specs.Paths.{is_path};
ghost use Rattle.upon_store.specs.Stored.{stored, AllStay, EndsAdding, HoldsTemplate, OthersStay};

use std::alloc::Global;
use std::borrow::CowStr;
use std::io::Read;
use upon::{Engine, Value, value};
use upon_store::store::{Store, StoreError};

/// Renders a page of a store.
#[tactic(auto, using(crate::proofs::Written::page_follows))]
pub fn page(alloc: Global, out: &mut Vec<u8>) -> Result<(), StoreError>
    // What is written follows what was there, after an error too.
    ensures { (written : List ℕ) × (out.new.items ≡ out.old.items ++ written) }
{
    let engine = Engine::new(alloc);
    let mut store = Store::new(alloc);
    for (path, source) in [
        ("layout/head", "<h1>{{ title }}</h1>"),
        (
            "pages/home",
            "{% include \"../layout/head\" %}{% include \"note\" %}",
        ),
        ("pages/note", "Hello!"),
    ] {
        store.add(&engine, path, CowStr::Borrowed(source))?;
    }
    let value = value! { in alloc; title: "Home" }.map_err(StoreError::Engine)?;
    store.render(&engine, "pages/home", &value, out)
}

/// Adds the template that a file holds. The answer is whether it could be read and is text.
pub fn add_file<R: Read + Drop>(
    alloc: Global,
    engine: &Engine<'_>,
    store: &mut Store<'_>,
    path: &str,
    mut file: R,
) -> Result<bool, StoreError>
    // If it is known what the file holds, that is the text under the path.
    ensures added { IfOk result (λ is_added. is_added ≡ true
        → (text : List ℕ) → R.remaining file ≡ Some text
        → HoldsTemplate (engine_syntax engine.now) text (stored store.new path.now)) }
    ensures unread { IfOk result (λ is_added. is_added ≡ false → AllStay (stored store.old) (stored store.new)) }
    ensures others { OthersStay path.now (stored store.old) (stored store.new) }

    // It is refused as the store refuses the text, and stays as it was.
    ensures refused { IfErr result (λ error. (text : List ℕ) → R.remaining file ≡ Some text
        → EndsAdding (is_path path.now) (IsSyntaxError (engine_syntax engine.now) text) (Err error)) }
    ensures kept { OnErr result (AllStay (stored store.old) (stored store.new)) }
{
    let mut bytes = Vec::new(alloc);
    if file.read_to_end(&mut bytes).is_err() {
        return Ok(false);
    }
    match String::from_utf8(bytes) {
        Ok(source) => {
            store.add(engine, path, CowStr::Owned(source))?;
            Ok(true)
        }
        Err(_) => Ok(false),
    }
}
