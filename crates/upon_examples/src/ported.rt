// What upon's own documents show first, written for this library: docs/FROM_UPON.md names each.
use std::alloc::Global;
use upon::{Engine, Result, value};
use upon_std::table::ALL;

/// Renders a page of two others, which an engine holds.
pub fn nested(alloc: Global) -> Result<String> {
    let mut engine = Engine::new(alloc);
    engine.add_template("hello".into(), "Hello {{ user.name }}!".into())?;
    engine.add_template("goodbye".into(), "Goodbye {{ user.name }}!".into())?;
    let both = "{% include \"hello\" %}\n{% include \"goodbye\" %}";
    let context = value! { in alloc; user: {name: "Ann"} }?;
    engine.render_text(both, &context)
}

/// Renders a page to a writer, of bytes here.
pub fn written(alloc: Global) -> Result<Vec<u8>> {
    let engine = Engine::new(alloc);
    let template = engine.compile("Hello {{ user.name }}!".into())?;
    let context = value! { in alloc; user: {name: "Ann"} }?;
    let mut out: Vec<u8> = Vec::new(alloc);
    template.render_from(&engine, &context).to_writer(&mut out)?;
    Ok(out)
}

/// Renders a text with the standard functions and two templates to include, on data of two users.
pub fn on_users(alloc: Global, source: &str) -> Result<String> {
    let mut engine = Engine::new(alloc);
    for function in ALL.as_slice() {
        engine.add_function(function.name().into(), Box::new(alloc, *function)?)?;
    }
    engine.add_template("hello".into(), "Hello {{ user.name }}!".into())?;
    engine.add_template("card".into(), "{{ name }} ({{ age }})".into())?;
    let context = value! { in alloc;
        user: {name: "Ann", age: 40},
        users: [{name: "Ann"}, {name: "Bob"}],
        enabled: true
    }?;
    engine.render_text(source, &context)
}
