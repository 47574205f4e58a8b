// The example of the README, as it is there.
use std::alloc::Global;
use upon::{Engine, value};

/// Greets the people of these names.
pub fn greet(alloc: Global, names: &[&str]) -> upon::Result<String> {
    let mut engine = Engine::new(alloc);
    engine.add_template(
        "name".into(),
        "{{ name }}{% if not loop.last %}, {% endif %}".into(),
    )?;
    let page = "Hello {% for name in names %}{% include \"name\" %}{% endfor %}!";
    let context = value! { in alloc; names: names }?;
    engine
        .compile(page.into())?
        .render_from(&engine, &context)
        .to_string()
}
