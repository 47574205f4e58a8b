// The examples of docs/EXAMPLES.md, as they are there.
ghost use Rattle.std.specs.Prelude.{string_bytes};
ghost use Rattle.upon_examples.specs.Functions.{after_text};

use std::alloc::{AllocError, Global};
use std::collections::BTreeMap;
use upon::functions::{Call1S, Fn1S};
use upon::render::{OneTemplate, TemplateMap};
use upon::{Engine, Result, Syntax, value};

/// Renders a page with a loop and an include.
pub fn page(alloc: Global) -> Result<String> {
    let mut engine = Engine::new(alloc);
    let row = "<li>{{ post.title }}{% if post.likes %} ({{ post.likes }}){% endif %}</li>\n";
    engine.add_template("row".into(), row.into())?;
    let page = "<ul>\n{% for post in posts %}{% include \"row\" %}{% endfor %}</ul>\n";
    engine.add_template("page".into(), page.into())?;
    let context =
        value! { in alloc; posts: [{title: "Hello", likes: 2}, {title: "More", likes: 0}] }?;
    engine.template("page").render_from(&context).to_string()
}

/// Renders a mail with delimiters of its own.
pub fn mail(alloc: Global, name: &str) -> Result<String> {
    let mut builder = Syntax::builder();
    builder.expr("<<", ">>").block("<%", "%>");
    let mut engine = Engine::new(alloc);
    engine.set_syntax(builder.build(alloc)?);
    let text = "Dear << name >>,\n<% if is_late %>\n{{ your bill is late }}\n<% endif %>";
    let context = value! { in alloc; name: name, is_late: true }?;
    let template = engine.compile(text.into())?;
    template.render_from(&engine, &context).to_string()
}

/// A text after another, which is kept.
#[derive(Drop)]
struct Prefix {
    text: String,
}

impl Call1S<std::result::Result<String, AllocError>> for Prefix {
    ghost meaning = { λ prefix. after_text (string_bytes prefix.text) };

    fn call(&self, alloc: Global, first: &str) -> std::result::Result<String, AllocError> {
        let mut whole = String::from_str(alloc, &self.text)?;
        whole.push_str(first)?;
        Ok(whole)
    }
}

/// Renders code from a map, with a filter.
pub fn getters(alloc: Global) -> Result<String> {
    let text = String::from_str(alloc, "get_")?;
    let getter = Box::new(alloc, Fn1S::new(Prefix { text }))?;
    let mut engine = Engine::new(alloc);
    engine.add_function("getter".into(), getter)?;
    let source = "{% for name, kind in fields -%}
fn {{ name | getter }}(&self) -> {{ kind }};
{% endfor -%}";
    let context = value! { in alloc; fields: {width: "u32", height: "u32"} }?;
    let template = engine.compile(source.into())?;
    template.render_from(&engine, &context).to_string()
}

/// Renders a configuration, with one template under each name.
pub fn configuration(alloc: Global) -> Result<String> {
    let engine = Engine::new(alloc);
    let entry = engine.compile("{{ key }} = {{ value }}\n".into())?;
    let loop_over = "{% for key, value in settings %}{% include \"entry\" %}{% endfor %}";
    let file = engine.compile(loop_over.into())?;
    let context = value! { in alloc; settings: {port: 80, host: "localhost"} }?;
    file.render_from(&engine, &context)
        .with_template_fn(OneTemplate::new(&entry))
        .to_string()
}

/// Renders a letter, with templates from a map.
pub fn letter(alloc: Global) -> Result<String> {
    let engine = Engine::new(alloc);
    let mut parts = BTreeMap::new(alloc);
    let head = engine.compile("Dear {{ name }},\n".into())?;
    parts.insert(String::from_str(alloc, "head")?, head)?;
    let text = "{% include \"head\" %}thank you.\n";
    let letter = engine.compile(text.into())?;
    let context = value! { in alloc; name: "Ann" }?;
    let templates = TemplateMap::new(alloc, &parts);
    let letter = letter
        .render_from(&engine, &context)
        .with_template_fn(templates);
    letter.to_string()
}

/// Renders a template of others on a name alone.
pub fn greeting(alloc: Global, theirs: &str) -> Result<String> {
    let mut engine = Engine::new(alloc);
    engine.set_max_include_depth(2);
    engine.add_template("theirs".into(), theirs.into())?;
    let source = "{% include \"theirs\" with {\"name\": name} %}";
    let context = value! { in alloc; name: "Ann", secret: "xyz" }?;
    let template = engine.compile(source.into())?;
    template.render_from(&engine, &context).to_string()
}
