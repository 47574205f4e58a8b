// Pages that are rendered again only if a value changed that they need: the example of docs/NEEDS.md.
use std::alloc::Global;
use upon::{Engine, Result, Value, needs_of};

/// A page, with the values that it was rendered on.
#[derive(Drop)]
pub struct Page {
    on: Vec<Option<Value>>,
    pub text: String,
}

/// Returns the values of some names in a context, in the order of the names.
fn values_of(alloc: Global, names: &[&str], context: &Value) -> Result<Vec<Option<Value>>> {
    let mut values = Vec::new(alloc);
    for name in names {
        let value = match context {
            Value::Map(entries) => entries.get(*name),
            _ => None,
        };
        values.push(match value {
            Some(value) => Some(value.try_clone()?),
            None => None,
        })?;
    }
    Ok(values)
}

/// Returns the page of a template: the last one if no value that the template needs has changed since.
pub fn page_of(
    alloc: Global,
    engine: &Engine<'_>,
    name: &str,
    context: &Value,
    last: Option<Page>,
) -> Result<Option<Page>> {
    let Some(needs) = needs_of(engine, name) else {
        return Ok(None);
    };
    let on = values_of(alloc, needs?.names(), context)?;
    if let Some(last) = last {
        if last.on == on {
            return Ok(Some(last));
        }
    }
    match engine.render_template(name, context) {
        Some(text) => Ok(Some(Page { on, text: text? })),
        None => Ok(None),
    }
}
