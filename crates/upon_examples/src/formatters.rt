// The formatters of docs/FUNCTIONS.md, as they are there.
ghost use Rattle.std.specs.Prelude.{◌≡◌, Some, codes, false};
ghost use Rattle.upon.specs.FormatError.{message_of};
ghost use Rattle.upon.specs.Formatter.{is_marked, text_of};
ghost use Rattle.upon_examples.specs.Formatters.{dashed, demanded, numbered, quoted};

use std::alloc::Global;
use upon::fmt::{self, Format, Formatter};
use upon::{Engine, Result, Value, value};

/// Writes a text in quotation marks, and other values as the default formatter does.
#[derive(Drop)]
struct Quoted;

impl Format for Quoted {
    ghost formats = { λ _. quoted };

    fn format(&self, f: &mut Formatter, value: &Value) -> fmt::Result {
        let Value::String(text) = value else {
            return fmt::default(f, value);
        };
        f.write_char('"')?;
        f.write_str(text)?;
        f.write_char('"')
    }
}

/// Renders two values in quotation marks, if they are texts.
pub fn quotation(alloc: Global) -> Result<String> {
    let mut engine = Engine::new(alloc);
    engine.add_formatter("quoted".into(), Box::new(alloc, Quoted)?)?;
    let context = value! { in alloc; title: "Hamlet", year: 1603 }?;
    engine.render_text("{{ title | quoted }}, {{ year | quoted }}", &context)
}

/// Writes an integer after `No. `, and other values as the default formatter does.
#[derive(Drop)]
struct Numbered;

impl Format for Numbered {
    ghost formats = { λ _. numbered };

    fn format(&self, f: &mut Formatter, value: &Value) -> fmt::Result {
        let Value::Integer(number) = value else {
            return fmt::default(f, value);
        };
        let Ok(text) = format!(in f.allocator(); "No. {number}") else {
            f.out_of_memory();
            return Err(fmt::Error::from(std::fmt::Error));
        };
        f.write_str(&text)
    }
}

/// Renders two values, a number after `No. `.
pub fn entry(alloc: Global) -> Result<String> {
    let mut engine = Engine::new(alloc);
    engine.add_formatter("numbered".into(), Box::new(alloc, Numbered)?)?;
    let context = value! { in alloc; number: 7, title: "Hamlet" }?;
    engine.render_text("{{ number | numbered }}, {{ title | numbered }}", &context)
}

/// Writes a hyphen for no value, and other values as the default formatter does.
#[derive(Drop)]
struct Dashed;

impl Format for Dashed {
    ghost formats = { λ _. dashed };

    fn format(&self, f: &mut Formatter, value: &Value) -> fmt::Result {
        if let Value::None = value {
            return f.write_char('-');
        }
        fmt::default(f, value)
    }
}

/// Renders a name, and a mail that there is not.
pub fn table_row(alloc: Global) -> Result<String> {
    let mut engine = Engine::new(alloc);
    engine.set_default_formatter(Box::new(alloc, Dashed)?);
    let context = value! { in alloc; name: "Ann", mail: None }?;
    engine.render_text("{{ name }}: {{ mail }}", &context)
}

/// Refuses no value, and writes other values as the default formatter does.
#[derive(Drop)]
struct Demanded;

impl Format for Demanded {
    ghost formats = { λ _. demanded };

    fn format(&self, f: &mut Formatter, value: &Value) -> fmt::Result {
        if let Value::None = value {
            return Err(missing(f));
        }
        fmt::default(f, value)
    }
}

// Returns the error of a missing value. If there is no memory for its message, the formatter is told of that.
fn missing(f: &mut Formatter) -> fmt::Error
    ensures text { text_of f.new ≡ text_of f.old }
    ensures message { is_marked f.new ≡ false
        → (is_marked f.old ≡ false) × (message_of result ≡ Some (codes "a value is missing")) }
{
    match fmt::Error::from_text(f.allocator(), "a value is missing") {
        Ok(error) => error,
        Err(_) => {
            f.out_of_memory();
            fmt::Error::from(std::fmt::Error)
        }
    }
}

/// Renders a name, and refuses that there is no mail.
pub fn address(alloc: Global) -> Result<String> {
    let mut engine = Engine::new(alloc);
    engine.add_formatter("demanded".into(), Box::new(alloc, Demanded)?)?;
    let context = value! { in alloc; name: "Ann", mail: None }?;
    engine.render_text("{{ name | demanded }}: {{ mail | demanded }}", &context)
}
