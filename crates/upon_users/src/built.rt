// Callers that build an engine and render with it, by the public clauses alone.
ghost use Rattle.std.specs.Prelude.{◌≡◌, ◌++◌, Some, IfOk, OnOk, codes};
ghost use Rattle.std.specs.Io.KnownBytes.{Appends};
ghost use Rattle.upon_types.specs.View.{view};
ghost use Rattle.upon_delimiters.specs.Syntax.{syntax_delimiters};
ghost use Rattle.upon.specs.RenderingLaws.{IsTextOrMemory};
ghost use Rattle.upon_engine.specs.Theorem.{AnswersTree};
ghost use Rattle.upon_users.specs.Greeting.{names};
ghost use Rattle.upon_users.specs.Page.{angles, page_engine, page_text, page_tree};

use std::alloc::{AllocError, Global};
use std::borrow::CowStr;
use std::io;
use upon_engine::engine::Engine;
use upon_fmt::fmt::{self, Format, Formatter};
use upon_functions::function::{CallError, Function};
use upon_syntax::types::syntax::Syntax;
use upon_types::error::Result;
use upon_types::value::{Value, ValueCow};

/// Returns a map of one key, `name`, at which a text is.
fn named(alloc: Global, name: &str) -> std::result::Result<Value, AllocError>
    ensures { IfOk result (λ v. view v ≡ names name.now) }
{
    let key = String::from_str(alloc, "name")?;
    let text = Value::from_text(alloc, name)?;
    let map = Value::from_pairs(alloc, [(key, text)])?;
    Ok(map)
}

/// Greets by a template that it adds.
pub fn hello(alloc: Global, name: &str) -> Result<String>
    ensures { IsTextOrMemory (codes "Hello " ++ name.now ++ codes "!") result }
{
    let context = named(alloc, name)?;
    let mut engine = Engine::new(alloc);
    engine.add_template(
        CowStr::Borrowed("hello"),
        CowStr::Borrowed("Hello {{ name }}!"),
    )?;
    let Some(rendered) = engine.render_template("hello", &context) else {
        unreachable!()
    };
    rendered
}

/// Greets a writer, by a text that no engine holds.
pub fn hello_to<W: io::Write>(alloc: Global, name: &str, out: &mut W) -> Result<()>
    ensures { OnOk result
        (Appends (W.contents out.old) (W.contents out.new) (codes "Hello " ++ name.now ++ codes "!")) }
{
    let context = named(alloc, name)?;
    let engine = Engine::new(alloc);
    engine.render_text_to("Hello {{ name }}!", &context, out)
}

/// Writes a star, and then what is usual.
#[derive(Drop)]
struct Star;

impl Format for Star {
    ghost use Rattle.upon_users.specs.Page.{starred};

    ghost formats = { λ _. starred };

    fn format(&self, f: &mut Formatter, value: &Value) -> fmt::Result {
        f.write_str("*")?;
        fmt::default(f, value)
    }
}

/// Answers an exclamation mark, whatever it is given.
#[derive(Drop)]
struct Bang;

impl Function for Bang {
    ghost use Rattle.upon_users.specs.Page.{banged};

    ghost answers = { λ _. banged };

    fn call(&self, alloc: Global, _args: &[ValueCow]) -> std::result::Result<Value, CallError> {
        Ok(Value::from_text(alloc, "!")?)
    }
}

/// Creates a syntax of blocks alone, in angle brackets.
fn in_angles(alloc: Global) -> std::result::Result<Syntax, AllocError>
    ensures { IfOk result (λ syntax. syntax_delimiters syntax ≡ angles) }
{
    Syntax::builder().block("<%", "%>").build(alloc)
}

/// Renders a page on a value, by two templates of two syntaxes, one in the other, with a formatter and a function.
pub fn page(alloc: Global, value: &Value) -> Result<String>
    ensures { AnswersTree page_engine (Some (codes "page")) page_text page_tree (view value.now) result }
{
    let mut engine = Engine::new(alloc);
    let star = Box::new(alloc, Star)?;
    engine.add_formatter(CowStr::Borrowed("star"), star)?;
    let bang = Box::new(alloc, Bang)?;
    engine.add_function(CowStr::Borrowed("bang"), bang)?;
    engine.add_template(
        CowStr::Borrowed("name"),
        CowStr::Borrowed("{{ name | star }}{{ bang() }}"),
    )?;
    let syntax = in_angles(alloc)?;
    engine.set_syntax(syntax);
    engine.add_template(
        CowStr::Borrowed("page"),
        CowStr::Borrowed("Hello <% include \"name\" %>"),
    )?;
    let Some(rendered) = engine.render_template("page", value) else {
        unreachable!()
    };
    rendered
}

/// Greets by that page.
pub fn page_of(alloc: Global, name: &str) -> Result<String>
    ensures { IsTextOrMemory (codes "Hello *" ++ name.now ++ codes "!") result }
{
    let context = named(alloc, name)?;
    page(alloc, &context)
}
