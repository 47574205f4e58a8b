// Callables of which each formatter escapes.
ghost use Rattle.std.specs.Prelude.{◌≡◌, [], option_map};
ghost use Rattle.upon_types.specs.Answers.{Formatted};
ghost use Rattle.upon_fmt.specs.Formatter.{text_of, Formats};
ghost use Rattle.upon_fmt.specs.declared.fmt.Formatter.{Formatter as Held};
ghost use Rattle.upon_html.specs.Callables.{callables_in};
ghost use Rattle.upon_html.specs.Escaped.{escaped_once};

use crate::formatters::{Escape, write_escaped};
use std::alloc::Global;
use upon_fmt::fmt;
use upon_fmt::fmt::{Format, Formatter};
use upon_types::value::{Value, ValueCow};
use upon_vm_steps::callables::{Applied, Callables, Called};

/// Functions and formatters, with the text that each formatter writes escaped, also that of the default one.
#[derive(Drop)]
pub struct Escaping<C> {
    callables: C,
}

impl<C> Escaping<C> {
    /// Creates callables whose formatters escape, of others.
    pub fn new(callables: C) -> Escaping<C>
        ensures { callables_in result ≡ callables }
    {
        Escaping { callables }
    }
}

impl<C: Callables> Callables for Escaping<C> {
    ghost use Rattle.std.specs.Prelude.{option_map};
    ghost use Rattle.upon_html.specs.Callables.{callables_in};
    ghost use Rattle.upon_html.specs.Escaped.{escaping, escaping_callable};

    ghost callables = { λ e name. option_map escaping_callable (C.callables (callables_in e) name) };

    ghost default_formatter = { λ e. escaping (C.default_formatter (callables_in e)) };

    fn call(&self, alloc: Global, name: &str, values: &[ValueCow]) -> Called {
        self.callables.call(alloc, name, values)
    }

    fn apply(&self, alloc: Global, name: &str, f: &mut Formatter, values: &[ValueCow]) -> Applied {
        let mut inner = Formatter::new(f.allocator());
        match self.callables.apply(alloc, name, &mut inner, values) {
            Applied::Formatted(ended) => Applied::Formatted(append_escaped(f, inner, ended)),
            Applied::Called(answer) => Applied::Called(answer),
            Applied::Miscounted => Applied::Miscounted,
            Applied::Unknown => Applied::Unknown,
        }
    }

    fn is_plain(&self) -> bool {
        false
    }

    fn default_format(&self, f: &mut Formatter, value: &Value) -> fmt::Result {
        if self.callables.is_plain() {
            return Escape.format(f, value);
        }
        let mut inner = Formatter::new(f.allocator());
        let ended = self.callables.default_format(&mut inner, value);
        append_escaped(f, inner, ended)
    }
}

// Appends the text that a formatter wrote, escaped, and ends as that did.
fn append_escaped(f: &mut Formatter, written: Formatter, ended: fmt::Result) -> fmt::Result
    ensures { (start : Held) (o : Formatted) → text_of start ≡ [] → Formats start written ended o
        → Formats f.old f.new result (escaped_once o) }
{
    match written.into_text() {
        Some(text) => {
            write_escaped(f, text.as_str())?;
            ended
        }
        None => {
            f.out_of_memory();
            ended
        }
    }
}
