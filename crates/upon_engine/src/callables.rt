// What an engine's names call while a template is rendered.
use crate::engine::{Callable, Engine};
use std::alloc::Global;
use upon_fmt::fmt::{self, Formatter};
use upon_types::value::{Value, ValueCow};
use upon_vm_steps::callables::{Applied, Callables, Called};

impl<'r, 'e> Callables for &'r Engine<'e> {
    ghost use Rattle.upon_meaning_spec.specs.DefaultFormat.{formatter_or_default};
    ghost use Rattle.upon_engine.specs.Texts.{texts_of};

    ghost callables = { λ e. (texts_of (λ f. (Format-box f).formats f.value) (λ f. (Function-box f).answers f.value)
        e.now).callables };

    ghost default_formatter = { λ e. formatter_or_default
        (texts_of (λ f. (Format-box f).formats f.value) (λ f. (Function-box f).answers f.value)
        e.now).default_formatter };

    fn call(&self, alloc: Global, name: &str, values: &[ValueCow]) -> Called {
        match self.callable(name) {
            Some(Callable::Function(function)) => Called::Function(function.call(alloc, values)),
            Some(Callable::Formatter(_)) => Called::Formatter,
            None => Called::Unknown,
        }
    }

    fn apply(&self, alloc: Global, name: &str, f: &mut Formatter, values: &[ValueCow]) -> Applied {
        match self.callable(name) {
            Some(Callable::Formatter(formatter)) => {
                if values.len() != 1 {
                    return Applied::Miscounted;
                }
                Applied::Formatted(formatter.format(f, &values[0]))
            }
            Some(Callable::Function(function)) => Applied::Called(function.call(alloc, values)),
            None => Applied::Unknown,
        }
    }

    fn is_plain(&self) -> bool {
        self.formatter().is_none()
    }

    fn default_format(&self, f: &mut Formatter, value: &Value) -> fmt::Result {
        match self.formatter() {
            Some(formatter) => formatter.format(f, value),
            None => fmt::default(f, value),
        }
    }
}
