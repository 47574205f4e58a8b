// What there is that templates may name.
use crate::library::Library;
use upon_types::value::Value;

/// What there is for a rendering: hints below pictures are taken from it.
#[derive(Clone, Copy)]
pub struct Known<'k> {
    /// The files that can be included, and what can be called.
    pub library: &'k Library,
    /// The value that is rendered on, if it is at hand.
    pub value: Option<&'k Value>,
    /// The name of the template that is rendered, if an engine holds it.
    pub page: Option<&'k str>,
}
