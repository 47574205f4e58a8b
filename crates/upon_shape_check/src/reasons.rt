// The line that says why a template may fail at a place.
use crate::declared::{Declared, DeclaredCallable};
use crate::doubt::Unsure;
use crate::told::{all_told, told};
use std::alloc::{AllocError, Global};
use upon_engine::engine::Engine;
use upon_shape::shape::Shape;
use upon_types::error::cause::Cause;

/// What is said where lists or maps are written in each other too deep for a check.
pub const TOO_DEEP: &str = "may fail: lists or maps are written in each other too deep for a check";

/// What is known where templates were checked.
#[derive(Clone, Copy)]
pub struct Known<'k, 'e> {
    /// The engine that holds them.
    pub engine: &'k Engine<'e>,
    /// What is declared of what they call.
    pub declared: &'k Declared,
}

/// Returns why it may fail where this is not sure; `written` is what stands there. It fails if there is no memory.
pub fn reason_of(
    alloc: Global,
    known: &Known<'_, '_>,
    unsure: &Unsure<'_>,
    written: &str,
) -> Result<String, AllocError> {
    match unsure {
        Unsure::HasMember(shape) => after(alloc, "may be missing: the value is ", shape),
        Unsure::LoopHasMember => String::from_str(
            alloc,
            "may be missing: the value is the key or the state of a loop",
        ),
        Unsure::TakesValues(shapes) => call_reason(alloc, known.declared, written, shapes),
        Unsure::HasText(shape) => after(alloc, "may have no text: the value is ", shape),
        Unsure::HasItems(shape) => after(alloc, "may have no items: the value is ", shape),
        Unsure::IsIncluded(name, _) => match known.engine.get_template(name) {
            Some(_) => String::from_str(
                alloc,
                "may fail: there is too much to check in what is included",
            ),
            None => Cause::UnknownTemplate.text(alloc),
        },
    }
}

// Words, and a shape after them.
fn after(alloc: Global, words: &str, shape: &Shape) -> Result<String, AllocError> {
    let mut text = String::from_str(alloc, words)?;
    text.push_str(told(alloc, shape)?.as_str())?;
    Ok(text)
}

// Why a call of what has a name may fail with arguments of these shapes.
fn call_reason(
    alloc: Global,
    declared: &Declared,
    name: &str,
    shapes: &[Shape],
) -> Result<String, AllocError> {
    let words = match declared.callable(name) {
        None => "nothing is known of what this function takes",
        Some(DeclaredCallable::Formats(_)) => "may have no text: the value is ",
        Some(DeclaredCallable::Gives(_)) => "may refuse its arguments: ",
    };
    let mut text = String::from_str(alloc, words)?;
    if declared.callable(name).is_some() {
        text.push_str(all_told(alloc, shapes)?.as_str())?;
    }
    Ok(text)
}
