// What functions are declared to take and to give, and what formatters have a text for.
ghost use Rattle.std.specs.Prelude.{◌≡◌, bytes_eq, List, ℕ, None, Some, OnOk, OnErr, map, option_copied, option_map, string_bytes};
ghost use Rattle.std.specs.Map.{update};
ghost use Rattle.upon_shape_spec.specs.Declared as spec;
ghost use Rattle.upon_shape_spec.specs.ExpressionShapes.{is_formatted as spec_is_formatted, value_given as spec_value_given};
ghost use Rattle.upon_shape_spec.specs.Wider.{all_wider};
ghost use Rattle.upon_shape.specs.View.{shape_view};
ghost use Rattle.upon_shape_check.specs.Callables.{callable_view, declared_view, signature_view};

use std::alloc::{AllocError, Global};
use std::collections::BTreeMap;
use upon_shape::shape::Shape;

/// What a function takes, argument by argument, and what it gives to that.
#[derive(Drop)]
pub struct Signature {
    /// The shapes of the arguments.
    pub takes: Vec<Shape>,
    /// The shape of what is given.
    pub gives: Shape,
}

/// What is declared of a callable.
#[derive(Drop)]
pub enum DeclaredCallable {
    /// A function: the first signature that takes the arguments says what it gives.
    Gives(Vec<Signature>),
    /// A formatter, and what it has a text for.
    Formats(Shape),
}

/// What is declared of callables, by their names, and what the default formatter has a text for.
#[derive(Drop)]
pub struct Declared {
    pub(crate) default_formats: Shape,
    pub(crate) callables: BTreeMap<String, DeclaredCallable>,
}

impl Declared {
    /// Returns no callables, and what the default formatter has a text for.
    pub fn new(alloc: Global, default_formats: Shape) -> Declared
        ensures callables { (name : List ℕ) → (declared_view result).callables name ≡ None }
        ensures default { (declared_view result).default_formats ≡ shape_view default_formats }
    {
        Declared {
            default_formats,
            callables: BTreeMap::new(alloc),
        }
    }

    /// Declares a function of this name, in place of what was declared of the name. If there is no memory, nothing
    /// changes.
    pub fn add_function(
        &mut self,
        name: String,
        signatures: Vec<Signature>,
    ) -> Result<(), AllocError>
        ensures ok { OnOk result ((other : List ℕ) → (declared_view self.new).callables other
            ≡ update bytes_eq (declared_view self.old).callables (string_bytes name)
            (Some (spec.gives_by (spec.given_by (map signature_view signatures.items)))) other) }
        ensures err { OnErr result ((other : List ℕ) → (declared_view self.new).callables other
            ≡ (declared_view self.old).callables other) }
        ensures default { (declared_view self.new).default_formats ≡ (declared_view self.old).default_formats }
    {
        self.callables
            .insert(name, DeclaredCallable::Gives(signatures))?;
        Ok(())
    }

    /// Declares a formatter of this name, in place of what was declared of the name. If there is no memory, nothing
    /// changes.
    pub fn add_formatter(&mut self, name: String, formats: Shape) -> Result<(), AllocError>
        ensures ok { OnOk result ((other : List ℕ) → (declared_view self.new).callables other
            ≡ update bytes_eq (declared_view self.old).callables (string_bytes name)
            (Some (spec.formats (shape_view formats))) other) }
        ensures err { OnErr result ((other : List ℕ) → (declared_view self.new).callables other
            ≡ (declared_view self.old).callables other) }
        ensures default { (declared_view self.new).default_formats ≡ (declared_view self.old).default_formats }
    {
        self.callables
            .insert(name, DeclaredCallable::Formats(formats))?;
        Ok(())
    }

    /// Returns what is declared of the callable of this name.
    pub fn callable(&self, name: &str) -> Option<&DeclaredCallable>
        ensures { option_map callable_view (option_copied result) ≡ (declared_view self.now).callables name.now }
    {
        self.callables.get(name)
    }

    /// Returns the shape of what a call gives where its value is not shown: a formatter gives none.
    pub fn value_given(&self, name: &str, shapes: &[Shape]) -> Option<&Shape>
        ensures { option_map shape_view (option_copied result)
            ≡ spec_value_given ((declared_view self.now).callables name.now) (map shape_view shapes.now) }
    {
        match self.callable(name) {
            Some(DeclaredCallable::Gives(signatures)) => given_by(signatures, shapes),
            Some(DeclaredCallable::Formats(_)) => None,
            None => None,
        }
    }
}

// Returns what a function of these signatures gives.
pub(crate) fn given_by<'a>(signatures: &'a [Signature], shapes: &[Shape]) -> Option<&'a Shape>
    ensures { option_map shape_view (option_copied result)
        ≡ spec.given_by (map signature_view signatures.now) (map shape_view shapes.now) }
{
    for signature in signatures {
        if are_as_wide(&signature.takes, shapes) {
            return Some(&signature.gives);
        }
    }
    None
}

// Returns whether each shape is at least as wide as the one in its place, and there are as many.
fn are_as_wide(wide: &[Shape], shapes: &[Shape]) -> bool
    ensures { result ≡ all_wider (map shape_view wide.now) (map shape_view shapes.now) }
{
    if wide.len() != shapes.len() {
        return false;
    }
    for (index, shape) in wide.iter().enumerate() {
        if !shape.is_as_wide_as(&shapes[index]) {
            return false;
        }
    }
    true
}

// Returns whether a formatter that has a text for the shape is given one value, and has a text for it.
pub(crate) fn is_formatted(shape: &Shape, shapes: &[Shape]) -> bool
    ensures { result ≡ spec_is_formatted (shape_view shape.now) (map shape_view shapes.now) }
{
    match shapes {
        [only] => shape.is_as_wide_as(only),
        _ => false,
    }
}
