// Where in a schema reading is.
ghost use Rattle.std.specs.Prelude.{◌≡◌, ◌⊎◌, ◌+◌, ◌<◌, IfErr, IfOk, OnOk, map};
ghost use Rattle.upon_shape_spec.specs.Wider.{is_listed};
ghost use Rattle.upon_schema.specs.Refusal.{refusal, too_deep, too_large};

use crate::fault::SchemaFault;
use std::alloc::Global;
use upon_types::value::Value;

// Where in a schema reading is.
#[derive(Clone, Copy)]
pub(crate) struct Place<'a> {
    // Where memory is taken.
    pub alloc: Global,
    // The whole schema.
    pub root: &'a Value,
    // The references to the schemas in which it is.
    pub references: &'a [&'a str],
    // How many schemas may still be one inside another.
    pub depth: usize,
}

impl<'a> Place<'a> {
    // The place inside a schema here, where so many schemas may still be read: one less then.
    pub fn inside(&self, left: &mut usize) -> Result<Place<'a>, SchemaFault>
        ensures depth { IfOk result (λ inner. self.now.depth ≡ inner.depth + 1) }
        ensures root { IfOk result (λ inner. inner.root ≡ self.now.root) }
        ensures references { IfOk result (λ inner. inner.references ≡ self.now.references) }
        ensures left { OnOk result (left.old ≡ left.new + 1) }
        ensures refused { IfErr result (λ fault. ((refusal fault ≡ too_deep) × (self.now.depth ≡ 0))
            ⊎ ((refusal fault ≡ too_large) × ((left.old ≡ 0) × (0 < self.now.depth)))) }
    {
        let Some(depth) = self.depth.checked_sub(1) else {
            return Err(SchemaFault::TooDeep);
        };
        let Some(fewer) = left.checked_sub(1) else {
            return Err(SchemaFault::TooLarge);
        };
        *left = fewer;
        Ok(Place { depth, ..*self })
    }
}

// Whether a reference is among those that are open.
pub(crate) fn is_open(references: &[&str], reference: &str) -> bool
    ensures { result ≡ is_listed reference.now (map (λ r. r.now) references.now) }
{
    for known in references {
        if reference == *known {
            return true;
        }
    }
    false
}
