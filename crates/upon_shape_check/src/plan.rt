// Which templates are included, and what is known where they are.
ghost use Rattle.std.specs.Prelude.{◌≡◌, ◌++◌, ◌∷◌, [], OnErr, OnOk};
ghost use Rattle.upon_shape_spec.specs.Accepted as spec;
ghost use Rattle.upon_shape_check.specs.Scope.{scope_view};
ghost use Rattle.upon_shape_check.specs.Plan.{plan_view};

use crate::scope::Scope;
use std::alloc::{AllocError, Global};

/// The name of a template, and what is known where it is included.
#[derive(Drop)]
pub struct Planned<'t> {
    /// The name.
    pub name: &'t str,
    /// What is known.
    pub scope: Scope<'t>,
}

/// How many templates a plan has at most, each as often as what is known there differs.
pub const MOST_PLANNED: usize = 16384;

/// Templates with what is known where they are included.
#[derive(Drop)]
pub struct Plan<'t> {
    /// The templates, each as often as what is known there differs.
    pub entries: Vec<Planned<'t>>,
}

impl<'t> Plan<'t> {
    /// Returns a plan of nothing.
    pub fn new(alloc: Global) -> Plan<'t>
        ensures { plan_view result ≡ [] }
    {
        Plan {
            entries: Vec::new(alloc),
        }
    }

    /// Adds a template at the end. If there is no memory, nothing changes.
    pub fn add(&mut self, name: &'t str, scope: Scope<'t>) -> Result<(), AllocError>
        ensures ok { OnOk result (plan_view self.new
            ≡ plan_view self.old ++ record { name = name.now; scope = scope_view scope.entry } ∷ []) }
        ensures err { OnErr result (plan_view self.new ≡ plan_view self.old) }
    {
        self.entries.push(Planned { name, scope })?;
        Ok(())
    }

    /// Returns whether it has the template, on a scope that is at least as wide.
    pub fn is_planned(&self, name: &str, scope: &Scope<'_>) -> bool
        ensures { result ≡ spec.is_planned (plan_view self.now) name.now (scope_view scope.now) }
    {
        for planned in &self.entries {
            if name == planned.name && planned.scope.is_as_wide_as(scope) {
                return true;
            }
        }
        false
    }
}
