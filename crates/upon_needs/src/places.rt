// Where a template calls by name, and where it includes other templates, by walks along its instructions.
ghost use Rattle.std.specs.Prelude.{◌≡◌, ℕ, List, IfOk, bytes_eq, map, option_map};
ghost use Rattle.std.specs.List.{list_any};
ghost use Rattle.upon_machine_spec.specs.Code.{program_of};
ghost use Rattle.upon_compiler.specs.Program.{instr_of};
ghost use Rattle.upon_engine.specs.Template.{template_source, template_tree};
ghost use Rattle.upon_needs.specs.Names.{has_name, texts};
ghost use Rattle.upon_needs.specs.Places.{call_at, called, calls_in, include_at, included_name, includes_in, CallsLie, IncludesLie};

use std::alloc::{AllocError, Global};
use std::collections::{BTreeMap, BTreeSet};
use upon_compiler::types::program::Instr;
use upon_engine::template::Template;
use upon_types::types::Span;

/// A call of a function, or a filter, in a template.
#[derive(Clone, Copy, Debug, PartialEq, Eq)]
pub struct CallPlace<'t> {
    /// The name of what is called.
    pub name: &'t str,
    /// Where the name stands in the template's source, in bytes.
    pub span: Span,
    /// How many arguments it gets: of a filter, what stands before the bar is the first.
    pub arguments: usize,
}

/// An include in a template.
#[derive(Clone, Copy, Debug, PartialEq, Eq)]
pub struct IncludePlace<'t> {
    /// The name of the template that is included.
    pub name: &'t str,
    /// Where the name stands in the template's source, in bytes, with its quotes.
    pub span: Span,
}

// What an instruction calls.
fn called(instr: &Instr) -> Option<CallPlace<'_>>
    ensures { option_map call_at result ≡ called (instr_of instr.now) }
{
    match instr {
        Instr::EmitWith(name, arguments, _) => Some(CallPlace {
            name: name.name.as_str(),
            span: name.span,
            arguments: *arguments,
        }),
        Instr::Apply(name, arguments, _) => Some(CallPlace {
            name: name.name.as_str(),
            span: name.span,
            arguments: *arguments,
        }),
        _ => None,
    }
}

// What an instruction includes.
fn included(instr: &Instr) -> Option<IncludePlace<'_>>
    ensures { option_map include_at result ≡ included_name (instr_of instr.now) }
{
    match instr {
        Instr::Include(name) => Some(IncludePlace {
            name: name.value.as_str(),
            span: name.span,
        }),
        Instr::IncludeWith(name) => Some(IncludePlace {
            name: name.value.as_str(),
            span: name.span,
        }),
        _ => None,
    }
}

/// Returns the calls and filters that a template has, in the order of their ends. An error comes only when memory is
/// out.
pub fn calls<'t>(template: &'t Template<'_>) -> Result<Vec<CallPlace<'t>>, AllocError>
    ensures calls { IfOk result
        (λ places. map call_at places.items ≡ calls_in (program_of (template_tree template.now))) }
    ensures lie { IfOk result (λ places. CallsLie (template_source template.now) places.items) }
{
    let instrs = template.instrs();
    let mut places = Vec::new(template.alloc());
    for instr in instrs {
        if let Some(place) = called(instr) {
            places.push(place)?;
        }
    }
    Ok(places)
}

/// Returns the includes that a template has, in their order in its source. An error comes only when memory is out.
pub fn include_places<'t>(template: &'t Template<'_>) -> Result<Vec<IncludePlace<'t>>, AllocError>
    ensures includes { IfOk result
        (λ places. map include_at places.items ≡ includes_in (program_of (template_tree template.now))) }
    ensures lie { IfOk result (λ places. IncludesLie (template_source template.now) places.items) }
{
    let instrs = template.instrs();
    let mut places = Vec::new(template.alloc());
    for instr in instrs {
        if let Some(place) = included(instr) {
            places.push(place)?;
        }
    }
    Ok(places)
}

/// Returns how many of some includes have each of some names, for the names that one has. An error comes only when
/// memory is out.
pub fn counts<'t>(
    alloc: Global,
    places: &[IncludePlace<'t>],
    names: &[&str],
) -> Result<BTreeMap<&'t str, usize>, AllocError> {
    let wanted = set_of(alloc, names)?;
    let mut counts = BTreeMap::new(alloc);
    for place in places {
        if wanted.contains(place.name) {
            let count: &mut usize = counts.entry(place.name)?.or_insert(0);
            *count = count.saturating_add(1);
        }
    }
    Ok(counts)
}

/// Returns the set of some names. An error comes only when memory is out.
pub fn set_of<'n>(alloc: Global, names: &[&'n str]) -> Result<BTreeSet<&'n str>, AllocError>
    ensures { IfOk result
        (λ set. (name : List ℕ) → has_name set name ≡ list_any (bytes_eq name) (texts names.entry.now)) }
{
    let mut set = BTreeSet::new(alloc);
    for name in names {
        set.insert(*name)?;
    }
    Ok(set)
}
