// What begins a path, and where it begins one in a template.
ghost use Rattle.std.specs.Prelude.{◌≡◌, ◌↔◌, ◌<◌, ◌^◌, ◌-◌, ℕ, List, IfOk, true, option_map};
ghost use Rattle.upon_meaning_spec.specs.Needs.{StatementsBegin, StatementsPass};
ghost use Rattle.upon_machine_spec.specs.Code.{program_of};
ghost use Rattle.upon_machine_spec.specs.ProgramNames.{IsListed, passes_on, plain_include};
ghost use Rattle.upon_compiler.specs.Program.{instr_of};
ghost use Rattle.upon_needs.specs.EngineNeeds.{start_of};
ghost use Rattle.upon_needs.specs.IndexStarts.{begins_by_index, has_index, plain_includes};
ghost use Rattle.upon_needs.specs.Names.{texts};
ghost use Rattle.upon_needs.specs.OpenBlocks.{depth_after, free_includes};
ghost use Rattle.upon_engine.specs.Template.{template_tree};

use crate::template_names::{begins, count_after};
use std::alloc::AllocError;
use upon_compiler::types::program::Instr;
use upon_engine::template::Template;
use upon_types::types::ast::Access;

/// What begins a path: a name, or an index.
#[derive(Clone, Copy)]
pub(crate) enum PathStart<'n> {
    Name(&'n str),
    Index,
}

/// Returns whether an instruction's path begins with an index.
fn has_index(instr: &Instr) -> bool
    ensures { result ≡ has_index (instr_of instr.now) }
{
    match instr {
        Instr::ExprStartVar(var) => match &var.first().access {
            Access::Key(_) => false,
            Access::Index(_) => true,
        },
        _ => false,
    }
}

/// Returns the name of the template that an instruction includes without a value.
fn plain_include(instr: &Instr) -> Option<&str>
    ensures { option_map (λ name. name.now) result ≡ plain_include (instr_of instr.now) }
{
    match instr {
        Instr::Include(name) => Some(name.value.as_str()),
        _ => None,
    }
}

/// Returns how many blocks are open after an instruction at an offset.
fn depth_after(at: usize, instr: &Instr, depth: usize) -> usize
    requires { depth < 2 ^ 64 - 1 }
    ensures { result ≡ depth_after at (instr_of instr.now) depth }
{
    match instr {
        Instr::WithStart(_) => depth + 1,
        Instr::WithEnd => depth.saturating_sub(1),
        Instr::LoopStart(_, _) => depth + 1,
        Instr::Jump(to) => {
            if *to <= at {
                depth.saturating_sub(1)
            } else {
                depth
            }
        }
        _ => depth,
    }
}

/// Returns whether a path begins with an index.
fn begins_by_index(template: &Template<'_>) -> bool
    ensures { result ≡ begins_by_index (program_of (template_tree template.now)) }
{
    let instrs = template.instrs();
    for instr in instrs {
        if has_index(instr) {
            return true;
        }
    }
    false
}

/// Returns the names of the templates that are included without a value, in order.
fn plain_includes<'t>(template: &'t Template<'_>) -> Result<Vec<&'t str>, AllocError>
    ensures { IfOk result (λ v. texts v.items ≡ plain_includes (program_of (template_tree template.now))) }
{
    let instrs = template.instrs();
    let mut names = Vec::new(template.alloc());
    for instr in instrs {
        if let Some(via) = plain_include(instr) {
            names.push(via)?;
        }
    }
    Ok(names)
}

/// Returns the names of the templates that are included without a value outside of what binds the name, in order.
fn passes<'t>(template: &'t Template<'_>, name: &str) -> Result<Vec<&'t str>, AllocError>
    ensures { IfOk result (λ v. texts v.items ≡ passes_on name.now (program_of (template_tree template.now))) }
{
    let instrs = template.instrs();
    let mut names = Vec::new(template.alloc());
    let mut count = 0;
    for (at, instr) in instrs.iter().enumerate() {
        if let Some(via) = plain_include(instr) {
            if count == 0 {
                names.push(via)?;
            }
        }
        count = count_after(name, at, instr, count);
    }
    Ok(names)
}

/// Returns the names of the templates that are included without a value outside of each block, in order.
pub(crate) fn free_includes<'t>(template: &'t Template<'_>) -> Result<Vec<&'t str>, AllocError>
    ensures { IfOk result (λ v. texts v.items ≡ free_includes (program_of (template_tree template.now))) }
{
    let instrs = template.instrs();
    let mut names = Vec::new(template.alloc());
    let mut depth = 0;
    for (at, instr) in instrs.iter().enumerate() {
        if let Some(via) = plain_include(instr) {
            if depth == 0 {
                names.push(via)?;
            }
        }
        depth = depth_after(at, instr, depth);
    }
    Ok(names)
}

/// Returns whether such a path begins outside of what binds it.
pub(crate) fn begins_by(template: &Template<'_>, start: PathStart<'_>) -> bool
    ensures { (result ≡ true) ↔ StatementsBegin (start_of start.entry) (template_tree template.now) }
{
    match start {
        PathStart::Name(name) => begins(template, name),
        PathStart::Index => begins_by_index(template),
    }
}

/// Returns the names of the templates that are included without a value outside of what binds such a path.
pub(crate) fn passes_by<'t>(
    template: &'t Template<'_>,
    start: PathStart<'_>,
) -> Result<Vec<&'t str>, AllocError>
    ensures { IfOk result (λ v. (name : List ℕ)
        → IsListed (texts v.items) name ↔ StatementsPass (start_of start.entry) name
        (template_tree template.now)) }
{
    match start {
        PathStart::Name(name) => passes(template, name),
        PathStart::Index => plain_includes(template),
    }
}
