// The names that a template needs, and the templates that it includes, by walks along its instructions.
ghost use Rattle.std.specs.Prelude.{◌≡◌, ◌||◌, ◌&&◌, ◌↔◌, ◌<◌, ◌-◌, ◌^◌, ℕ, List, Contains, IfOk, OnOk, option_map, not, true, bytes_eq};
ghost use Rattle.std.specs.List.{list_any};
ghost use Rattle.upon_types.specs.AstPath.{loop_vars_of};
ghost use Rattle.upon_meaning_spec.specs.Includes.{Includes};
ghost use Rattle.upon_meaning_spec.specs.Needs.{a_name, StatementsBegin};
ghost use Rattle.upon_machine_spec.specs.Code.{program_of};
ghost use Rattle.upon_machine_spec.specs.ProgramNames.{loop_binds, count_after, path_name, is_this, any_include, begins, includes};
ghost use Rattle.upon_machine_spec.specs.ProgramNames.{block_begins as count_at_begin};
ghost use Rattle.upon_compiler.specs.Program.{instr_of};
ghost use Rattle.upon_needs.specs.Names.{texts, has_name, Rise};
ghost use Rattle.upon_needs.specs.OpenBlocks.{binds_name, blocks, is_block_end, open_count, opens};
ghost use Rattle.upon_engine.specs.Template.{template_tree};

use std::alloc::{AllocError, Global};
use std::collections::BTreeSet;
use upon_compiler::types::program::Instr;
use upon_engine::template::Template;
use upon_types::types::ast::{Access, LoopVars};

/// Returns the name that begins an instruction's path.
fn path_name(instr: &Instr) -> Option<&str>
    ensures { option_map (λ name. name.now) result ≡ path_name (instr_of instr.now) }
{
    match instr {
        Instr::ExprStartVar(var) => match &var.first().access {
            Access::Key(ident) => Some(ident.name.as_str()),
            Access::Index(_) => None,
        },
        _ => None,
    }
}

/// Returns the name of the template that an instruction includes.
fn any_include(instr: &Instr) -> Option<&str>
    ensures { option_map (λ name. name.now) result ≡ any_include (instr_of instr.now) }
{
    match instr {
        Instr::Include(name) => Some(name.value.as_str()),
        Instr::IncludeWith(name) => Some(name.value.as_str()),
        _ => None,
    }
}

/// Returns whether a name is there, and is this one.
fn is_this(name: &str, other: Option<&str>) -> bool
    ensures { result ≡ is_this name.now (option_map (λ name. name.now) other.entry) }
{
    match other {
        Some(other) => name == other,
        None => false,
    }
}

/// Returns whether a loop binds the name: by a variable, or as its state.
fn loop_binds(name: &str, vars: &LoopVars) -> bool
    ensures { result ≡ loop_binds name.now (loop_vars_of vars.now) }
{
    match vars {
        LoopVars::Item(word) => "loop" == name || word.name.as_str() == name,
        LoopVars::KeyValue(both) => {
            "loop" == name || (both.key.name.as_str() == name || both.value.name.as_str() == name)
        }
    }
}

/// Returns how many open blocks there are from the outermost on that binds a name, after one more begins, which binds
/// it or not.
fn block_begins(binds: bool, count: usize) -> usize
    requires { count < 2 ^ 64 - 1 }
    ensures { result ≡ count_at_begin binds count }
{
    if count > 0 {
        count + 1
    } else if binds {
        1
    } else {
        0
    }
}

/// That number after an instruction at an offset.
pub(crate) fn count_after(name: &str, at: usize, instr: &Instr, count: usize) -> usize
    requires { count < 2 ^ 64 - 1 }
    ensures { result ≡ count_after name.now at (instr_of instr.now) count }
{
    match instr {
        Instr::WithStart(word) => block_begins(word.name.as_str() == name, count),
        Instr::WithEnd => count.saturating_sub(1),
        Instr::LoopStart(vars, _) => block_begins(loop_binds(name, vars), count),
        Instr::Jump(to) => {
            if *to <= at {
                count.saturating_sub(1)
            } else {
                count
            }
        }
        _ => count,
    }
}

/// Returns whether an instruction begins a block.
fn opens(instr: &Instr) -> bool
    ensures { result ≡ opens (instr_of instr.now) }
{
    match instr {
        Instr::WithStart(_) => true,
        Instr::LoopStart(_, _) => true,
        _ => false,
    }
}

/// Returns whether an instruction at an offset ends a block.
fn closes(at: usize, instr: &Instr) -> bool
    ensures { result ≡ is_block_end at (instr_of instr.now) }
{
    match instr {
        Instr::WithEnd => true,
        Instr::Jump(to) => *to <= at,
        _ => false,
    }
}

/// Returns whether an instruction begins a block that binds the name.
fn binds(name: &str, block: &Instr) -> bool
    ensures { result ≡ binds_name name.now (instr_of block.now) }
{
    match block {
        Instr::WithStart(word) => word.name.as_str() == name,
        Instr::LoopStart(vars, _) => loop_binds(name, vars),
        _ => false,
    }
}

/// Returns whether one of the open blocks binds the name.
fn is_bound(name: &str, opened: &[&Instr]) -> bool
    ensures { result ≡ list_any (binds_name name.now) (blocks opened.now) }
{
    for block in opened {
        if binds(name, block) {
            return true;
        }
    }
    false
}

/// Makes the open blocks those after an instruction at an offset.
fn open_after<'i>(
    opened: &mut Vec<&'i Instr>,
    at: usize,
    instr: &'i Instr,
) -> Result<(), AllocError>
    ensures { OnOk result ((name : List ℕ) → open_count name 0 (blocks opened.new.items)
        ≡ count_after name at (instr_of instr.now) (open_count name 0 (blocks opened.old.items))) }
{
    if opens(instr) {
        opened.push(instr)?;
    } else if closes(at, instr) {
        opened.pop();
    }
    Ok(())
}

/// Puts the name that begins an instruction's path into a set, if no open block binds it.
fn insert_free<'i>(
    names: &mut BTreeSet<&'i str>,
    instr: &'i Instr,
    opened: &[&Instr],
) -> Result<(), AllocError>
    ensures { OnOk result ((name : List ℕ)
        → has_name names.new name ≡ (has_name names.old name
        || (not (list_any (binds_name name) (blocks opened.now)) && is_this name (path_name (instr_of instr.now))))) }
{
    let Some(name) = path_name(instr) else {
        return Ok(());
    };
    if !is_bound(name, opened) {
        names.insert(name)?;
    }
    Ok(())
}

/// Puts names into a set.
pub(crate) fn insert_all<'n>(
    names: &mut BTreeSet<&'n str>,
    more: Vec<&'n str>,
) -> Result<(), AllocError>
    ensures { OnOk result ((name : List ℕ)
        → has_name names.new name ≡ (has_name names.old name
        || list_any (bytes_eq name) (texts more.entry.items))) }
{
    for name in more {
        names.insert(name)?;
    }
    Ok(())
}

/// Returns the names of a set, in ascending order.
pub(crate) fn ascending<'n>(
    alloc: Global,
    names: BTreeSet<&'n str>,
) -> Result<Vec<&'n str>, AllocError>
    ensures same { IfOk result (λ v. (name : List ℕ)
        → Contains (texts v.items) name ↔ (has_name names.entry name ≡ true)) }
    ensures rise { IfOk result (λ v. Rise (texts v.items)) }
{
    let mut sorted = Vec::new(alloc);
    for name in names {
        sorted.push(name)?;
    }
    Ok(sorted)
}

/// Returns whether the name begins a path outside of what binds it.
pub(crate) fn begins(template: &Template<'_>, name: &str) -> bool
    ensures { result ≡ begins name.now (program_of (template_tree template.now)) }
{
    let instrs = template.instrs();
    let mut count = 0;
    for (at, instr) in instrs.iter().enumerate() {
        let here = is_this(name, path_name(instr));
        if count == 0 && here {
            return true;
        }
        count = count_after(name, at, instr, count);
    }
    false
}

/// Returns the names of the templates that are included, in order.
pub(crate) fn each_include<'t>(template: &'t Template<'_>) -> Result<Vec<&'t str>, AllocError>
    ensures { IfOk result (λ v. texts v.items ≡ includes (program_of (template_tree template.now))) }
{
    let instrs = template.instrs();
    let mut names = Vec::new(template.alloc());
    for instr in instrs {
        if let Some(via) = any_include(instr) {
            names.push(via)?;
        }
    }
    Ok(names)
}

/// Returns the names that begin paths outside of what binds them.
fn free_names<'t>(template: &'t Template<'_>) -> Result<BTreeSet<&'t str>, AllocError>
    ensures { IfOk result (λ names. (name : List ℕ)
        → has_name names name ≡ begins name (program_of (template_tree template.now))) }
{
    let instrs = template.instrs();
    let mut names = BTreeSet::new(template.alloc());
    let mut opened = Vec::new(template.alloc());
    for (at, instr) in instrs.iter().enumerate() {
        insert_free(&mut names, instr, opened.as_slice())?;
        open_after(&mut opened, at, instr)?;
    }
    Ok(names)
}

/// Returns the names that the template takes from its context, in ascending order, each once: those that begin a
/// path outside of each `with` and `for` that binds them. Included templates are not looked into. An error comes
/// only when memory is out. It takes time in proportion to the instructions, and to the blocks around each path.
pub fn names_needed<'t>(template: &'t Template<'_>) -> Result<Vec<&'t str>, AllocError>
    ensures needed { IfOk result (λ names. (name : List ℕ)
        → Contains (texts names.items) name ↔ StatementsBegin (a_name name) (template_tree template.now)) }
    ensures rise { IfOk result (λ names. Rise (texts names.items)) }
{
    ascending(template.alloc(), free_names(template)?)
}

/// Returns the names of the templates that the template includes, in ascending order, each once; what they include
/// is not looked into. An error comes only when memory is out.
pub fn includes<'t>(template: &'t Template<'_>) -> Result<Vec<&'t str>, AllocError>
    ensures included { IfOk result (λ names. (name : List ℕ)
        → Contains (texts names.items) name ↔ Includes name (template_tree template.now)) }
    ensures rise { IfOk result (λ names. Rise (texts names.items)) }
{
    let alloc = template.alloc();
    let mut names = BTreeSet::new(alloc);
    insert_all(&mut names, each_include(template)?)?;
    ascending(alloc, names)
}
