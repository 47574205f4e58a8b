// What a template of an engine needs: names of its context and other templates, by a search from template to template.
ghost use Rattle.std.specs.Prelude.{◌≡◌, ◌⊎◌, ◌↔◌, ◌≤◌, ◌+◌, ◌||◌, ◌&&◌, ◌∷◌, ◌++◌, [], if◌then◌else◌, ℕ, List, Bool, Contains, IfOk, OnOk, IsSomeAnd, IsNone, None, Some, is_some, length, option_map, true, bytes_eq};
ghost use Rattle.std.specs.List.{list_any};
ghost use Rattle.upon_types.specs.Tree.{Statements};
ghost use Rattle.upon_meaning_spec.specs.Engine.{Template as TemplateMeant};
ghost use Rattle.upon_meaning_spec.specs.Includes.{Reaches};
ghost use Rattle.upon_meaning_spec.specs.Missing.{Missing};
ghost use Rattle.upon_meaning_spec.specs.Needs.{a_name, Needs as NeedsStart, NeedsAll, NeedsName, StatementsBegin};
ghost use Rattle.upon_machine_spec.specs.ProgramNames.{IsListed};
ghost use Rattle.upon_engine.specs.Engine.{engine_templates, table_in};
ghost use Rattle.upon_needs.specs.EngineNeeds.{needed_names, reached_templates, missing_names, needs_whole, start_of, link, Linked, HeldBegins, OneBegins, Searched, Marked};
ghost use Rattle.upon_needs.specs.Names.{texts, has_name, Rise};
ghost use Rattle.upon_engine.specs.Template.{template_of, template_tree};
ghost use Rattle.upon_needs.specs.Unseen.{unseen};

use crate::starts::{PathStart, begins_by, free_includes, passes_by};
use crate::template_names::{ascending, each_include, insert_all, names_needed};
use std::alloc::AllocError;
use std::collections::{BTreeMap, BTreeSet};
use upon_engine::engine::Engine;
use upon_engine::template::Template;

/// What a template of an engine needs: names of its context, and templates.
#[derive(Drop)]
pub struct Needs<'n> {
    names: Vec<&'n str>,
    templates: Vec<&'n str>,
    missing: Vec<&'n str>,
    whole: bool,
}

/// Which links from template to template a search follows.
#[derive(Clone, Copy)]
pub(crate) enum Links<'n> {
    /// Each include.
    All,
    /// Those without a value outside of what binds such a path.
    Passing(PathStart<'n>),
    /// Those without a value outside of each block, which pass every path.
    Free,
}

impl<'n> Needs<'n> {
    /// Returns the names of the context that can count, in ascending order, each once.
    pub fn names(&self) -> &[&'n str]
        ensures { texts result.now ≡ needed_names self.now }
    {
        self.names.as_slice()
    }

    /// Returns the names of the engine's templates that the template includes, and of those that these include, in
    /// ascending order, each once. The template itself is among them only if it is included again.
    pub fn templates(&self) -> &[&'n str]
        ensures { texts result.now ≡ reached_templates self.now }
    {
        self.templates.as_slice()
    }

    /// Returns the names of includes that no template of the engine has, in the template and in those that it reaches,
    /// in ascending order, each once.
    pub fn missing(&self) -> &[&'n str]
        ensures { texts result.now ≡ missing_names self.now }
    {
        self.missing.as_slice()
    }

    /// Returns whether the whole context counts, as an index begins a path.
    pub fn is_whole(&self) -> bool
        ensures { result ≡ needs_whole self.now }
    {
        self.whole
    }
}

/// Returns the names to which links lead.
fn linked<'t>(template: &'t Template<'_>, by: Links<'_>) -> Result<Vec<&'t str>, AllocError>
    ensures { IfOk result (λ v. (name : List ℕ)
        → IsListed (texts v.items) name ↔ link by.entry (template_tree template.now) name) }
{
    match by {
        Links::All => each_include(template),
        Links::Passing(start) => passes_by(template, start),
        Links::Free => free_includes(template),
    }
}

/// Returns the template of a name.
fn template_named<'t, 'e>(
    templates: &'t BTreeMap<String, Template<'e>>,
    name: &str,
) -> Option<&'t Template<'e>>
    ensures { option_map (λ t. template_of t.now) result ≡ table_in templates.now name.now }
{
    templates.get(name)
}

/// Puts a name at the end of the names if it is new and is held.
fn push_if<'t>(
    names: &mut Vec<&'t str>,
    name: &'t str,
    is_new: bool,
    is_held: bool,
) -> Result<(), AllocError>
    ensures { OnOk result (names.new.items
        ≡ (if is_new && is_held then names.old.items ++ name.entry ∷ [] else names.old.items)) }
{
    if !is_new {
        return Ok(());
    }
    if !is_held {
        return Ok(());
    }
    names.push(name)?;
    Ok(())
}

/// Marks names as seen. Those that are new and have a template wait from then on.
fn mark<'t>(
    templates: &BTreeMap<String, Template<'_>>,
    names: &[&'t str],
    seen: &mut BTreeSet<&'t str>,
    waiting: &mut Vec<&'t str>,
) -> Result<(), AllocError>
    ensures marked { OnOk result
        (Marked (table_in templates.now) (has_name seen.old) (has_name seen.new) (texts names.now)
        (IsListed (texts waiting.old.items)) (IsListed (texts waiting.new.items))) }
    // What waits is no longer unseen.
    ensures less { OnOk result (unseen templates.now seen.new + length waiting.new.items
        ≤ unseen templates.now seen.old + length waiting.old.items) }
{
    for name in names {
        let is_held = templates.contains_key(*name);
        let is_new = seen.insert(*name)?;
        push_if(waiting, *name, is_new, is_held)?;
    }
    Ok(())
}

/// Follows the links of the template of a name that waited.
fn follow<'t, 'e>(
    templates: &'t BTreeMap<String, Template<'e>>,
    name: &str,
    by: Links<'_>,
    seen: &mut BTreeSet<&'t str>,
    waiting: &mut Vec<&'t str>,
) -> Result<(), AllocError>
    ensures searched { OnOk result ((tree : Statements) (before : List ℕ → Bool)
        → ((other : List ℕ) → before other
        ≡ (list_any (bytes_eq other) (texts waiting.old.items) || bytes_eq other name.now))
        → Searched (table_in templates.now) by.entry tree (has_name seen.old) (λ other. before other ≡ true)
        → Searched (table_in templates.now) by.entry tree (has_name seen.new) (IsListed (texts waiting.new.items))) }
    ensures less { OnOk result (unseen templates.now seen.new + length waiting.new.items
        ≤ unseen templates.now seen.old + length waiting.old.items) }
{
    let Some(template) = template_named(templates, name) else {
        return Ok(());
    };
    let names = linked(template, by)?;
    mark(templates, names.as_slice(), seen, waiting)?;
    Ok(())
}

/// Returns the names to which links lead from a template.
fn search<'t, 'e>(
    templates: &'t BTreeMap<String, Template<'e>>,
    from: &'t Template<'e>,
    by: Links<'_>,
) -> Result<BTreeSet<&'t str>, AllocError>
    ensures { IfOk result (λ seen. (name : List ℕ)
        → (has_name seen name ≡ true) ↔ Linked (table_in templates.now) by.entry (template_tree from.now) name) }
{
    let alloc = from.alloc();
    let mut seen = BTreeSet::new(alloc);
    let mut waiting = Vec::new(alloc);
    let names = linked(from, by)?;
    mark(templates, names.as_slice(), &mut seen, &mut waiting)?;
    while let Some(name) = waiting.pop() {
        follow(templates, name, by, &mut seen, &mut waiting)?;
    }
    Ok(seen)
}

/// Returns whether a name has a template that begins such a path.
fn begins_in(templates: &BTreeMap<String, Template<'_>>, name: &str, start: PathStart<'_>) -> bool
    ensures { (result ≡ true) ↔ HeldBegins (table_in templates.now name.now) (start_of start.entry) }
{
    match template_named(templates, name) {
        Some(template) => begins_by(template, start),
        None => false,
    }
}

/// Returns whether a template of one of the names begins such a path.
fn one_begins(
    templates: &BTreeMap<String, Template<'_>>,
    names: BTreeSet<&str>,
    start: PathStart<'_>,
) -> bool
    ensures { (result ≡ true)
        ↔ OneBegins (table_in templates.now) (λ name. has_name names.entry name ≡ true) (start_of start.entry) }
{
    for name in names {
        if begins_in(templates, name, start) {
            return true;
        }
    }
    false
}

/// Returns whether such a path is asked of the context.
fn is_needed<'t, 'e>(
    templates: &'t BTreeMap<String, Template<'e>>,
    from: &'t Template<'e>,
    start: PathStart<'_>,
) -> Result<bool, AllocError>
    ensures { IfOk result (λ needed. (needed ≡ true)
        ↔ NeedsStart (table_in templates.now) (template_tree from.now) (start_of start.entry)) }
{
    if begins_by(from, start) {
        return Ok(true);
    }
    let names = search(templates, from, Links::Passing(start))?;
    Ok(one_begins(templates, names, start))
}

/// Puts the names into a set that begin paths in a template outside of what binds them, if there is a template.
fn insert_begun<'t, 'e>(
    begun: &mut BTreeSet<&'t str>,
    template: Option<&'t Template<'e>>,
) -> Result<(), AllocError>
    ensures { OnOk result ((name : List ℕ) → (has_name begun.new name ≡ true) ↔ ((has_name begun.old name ≡ true)
        ⊎ HeldBegins (option_map (λ t. template_of t.now) template.entry) (a_name name))) }
{
    let Some(template) = template else {
        return Ok(());
    };
    insert_all(begun, names_needed(template)?)?;
    Ok(())
}

/// Returns the names that begin paths in a template, outside of what binds them, or in those of some names.
fn begun<'t, 'e>(
    templates: &'t BTreeMap<String, Template<'e>>,
    from: &'t Template<'e>,
    names: &[&str],
) -> Result<BTreeSet<&'t str>, AllocError>
    ensures { IfOk result (λ begun. (name : List ℕ) → (has_name begun name ≡ true)
        ↔ (StatementsBegin (a_name name) (template_tree from.now)
        ⊎ OneBegins (table_in templates.now) (IsListed (texts names.now)) (a_name name))) }
{
    let mut begun = BTreeSet::new(from.alloc());
    insert_begun(&mut begun, Some(from))?;
    for name in names {
        insert_begun(&mut begun, template_named(templates, name))?;
    }
    Ok(begun)
}

/// Returns names that are needed without a question: those that begin paths, outside of what binds them, in a template
/// or in those that it reaches by includes which pass every path.
fn surely_needed<'t, 'e>(
    templates: &'t BTreeMap<String, Template<'e>>,
    from: &'t Template<'e>,
) -> Result<BTreeSet<&'t str>, AllocError>
    ensures { IfOk result (λ sure. (name : List ℕ) → has_name sure name ≡ true
        → NeedsName (table_in templates.now) (template_tree from.now) name) }
{
    let seen = search(templates, from, Links::Free)?;
    let reached = ascending(from.alloc(), seen)?;
    begun(templates, from, reached.as_slice())
}

/// Returns whether a name is needed. One that surely is, is not searched for.
fn is_name_needed<'t, 'e>(
    templates: &'t BTreeMap<String, Template<'e>>,
    from: &'t Template<'e>,
    sure: bool,
    name: &str,
) -> Result<bool, AllocError>
    requires { sure ≡ true → NeedsName (table_in templates.now) (template_tree from.now) name.now }
    ensures { IfOk result (λ needed. (needed ≡ true)
        ↔ NeedsName (table_in templates.now) (template_tree from.now) name.now) }
{
    if sure {
        return Ok(true);
    }
    is_needed(templates, from, PathStart::Name(name))
}

/// Those of some names that are needed, in ascending order.
fn needed<'t, 'e>(
    templates: &'t BTreeMap<String, Template<'e>>,
    from: &'t Template<'e>,
    names: BTreeSet<&'t str>,
) -> Result<Vec<&'t str>, AllocError>
    ensures same { IfOk result (λ v. (name : List ℕ) → Contains (texts v.items) name
        ↔ ((has_name names.entry name ≡ true) × NeedsName (table_in templates.now) (template_tree from.now) name)) }
    ensures rise { IfOk result (λ v. Rise (texts v.items)) }
{
    let alloc = from.alloc();
    let sure = surely_needed(templates, from)?;
    let mut needed = BTreeSet::new(alloc);
    for name in names {
        if is_name_needed(templates, from, sure.contains(name), name)? {
            needed.insert(name)?;
        }
    }
    ascending(alloc, needed)
}

/// Those of some names that have a template, or those that have none, in ascending order.
fn with_template<'t>(
    templates: &BTreeMap<String, Template<'_>>,
    from: &Template<'_>,
    names: &[&'t str],
    have: bool,
) -> Result<Vec<&'t str>, AllocError>
    ensures same { IfOk result (λ v. (name : List ℕ) → Contains (texts v.items) name
        ↔ (IsListed (texts names.now) name × (is_some (table_in templates.now name) ≡ have))) }
    ensures rise { IfOk result (λ v. Rise (texts v.items)) }
{
    let alloc = from.alloc();
    let mut chosen = BTreeSet::new(alloc);
    for name in names {
        if templates.contains_key(*name) == have {
            chosen.insert(*name)?;
        }
    }
    ascending(alloc, chosen)
}

/// Returns what a template needs.
fn needed_by<'t, 'e>(
    templates: &'t BTreeMap<String, Template<'e>>,
    from: &'t Template<'e>,
) -> Result<Needs<'t>, AllocError>
    ensures names { IfOk result (λ needs. (name : List ℕ)
        → Contains (needed_names needs) name ↔ NeedsName (table_in templates.now) (template_tree from.now) name) }
    ensures templates { IfOk result (λ needs. (name : List ℕ) → Contains (reached_templates needs) name
        ↔ (Reaches (table_in templates.now) (template_tree from.now) name
        × (is_some (table_in templates.now name) ≡ true))) }
    ensures missing { IfOk result (λ needs. (name : List ℕ)
        → Contains (missing_names needs) name ↔ Missing (table_in templates.now) (template_tree from.now) name) }
    ensures whole { IfOk result (λ needs.
        (needs_whole needs ≡ true) ↔ NeedsAll (table_in templates.now) (template_tree from.now)) }
    ensures rise { IfOk result (λ needs.
        Rise (needed_names needs) × Rise (reached_templates needs) × Rise (missing_names needs)) }
{
    let seen = search(templates, from, Links::All)?;
    let sorted = ascending(from.alloc(), seen)?;
    let reached = sorted.as_slice();
    let begun = begun(templates, from, reached)?;
    let names = needed(templates, from, begun)?;
    let held = with_template(templates, from, reached, true)?;
    let missing = with_template(templates, from, reached, false)?;
    let whole = is_needed(templates, from, PathStart::Index)?;
    Ok(Needs {
        names,
        templates: held,
        missing,
        whole,
    })
}

/// Returns what the template of a name needs, or `None` if there is none of this name: the names that it takes from
/// its context, itself or through the templates that it includes; these templates; and the names of includes that
/// no template of the engine has. Includes may come back to a template. An error comes only when memory is out. It
/// takes time in proportion to the instructions of the template and those that it reaches, and as much again for
/// each name that begins paths only behind an include that has a value or is in a `with` or `for`.
pub fn needs_of<'r>(engine: &'r Engine<'_>, name: &str) -> Option<Result<Needs<'r>, AllocError>>
    // A name is among those needed exactly if the template needs it of its context.
    ensures names { let table = engine_templates engine.now in
        (t : TemplateMeant) → table name.now ≡ Some t → IsSomeAnd result (λ r. IfOk r (λ needs. (word : List ℕ)
        → Contains (needed_names needs) word ↔ NeedsName table t.tree word)) }
    // A name is among the templates exactly if the template reaches it, and the engine has a template of it.
    ensures templates { let table = engine_templates engine.now in
        (t : TemplateMeant) → table name.now ≡ Some t → IsSomeAnd result (λ r. IfOk r (λ needs. (word : List ℕ)
        → Contains (reached_templates needs) word ↔ (Reaches table t.tree word × (is_some (table word) ≡ true)))) }
    // A name is among the missing exactly if the template reaches it, and the engine has no template of it.
    ensures missing { let table = engine_templates engine.now in
        (t : TemplateMeant) → table name.now ≡ Some t → IsSomeAnd result (λ r. IfOk r (λ needs. (word : List ℕ)
        → Contains (missing_names needs) word ↔ Missing table t.tree word)) }
    // The whole context counts exactly if an index begins a path.
    ensures whole { let table = engine_templates engine.now in
        (t : TemplateMeant) → table name.now ≡ Some t → IsSomeAnd result (λ r. IfOk r (λ needs.
        (needs_whole needs ≡ true) ↔ NeedsAll table t.tree)) }
    // Each list is in ascending order.
    ensures rise { let table = engine_templates engine.now in
        (t : TemplateMeant) → table name.now ≡ Some t → IsSomeAnd result (λ r. IfOk r (λ needs.
        Rise (needed_names needs) × Rise (reached_templates needs) × Rise (missing_names needs))) }
    // There is no answer exactly if the engine has no template of the name.
    ensures absent { IsNone result ↔ (engine_templates engine.now name.now ≡ None) }
{
    match engine.held(name) {
        Some(template) => Some(needed_by(engine.templates(), template)),
        None => None,
    }
}
