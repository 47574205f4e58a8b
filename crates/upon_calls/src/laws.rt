// What each call gives is one text, or the picture of one fault: there is a table of the trees of the templates that it
// is given.
ghost use Rattle.std.specs.Prelude.{◌≡◌, ◌⊎◌, ℕ, List, All, Contains, IfSome, IsSomeAnd, None, Some, false};
ghost use Rattle.serde_json.specs.Written.{compact_text};
ghost use Rattle.upon_types.specs.Fault.{Fault};
ghost use Rattle.upon_types.specs.Pretty.{pretty};
ghost use Rattle.upon_types.specs.Tree.{Statements};
ghost use Rattle.upon_types.specs.Val.{Val};
ghost use Rattle.upon_language_spec.specs.Grammar.{HasTree};
ghost use Rattle.upon_language_spec.specs.Search.{DelimiterText, HasTexts};
ghost use Rattle.upon_meaning_spec.specs.Engine.{Table, Template};
ghost use Rattle.upon_needs.specs.declared.needs.Needs.{Needs};
ghost use Rattle.upon_engine.specs.Texts.{Stored};
ghost use Rattle.upon_engine.specs.Theorem.{IsTable};
ghost use Rattle.upon_calls.specs.ByTable.{FailsNamedBy, FailsTextBy, IsShownBy, NamedEnds, NamedUnsure};
ghost use Rattle.upon_calls.specs.Calls.{ChecksRight, ChecksWrong, ListsNeeds, RenderFaults, Renders, RendersText, TextFaults};
ghost use Rattle.upon_calls.specs.Contexts.{checked_pages};
ghost use Rattle.upon_calls.specs.Failure.{is_memory_kind};
ghost use Rattle.upon_calls.specs.Filled.{engine_for, filled};
ghost use Rattle.upon_calls.specs.Names.{NeededBy, needs_data};
ghost use Rattle.upon_calls.specs.Pictures.{ShowsWrong};
ghost use Rattle.upon_calls.specs.Rendering.{IsFirstOfOne, IsMeaningBy};
ghost use Rattle.upon_calls.specs.Unsure.{declared_as};

/// States that what a rendering of a template gives is the text of a meaning, by a table of the templates that it is
/// given: so it is no other text.
pub fn rendered_text_is()
    ensures { (templates context name options text : List ℕ) (r : Renders templates context name options text)
        → (table : Table) × (held : Stored) × (tree : Statements)
        × IsTable (filled r.asked r.sources).texts table
        × ((filled r.asked r.sources).texts name ≡ Some held) × ∥ HasTree held.syntax held.text tree ∥₁
        × IsMeaningBy r.asked.limits (filled r.asked r.sources) table (Some name) held.text tree r.value text }
{}

/// States that the fault of which a rendering of a template shows the picture is the first one of a template's text, or
/// that of a meaning, by a table of the templates that it is given; or it names a limit beyond which that goes.
pub fn fault_is()
    ensures { (templates context name options text : List ℕ) (r : RenderFaults templates context name options text)
        → (fault : Fault) × (is_memory_kind fault.kind ≡ false) × (text ≡ pretty fault)
        × (IsFirstOfOne r.asked.delimiters r.sources fault
        ⊎ ((table : Table) × IsTable (filled r.asked r.sources).texts table
        × FailsNamedBy r.asked.limits (filled r.asked r.sources) table name r.value fault)) }
{}

/// States that what a rendering of a source gives is the text of the source's meaning, by a table of no templates.
pub fn source_text_is()
    ensures { (source context options text : List ℕ) (r : RendersText source context options text)
        → (table : Table) × (tree : Statements)
        × IsTable (engine_for r.asked).texts table × HasTree (engine_for r.asked).syntax source tree
        × IsMeaningBy r.asked.limits (engine_for r.asked) table None source tree r.value text }
{}

/// States that the fault of which a rendering of a source shows the picture is the first one of the source, or that of
/// its meaning, by a table of no templates; or it names a limit beyond which that goes.
pub fn source_fault_is()
    ensures { (source context options text : List ℕ) (r : TextFaults source context options text)
        → (table : Table) × (fault : Fault) × IsTable (engine_for r.asked).texts table
        × (is_memory_kind fault.kind ≡ false) × (text ≡ pretty fault)
        × FailsTextBy r.asked.limits (engine_for r.asked) table source r.value fault }
{}

/// States that what the list of names gives is the JSON of what a template needs, by such a table.
pub fn listed_text_is()
    ensures { (templates name options text : List ℕ) (r : ListsNeeds templates name options text)
        → (table : Table) × (t : Template) × (needs : Needs)
        × IsTable (filled r.asked r.sources).texts table × (table name ≡ Some t) × NeededBy table t.tree needs
        × (text ≡ compact_text (needs_data needs)) }
{}

/// States that what a check found right on contexts ends on each of them: what each page that is checked means, by a
/// table of the templates that it is given, ends without a fault on each value of the shape that is known of the
/// contexts, but that includes may be too deep one inside another. There is such a table without contexts too.
pub fn fitting_pages_end()
    ensures { (templates options text : List ℕ) (r : ChecksRight templates options text)
        → (table : Table) × IsTable (filled r.asked r.sources).texts table
        × IfSome r.contexts (λ contexts. All
        (λ name. NamedEnds (filled r.asked r.sources) table name contexts.shape)
        (checked_pages contexts.pages r.sources)) }
{}

/// States that where a check on contexts found templates right, but not each page, a page that it checks is in doubt by
/// a table of the templates that it is given and by what is declared of what they call: places are in doubt in it or in
/// those that it reaches, one at least; or something is put into a literal there that is too deep for a check.
pub fn unsure_page_is()
    ensures { (templates options text : List ℕ) (r : ChecksWrong templates options text)
        → ShowsWrong r.asked.delimiters r.value r.sources text
        ⊎ ((table : Table) × IsTable (filled r.asked r.sources).texts table
        × IsSomeAnd r.contexts (λ given. (name : List ℕ) × Contains (checked_pages given.pages r.sources) name
        × NamedUnsure (declared_as r.asked) table name given.shape)) }
{}

/// States that the text of such a check is the pictures of places that are in doubt by that table, page by page.
pub fn shown_places_are()
    ensures { (templates options text : List ℕ) (r : ChecksWrong templates options text)
        → ShowsWrong r.asked.delimiters r.value r.sources text
        ⊎ ((table : Table) × IsTable (filled r.asked r.sources).texts table
        × IsSomeAnd r.contexts (λ given. IsShownBy (filled r.asked r.sources) (declared_as r.asked) table given.shape
        (checked_pages given.pages r.sources) text)) }
{}

/// States that what is wrong with templates is shown by one text, where each delimiter has a byte.
pub fn shown_text_is()
    ensures { (delimiters : List DelimiterText) (templates : Val) (sources : List (List ℕ × List ℕ)) (a b : List ℕ)
        → HasTexts delimiters → ShowsWrong delimiters templates sources a
        → ShowsWrong delimiters templates sources b → a ≡ b }
{}
