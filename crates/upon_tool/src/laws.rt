// What a call of the tool sends and writes is one text a page: there is a table of the trees of the templates that it
// reads, and of files in memory there is one text of each name.
ghost use Rattle.std.specs.Io.KnownBytes.{Appends};
ghost use Rattle.std.specs.Prelude.{◌≡◌, ◌⊎◌, ◌∷◌, [], ◌++◌, ℕ, List, All, map, Option, Result, None, Some, String, false, true, string_bytes};
ghost use Rattle.std.specs.Str.{IsUtf8};
ghost use Rattle.std.specs.declared.alloc.Global.{Global};
ghost use Rattle.upon_types.specs.Tree.{Statements};
ghost use Rattle.upon_types.specs.Val.{Entries};
ghost use Rattle.upon_types.specs.View.{vals_view};
ghost use Rattle.upon_types.specs.declared.value.Value.{Value};
ghost use Rattle.upon_language_spec.specs.Grammar.{HasTree};
ghost use Rattle.upon_language_spec.specs.DefaultDelimiters.{default_delimiters};
ghost use Rattle.upon_meaning_spec.specs.Engine.{Table, Template};
ghost use Rattle.upon_vm.specs.Limits.{is_limited};
ghost use Rattle.upon_vm.specs.Reports.{IsAnyIo, WritesReported};
ghost use Rattle.upon_engine.specs.Changes.{with_text};
ghost use Rattle.upon_engine.specs.Texts.{Stored};
ghost use Rattle.upon_engine.specs.Theorem.{IsTable, meaning};
ghost use Rattle.upon_needs.specs.declared.needs.Needs.{Needs};
ghost use Rattle.upon_tool_io.specs.Memory.{bytes_under, memory_world};
ghost use Rattle.upon_tool_io.specs.Written.{written_as, Log, Written};
ghost use Rattle.upon_tool_io.specs.declared.arguments.BuildCall.{BuildCall};
ghost use Rattle.upon_tool_io.specs.declared.arguments.CheckCall.{CheckCall};
ghost use Rattle.upon_tool_io.specs.declared.arguments.EachCall.{EachCall};
ghost use Rattle.upon_tool_io.specs.declared.arguments.FitCall.{FitCall};
ghost use Rattle.upon_tool_io.specs.declared.arguments.NamesCall.{NamesCall};
ghost use Rattle.upon_tool_io.specs.declared.arguments.RenderCall.{RenderCall};
ghost use Rattle.upon_tool_io.specs.declared.files.ReadFault.{ReadFault};
ghost use Rattle.upon_tool_io.specs.declared.memory.Memory.{Memory};
ghost use Rattle.upon_tool_data.specs.Sources.{is_standard, IsTextOf};
ghost use Rattle.upon_tool_many.specs.Pages.{DoneInOrder};
ghost use Rattle.upon_tool_many.specs.Values.{IsSplit};
ghost use Rattle.upon_tool_many.specs.declared.pages.DonePage.{DonePage};
ghost use Rattle.upon_tool_messages.specs.Status.{tool_end_status};
ghost use Rattle.upon_tool_messages.specs.declared.failure.Failure.{Failure};
ghost use Rattle.upon_calls.specs.ByTable.{NamedEnds};
ghost use Rattle.upon_calls.specs.Filled.{filled};
ghost use Rattle.upon_calls.specs.Names.{NeededBy};
ghost use Rattle.upon_tool_pages.specs.Fitting.{asked_of};
ghost use Rattle.upon_tool_pages.specs.ManyPages.{AreWell};
ghost use Rattle.upon_tool_pages.specs.Missing.{EachIsRight, EachName, IsRightTemplate};
ghost use Rattle.upon_tool_pages.specs.Rendering.{SendsWhole, StaysWithin};
ghost use Rattle.upon_tool_pages.specs.Sources.{AreTexts};
ghost use Rattle.upon_tool.specs.ByTable.{EndsFile, EndsItem, InOrder, PutsFile, PutsItem, SendsBy};
ghost use Rattle.upon_tool.specs.Calls.{build_asked, each_asked, limits_asked, BuildsCall, ListsCall, RendersCall, RendersEachCall};
ghost use Rattle.upon_tool.specs.Checked.{ChecksCall, MayCall};
ghost use Rattle.upon_tool.specs.Filled.{with_page};
ghost use Rattle.upon_tool.specs.Fitting.{texts_read, FitsWell};
ghost use Rattle.upon_tool.specs.Names.{needs_text};
ghost use Rattle.upon_tool.specs.Work.{output_name, to_standard, SendsToFile};

use upon_tool_io::sources::Sources;

/// States that what a call of `render` sends to standard output is the text of a meaning: of the tree of FILE's text,
/// which of files in memory is the one of its name, by a table of the trees of the templates that it reads.
pub fn sent_page_is()
    ensures { (memory : Memory) (call : RenderCall) (input : Option (List ℕ)) (status : ℕ)
        (old new : Option (List ℕ)) (was now : Log)
        (r : RendersCall (memory_world memory) call input status old new was now)
        → is_standard call.file.now ≡ false → to_standard call.out ≡ true → is_limited (limits_asked call) ≡ false
        → (table : Table) × (tree : Statements) × (end : Result (Unit {0}) Failure)
        × (bytes_under call.file.now memory.files.items ≡ Some r.text)
        × IsTable (with_text call.file.now r.text r.folder).texts table
        × ∥ HasTree default_delimiters r.text tree ∥₁ × (status ≡ tool_end_status end)
        × SendsWhole (λ e. WritesReported (with_text call.file.now r.text r.folder).depth IsAnyIo e old new
        (meaning (with_text call.file.now r.text r.folder) table (Some call.file.now) r.text tree r.value)) end }
{}

/// States the same of such a call within limits too, and how much was sent at most: the whole text of the meaning, if
/// that fits the limits, or a beginning of it, up to a limit beyond which it goes.
pub fn sent_page_ends()
    ensures { (memory : Memory) (call : RenderCall) (input : Option (List ℕ)) (status : ℕ)
        (old new : Option (List ℕ)) (was now : Log)
        (r : RendersCall (memory_world memory) call input status old new was now)
        → is_standard call.file.now ≡ false → to_standard call.out ≡ true
        → (table : Table) × (tree : Statements) × (end : Result (Unit {0}) Failure)
        × (bytes_under call.file.now memory.files.items ≡ Some r.text)
        × IsTable (with_text call.file.now r.text r.folder).texts table
        × ∥ HasTree default_delimiters r.text tree ∥₁ × (status ≡ tool_end_status end)
        × SendsWhole (λ e. SendsBy (limits_asked call) (with_text call.file.now r.text r.folder) table
        (Some call.file.now) r.text tree r.value e old new) end
        × StaysWithin call.max_output old new }
{}

/// States that what a call of `render` with `--out` writes, if its status is 0, is the same text under the name that is
/// asked for, and that nothing else is written.
pub fn filed_page_is()
    ensures { (memory : Memory) (call : RenderCall) (input old new : Option (List ℕ)) (was : List Written) (now : Log)
        (r : RendersCall (memory_world memory) call input 0 old new (Some was) now)
        → is_standard call.file.now ≡ false → to_standard call.out ≡ false
        → (table : Table) × (tree : Statements)
        × (bytes_under call.file.now memory.files.items ≡ Some r.text)
        × IsTable (with_text call.file.now r.text r.folder).texts table
        × ∥ HasTree default_delimiters r.text tree ∥₁
        × (now ≡ Some (was ++ (written_as (output_name call.out)
        (meaning (with_text call.file.now r.text r.folder) table (Some call.file.now) r.text tree r.value).text
        ∷ []))) }
{}

/// States how each call of `render` with `--out` ends, also within limits: a new file received the same text and took
/// the place of the one of the name that is asked for; or nothing is written, and what the new file had received goes
/// up to the fault of that meaning, or to a limit beyond which that goes, or to where memory or the output ended it.
pub fn filed_page_ends()
    ensures { (memory : Memory) (call : RenderCall) (input : Option (List ℕ)) (status : ℕ)
        (old new : Option (List ℕ)) (was now : Log)
        (r : RendersCall (memory_world memory) call input status old new was now)
        → is_standard call.file.now ≡ false → to_standard call.out ≡ false
        → (table : Table) × (tree : Statements) × (end : Result (Unit {0}) Failure)
        × (bytes_under call.file.now memory.files.items ≡ Some r.text)
        × IsTable (with_text call.file.now r.text r.folder).texts table
        × ∥ HasTree default_delimiters r.text tree ∥₁ × (status ≡ tool_end_status end) × (new ≡ old)
        × SendsToFile (λ e first last. SendsBy (limits_asked call) (with_text call.file.now r.text r.folder) table
        (Some call.file.now) r.text tree r.value e first last) (output_name call.out) end was now }
{}

/// States that what a call of `names` sends, if its status is 0, is the text of what a template needs, by such a table
/// that has the template of FILE's text.
pub fn listed_names_are()
    ensures { (memory : Memory) (call : NamesCall) (input old new : Option (List ℕ))
        (r : ListsCall (memory_world memory) call input 0 old new) → is_standard call.file.now ≡ false
        → (table : Table) × (t : Template) × (needs : Needs)
        × (bytes_under call.file.now memory.files.items ≡ Some r.text)
        × IsTable (with_text call.file.now r.text r.folder).texts table × (table call.file.now ≡ Some t)
        × (t.source ≡ r.text) × NeededBy table t.tree needs × Appends old new (needs_text call.json needs) }
{}

/// States that what a call of `render` with `--each` writes, if its status is 0, are the texts of meanings, by one such
/// table: for each item of the list, in their order, what FILE's tree means on the item's value, under the name that
/// the template of names means on it.
pub fn pages_of_items_are<R: Sources>(sources: &R)
    ensures { (call : EachCall) (input : Option (List ℕ)) (was now : Log)
        (r : RendersEachCall (R.world sources.now) call input 0 was now)
        → IsUtf8 call.name.now
        → (table : Table) × (others : Entries) × (items : List Value)
        × IsTable (with_text call.render.file.now r.text r.folder).texts table
        × IsSplit call.key.now r.value others (vals_view items)
        × InOrder (PutsItem (R.world sources.now) (with_text call.render.file.now r.text r.folder) table
        (each_asked call) others) items was now }
{}

/// States how the pages of each call of `render` with `--each` end, also within limits, and where one fails: by one
/// such table, in the order of the items, and up to the first that fails unless it is asked to go on. Each has as its
/// text what FILE's tree means on the item's value, which is written under its name; or it fails with the fault of that
/// meaning, or of a limit beyond which that goes, or as memory is out or its file is not written. Or no page is done,
/// and nothing is written, and the status is not 0.
pub fn pages_of_items_end<R: Sources>(sources: &R)
    ensures { (call : EachCall) (input : Option (List ℕ)) (status : ℕ) (was now : Log)
        (r : RendersEachCall (R.world sources.now) call input status was now) → IsUtf8 call.name.now
        → ((table : Table) × (others : Entries) × (items : List Value) × (done : List DonePage)
        × IsTable (with_text call.render.file.now r.text r.folder).texts table
        × IsSplit call.key.now r.value others (vals_view items)
        × DoneInOrder call.keep_going (EndsItem (R.world sources.now)
        (with_text call.render.file.now r.text r.folder) table (each_asked call) others) items done was now
        × (status ≡ 0 → AreWell done))
        ⊎ ((status ≡ 0 → ⊥) × (now ≡ was)) }
{}

/// States that what a call of `build` writes, if its status is 0, are texts of meanings and copies, by one such table:
/// for each file that the folder lists, in their order, what a template's text means on the context, in the layout, or
/// what another file holds.
pub fn pages_of_files_are<R: Sources>(sources: &R)
    ensures { (call : BuildCall) (input : Option (List ℕ)) (was now : Log)
        (r : BuildsCall (R.world sources.now) call input 0 was now)
        → (table : Table) × (files : List (String Global × Option ReadFault))
        × IsTable (with_page r.layout r.folder).texts table
        × (R.world sources.now).lists call.render.file.now call.render.follow files
        × InOrder (PutsFile (R.world sources.now) (with_page r.layout r.folder) table (build_asked call) r.value)
        files was now }
{}

/// States how the pages of each call of `build` end, also within limits, and where one fails: by one such table, in the
/// order of the files that the folder lists, and up to the first that fails unless it is asked to go on. Each has as
/// its text what a template's text means on the context, in the layout, or it is what another file holds, which is
/// written under its name; or it fails with the fault of that meaning, or with the first fault of the text, or of a
/// limit, or as memory is out or a file is not read or not written. Or no page is done, and nothing is written, and the
/// status is not 0.
pub fn pages_of_files_end<R: Sources>(sources: &R)
    ensures { (call : BuildCall) (input : Option (List ℕ)) (status : ℕ) (was now : Log)
        (r : BuildsCall (R.world sources.now) call input status was now)
        → ((table : Table) × (files : List (String Global × Option ReadFault)) × (done : List DonePage)
        × IsTable (with_page r.layout r.folder).texts table
        × (R.world sources.now).lists call.render.file.now call.render.follow files
        × DoneInOrder call.keep_going (EndsFile (R.world sources.now) (with_page r.layout r.folder) table
        (build_asked call) r.value) files done was now
        × (status ≡ 0 → AreWell done))
        ⊎ ((status ≡ 0 → ⊥) × (now ≡ was)) }
{}

/// States that the texts that a call of `check` found right, if its status is 0, are right by one such table: those of
/// each FILE, and those of the folder's files that are held; their calls too, by what the words say that they may call.
pub fn checked_texts_are<R: Sources>(sources: &R)
    ensures { (call : CheckCall) (input : Option (List ℕ)) (r : ChecksCall (R.world sources.now) call input 0)
        → (table : Table) × (texts : List (List ℕ)) × (later : Option (List ℕ))
        × IsTable r.folder.texts table × AreTexts (R.world sources.now) call.files.items input texts later
        × EachIsRight r.callables r.folder.syntax table call.files.items texts
        × MayCall call r.callables
        × EachName (λ name. (held : Stored) × (r.folder.texts name ≡ Some held)
        × IsRightTemplate r.callables r.folder.syntax table name held.text)
        (map (λ file. string_bytes file.name) r.files) }
{}

/// States that what a call of `check` on contexts found right, if its status is 0, ends on each of them: what each FILE
/// means, by a table of the trees of its text and of the folder's files, ends without a fault on each value of the
/// shape that is known of the contexts, but that includes may be too deep one inside another.
pub fn fitting_files_end<R: Sources>(sources: &R)
    ensures { (call : FitCall) (input : Option (List ℕ)) (r : FitsWell (R.world sources.now) call input)
        → All (λ file. (text : List ℕ) × (table : Table) × IsTextOf (R.world sources.now) file.now None text
        × (let e = filled (asked_of call.check.escape call.check.standard)
        (texts_read r.files ++ (file.now, text) ∷ []) in IsTable e.texts table × NamedEnds e table file.now r.shape))
        call.check.files.items }
{}
