// What a compiled template keeps, and the laws of that.

ghost use Rattle.std.specs.Prelude.{◌≡◌, ℕ, List};
ghost use Rattle.upon_types.specs.Tree.{Statements};
ghost use Rattle.upon_types.specs.TreeSpans.{TreeLiesIn};
ghost use Rattle.upon_language_spec.specs.Grammar.{HasTree};
ghost use Rattle.upon_language_spec.specs.Search.{DelimiterText};
ghost use Rattle.upon_machine_spec.specs.Code.{program_of};
ghost use Rattle.upon_meaning_spec.specs.Engine.{Table, from_table};
ghost use Rattle.upon_meaning_spec.specs.RenderFaults.{TemplatesLie};
ghost use Rattle.upon_compiler.specs.Program.{program_view};
ghost use Rattle.upon_compiler.specs.declared.types.program.Instr.{Instr};
ghost use Rattle.upon_compiler.specs.Compiled.{HasProgram, the_tree};

/// States that the tree of a compiled template is the only one of its text; the instructions are its program, and its
/// spans lie in the text.
pub fn compiled_tree()
    ensures only_tree { (delimiters : List DelimiterText) (s : List ℕ) (instrs : List Instr)
        (h : HasProgram delimiters s instrs) (tree : Statements) → HasTree delimiters s tree → tree
        ≡ (the_tree delimiters s instrs h).0 }
    ensures program { (delimiters : List DelimiterText) (s : List ℕ) (instrs : List Instr)
        (h : HasProgram delimiters s instrs)
        → program_view instrs ≡ program_of (the_tree delimiters s instrs h).0 }
    ensures spans { (delimiters : List DelimiterText) (s : List ℕ) (instrs : List Instr)
        (h : HasProgram delimiters s instrs)
        → TreeLiesIn s (the_tree delimiters s instrs h).0 }
{}
