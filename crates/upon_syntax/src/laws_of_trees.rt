// What the two ways to read a text, to its program and to its tree, have in common.
ghost use Rattle.std.specs.Prelude.{◌≡◌, ℕ, List};
ghost use Rattle.upon_types.specs.declared.error.Error.{Error};
ghost use Rattle.upon_types.specs.Error.{fault_of};
ghost use Rattle.upon_types.specs.Fault.{syntax};
ghost use Rattle.upon_language_spec.specs.Grammar.{HasTree};
ghost use Rattle.upon_language_spec.specs.Search.{DelimiterText, HasTexts};
ghost use Rattle.upon_compiler.specs.Program.{program_view};
ghost use Rattle.upon_compiler.specs.declared.types.program.Instr.{Instr};
ghost use Rattle.upon_machine_spec.specs.Code.{program_of};
ghost use Rattle.upon_tree.specs.Ast.{tree_of};
ghost use Rattle.upon_tree.specs.declared.ast.Template.{Template};
ghost use Rattle.upon_syntax.specs.Parsed.{IsParsedProgram};
ghost use Rattle.upon_syntax.specs.TagReading.{IsSyntaxError};

/// States that two errors about one text report the same fault, to its picture, as long as neither says that memory is
/// out: that of `parse_template` is that of `compile_template`.
pub fn one_fault()
    ensures { (delimiters : List DelimiterText) (s : List ℕ) (a b : Error) → HasTexts delimiters
        → IsSyntaxError delimiters s a → IsSyntaxError delimiters s b
        → (fault_of a).kind ≡ syntax → (fault_of b).kind ≡ syntax → fault_of a ≡ fault_of b }
{}

/// States that a text's program is that of its tree: what `compile_template` makes of a text is the program of what
/// `parse_template` makes of it.
pub fn one_program()
    ensures { (delimiters : List DelimiterText) (s : List ℕ) (code : List Instr) (template : Template)
        → HasTexts delimiters → IsParsedProgram delimiters s code → HasTree delimiters s (tree_of template)
        → program_view code ≡ program_of (tree_of template) }
{}
