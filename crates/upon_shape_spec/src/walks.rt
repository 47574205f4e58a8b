// What a walk along a tree's program doubts.
ghost use Rattle.std.specs.Prelude.{◌≡◌, ℕ, List, Bool};
ghost use Rattle.upon_types.specs.Tree.{Statements};
ghost use Rattle.upon_machine_spec.specs.Code.{program_of};
ghost use Rattle.upon_shape_spec.specs.Declared.{Declared};
ghost use Rattle.upon_shape_spec.specs.Doubts.{statements_doubts};
ghost use Rattle.upon_shape_spec.specs.Scope.{Scope};
ghost use Rattle.upon_shape_spec.specs.Known.{known_at_begin};
ghost use Rattle.upon_shape_spec.specs.ProgramDoubts.{program_doubts};

/// States that what is in doubt along a tree's program is what is in doubt in the tree, in the same order.
pub fn doubts_of_the_tree()
    ensures { (declared : Declared) (included : List ℕ → Scope → Bool) (scope : Scope) (tree : Statements)
        → program_doubts declared included 0 (known_at_begin scope) (program_of tree)
        ≡ statements_doubts declared included scope tree }
{}
