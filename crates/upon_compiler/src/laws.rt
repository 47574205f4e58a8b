// What a compiler gives.
ghost use Rattle.std.specs.Prelude.{◌≡◌, List, []};
ghost use Rattle.upon_types.specs.Tree.{Statements};
ghost use Rattle.upon_machine_spec.specs.Code.{program_of};
ghost use Rattle.upon_compiler.specs.After.{after_all};
ghost use Rattle.upon_compiler.specs.Compiler.{nothing, state};
ghost use Rattle.upon_compiler.specs.Events.{Event};
ghost use Rattle.upon_compiler.specs.Told.{AreTold};

/// States that a compiler that is told of the pieces of a tree has the tree's program, and no block is open.
pub fn program_is_of_tree()
    ensures { (tree : Statements) (events : List Event)
        → AreTold tree events [] → after_all events nothing ≡ state (program_of tree) [] }
{}
