// A law of what is written and read again. Nothing runs here: the clause is the law.
ghost use Rattle.std.specs.Prelude.{◌≡◌, List, [], Some};
ghost use Rattle.serde.specs.Event.{Event};
ghost use Rattle.upon_types.specs.Events.{SendsVal};
ghost use Rattle.upon_types.specs.Val.{Val};
ghost use Rattle.upon_serde.specs.Again.{Ascends};
ghost use Rattle.upon_serde.specs.Reads.{ReadsDatum};

/// Of what a value sends no other value is read: a value that is written and read again is the same value.
pub fn read_again()
    ensures { (v w : Val) (log : List Event)
        → Ascends v
        → SendsVal v (Some []) (Some log)
        → ReadsDatum log [] w
        → w ≡ v }
{}
