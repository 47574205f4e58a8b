// Where the templates of includes come from.
ghost use Rattle.std.specs.Prelude.{◌≡◌, ℕ, List};
ghost use Rattle.upon_meaning_spec.specs.Engine.{Resolver};
ghost use Rattle.upon_meaning_spec.specs.RenderFaults.{TemplatesLie};
ghost use Rattle.upon_vm_steps.specs.Program.{Resolved};

use upon_compiler::types::program::Instr;

/// A compiled template that is lent for a rendering: its text and its instructions.
#[derive(Clone, Copy)]
pub struct Program<'r> {
    pub source: &'r str,
    pub instrs: &'r [Instr],
}

/// Why there is no program of a name.
#[derive(Debug, Drop)]
pub enum NoProgram {
    /// The engine's table has no template of the name.
    Unknown,
    /// A source refuses, with this text.
    Refused(String),
    /// There was no memory.
    Memory,
}

/// What gives templates by their names.
///
/// Answer and next state are functions of the state and the name, out of memory aside.
pub trait ProgramSource<'r>: Drop {
    /// What the answers depend on, beside the name.
    ghost State: { Type 0 };

    ghost template_state: { Self → State };

    /// The answer and the next state, in each state and for each name.
    ghost resolve: { Self → Resolver State };

    /// The references that it holds.
    ghost holds: { Self → List ℕ };

    /// The spans in the trees of all templates that answer lie in their texts.
    ghost templates_lie: { (s : Self) → TemplatesLie (resolve s) };

    /// Returns the template of this name.
    fn program(&mut self, name: &str) -> Result<Program<'r>, NoProgram>
        ensures same { holds self.new ≡ holds self.old }
        ensures stays { resolve self.new ≡ resolve self.old }
        ensures resolved { Resolved result (template_state self.new)
            (resolve self.old (template_state self.old) name.now) };
}

impl<'r, S: ProgramSource<'r>> ProgramSource<'r> for &mut S {
    ghost use Rattle.std.specs.Prelude.{◌∷◌};

    ghost State = { S.State };

    ghost template_state = { λ s. S.template_state s.now };

    ghost resolve = { λ s. S.resolve s.now };

    ghost holds = { λ s. s.ghost_name ∷ S.holds s.now };

    ghost templates_lie = { λ s. S.templates_lie s.now };

    fn program(&mut self, name: &str) -> Result<Program<'r>, NoProgram> {
        (**self).program(name)
    }
}
