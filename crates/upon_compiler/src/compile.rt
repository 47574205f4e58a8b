// The compiler: it is told of a template piece by piece, and appends the instructions of each. A jump past
// instructions is written once they are there, and until then the block that it belongs to is on a stack.
ghost use Rattle.std.specs.Prelude.{◌≡◌, ◌++◌, [], ◌∷◌, OnOk, MatchOption, length, slice_set};
ghost use Rattle.upon_types.specs.AstPath.{ident_of, string_of};
ghost use Rattle.upon_types.specs.BlockKinds.{with_block, with_tag};
ghost use Rattle.upon_types.specs.declared.types.Span.{Span};
ghost use Rattle.upon_compiler.specs.Program.{instr_of, program_view};
ghost use Rattle.upon_compiler.specs.After.{after_event, outer};
ghost use Rattle.upon_compiler.specs.Events.{raw_event, shown_event, opening_event, end_event, include_event};
ghost use Rattle.upon_compiler.specs.Events.{include_with_event};

mod branches;

use crate::types::program::Instr;
use std::alloc::{AllocError, Global};
use upon_types::types::Span;
use upon_types::types::ast::{Ident, String};

/// An open block. A number is that of an instruction whose jump is not written yet.
#[derive(Clone, Copy)]
enum OpenBlock {
    /// The first branch of an `if`: whether the condition is negated, and the jump past the branch.
    If(bool, usize),
    /// The other branch of an `if`: the jump past it.
    Else(usize),
    /// An `if` that goes on with an `else if`, which ends with it: the jump past that.
    ElseIf(usize),
    /// The body of a loop: its next turn.
    For(usize),
    /// The other branch of a loop: the loop's next turn, and the instruction with which the branch begins.
    ForElse(usize, usize),
    /// The body of a `with`.
    With,
}

/// A compiler: the instructions so far, and the open blocks, the innermost last.
#[derive(Drop)]
pub struct Compiler {
    instrs: Vec<Instr>,
    blocks: Vec<OpenBlock>,
}

impl Compiler {
    ghost use Rattle.upon_compiler.specs.Compiler.{code_of, blocks_of, compiler_state, nothing};

    /// Creates a compiler that was told of nothing.
    pub fn new(alloc: Global) -> Compiler
        ensures { compiler_state result ≡ nothing }
    {
        Compiler {
            instrs: Vec::new(alloc),
            blocks: Vec::new(alloc),
        }
    }

    /// Returns the instructions.
    pub fn finish(self) -> Vec<Instr>
        ensures { program_view result.items ≡ code_of self }
    {
        let Compiler { instrs, .. } = self;
        instrs
    }

    /// Appends a raw part. It fails if memory is out.
    pub fn raw(&mut self, span: Span) -> Result<(), AllocError>
        ensures { OnOk result (compiler_state self.new ≡ after_event (raw_event span) (compiler_state self.old)) }
    {
        self.push(Instr::EmitRaw(span))?;
        Ok(())
    }

    /// Appends the instructions that show an expression, and leaves none of them behind. It fails if memory is out.
    pub fn shown(&mut self, code: &mut Vec<Instr>) -> Result<(), AllocError>
        ensures state { OnOk result (compiler_state self.new
            ≡ after_event (shown_event (program_view code.old.items)) (compiler_state self.old)) }
        ensures moved { OnOk result (code.new.items ≡ []) }
    {
        self.append(code)?;
        Ok(())
    }

    /// Begins a `with`, whose expression has these instructions, and leaves none of them behind. It fails if memory
    /// is out.
    pub fn begin_with(&mut self, code: &mut Vec<Instr>, name: Ident) -> Result<(), AllocError>
        ensures state { (at : Span) → OnOk result (compiler_state self.new
            ≡ after_event (opening_event (with_tag (ident_of name)) at (program_view code.old.items))
            (compiler_state self.old)) }
        ensures moved { OnOk result (code.new.items ≡ []) }
    {
        self.append(code)?;
        self.push(Instr::WithStart(name))?;
        self.enter(OpenBlock::With)?;
        Ok(())
    }

    /// Ends the innermost block, which is a `with`. It fails if memory is out.
    pub fn end_with(&mut self) -> Result<(), AllocError>
        ensures { OnOk result (compiler_state self.new ≡ after_event (end_event with_block) (compiler_state self.old)) }
    {
        self.leave();
        self.push(Instr::WithEnd)?;
        Ok(())
    }

    /// Appends an include of the template with this name. It fails if memory is out.
    pub fn include(&mut self, name: String) -> Result<(), AllocError>
        ensures { OnOk result (compiler_state self.new
            ≡ after_event (include_event (string_of name)) (compiler_state self.old)) }
    {
        self.push(Instr::Include(name))?;
        Ok(())
    }

    /// Appends an include of the template with this name, which sees the value of the expression that has these
    /// instructions, and leaves none of them behind. It fails if memory is out.
    pub fn include_with(&mut self, code: &mut Vec<Instr>, name: String) -> Result<(), AllocError>
        ensures state { OnOk result (compiler_state self.new
            ≡ after_event (include_with_event (string_of name) (program_view code.old.items))
            (compiler_state self.old)) }
        ensures moved { OnOk result (code.new.items ≡ []) }
    {
        self.append(code)?;
        self.push(Instr::IncludeWith(name))?;
        Ok(())
    }

    /// Returns the allocator.
    fn alloc(&self) -> Global {
        *self.instrs.allocator()
    }

    /// Returns how many instructions there are.
    fn len(&self) -> usize
        ensures { result ≡ length (code_of self.now) }
    {
        self.instrs.len()
    }

    /// Appends an instruction.
    fn push(&mut self, instr: Instr) -> Result<(), AllocError>
        ensures code { OnOk result (code_of self.new ≡ code_of self.old ++ instr_of instr ∷ []) }
        ensures blocks { blocks_of self.new ≡ blocks_of self.old }
    {
        self.instrs.push(instr)?;
        Ok(())
    }

    /// Moves instructions to the end.
    fn append(&mut self, code: &mut Vec<Instr>) -> Result<(), AllocError>
        ensures code { OnOk result (code_of self.new ≡ code_of self.old ++ program_view code.old.items) }
        ensures moved { OnOk result (code.new.items ≡ []) }
        ensures blocks { blocks_of self.new ≡ blocks_of self.old }
    {
        self.instrs.append(code)?;
        Ok(())
    }

    /// Replaces the instruction of this number, if there is one.
    fn replace(&mut self, at: usize, instr: Instr)
        ensures code { code_of self.new ≡ slice_set (code_of self.old) at (instr_of instr) }
        ensures blocks { blocks_of self.new ≡ blocks_of self.old }
    {
        let count = self.instrs.len();
        if at < count {
            self.instrs[at] = instr;
        }
    }

    /// Opens a block.
    fn enter(&mut self, block: OpenBlock) -> Result<(), AllocError>
        ensures code { code_of self.new ≡ code_of self.old }
        ensures blocks { OnOk result (blocks_of self.new ≡ block ∷ blocks_of self.old) }
    {
        self.blocks.push(block)?;
        Ok(())
    }

    /// Closes the innermost block, if there is one, and returns it.
    fn leave(&mut self) -> Option<OpenBlock>
        ensures code { code_of self.new ≡ code_of self.old }
        ensures blocks { blocks_of self.new ≡ outer (blocks_of self.old) }
        ensures block { MatchOption result (blocks_of self.old ≡ [])
            (λ block. blocks_of self.old ≡ block ∷ blocks_of self.new) }
    {
        self.blocks.pop()
    }
}
