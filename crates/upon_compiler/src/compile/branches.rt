// The branches of an `if` and of a loop.
ghost use Rattle.std.specs.Prelude.{◌≡◌, [], OnOk, IfOk, length};
ghost use Rattle.upon_types.specs.AstPath.{loop_vars_of};
ghost use Rattle.upon_types.specs.BlockKinds.{if_block, for_block, if_tag, for_tag};
ghost use Rattle.upon_types.specs.declared.types.Span.{Span};
ghost use Rattle.upon_machine_spec.specs.Code.{jump_unless};
ghost use Rattle.upon_compiler.specs.Program.{instr_of, program_view};
ghost use Rattle.upon_compiler.specs.After.{after_event, between_branches, branch_ended, else_if_begun, else_ifs_ended};
ghost use Rattle.upon_compiler.specs.Events.{opening_event, else_if_event, else_event, end_event};

use super::{Compiler, OpenBlock};
use crate::types::program::Instr;
use std::alloc::AllocError;
use upon_types::types::Span;
use upon_types::types::ast::LoopVars;

/// Goes past what a condition rules out.
fn jump_unless(not: bool, to: usize) -> Instr
    ensures { instr_of result ≡ jump_unless not to }
{
    if not {
        Instr::JumpIfTrue(to)
    } else {
        Instr::JumpIfFalse(to)
    }
}

impl OpenBlock {
    ghost use Rattle.upon_compiler.specs.After.{is_else_if};

    /// Whether it is an `if` that goes on with an `else if`.
    fn is_else_if(self) -> bool
        ensures { result ≡ is_else_if self }
    {
        matches!(self, OpenBlock::ElseIf(_))
    }
}

impl Compiler {
    ghost use Rattle.upon_compiler.specs.After.{LeavesElseIf};
    ghost use Rattle.upon_compiler.specs.Compiler.{code_of, blocks_of, compiler_state};

    /// Begins an `if`, whose condition has these instructions and may be negated, and leaves none of them behind. It
    /// fails if memory is out.
    pub fn begin_if(&mut self, code: &mut Vec<Instr>, not: bool) -> Result<(), AllocError>
        ensures state { (at : Span) → OnOk result (compiler_state self.new
            ≡ after_event (opening_event (if_tag not) at (program_view code.old.items)) (compiler_state self.old)) }
        ensures moved { OnOk result (code.new.items ≡ []) }
    {
        self.append(code)?;
        let start = self.len();
        self.push(Instr::Jump(0))?;
        self.enter(OpenBlock::If(not, start))?;
        Ok(())
    }

    /// Goes on with an `else if` after the first branch of the innermost block, which is an `if`. The condition has
    /// these instructions and may be negated; none of them is left behind. It fails if memory is out.
    pub fn else_if(&mut self, code: &mut Vec<Instr>, not: bool) -> Result<(), AllocError>
        ensures state { OnOk result (compiler_state self.new
            ≡ after_event (else_if_event not (program_view code.old.items)) (compiler_state self.old)) }
        ensures moved { OnOk result (code.new.items ≡ []) }
    {
        self.end_first_branch()?;
        self.begin_if(code, not)?;
        Ok(())
    }

    /// Goes on with the other branch of the innermost block, which is an `if` or a `for`. It fails if memory is out.
    pub fn begin_else(&mut self) -> Result<(), AllocError>
        ensures { OnOk result (compiler_state self.new ≡ after_event else_event (compiler_state self.old)) }
    {
        let Some(block) = self.leave() else {
            return Ok(());
        };
        match block {
            OpenBlock::If(not, start) => {
                let past = self.go_past(not, start)?;
                self.enter(OpenBlock::Else(past))?;
                Ok(())
            }
            OpenBlock::For(next) => {
                self.push(Instr::Jump(next))?;
                let other = self.len();
                self.enter(OpenBlock::ForElse(next, other))?;
                Ok(())
            }
            _ => Ok(()),
        }
    }

    /// Ends the innermost block, which is an `if`. If it is an `else if`, the `if` around it ends too, and so on up.
    pub fn end_if(&mut self)
        ensures { compiler_state self.new ≡ after_event (end_event if_block) (compiler_state self.old) }
    {
        let Some(block) = self.leave() else {
            return;
        };
        self.end_branch(block);
        self.end_else_ifs();
    }

    /// Begins a loop, whose list has these instructions and is at this span, and leaves none of them behind. It fails
    /// if memory is out.
    pub fn begin_for(
        &mut self,
        code: &mut Vec<Instr>,
        vars: Box<LoopVars>,
        span: Span,
    ) -> Result<(), AllocError>
        ensures state { OnOk result (compiler_state self.new
            ≡ after_event (opening_event (for_tag (loop_vars_of vars.value)) span (program_view code.old.items))
            (compiler_state self.old)) }
        ensures moved { OnOk result (code.new.items ≡ []) }
    {
        self.append(code)?;
        self.push(Instr::LoopStart(vars, span))?;
        let next = self.len();
        self.push(Instr::LoopNext(0))?;
        self.enter(OpenBlock::For(next))?;
        Ok(())
    }

    /// Ends the innermost block, which is a loop. It fails if memory is out.
    pub fn end_for(&mut self) -> Result<(), AllocError>
        ensures { OnOk result (compiler_state self.new ≡ after_event (end_event for_block) (compiler_state self.old)) }
    {
        let Some(block) = self.leave() else {
            return Ok(());
        };
        match block {
            OpenBlock::For(next) => {
                self.push(Instr::Jump(next))?;
                let past = self.len();
                self.replace(next, Instr::LoopNext(past));
                Ok(())
            }
            OpenBlock::ForElse(next, other) => {
                let past = self.len();
                self.replace(next, Instr::LoopNextElse(other, past));
                Ok(())
            }
            _ => Ok(()),
        }
    }

    /// Ends the first branch of the innermost block, which is an `if`, where an `else if` comes next.
    fn end_first_branch(&mut self) -> Result<(), AllocError>
        ensures { OnOk result (compiler_state self.new ≡ else_if_begun (code_of self.old) (blocks_of self.old)) }
    {
        let Some(block) = self.leave() else {
            return Ok(());
        };
        let OpenBlock::If(not, start) = block else {
            return Ok(());
        };
        let past = self.go_past(not, start)?;
        self.enter(OpenBlock::ElseIf(past))?;
        Ok(())
    }

    /// Ends the first branch of an `if` with the jump past the other one, and returns that jump's number. The jump of
    /// the first number goes to the other branch.
    fn go_past(&mut self, not: bool, start: usize) -> Result<usize, AllocError>
        ensures number { IfOk result (λ past. past ≡ length (code_of self.old)) }
        ensures code { OnOk result (code_of self.new ≡ between_branches not start (code_of self.old)) }
        ensures blocks { blocks_of self.new ≡ blocks_of self.old }
    {
        let past = self.len();
        self.push(Instr::Jump(0))?;
        let other = self.len();
        self.replace(start, jump_unless(not, other));
        Ok(past)
    }

    /// Writes the jump past the last branch of an `if`.
    fn end_branch(&mut self, block: OpenBlock)
        ensures code { code_of self.new ≡ branch_ended block (code_of self.old) }
        ensures blocks { blocks_of self.new ≡ blocks_of self.old }
    {
        let end = self.len();
        match block {
            OpenBlock::If(not, start) => self.replace(start, jump_unless(not, end)),
            OpenBlock::Else(past) => self.replace(past, Instr::Jump(end)),
            OpenBlock::ElseIf(past) => self.replace(past, Instr::Jump(end)),
            _ => {}
        }
    }

    /// Ends each `if` that went on with an `else if` that ends here.
    fn end_else_ifs(&mut self)
        ensures { compiler_state self.new ≡ else_ifs_ended (code_of self.old) (blocks_of self.old) }
    {
        while let Some(block) = self.leave_else_if() {
            self.end_branch(block);
        }
    }

    /// Closes the innermost block if it is an `if` that goes on with an `else if`, and returns it.
    fn leave_else_if(&mut self) -> Option<OpenBlock>
        ensures code { code_of self.new ≡ code_of self.old }
        ensures block { LeavesElseIf result (blocks_of self.old) (blocks_of self.new) }
    {
        let Some(block) = self.blocks.last().copied() else {
            return None;
        };
        if !block.is_else_if() {
            return None;
        }
        self.leave()
    }
}
