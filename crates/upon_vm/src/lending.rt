// What is lent at a point of a run: what the context has and what stands in a template, with all that is in it. What a
// template makes is not lent.
ghost use Rattle.std.specs.Prelude.{◌≡◌};
ghost use Rattle.upon_types.specs.AstPath.{access_of, loop_vars_of};
ghost use Rattle.upon_vm.specs.Lending.{item_lends, path_begins};

use std::alloc::{AllocError, Global};
use upon_compiler::types::program::Instr;
use upon_types::types::ast::{Access, Ident, LoopVars};

/// What an open block binds, and whether that is lent.
#[derive(Clone, Copy)]
pub(crate) enum Lender<'r> {
    /// An include that sees all names.
    Open,
    /// The context of an include, which hides all names.
    Context(bool),
    /// The name of a `with`.
    Name(&'r Ident, bool),
    /// The names of a loop, and whether its items are lent.
    Loop(&'r LoopVars, bool),
}

impl<'r> Lender<'r> {
    ghost use Rattle.std.specs.Prelude.{◌≡◌};
    ghost use Rattle.upon_types.specs.AstPath.{access_of};
    ghost use Rattle.upon_vm.specs.Lending.{lender_lends, lender_of};

    // Whether what a path finds is lent, by its first member, where this is so of what is below.
    fn lends(self, first: &Access, below: bool) -> bool
        ensures { result ≡ lender_lends (lender_of self.entry) (access_of first.now) below }
    {
        match self {
            Lender::Open => below,
            Lender::Context(lent) => lent,
            Lender::Name(word, lent) => {
                if path_begins(first, word.name.as_str()) {
                    lent
                } else {
                    below
                }
            }
            Lender::Loop(vars, lent) => {
                if path_begins(first, "loop") {
                    false
                } else {
                    item_lends(vars, lent, first, below)
                }
            }
        }
    }
}

/// What is lent: whether the operand on top is, and what the open blocks bind.
#[derive(Drop)]
pub(crate) struct Lending<'r> {
    /// Whether the operand on top is lent.
    pub(crate) is_top_lent: bool,
    // What the open blocks bind, the innermost last.
    lenders: Vec<Lender<'r>>,
}

impl<'r> Lending<'r> {
    ghost use Rattle.std.specs.Prelude.{◌≡◌, true, OnOk, option_map};
    ghost use Rattle.upon_types.specs.AstPath.{access_of};
    ghost use Rattle.upon_compiler.specs.Program.{instr_of};
    ghost use Rattle.upon_vm.specs.Lending.{closed_if, lenders_lend, lending_after, lending_of, lends_top, nothing_bound};

    /// Nothing is bound yet.
    pub(crate) fn new(alloc: Global) -> Lending<'r>
        ensures { lending_of result ≡ nothing_bound }
    {
        Lending {
            is_top_lent: false,
            lenders: Vec::new(alloc),
        }
    }

    /// Follows the run after an instruction, or after the last one of a template: it goes on at the instruction of this
    /// number.
    pub(crate) fn follow(&mut self, instr: Option<&'r Instr>, at: usize) -> Result<(), AllocError>
        ensures { OnOk result (lending_of self.new
            ≡ lending_after (lending_of self.old) (option_map (λ i. instr_of i.now) instr.entry) at) }
    {
        let lent = self.is_top_lent;
        self.is_top_lent = self.lends_top(instr);
        match instr {
            Some(Instr::LoopStart(vars, _)) => self.lenders.push(Lender::Loop(vars, lent))?,
            Some(Instr::WithStart(word)) => self.lenders.push(Lender::Name(word, lent))?,
            Some(Instr::IncludeWith(_)) => self.lenders.push(Lender::Context(lent))?,
            Some(Instr::Include(_)) => self.lenders.push(Lender::Open)?,
            Some(Instr::WithEnd) | None => self.close_if(true),
            Some(Instr::LoopNext(end)) => self.close_if(at == *end),
            Some(Instr::LoopNextElse(other, past)) => self.close_if(at == *other || at == *past),
            _ => {}
        }
        Ok(())
    }

    // Whether the operand on top is lent after an instruction.
    fn lends_top(&self, instr: Option<&Instr>) -> bool
        ensures { result ≡ lends_top (lending_of self.now).lenders (option_map (λ i. instr_of i.now) instr.entry) }
    {
        match instr {
            Some(Instr::ExprStartVar(var)) => self.lends(&var.first().access),
            Some(Instr::ExprStartLiteral(_)) => true,
            _ => false,
        }
    }

    // Whether what a path finds is lent, by its first member.
    fn lends(&self, first: &Access) -> bool
        ensures { result ≡ lenders_lend true (lending_of self.now).lenders (access_of first.now) }
    {
        let mut lent = true;
        for lender in &self.lenders {
            lent = lender.lends(first, lent);
        }
        lent
    }

    // Without the innermost block, if that is over.
    fn close_if(&mut self, is_over: bool)
        ensures lenders { (lending_of self.new).lenders ≡ closed_if is_over (lending_of self.old).lenders }
        ensures top { self.new.is_top_lent ≡ self.old.is_top_lent }
    {
        if is_over {
            drop(self.lenders.pop());
        }
    }
}

// Whether a path begins with a name.
fn path_begins(first: &Access, name: &str) -> bool
    ensures { result ≡ path_begins (access_of first.now) name.now }
{
    match first {
        Access::Key(word) => word.name.as_str() == name,
        Access::Index(_) => false,
    }
}

// Whether what a path finds is lent, by its first member, where a loop binds these names.
fn item_lends(vars: &LoopVars, lent: bool, first: &Access, below: bool) -> bool
    ensures { result ≡ item_lends (loop_vars_of vars.now) lent (access_of first.now) below }
{
    match vars {
        LoopVars::Item(word) => {
            if path_begins(first, word.name.as_str()) {
                lent
            } else {
                below
            }
        }
        LoopVars::KeyValue(both) => {
            if path_begins(first, both.key.name.as_str()) {
                false
            } else if path_begins(first, both.value.name.as_str()) {
                lent
            } else {
                below
            }
        }
    }
}
