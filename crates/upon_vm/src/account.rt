// The bytes of values that a run makes: each value is counted once, when it is made. Nothing is weighed if no limit of
// values is set.
ghost use Rattle.std.specs.Prelude.{◌≡◌, IfOk};
ghost use Rattle.upon_vm_steps.specs.Operands.{operands_of};
ghost use Rattle.upon_vm.specs.Weight.{as_count, copy_weight};

use crate::lending::Lending;
use crate::weight::{PLACE, weight};
use std::alloc::{AllocError, Global};
use upon_compiler::types::program::Instr;
use upon_lookup::source::ValueSource;
use upon_vm_steps::machine::Machine;
use upon_vm_steps::operands::Operands;
use upon_vm_steps::source::ProgramSource;
use upon_vm_steps::step::fetch;

/// A step to come: its instruction, or `None` after a template's last one; and how many bytes it puts into a list or a
/// map. If no limit is set, nothing is looked at: there is no instruction, and 0 bytes.
#[derive(Clone, Copy)]
pub(crate) struct Coming<'r> {
    instr: Option<&'r Instr>,
    put_in: usize,
}

/// The bytes of values that were made so far, and what is lent.
#[derive(Drop)]
pub(crate) struct Account<'r> {
    /// How many bytes were made.
    pub(crate) made: usize,
    lending: Lending<'r>,
}

impl<'r> Account<'r> {
    ghost use Rattle.std.specs.Prelude.{◌≡◌, ◌+◌, not, IfOk, IsSome, OnOk, option_map, slice_get};
    ghost use Rattle.upon_compiler.specs.Program.{instr_of};
    ghost use Rattle.upon_vm_steps.specs.Machine.{active_of};
    ghost use Rattle.upon_vm_steps.specs.Operands.{operands_of};
    ghost use Rattle.upon_vm.specs.Lending.{lending_after, lending_of, nothing_bound};
    ghost use Rattle.upon_vm.specs.Weight.{as_count, put_in, started};

    /// Nothing was made yet.
    pub(crate) fn new(alloc: Global) -> Account<'r>
        ensures made { result.made ≡ 0 }
        ensures lending { lending_of result.lending ≡ nothing_bound }
    {
        Account {
            made: 0,
            lending: Lending::new(alloc),
        }
    }

    /// Returns the step to come. It fails if there is no memory to weigh what is put in.
    pub(crate) fn coming<V: ValueSource, T: ProgramSource<'r>>(
        &self,
        alloc: Global,
        limit: Option<usize>,
        machine: &Machine<'r, V, T>,
    ) -> Result<Coming<'r>, AllocError>
        ensures instr { IfOk result (λ coming. IsSome limit → option_map (λ i. instr_of i.now) coming.instr
            ≡ slice_get (active_of machine.now.running).code machine.now.position) }
        // If a limit is set, the operand on top is copied exactly if it is lent.
        ensures puts { IfOk result (λ coming. IsSome limit → coming.put_in
            ≡ as_count (put_in (lending_of self.now.lending).top
            (slice_get (active_of machine.now.running).code machine.now.position)
            (operands_of machine.now.operands))) }
    {
        if limit.is_none() {
            return Ok(Coming {
                instr: None,
                put_in: 0,
            });
        }
        let instr = fetch(machine.running.program, machine.position);
        let put_in = self.bytes_put_in(alloc, instr, &machine.operands)?;
        Ok(Coming { instr, put_in })
    }

    /// Counts what a step made that went on: what it put in, and what it left on top, if it starts a variable with a
    /// copy or applies a callable. Nothing is counted if no limit is set.
    ///
    /// It fails if there is no memory for what is lent, or to weigh what was made.
    pub(crate) fn add<V: ValueSource, T: ProgramSource<'r>>(
        &mut self,
        alloc: Global,
        limit: Option<usize>,
        coming: Coming<'r>,
        machine: &Machine<'r, V, T>,
    ) -> Result<(), AllocError>
        ensures lending { OnOk result (IsSome limit → lending_of self.new.lending
            ≡ lending_after (lending_of self.old.lending) (option_map (λ i. instr_of i.now) coming.entry.instr)
            machine.now.position) }
        ensures made { OnOk result (IsSome limit → self.new.made ≡ as_count (self.old.made + (coming.entry.put_in
            + started (not (lending_of self.new.lending).top) (option_map (λ i. instr_of i.now) coming.entry.instr)
            (operands_of machine.now.operands)))) }
    {
        if limit.is_none() {
            return Ok(());
        }
        self.lending.follow(coming.instr, machine.position)?;
        let started = self.bytes_started(alloc, coming.instr, &machine.operands)?;
        self.made = self
            .made
            .saturating_add(coming.put_in)
            .saturating_add(started);
        Ok(())
    }

    // How many bytes an instruction puts into a list or a map: the place of the item or the entry, with its key, and a
    // copy of the operand on top if that is lent.
    fn bytes_put_in(
        &self,
        alloc: Global,
        instr: Option<&Instr>,
        operands: &Operands<'r>,
    ) -> Result<usize, AllocError>
        ensures { IfOk result (λ bytes. bytes ≡ as_count (put_in (lending_of self.now.lending).top
            (option_map (λ i. instr_of i.now) instr.entry) (operands_of operands.now))) }
    {
        let place = match instr {
            Some(Instr::ExprListPush) => PLACE,
            Some(Instr::ExprMapInsert(key)) => PLACE.saturating_add(key.as_str().len()),
            _ => return Ok(0),
        };
        let copy = copy_weight(alloc, self.lending.is_top_lent, operands)?;
        Ok(place.saturating_add(copy))
    }

    // How many bytes an instruction left on top: a copy of what a path leads to, or what a function gave.
    fn bytes_started(
        &self,
        alloc: Global,
        instr: Option<&Instr>,
        operands: &Operands<'r>,
    ) -> Result<usize, AllocError>
        ensures { IfOk result (λ bytes. bytes ≡ as_count (started (not (lending_of self.now.lending).top)
            (option_map (λ i. instr_of i.now) instr.entry) (operands_of operands.now))) }
    {
        match instr {
            Some(Instr::ExprStartVar(_)) => copy_weight(alloc, !self.lending.is_top_lent, operands),
            Some(Instr::Apply(_, _, _)) => copy_weight(alloc, true, operands),
            _ => Ok(0),
        }
    }
}

// What the operand on top weighs, if it is copied, or 0.
fn copy_weight(alloc: Global, is_copied: bool, operands: &Operands<'_>) -> Result<usize, AllocError>
    ensures { IfOk result (λ weight. weight ≡ as_count (copy_weight is_copied (operands_of operands.now))) }
{
    match operands.on_top() {
        Some(value) if is_copied => weight(alloc, value),
        _ => Ok(0),
    }
}
