// What is known at an instruction: of the operands, of names, and of the blocks that are open. A block holds what
// undoes the changes of the scope inside it, and no scope of its own.
ghost use Rattle.std.specs.Prelude.{◌≡◌, ◌∷◌, ◌<◌, true, [], length, Some, None, IfOk, MatchOption, OnOk, map, option_map};
ghost use Rattle.upon_types.specs.AstPath.{loop_vars_of};
ghost use Rattle.upon_shape_spec.specs.Accepted.{iteration_names};
ghost use Rattle.upon_shape_spec.specs.Scope.{Scope as SpecScope, name_shape, with_names};
ghost use Rattle.upon_shape.specs.View.{shape_view};
ghost use Rattle.upon_machine_spec.specs.Operands.{taken};
ghost use Rattle.upon_shape_spec.specs.Known as spec;
ghost use Rattle.upon_shape_spec.specs.ProgramDoubts as walks;
ghost use Rattle.upon_shape_check.specs.Known.{ends_at, known_view, open_view, operand_view, outside, path_view};
ghost use Rattle.upon_shape_check.specs.Loops.{looped_names};
ghost use Rattle.upon_shape_check.specs.Scope.{bound_view, scope_view};
ghost use Rattle.upon_shape_check.specs.Undo.{undone};

use crate::scope::{BoundShape, Scope};
use crate::undo::{Undo, go_back, narrow};
use std::alloc::{AllocError, Global};
use upon_shape::shape::Shape;
use upon_types::types::Span;
use upon_types::types::ast::{LoopVars, Var};

// An operand: its shape, if it is sure to come to something; its place; and the path that it was found by, if it was.
#[derive(Drop)]
pub(crate) struct Operand<'t> {
    pub(crate) shape: Option<Shape>,
    pub(crate) place: Span,
    pub(crate) path: Option<&'t Var>,
}

// A block that is open.
#[derive(Drop)]
pub(crate) enum Block<'t> {
    // The body of an `if`: the number of the instruction after it, what undoes what its test added, and a path that is
    // true in the other case, if one is known.
    Body(usize, Undo, Option<&'t Var>),
    // The other case of an `if`: the number of the instruction after it, and what undoes what is known there.
    Other(usize, Undo),
    // So many names.
    Names(usize),
}

// What is known: operands and open blocks, the last on top or the innermost, and the scope.
#[derive(Drop)]
pub(crate) struct Known<'t> {
    pub(crate) operands: Vec<Operand<'t>>,
    pub(crate) scope: Scope<'t>,
    pub(crate) blocks: Vec<Block<'t>>,
}

impl<'t> Known<'t> {
    // Returns what is known at the begin of a program.
    pub(crate) fn at_begin(alloc: Global, scope: Scope<'t>) -> Known<'t>
        ensures { known_view result ≡ spec.known_at_begin (scope_view scope.entry) }
    {
        Known {
            operands: Vec::new(alloc),
            scope,
            blocks: Vec::new(alloc),
        }
    }

    // Puts an operand on top.
    pub(crate) fn push(&mut self, operand: Operand<'t>) -> Result<(), AllocError>
        ensures { OnOk result (known_view self.new
            ≡ spec.with_operand (operand_view operand.entry) (known_view self.old)) }
    {
        self.operands.push(operand)?;
        Ok(())
    }

    // Takes the operand on top, if there is one.
    pub(crate) fn pop(&mut self) -> Option<Operand<'t>>
        ensures { MatchOption
            result
            (((known_view self.old).operands ≡ []) × (known_view self.new ≡ known_view self.old))
            (λ o. known_view self.old ≡ spec.with_operand (operand_view o) (known_view self.new)) }
    {
        match self.operands.pop() {
            Some(operand) => Some(operand),
            None => None,
        }
    }

    // Takes so many operands from the top, in the order in which they were put there, if there are as many.
    pub(crate) fn take(&mut self, count: usize) -> Result<Option<Vec<Operand<'t>>>, AllocError>
        ensures { IfOk result (λ some. MatchOption
            some
            ((taken count (known_view self.old).operands ≡ None) × (known_view self.new ≡ known_view self.old))
            (λ os. (taken count (known_view self.old).operands
            ≡ Some (map operand_view os.items, (known_view self.new).operands))
            × (known_view self.new ≡ spec.with_operands (known_view self.new).operands (known_view self.old)))) }
    {
        let len = self.operands.len();
        if count > len {
            return Ok(None);
        }
        Ok(Some(self.operands.split_off(len - count)?))
    }

    // Begins a block that binds a name.
    pub(crate) fn bind(&mut self, name: &'t str, bound: BoundShape) -> Result<(), AllocError>
        ensures { OnOk result (known_view self.new
            ≡ walks.binds_shapes (name_shape name.now (bound_view bound) ∷ []) (known_view self.old).operands
            (known_view self.old)) }
    {
        self.scope.bind(name, bound)?;
        self.blocks.push(Block::Names(1))?;
        Ok(())
    }

    // Begins a loop, the items or the values of which have this shape.
    pub(crate) fn bind_loop(&mut self, names: &'t LoopVars, shape: Shape) -> Result<(), AllocError>
        ensures { OnOk result (known_view self.new
            ≡ walks.binds_shapes (iteration_names (looped_names (loop_vars_of names.now) (shape_view shape)))
            (known_view self.old).operands (known_view self.old)) }
    {
        let count = bind_looped(&mut self.scope, names, shape)?;
        self.scope.bind("loop", BoundShape::Loop)?;
        self.blocks.push(Block::Names(count + 1))?;
        Ok(())
    }

    // Begins the body of an `if`, in which the operand that was tested is true if `so` is, and else false.
    pub(crate) fn test(
        &mut self,
        alloc: Global,
        so: bool,
        end: usize,
        path: Option<&'t Var>,
    ) -> Result<(), AllocError>
        ensures { (o : spec.KnownOperand) → o.path ≡ option_map (λ p. path_view p.now) path.entry
            → OnOk result (known_view self.new
            ≡ walks.tests so end o (known_view self.old).operands (known_view self.old)) }
    {
        if so {
            let change = narrow_by(alloc, &mut self.scope, path)?;
            self.blocks.push(Block::Body(end, change, None))?;
            Ok(())
        } else {
            self.blocks.push(Block::Body(end, Undo::Nothing, path))?;
            Ok(())
        }
    }

    // Begins the other case, which ends at the instruction of this number, where the innermost block is the body of an
    // `if`.
    pub(crate) fn begin_other(&mut self, alloc: Global, end: usize) -> Result<(), AllocError>
        ensures { OnOk result (known_view self.new
            ≡ walks.other_case end (known_view self.old) (known_view self.old).opens) }
    {
        match self.blocks.pop() {
            Some(Block::Body(_, change, other)) => {
                go_back(&mut self.scope, change);
                let change = narrow_by(alloc, &mut self.scope, other)?;
                self.blocks.push(Block::Other(end, change))?;
                Ok(())
            }
            Some(Block::Other(end, change)) => {
                self.blocks.push(Block::Other(end, change))?;
                Ok(())
            }
            Some(Block::Names(count)) => {
                self.blocks.push(Block::Names(count))?;
                Ok(())
            }
            None => Ok(()),
        }
    }

    // Leaves the innermost block, if one is open.
    pub(crate) fn leave(&mut self)
        ensures { known_view self.new ≡ walks.leaves_block (known_view self.old) (known_view self.old).opens }
    {
        match self.blocks.pop() {
            Some(block) => go_outside(&mut self.scope, block),
            None => {}
        }
    }

    // Leaves the blocks that have ended where the instruction of this number begins.
    pub(crate) fn leave_ended(&mut self, number: usize)
        ensures { known_view self.new ≡ spec.left_at number (known_view self.old).operands
            (known_view self.old).scope (known_view self.old).opens }
    {
        while self.is_at_end(number) {
            self.leave();
        }
    }

    // Returns whether a block is open of which the innermost has ended where the instruction of this number begins.
    fn is_at_end(&self, number: usize) -> bool
        ensures { result ≡ ends_at number (known_view self.now).opens }
    {
        let count = self.blocks.len();
        if count == 0 {
            return false;
        }
        has_ended(&self.blocks[count - 1], number)
    }
}

// Returns whether a block has ended where the instruction of this number begins.
fn has_ended(block: &Block<'_>, number: usize) -> bool
    ensures { (outer : SpecScope) → result ≡ spec.has_ended number (open_view block.now outer) }
{
    match block {
        Block::Body(end, _, _) => *end <= number,
        Block::Other(end, _) => *end <= number,
        Block::Names(_) => false,
    }
}

// Binds the names that a loop gives, and returns how many they are.
fn bind_looped<'t>(
    scope: &mut Scope<'t>,
    names: &'t LoopVars,
    shape: Shape,
) -> Result<usize, AllocError>
    ensures count { IfOk result (λ n. n ≡ length (looped_names (loop_vars_of names.now) (shape_view shape))) }
    ensures few { IfOk result (λ n. n < 3) }
    ensures scope { OnOk result (scope_view scope.new
        ≡ with_names (looped_names (loop_vars_of names.now) (shape_view shape)) (scope_view scope.old)) }
{
    match names {
        LoopVars::Item(item) => {
            scope.bind(item.name.as_str(), BoundShape::Value(shape))?;
            Ok(1)
        }
        LoopVars::KeyValue(both) => {
            scope.bind(both.value.name.as_str(), BoundShape::Value(shape))?;
            scope.bind(both.key.name.as_str(), BoundShape::LoopKey)?;
            Ok(2)
        }
    }
}

// Adds what is known where a path is true, if one is known, and returns what undoes that.
fn narrow_by(alloc: Global, scope: &mut Scope<'_>, path: Option<&Var>) -> Result<Undo, AllocError>
    ensures narrowed { OnOk result (scope_view scope.new
        ≡ spec.path_tested true (option_map (λ p. path_view p.now) path.entry) (scope_view scope.old)) }
    ensures undo { IfOk result (λ u. undone u (scope_view scope.new) ≡ scope_view scope.old) }
{
    match path {
        Some(path) => narrow(alloc, scope, path),
        None => Ok(Undo::Nothing),
    }
}

// Goes from inside a block to outside.
fn go_outside(scope: &mut Scope<'_>, block: Block<'_>)
    ensures { scope_view scope.new ≡ outside block.entry (scope_view scope.old) }
{
    match block {
        Block::Body(_, change, _) => go_back(scope, change),
        Block::Other(_, change) => go_back(scope, change),
        Block::Names(count) => scope.leave(count),
    }
}
