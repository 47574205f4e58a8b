// The blocks that are open at an offset of a template, and what a tag does to them.
ghost use Rattle.std.specs.Prelude.{◌≡◌, [], ◌∷◌, true, false, option_map, IfOk};
ghost use Rattle.std.specs.Prelude.{MatchOption};
ghost use Rattle.upon_types.specs.BlockKinds.{Block};
ghost use Rattle.upon_types.specs.BlockKinds.{block_kind};
ghost use Rattle.upon_language_spec.specs.Blocks.{takes, block_takes, after_closer, outermost};
ghost use Rattle.upon_language_spec.specs.Blocks.{plain_else, end_of};
ghost use Rattle.upon_tag_parser.specs.BlockTags.{BlockTag, Keeps};
ghost use Rattle.upon_syntax.specs.OpenBlocks.{closer_view, block_of, new_block, after_tag, HasEffect, IsTaken, IsUntaken};

use std::alloc::{AllocError, Global};
use upon_tag_parser::compile::parse::tag::Tag;
use upon_types::types::Span;
use upon_types::types::block::{BlockKind, Closing};

/// What a tag does to the open blocks.
#[derive(Clone, Copy, Debug, PartialEq, Eq)]
pub enum Effect {
    /// It opens one of this kind.
    Opens(BlockKind),
    /// It closes the innermost, or goes on with its other branch.
    Closes(Closing),
    /// It leaves them.
    Nothing,
}

/// Returns what a tag does to the open blocks.
pub fn effect_of(tag: &Tag) -> Effect
    ensures { (told : BlockTag) → Keeps tag.now told → HasEffect told result }
{
    match tag {
        Tag::If(_) => Effect::Opens(BlockKind::If),
        Tag::For(_, _) => Effect::Opens(BlockKind::For),
        Tag::With(_) => Effect::Opens(BlockKind::With),
        Tag::ElseIf(_) => Effect::Closes(Closing::ElseIf),
        Tag::Else => Effect::Closes(Closing::Else),
        Tag::End(kind) => Effect::Closes(Closing::End(*kind)),
        Tag::Include(_) => Effect::Nothing,
        Tag::IncludeWith(_) => Effect::Nothing,
    }
}

/// An open block: its kind, whether its `else` was read, and the span of its tag.
#[derive(Clone, Copy)]
pub struct OpenBlock {
    pub kind: BlockKind,
    pub has_else: bool,
    pub span: Span,
}

impl OpenBlock {
    // Whether it takes a closing tag, where it is the innermost.
    fn takes(self, closer: Closing) -> bool
        ensures { result ≡ block_takes (block_kind self.kind) self.has_else (closer_view closer) }
    {
        match closer {
            Closing::ElseIf => !self.has_else && self.kind.may_have_else_if(),
            Closing::Else => !self.has_else && self.kind.may_have_else(),
            Closing::End(ended) => self.kind == ended,
        }
    }
}

/// The open blocks; the innermost is last.
#[derive(Drop)]
pub struct OpenBlocks {
    blocks: Vec<OpenBlock>,
}

impl OpenBlocks {
    ghost use Rattle.upon_syntax.specs.OpenBlocks.{stack_of};

    /// No block is open.
    pub fn new(alloc: Global) -> OpenBlocks
        ensures { stack_of result ≡ [] }
    {
        OpenBlocks {
            blocks: Vec::new(alloc),
        }
    }

    // A block is open from here on, whose tag has this span.
    fn push(&mut self, kind: BlockKind, span: Span) -> Result<(), AllocError>
        ensures { IfOk result (λ _. stack_of self.new ≡ new_block (block_kind kind) span ∷ stack_of self.old) }
    {
        let block = OpenBlock {
            kind,
            has_else: false,
            span,
        };
        self.blocks.push(block)?;
        Ok(())
    }

    // Whether the innermost block takes a closing tag.
    fn takes(&self, closer: Closing) -> bool
        ensures { result ≡ takes (stack_of self.now) (closer_view closer) }
    {
        match self.blocks.last() {
            None => false,
            Some(block) => block.takes(closer),
        }
    }

    // Goes on with the innermost block, or closes it.
    fn close(&mut self, closer: Closing)
        ensures { stack_of self.new ≡ after_closer (closer_view closer) (stack_of self.old) }
    {
        match closer {
            Closing::ElseIf => {}
            Closing::Else => self.begin_else(),
            Closing::End(_) => self.pop(),
        }
    }

    // Goes on with the innermost block or closes it, where that takes the closing tag; which is answered where it does
    // not.
    fn close_taken(&mut self, closer: Closing) -> Option<Closing>
        ensures { MatchOption
            result
            ((takes (stack_of self.old) (closer_view closer) ≡ true)
            × (stack_of self.new ≡ after_closer (closer_view closer) (stack_of self.old)))
            (λ refused. (refused ≡ closer) × (takes (stack_of self.old) (closer_view closer) ≡ false)) }
    {
        if !self.takes(closer) {
            return Some(closer);
        }
        self.close(closer);
        None
    }

    /// Passes a tag with this span, which opens a block, closes one or leaves them. A closing tag that the innermost
    /// block does not take is answered.
    pub fn pass(&mut self, tag: &Tag, span: Span) -> Result<Option<Closing>, AllocError>
        ensures { IfOk result (λ untaken. (told : BlockTag) → Keeps tag.now told → MatchOption
            untaken
            (IsTaken told (stack_of self.old) × (stack_of self.new ≡ after_tag told span (stack_of self.old)))
            (IsUntaken told (stack_of self.old))) }
    {
        match effect_of(tag) {
            Effect::Nothing => Ok(None),
            Effect::Opens(kind) => {
                self.push(kind, span)?;
                Ok(None)
            }
            Effect::Closes(closer) => Ok(self.close_taken(closer)),
        }
    }

    // The innermost block's `else` was read.
    fn begin_else(&mut self)
        ensures { stack_of self.new ≡ after_closer plain_else (stack_of self.old) }
    {
        let count = self.blocks.len();
        if count > 0 {
            self.blocks[count - 1].has_else = true;
        }
    }

    // The innermost block is closed.
    fn pop(&mut self)
        ensures { (kind : Block) → stack_of self.new ≡ after_closer (end_of kind) (stack_of self.old) }
    {
        self.blocks.pop();
    }

    /// Returns the outermost block.
    pub fn outermost(&self) -> Option<OpenBlock>
        ensures { option_map block_of result ≡ outermost (stack_of self.now) }
    {
        self.blocks.first().copied()
    }
}
