// The kinds of blocks, and the tags that close one: their words, and the branches that a block may have.
ghost use Rattle.std.specs.Prelude.{◌≡◌, None, MatchOption};
ghost use Rattle.upon_types.specs.BlockKinds.{block_word, end_word, may_have_else, may_have_else_if, kind_with};
ghost use Rattle.upon_types.specs.BlockKinds.{block_kind, closing_words};

/// A kind of block.
#[derive(Clone, Copy, Debug, PartialEq, Eq)]
pub enum BlockKind {
    If,
    For,
    With,
}

/// A tag that closes a block, or one of its branches.
#[derive(Clone, Copy, Debug, PartialEq, Eq)]
pub enum Closing {
    ElseIf,
    Else,
    /// The last tag of a block of this kind.
    End(BlockKind),
}

impl BlockKind {
    /// Returns the word that begins its tag.
    pub fn word(self) -> &'static str
        ensures { result.now ≡ block_word (block_kind self) }
    {
        match self {
            BlockKind::If => "if",
            BlockKind::For => "for",
            BlockKind::With => "with",
        }
    }

    /// Returns the word of its last tag.
    pub fn end_word(self) -> &'static str
        ensures { result.now ≡ end_word (block_kind self) }
    {
        match self {
            BlockKind::If => "endif",
            BlockKind::For => "endfor",
            BlockKind::With => "endwith",
        }
    }

    /// Returns the kind whose last tag has this word.
    pub fn ended_by(word: &str) -> Option<BlockKind>
        ensures { MatchOption result
            (kind_with end_word word.now ≡ None)
            (λ kind. word.now ≡ end_word (block_kind kind)) }
    {
        if word == BlockKind::If.end_word() {
            Some(BlockKind::If)
        } else if word == BlockKind::For.end_word() {
            Some(BlockKind::For)
        } else if word == BlockKind::With.end_word() {
            Some(BlockKind::With)
        } else {
            None
        }
    }

    /// Returns whether it may have an `else`.
    pub fn may_have_else(self) -> bool
        ensures { result ≡ may_have_else (block_kind self) }
    {
        match self {
            BlockKind::If => true,
            BlockKind::For => true,
            BlockKind::With => false,
        }
    }

    /// Returns whether it may have an `else if`.
    pub fn may_have_else_if(self) -> bool
        ensures { result ≡ may_have_else_if (block_kind self) }
    {
        match self {
            BlockKind::If => true,
            BlockKind::For => false,
            BlockKind::With => false,
        }
    }
}

impl Closing {
    /// Returns the words that begin it.
    pub fn words(self) -> &'static str
        ensures { result.now ≡ closing_words self }
    {
        match self {
            Closing::ElseIf => "else if",
            Closing::Else => "else",
            Closing::End(kind) => kind.end_word(),
        }
    }
}
