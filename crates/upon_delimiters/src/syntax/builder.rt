// A syntax from texts for expressions, blocks and comments.
ghost use Rattle.std.specs.Prelude.{◌≡◌, ◌<◌, ◌∷◌, ◌++◌, [], ⊤, length, map, option_map, IfOk, OnOk};
ghost use Rattle.upon_delimiters.specs.Entries.{delimiter, delimiter_text_of};
ghost use Rattle.upon_delimiters.specs.Grown.{nodes_of};
ghost use Rattle.upon_delimiters.specs.SetTexts.{nothing_set, with_expr, with_block, with_comment, pair_delimiters, built_delimiters};
ghost use Rattle.upon_delimiters.specs.TagTexts.{pair_of, HaveBytes};

use super::{Entries, Entry, Nodes, Syntax, trie};
use std::alloc::{AllocError, Global};
use upon_types::types::Delimiter;

/// The texts that begin and end one sort of tag.
#[derive(Clone, Copy)]
struct TagTexts<'a> {
    begin: &'a str,
    end: &'a str,
}

/// The kinds of a sort's four delimiters.
#[derive(Clone, Copy)]
struct Kinds {
    begin: Delimiter,
    end: Delimiter,
    begin_trim: Delimiter,
    end_trim: Delimiter,
}

const EXPR: Kinds = Kinds {
    begin: Delimiter::BeginExpr,
    end: Delimiter::EndExpr,
    begin_trim: Delimiter::BeginExprTrim,
    end_trim: Delimiter::EndExprTrim,
};

const BLOCK: Kinds = Kinds {
    begin: Delimiter::BeginBlock,
    end: Delimiter::EndBlock,
    begin_trim: Delimiter::BeginBlockTrim,
    end_trim: Delimiter::EndBlockTrim,
};

const COMMENT: Kinds = Kinds {
    begin: Delimiter::BeginComment,
    end: Delimiter::EndComment,
    begin_trim: Delimiter::BeginCommentTrim,
    end_trim: Delimiter::EndCommentTrim,
};

/// Builds a syntax from the texts that begin and end expressions, blocks and comments. What is not set adds no
/// delimiter, and what is set again replaces what was set before.
#[derive(Drop)]
pub struct SyntaxBuilder<'a> {
    expr: Option<TagTexts<'a>>,
    block: Option<TagTexts<'a>>,
    comment: Option<TagTexts<'a>>,
    ghost expr_bytes: { HaveBytes expr },
    ghost block_bytes: { HaveBytes block },
    ghost comment_bytes: { HaveBytes comment },
}

impl<'a> SyntaxBuilder<'a> {
    ghost use Rattle.upon_delimiters.specs.Syntax.{syntax_delimiters};
    ghost use Rattle.upon_delimiters.specs.Builder.{builder_texts};

    /// Creates a builder in which nothing is set.
    pub(super) fn new() -> SyntaxBuilder<'a>
        ensures { builder_texts result ≡ nothing_set }
    {
        SyntaxBuilder {
            expr: None,
            block: None,
            comment: None,
        }
    }

    /// Sets the texts that begin and end an expression. Each has to have a byte at least.
    pub fn expr(&mut self, begin: &'a str, end: &'a str) -> &mut Self
        requires begin { 0 < length begin.now }
        requires end { 0 < length end.now }
        ensures same { result.ghost_name ≡ self.entry.ghost_name }
        ensures set { builder_texts result.now ≡ with_expr begin.now end.now (builder_texts self.old) }
    {
        self.expr = Some(TagTexts { begin, end });
        self
    }

    /// Sets the texts that begin and end the tag of a block. Each has to have a byte at least.
    pub fn block(&mut self, begin: &'a str, end: &'a str) -> &mut Self
        requires begin { 0 < length begin.now }
        requires end { 0 < length end.now }
        ensures same { result.ghost_name ≡ self.entry.ghost_name }
        ensures set { builder_texts result.now ≡ with_block begin.now end.now (builder_texts self.old) }
    {
        self.block = Some(TagTexts { begin, end });
        self
    }

    /// Sets the texts that begin and end a comment. Each has to have a byte at least.
    pub fn comment(&mut self, begin: &'a str, end: &'a str) -> &mut Self
        requires begin { 0 < length begin.now }
        requires end { 0 < length end.now }
        ensures same { result.ghost_name ≡ self.entry.ghost_name }
        ensures set { builder_texts result.now ≡ with_comment begin.now end.now (builder_texts self.old) }
    {
        self.comment = Some(TagTexts { begin, end });
        self
    }

    /// Creates the syntax of what is set. For expressions, then for blocks, then for comments, it has four delimiters:
    /// the begin, the end, the begin with a hyphen after it, and the end with a hyphen before it. It fails only if
    /// there is no memory for them.
    pub fn build(&self, alloc: Global) -> Result<Syntax, AllocError>
        ensures { IfOk result (λ syntax. syntax_delimiters syntax ≡ built_delimiters (builder_texts self.now)) }
    {
        let mut entries = Vec::new(alloc);
        push_tag(&mut entries, EXPR, self.expr)?;
        push_tag(&mut entries, BLOCK, self.block)?;
        push_tag(&mut entries, COMMENT, self.comment)?;
        let nodes = nodes_of_entries(&entries)?;
        Ok(Syntax {
            entries: Entries::Built(entries),
            nodes: Nodes::Built(nodes),
        })
    }
}

impl<'a> Clone for SyntaxBuilder<'a> {
    ghost use Rattle.upon_delimiters.specs.Builder.{builder_texts};

    ghost is_clone = { λ builder copy. builder_texts copy ≡ builder_texts builder };

    ghost is_infallible = { λ _. ⊤ };

    fn clone(&self) -> Result<SyntaxBuilder<'a>, AllocError> {
        Ok(SyntaxBuilder {
            expr: self.expr,
            block: self.block,
            comment: self.comment,
        })
    }
}

// Pushes the four delimiters of a sort, where its texts are set.
fn push_tag(
    entries: &mut Vec<Entry>,
    kinds: Kinds,
    texts: Option<TagTexts>,
) -> Result<(), AllocError>
    ensures { OnOk result (map delimiter_text_of entries.new.items
        ≡ map delimiter_text_of entries.old.items
        ++ pair_delimiters kinds.begin kinds.end kinds.begin_trim kinds.end_trim (option_map pair_of texts.entry)) }
{
    match texts {
        None => Ok(()),
        Some(texts) => {
            push(entries, kinds.begin, texts.begin, "")?;
            push(entries, kinds.end, texts.end, "")?;
            push(entries, kinds.begin_trim, texts.begin, "-")?;
            push(entries, kinds.end_trim, "-", texts.end)
        }
    }
}

// Pushes the delimiter whose text is these two, one after the other.
fn push(
    entries: &mut Vec<Entry>,
    kind: Delimiter,
    first: &str,
    second: &str,
) -> Result<(), AllocError>
    ensures { OnOk result (map delimiter_text_of entries.new.items
        ≡ map delimiter_text_of entries.old.items ++ delimiter kind (first.now ++ second.now) ∷ []) }
{
    let mut text = String::from_str(*entries.allocator(), first)?;
    text.push_str(second)?;
    entries.push(Entry { kind, text })?;
    Ok(())
}

// The trie of the delimiters.
fn nodes_of_entries(entries: &Vec<Entry>) -> Result<Vec<trie::Node>, AllocError>
    ensures { IfOk result (λ nodes. nodes.items ≡ nodes_of (map delimiter_text_of entries.now.items)) }
{
    let mut nodes = Vec::new(*entries.allocator());
    nodes.push(trie::root())?;
    for i in 0..entries.len() {
        let entry = &entries[i];
        trie::insert(&mut nodes, entry.text.as_bytes(), i)?;
    }
    Ok(nodes)
}
