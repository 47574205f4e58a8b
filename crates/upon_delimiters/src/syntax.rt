// The delimiters of a template language.
ghost use Rattle.std.specs.Prelude.{◌≡◌, ◌<◌, length, map, true, IfOk, IsOkAnd};
ghost use Rattle.upon_language_spec.specs.DefaultDelimiters.{default_delimiters};
ghost use Rattle.upon_language_spec.specs.LiesIn.{HasUtf8};
ghost use Rattle.upon_language_spec.specs.Search.{HasTexts, kind_at, text_at};
ghost use Rattle.upon_delimiters.specs.Entries.{delimiter_text_of, entries_list, nodes_list};
ghost use Rattle.upon_delimiters.specs.Grown.{nodes_of};
ghost use Rattle.upon_delimiters.specs.declared.syntax.Entries.TheVariants.{Default};
ghost use Rattle.upon_delimiters.specs.declared.syntax.Nodes.TheVariants.{Default as DefaultNodes};
ghost use Rattle.upon_delimiters.specs.SetTexts.{nothing_set, usual_texts, built_delimiters};

pub use builder::SyntaxBuilder;
pub use same::is_same;
use std::alloc::AllocError;
use trie::Node;
use upon_types::types::Delimiter;

mod builder;
mod same;
pub(crate) mod trie;

/// A delimiter: its kind and its text.
#[derive(Drop)]
struct Entry {
    kind: Delimiter,
    text: String,
}

impl Entry {
    fn try_clone(&self) -> Result<Entry, AllocError>
        ensures { IfOk result (λ copy. delimiter_text_of copy ≡ delimiter_text_of self.now) }
    {
        Ok(Entry {
            kind: self.kind,
            text: self.text.clone()?,
        })
    }
}

/// A delimiter of the default syntax: its kind and its text, for which no memory is taken.
#[derive(Clone, Copy)]
struct StaticEntry {
    kind: Delimiter,
    text: &'static str,
}

/// The delimiters of the default syntax.
static DEFAULT_ENTRIES: [StaticEntry; 12] = [
    StaticEntry {
        kind: Delimiter::BeginExpr,
        text: "{{",
    },
    StaticEntry {
        kind: Delimiter::EndExpr,
        text: "}}",
    },
    StaticEntry {
        kind: Delimiter::BeginExprTrim,
        text: "{{-",
    },
    StaticEntry {
        kind: Delimiter::EndExprTrim,
        text: "-}}",
    },
    StaticEntry {
        kind: Delimiter::BeginBlock,
        text: "{%",
    },
    StaticEntry {
        kind: Delimiter::EndBlock,
        text: "%}",
    },
    StaticEntry {
        kind: Delimiter::BeginBlockTrim,
        text: "{%-",
    },
    StaticEntry {
        kind: Delimiter::EndBlockTrim,
        text: "-%}",
    },
    StaticEntry {
        kind: Delimiter::BeginComment,
        text: "{#",
    },
    StaticEntry {
        kind: Delimiter::EndComment,
        text: "#}",
    },
    StaticEntry {
        kind: Delimiter::BeginCommentTrim,
        text: "{#-",
    },
    StaticEntry {
        kind: Delimiter::EndCommentTrim,
        text: "-#}",
    },
];

/// The trie of these texts: the nodes in the order in which the texts make them.
static DEFAULT_NODES: [Node; 21] = [
    Node {
        byte: 0,
        child: 16,
        sibling: 0,
        pair: None,
    },
    Node {
        byte: b'{',
        child: 15,
        sibling: 0,
        pair: None,
    },
    Node {
        byte: b'{',
        child: 5,
        sibling: 0,
        pair: Some(0),
    },
    Node {
        byte: b'}',
        child: 4,
        sibling: 1,
        pair: None,
    },
    Node {
        byte: b'}',
        child: 0,
        sibling: 0,
        pair: Some(1),
    },
    Node {
        byte: b'-',
        child: 0,
        sibling: 0,
        pair: Some(2),
    },
    Node {
        byte: b'-',
        child: 19,
        sibling: 3,
        pair: None,
    },
    Node {
        byte: b'}',
        child: 8,
        sibling: 0,
        pair: None,
    },
    Node {
        byte: b'}',
        child: 0,
        sibling: 0,
        pair: Some(3),
    },
    Node {
        byte: b'%',
        child: 12,
        sibling: 2,
        pair: Some(4),
    },
    Node {
        byte: b'%',
        child: 11,
        sibling: 6,
        pair: None,
    },
    Node {
        byte: b'}',
        child: 0,
        sibling: 0,
        pair: Some(5),
    },
    Node {
        byte: b'-',
        child: 0,
        sibling: 0,
        pair: Some(6),
    },
    Node {
        byte: b'%',
        child: 14,
        sibling: 7,
        pair: None,
    },
    Node {
        byte: b'}',
        child: 0,
        sibling: 0,
        pair: Some(7),
    },
    Node {
        byte: b'#',
        child: 18,
        sibling: 9,
        pair: Some(8),
    },
    Node {
        byte: b'#',
        child: 17,
        sibling: 10,
        pair: None,
    },
    Node {
        byte: b'}',
        child: 0,
        sibling: 0,
        pair: Some(9),
    },
    Node {
        byte: b'-',
        child: 0,
        sibling: 0,
        pair: Some(10),
    },
    Node {
        byte: b'#',
        child: 20,
        sibling: 13,
        pair: None,
    },
    Node {
        byte: b'}',
        child: 0,
        sibling: 0,
        pair: Some(11),
    },
];

/// A list of delimiters, in the order in which they count.
#[derive(Drop)]
enum Entries {
    /// Those of the default syntax.
    Default,
    /// Those of a syntax that was built.
    Built(Vec<Entry>),
}

impl Entries {
    fn try_clone(&self) -> Result<Entries, AllocError>
        ensures list { IfOk result (λ copy. entries_list copy ≡ entries_list self.now) }
        ensures succeeds { self.now ≡ Default → IsOkAnd result (λ copy. copy ≡ Default) }
    {
        match self {
            Entries::Default => Ok(Entries::Default),
            Entries::Built(entries) => Ok(Entries::Built(clone_entries(entries)?)),
        }
    }

    fn len(&self) -> usize
        ensures { result ≡ length (entries_list self.now) }
    {
        match self {
            Entries::Default => DEFAULT_ENTRIES.len(),
            Entries::Built(entries) => entries.len(),
        }
    }

    fn get(&self, i: usize) -> (Delimiter, &str)
        requires { i < length (entries_list self.now) }
        ensures kind { result.0 ≡ kind_at (entries_list self.now) i }
        ensures text { result.1.now ≡ text_at (entries_list self.now) i }
    {
        match self {
            Entries::Default => {
                let entry = DEFAULT_ENTRIES[i];
                (entry.kind, entry.text)
            }
            Entries::Built(entries) => {
                let entry = &entries[i];
                (entry.kind, entry.text.as_str())
            }
        }
    }
}

/// The nodes of a trie of the delimiters.
#[derive(Drop)]
enum Nodes {
    /// Those of the default syntax.
    Default,
    /// Those of a syntax that was built.
    Built(Vec<Node>),
}

impl Nodes {
    fn try_clone(&self) -> Result<Nodes, AllocError>
        ensures list { IfOk result (λ copy. nodes_list copy ≡ nodes_list self.now) }
        ensures succeeds { self.now ≡ DefaultNodes → IsOkAnd result (λ copy. copy ≡ DefaultNodes) }
    {
        match self {
            Nodes::Default => Ok(Nodes::Default),
            Nodes::Built(nodes) => Ok(Nodes::Built(copied(nodes)?)),
        }
    }

    fn as_slice(&self) -> &[Node]
        ensures { result.now ≡ nodes_list self.now }
    {
        match self {
            Nodes::Default => &DEFAULT_NODES,
            Nodes::Built(nodes) => nodes.as_slice(),
        }
    }
}

fn copied(nodes: &Vec<Node>) -> Result<Vec<Node>, AllocError>
    ensures { IfOk result (λ copy. copy.items ≡ nodes.now.items) }
{
    let mut copy = Vec::new(*nodes.allocator());
    copy.extend_from_slice(nodes.as_slice())?;
    Ok(copy)
}

fn clone_entries(entries: &Vec<Entry>) -> Result<Vec<Entry>, AllocError>
    ensures { IfOk result
        (λ copies. map delimiter_text_of copies.items ≡ map delimiter_text_of entries.now.items) }
{
    let mut copies = Vec::with_capacity(*entries.allocator(), entries.len())?;
    for entry in entries {
        copies.push(entry.try_clone()?)?;
    }
    Ok(copies)
}

/// The delimiters of a template language: a list of kinds with their texts. Each text has a byte at least.
#[derive(Drop)]
pub struct Syntax {
    entries: Entries,
    nodes: Nodes,
    ghost has_texts: { HasTexts (entries_list entries) },
    ghost has_utf8: { ∥ HasUtf8 (entries_list entries) ∥₁ },
    ghost is_trie: { nodes_list nodes ≡ nodes_of (entries_list entries) },
}

impl Default for Syntax {
    ghost use Rattle.upon_delimiters.specs.DefaultSyntax.{IsDefault};
    ghost use Rattle.upon_delimiters.specs.Syntax.{syntax_delimiters};

    ghost is_default = { λ syntax. IsDefault syntax };

    /// Creates the default syntax: `{{ }}`, `{% %}` and `{# #}`, each also with a hyphen inside. It is the same as the
    /// syntax that is built of these pairs.
    fn default() -> Syntax
        ensures list { syntax_delimiters result ≡ default_delimiters }
        ensures built { syntax_delimiters result ≡ built_delimiters usual_texts }
        ensures itself { IsDefault result }
    {
        Syntax {
            entries: Entries::Default,
            nodes: Nodes::Default,
        }
    }
}

impl Syntax {
    ghost use Rattle.upon_delimiters.specs.DefaultSyntax.{IsDefault};
    ghost use Rattle.upon_delimiters.specs.Syntax.{syntax_delimiters};
    ghost use Rattle.upon_delimiters.specs.Builder.{builder_texts};

    /// Creates a builder of a syntax, in which nothing is set.
    pub fn builder<'a>() -> SyntaxBuilder<'a>
        ensures { builder_texts result ≡ nothing_set }
    {
        SyntaxBuilder::new()
    }

    /// Returns a syntax of the same list. It fails if there is no memory for the copy; the default syntax takes none.
    pub fn try_clone(&self) -> Result<Syntax, AllocError>
        ensures list { IfOk result (λ copy. syntax_delimiters copy ≡ syntax_delimiters self.now) }
        ensures succeeds { IsDefault self.now → IsOkAnd result IsDefault }
    {
        Ok(Syntax {
            entries: self.entries.try_clone()?,
            nodes: self.nodes.try_clone()?,
        })
    }

    /// Returns whether it is the default syntax itself, and was not built.
    pub(crate) fn is_default(&self) -> bool
        ensures { result ≡ true → syntax_delimiters self.now ≡ default_delimiters }
    {
        match &self.entries {
            Entries::Default => true,
            Entries::Built(_) => false,
        }
    }

    /// Returns how many delimiters it has.
    pub(crate) fn len(&self) -> usize
        ensures { result ≡ length (syntax_delimiters self.now) }
    {
        self.entries.len()
    }

    /// Returns the kind and the text of the delimiter at an index.
    pub(crate) fn get(&self, i: usize) -> (Delimiter, &str)
        requires { i < length (syntax_delimiters self.now) }
        ensures kind { result.0 ≡ kind_at (syntax_delimiters self.now) i }
        ensures text { result.1.now ≡ text_at (syntax_delimiters self.now) i }
    {
        self.entries.get(i)
    }

    /// Returns the trie of its delimiters.
    pub(crate) fn nodes(&self) -> &[Node]
        ensures { result.now ≡ nodes_of (syntax_delimiters self.now) }
    {
        self.nodes.as_slice()
    }
}
