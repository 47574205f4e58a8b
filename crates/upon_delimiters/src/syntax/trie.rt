// A trie of the texts of delimiters, as one list of nodes.
ghost use Rattle.std.specs.Prelude.{◌≡◌, ◌<◌, ◌≤◌, ℕ, List, length, IfOk, OnOk};
ghost use Rattle.upon_language_spec.specs.Search.{DelimiterText};
ghost use Rattle.upon_delimiters.specs.Nodes.{IsLinked, blank, child_of, node_at};
ghost use Rattle.upon_delimiters.specs.Trie.{IsTrieOf, LongestAt, longer_of};
ghost use Rattle.upon_delimiters.specs.Grown.{with_child, made_child, with_trie_text};

use std::alloc::AllocError;

/// A node: the last byte of the text that leads to it, its first child, the next child of its parent (0: there is
/// none), and the index of the first delimiter whose text leads to it.
#[derive(Clone, Copy)]
pub(crate) struct Node {
    pub(crate) byte: u8,
    pub(crate) child: usize,
    pub(crate) sibling: usize,
    pub(crate) pair: Option<usize>,
}

/// Creates the node of the empty text, before any text is put in.
pub(crate) fn root() -> Node
    ensures { result ≡ blank }
{
    Node {
        byte: 0,
        child: 0,
        sibling: 0,
        pair: None,
    }
}

/// Returns the child of a node by a byte; 0 if there is none.
pub(crate) fn child(nodes: &[Node], of: usize, byte: u8) -> usize
    requires linked { IsLinked nodes.now }
    requires inside { of < length nodes.now }
    ensures { result ≡ child_of nodes.now of byte }
{
    let mut at = nodes[of].child;
    while at != 0 {
        let node = nodes[at];
        if node.byte == byte {
            return at;
        }
        at = node.sibling;
    }
    0
}

/// Does the same, and makes a child if there is none.
pub(crate) fn child_or_new(nodes: &mut Vec<Node>, of: usize, byte: u8) -> Result<usize, AllocError>
    requires linked { IsLinked nodes.old.items }
    requires inside { of < length nodes.old.items }
    ensures node { IfOk result (λ n. n ≡ made_child nodes.old.items of byte) }
    ensures nodes { OnOk result (nodes.new.items ≡ with_child nodes.old.items of byte) }
{
    let found = child(nodes, of, byte);
    if found != 0 {
        return Ok(found);
    }
    let made = nodes.len();
    let sibling = nodes[of].child;
    nodes.push(Node {
        byte,
        child: 0,
        sibling,
        pair: None,
    })?;
    nodes[of].child = made;
    Ok(made)
}

// The delimiter that a node holds, with the offset of its end; else the one that is known.
fn longer(
    nodes: &[Node],
    node: usize,
    end: usize,
    longest: Option<(usize, usize)>,
) -> Option<(usize, usize)>
    requires { node < length nodes.now }
    ensures { result ≡ longer_of (node_at nodes.now node).pair end longest }
{
    match nodes[node].pair {
        Some(pair) => Some((pair, end)),
        None => longest,
    }
}

/// Returns the index of the best delimiter at an offset, and the offset of its end.
pub(crate) fn longest_at(nodes: &[Node], source: &[u8], at: usize) -> Option<(usize, usize)>
    requires linked { IsLinked nodes.now }
    requires offset { at ≤ length source.now }
    ensures { (delimiters : List DelimiterText) → IsTrieOf (length delimiters) delimiters nodes.now
        → LongestAt delimiters source.now at result }
{
    let mut longest = None;
    let mut node = 0;
    for end in at..source.len() {
        longest = longer(nodes, node, end, longest);
        node = child(nodes, node, source[end]);
        if node == 0 {
            return longest;
        }
    }
    longer(nodes, node, source.len(), longest)
}

/// Puts the text of a delimiter into a trie.
pub(crate) fn insert(nodes: &mut Vec<Node>, text: &[u8], pair: usize) -> Result<(), AllocError>
    requires { IsLinked nodes.old.items }
    ensures { OnOk result (nodes.new.items ≡ with_trie_text nodes.old.items text.now pair) }
{
    let mut at = 0;
    for byte in text {
        at = child_or_new(nodes, at, *byte)?;
    }
    if nodes[at].pair.is_none() {
        nodes[at].pair = Some(pair);
    }
    Ok(())
}
