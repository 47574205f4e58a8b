// What the language keeps under the delimiters of the default syntax, and what the trie of any delimiters has.
ghost use Rattle.std.specs.Prelude.{◌≡◌, ◌⊎◌, ℕ, List, length};
ghost use Rattle.std.specs.Str.{IsUtf8};
ghost use Rattle.upon_types.specs.declared.types.Span.{Span};
ghost use Rattle.upon_types.specs.Tree.{Statements};
ghost use Rattle.upon_language_spec.specs.Grammar.{HasTree};
ghost use Rattle.upon_language_spec.specs.FirstFault.{IsFirstFault};
ghost use Rattle.upon_language_spec.specs.DefaultDelimiters.{default_delimiters};
ghost use Rattle.upon_language_spec.specs.Search.{DelimiterText};
ghost use Rattle.upon_delimiters.specs.Grown.{nodes_of};
ghost use Rattle.upon_delimiters.specs.Trie.{IsTrieOf};

/// Under the default delimiters a UTF-8 text has exactly one tree and no first fault, or exactly one first fault and no
/// tree.
pub fn default_one_answer()
    ensures { (s : List ℕ) → IsUtf8 s
        → ((tree : Statements) × HasTree default_delimiters s tree
        × ((other : Statements) → HasTree default_delimiters s other → tree ≡ other)
        × ((span : Span) (reason : List ℕ) → IsFirstFault default_delimiters s span reason → ⊥))
        ⊎ ((span : Span) × (reason : List ℕ) × IsFirstFault default_delimiters s span reason
        × ((other : Span) (words : List ℕ) → IsFirstFault default_delimiters s other words → (span ≡ other)
        × (reason ≡ words))
        × ((tree : Statements) → HasTree default_delimiters s tree → ⊥)) }
{}

/// States that the trie of any delimiters leads by the text of each to a node, by no two texts to one node, and the
/// node of a text has the first delimiter with that text.
pub fn trie_of_any_delimiters()
    ensures { (delimiters : List DelimiterText) → IsTrieOf (length delimiters) delimiters (nodes_of delimiters) }
{}
