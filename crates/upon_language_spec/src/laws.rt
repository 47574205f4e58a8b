// What the written language keeps: one cut, one value a literal, and for each text one tree or one first fault.
ghost use Rattle.std.specs.Prelude.{◌≡◌, ◌⊎◌, ◌++◌, ℕ, ◌<◌, ℤ, List, [], ◌∷◌, length, drop, Bool, false, Some};
ghost use Rattle.std.specs.List.{concat};
ghost use Rattle.std.specs.Str.{IsUtf8, IsCharBoundary};
ghost use Rattle.upon_types.specs.declared.types.Span.{Span};
ghost use Rattle.upon_types.specs.Span.{LiesIn};
ghost use Rattle.upon_types.specs.declared.types.token.Token.{Token};
ghost use Rattle.upon_types.specs.Tree.{raw, Statements, no_statements, statement_then};
ghost use Rattle.upon_language_spec.specs.Search.{DelimiterText, HasTexts, NoneFrom};
ghost use Rattle.upon_language_spec.specs.LiesIn.{HasUtf8};
ghost use Rattle.upon_language_spec.specs.Cut.{Lexeme, Mode, outside, Cut};
ghost use Rattle.upon_language_spec.specs.Reading.{ReadsTo};
ghost use Rattle.upon_language_spec.specs.LiesIn.{LexemesLieIn, parts};
ghost use Rattle.upon_language_spec.specs.Literal.{IsInteger, IsIndex, IsText};
ghost use Rattle.upon_language_spec.specs.Grammar.{HasTree};
ghost use Rattle.upon_language_spec.specs.FirstFault.{SyntaxFault, Holds, IsFirstFault};
ghost use Rattle.upon_language_spec.specs.CutFaults.{IsFirstCutFault};
ghost use Rattle.upon_language_spec.specs.Tags.{Symbol, symbols_of, BeginsTag};
ghost use Rattle.upon_language_spec.specs.Wanted.{Wanted, IsWanted};
ghost use Rattle.upon_language_spec.specs.Parts.{Part, tag_start, Path, wanted_at};
ghost use Rattle.upon_language_spec.specs.SpansLieIn.{StatementsLieIn};
ghost use Rattle.upon_language_spec.specs.Given.{EachGiven, shown_tokens};

/// States that a text is cut into tokens in one way at most, whatever the delimiters, as long as none of them is empty.
pub fn one_cut()
    ensures { (delimiters : List DelimiterText) (s : List ℕ) (ls ks : List Lexeme)
        → HasTexts delimiters → Cut delimiters s outside 0 ls outside (length s)
        → Cut delimiters s outside 0 ks outside (length s) → ls ≡ ks }
{}

/// States that the parts that a text is cut into join to the text: nothing of it is lost.
pub fn cut_joins()
    ensures { (delimiters : List DelimiterText) (s : List ℕ) (ls : List Lexeme)
        → HasTexts delimiters → Cut delimiters s outside 0 ls outside (length s) → concat (parts s ls) ≡ s }
{}

/// Each token of a UTF-8 text lies in it, on character boundaries, as long as each delimiter is UTF-8 too.
pub fn cut_lies_in()
    ensures { (delimiters : List DelimiterText) (s : List ℕ) (ls : List Lexeme)
        → HasTexts delimiters → HasUtf8 delimiters → IsUtf8 s
        → Cut delimiters s outside 0 ls outside (length s) → LexemesLieIn s ls }
{}

/// States that a text has one tree at most, spans included, whatever the delimiters (overlapping and equal ones too),
/// as long as none of them is empty.
pub fn one_tree()
    ensures { (delimiters : List DelimiterText) (s : List ℕ) (a b : Statements)
        → HasTexts delimiters → HasTree delimiters s a → HasTree delimiters s b → a ≡ b }
{}

/// States that a number denotes one integer at most, with a minus before it or without.
pub fn one_integer()
    ensures { (minus : Bool) (text : List ℕ) (z w : ℤ) → IsInteger minus text z → IsInteger minus text w → z ≡ w }
{}

/// States that an index denotes one number at most.
pub fn one_index()
    ensures { (text : List ℕ) (i j : ℕ) → IsIndex text i → IsIndex text j → i ≡ j }
{}

/// States that a string that begins at an offset denotes one text at most.
pub fn one_text()
    ensures { (s : List ℕ) (m n k : ℕ) (t u : List ℕ) → IsText s m n t → IsText s m k u → t ≡ u }
{}

/// States that a text has one first fault at most: one span and one reason.
pub fn one_first_fault()
    ensures { (delimiters : List DelimiterText) (s : List ℕ) (span other : Span) (reason words : List ℕ)
        → HasTexts delimiters → IsFirstFault delimiters s span reason → IsFirstFault delimiters s other words
        → (span ≡ other) × (reason ≡ words) }
{}

/// States that a text that has a first fault has no tree.
pub fn no_tree_with_fault()
    ensures { (delimiters : List DelimiterText) (s : List ℕ) (span : Span) (reason : List ℕ) (tree : Statements)
        → HasTexts delimiters → IsFirstFault delimiters s span reason → HasTree delimiters s tree → ⊥ }
{}

/// States that the tokens that a lexer gives for a whole text, one by one, are its tokens with what trimming leaves of
/// the raw parts.
pub fn given_is_shown()
    ensures { (delimiters : List DelimiterText) (s : List ℕ) (ls : List Lexeme) (given : List (Token × Span))
        → HasTexts delimiters → Cut delimiters s outside 0 ls outside (length s)
        → EachGiven delimiters s outside false ls given → given ≡ shown_tokens s false ls }
{}

/// States that a text has one first fault that ends its cutting at most: at one point, with one span and one reason.
pub fn one_first_cut_fault()
    ensures { (delimiters : List DelimiterText) (s : List ℕ) (p q : ℕ) (span other : Span) (reason words : List ℕ)
        → HasTexts delimiters → IsFirstCutFault delimiters s p span reason → IsFirstCutFault delimiters s q other words
        → (p ≡ q) × (span ≡ other) × (reason ≡ words) }
{}

/// States that the parts of what a text reads to, and then the rest of the text, are the text: nothing of it is lost on
/// the way.
pub fn read_joins()
    ensures { (delimiters : List DelimiterText) (s : List ℕ) (ls : List Lexeme) (mode : Mode) (p : ℕ)
        → HasTexts delimiters → ReadsTo delimiters s ls mode p → concat (parts s ls) ++ drop p s ≡ s }
{}

/// Each UTF-8 text has a tree, or a first fault, whatever the delimiters (overlapping and equal ones too), as long as
/// each is UTF-8 and none is empty.
pub fn tree_or_first_fault()
    ensures { (delimiters : List DelimiterText) (s : List ℕ) → HasTexts delimiters → HasUtf8 delimiters → IsUtf8 s
        → ((tree : Statements) × HasTree delimiters s tree)
        ⊎ ((span : Span) × (reason : List ℕ) × IsFirstFault delimiters s span reason) }
{}

/// States that a UTF-8 text has exactly one tree and no first fault, or exactly one first fault and no tree.
pub fn one_answer()
    ensures { (delimiters : List DelimiterText) (s : List ℕ) → HasTexts delimiters → HasUtf8 delimiters → IsUtf8 s
        → ((tree : Statements) × HasTree delimiters s tree
        × ((other : Statements) → HasTree delimiters s other → tree ≡ other)
        × ((span : Span) (reason : List ℕ) → IsFirstFault delimiters s span reason → ⊥))
        ⊎ ((span : Span) × (reason : List ℕ) × IsFirstFault delimiters s span reason
        × ((other : Span) (words : List ℕ) → IsFirstFault delimiters s other words → (span ≡ other) × (reason ≡ words))
        × ((tree : Statements) → HasTree delimiters s tree → ⊥)) }
{}

/// States that a row of a text's symbols begins a tag if it leads from a tag's start to some parts that are still to
/// come.
pub fn leading_begins()
    ensures { (s : List ℕ) (ls : List Lexeme) (parts_left : List Part)
        → Path (tag_start ∷ []) (symbols_of s ls) parts_left → BeginsTag (symbols_of s ls) }
{}

/// States that a row that begins a tag leads from a tag's start to some parts that are still to come.
pub fn beginning_leads()
    ensures { (row : List Symbol) → BeginsTag row → (parts_left : List Part) × Path (tag_start ∷ []) row parts_left }
{}

/// After a row that leads to some parts, the wanted word is the one that these parts want.
pub fn parts_want()
    ensures { (s : List ℕ) (ls : List Lexeme) (parts_left : List Part) (word : Wanted)
        → Path (tag_start ∷ []) (symbols_of s ls) parts_left → wanted_at parts_left ≡ Some word
        → IsWanted (symbols_of s ls) word }
{}

/// States that a text that has a tree has no fault of any kind, first or not.
pub fn no_fault_with_tree()
    ensures { (delimiters : List DelimiterText) (s : List ℕ) (tree : Statements) (row : SyntaxFault) (p : ℕ)
        (span : Span) (reason : List ℕ)
        → HasTexts delimiters → HasTree delimiters s tree → Holds delimiters s row p span reason → ⊥ }
{}

/// Up to each offset a text reads in one way at most: the same tokens, and then the same mode.
pub fn one_reading()
    ensures { (delimiters : List DelimiterText) (s : List ℕ) (ls ks : List Lexeme) (mode other : Mode) (p : ℕ)
        → HasTexts delimiters → ReadsTo delimiters s ls mode p → ReadsTo delimiters s ks other p → (ls ≡ ks)
        × (mode ≡ other) }
{}

/// Each token that a UTF-8 text reads to lies in it, on character boundaries, and the reading ends on one.
pub fn reading_lies_in()
    ensures { (delimiters : List DelimiterText) (s : List ℕ) (ls : List Lexeme) (mode : Mode) (p : ℕ)
        → HasTexts delimiters → HasUtf8 delimiters → IsUtf8 s → ReadsTo delimiters s ls mode p
        → LexemesLieIn s ls × IsCharBoundary s p }
{}

/// States that a text in which no delimiter is has the tree of one raw part, which is the whole text.
pub fn raw_text()
    ensures { (delimiters : List DelimiterText) (s : List ℕ) → NoneFrom delimiters s 0 (length s) → 0 < length s
        → HasTree delimiters s (statement_then (raw (record { m = 0; n = length s })) no_statements) }
{}

/// States that the empty text has the tree without a statement.
pub fn empty_text()
    ensures { (delimiters : List DelimiterText) → HasTree delimiters [] no_statements }
{}

/// Each span in the tree of a UTF-8 text lies in the text, on character boundaries, as long as each delimiter is UTF-8
/// and none is empty.
pub fn tree_lies_in()
    ensures { (delimiters : List DelimiterText) (s : List ℕ) (tree : Statements)
        → HasTexts delimiters → HasUtf8 delimiters → IsUtf8 s → HasTree delimiters s tree → StatementsLieIn s tree }
{}

/// States that the span of a fault of a UTF-8 text, the first or another, lies in the text, on character boundaries.
pub fn fault_lies_in()
    ensures { (delimiters : List DelimiterText) (s : List ℕ) (row : SyntaxFault) (p : ℕ) (span : Span) (reason : List ℕ)
        → HasTexts delimiters → HasUtf8 delimiters → IsUtf8 s → Holds delimiters s row p span reason → LiesIn s span }
{}

/// States that the span of the first fault lies in the text, on character boundaries.
pub fn first_fault_lies_in()
    ensures { (delimiters : List DelimiterText) (s : List ℕ) (span : Span) (reason : List ℕ)
        → HasTexts delimiters → HasUtf8 delimiters → IsUtf8 s → IsFirstFault delimiters s span reason → LiesIn s span }
{}
