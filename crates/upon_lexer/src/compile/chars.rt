// Characters of a text, one by one and in runs.
ghost use Rattle.std.specs.Prelude.{◌≡◌, ◌⊎◌, ℕ, ◌+◌, length, false, encode_utf8, IfSome, MatchOption};
ghost use Rattle.std.specs.Str.{IsCharBoundary};
ghost use Rattle.std.specs.Char.{len_utf8};
ghost use Rattle.upon_types.specs.Span.{LiesIn};
ghost use Rattle.upon_language_spec.specs.Search.{Occurs};
ghost use Rattle.upon_language_spec.specs.Words.{IsRun, begins_name, is_keyword};
ghost use Rattle.upon_lexer.specs.Class.{class_test};

/// The characters of which runs are made.
#[derive(Clone, Copy)]
pub enum CharClass {
    /// The whitespace inside tags.
    Space,
    /// What continues a name.
    Name,
    /// What continues a number.
    Number,
    /// A digit.
    Digit,
}

impl CharClass {
    /// Returns whether a character is of the class.
    pub fn has(self, c: char) -> bool
        ensures { result ≡ class_test self c }
    {
        match self {
            CharClass::Space => matches!(c, '\t' | '\n' | '\r' | ' '),
            CharClass::Name => unicode_ident::is_xid_continue(c),
            CharClass::Number => c.is_ascii_alphanumeric() || matches!(c, '_' | '-' | '+' | '.'),
            CharClass::Digit => c.is_ascii_digit(),
        }
    }
}

/// Returns whether a character may begin a name.
pub fn begins_name(c: char) -> bool
    ensures { result ≡ begins_name c }
{
    c == '_' || unicode_ident::is_xid_start(c)
}

/// Returns whether a word is never a name.
pub fn is_keyword(word: &str) -> bool
    ensures { result ≡ is_keyword word.now }
{
    match word.len() {
        2 => matches!(word, "if" | "in" | "as"),
        3 => matches!(word, "not" | "for"),
        4 => matches!(word, "else" | "with" | "true"),
        5 => matches!(word, "endif" | "false"),
        6 => word == "endfor",
        7 => matches!(word, "endwith" | "include"),
        _ => false,
    }
}

/// Returns the character at an offset of a text, in bytes; none is at its end.
pub fn char_at(source: &str, at: usize) -> Option<char>
    requires { IsCharBoundary source.now at }
    ensures occurs { MatchOption result (at ≡ length source.now) (λ c. Occurs source.now at (encode_utf8 c)) }
    ensures span { IfSome result (λ c. LiesIn source.now (record { m = at; n = at + len_utf8 c })) }
{
    source[at..].chars().next()
}

/// Where the run of a class's characters at an offset ends, in bytes; the offset itself, if none is.
pub fn run_end(class: CharClass, source: &str, at: usize) -> usize
    requires { IsCharBoundary source.now at }
    ensures run { (result ≡ at) ⊎ IsRun (class_test class) source.now at result }
    ensures longest { (c : ℕ) → Occurs source.now result (encode_utf8 c) → class_test class c ≡ false }
    ensures span { LiesIn source.now (record { m = at; n = result }) }
{
    let mut end = at;
    while let Some(c) = char_at(source, end) {
        if !class.has(c) {
            break;
        }
        end += c.len_utf8();
    }
    end
}
