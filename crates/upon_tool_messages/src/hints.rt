// Hints below the picture of a fault: what is wanted here, for those who write what Jinja, Liquid, Handlebars or Go's
// templates would take.
use upon_types::error::Error;
use upon_types::error::cause::{Cause, Wanted};
use upon_types::types::Token;

/// What a fault marks in its line.
#[derive(Clone, Copy)]
pub(crate) struct Marked<'e> {
    /// The text of the line before the fault's span.
    pub(crate) before: &'e str,
    /// The text of the span, as far as it is in the line.
    pub(crate) text: &'e str,
    /// The text from the span on.
    pub(crate) rest: &'e str,
}

/// Returns what an error marks in its line.
pub(crate) fn marked_in(error: &Error) -> Option<Marked<'_>> {
    let span = error.place()?;
    let (before, rest) = error.marked_line()?;
    let text = rest.get(..span.n.saturating_sub(span.m)).unwrap_or(rest);
    Some(Marked { before, text, rest })
}

/// Returns the hint for an error, if what it marks looks like another language's.
pub(crate) fn hint_of(error: &Error) -> Option<&'static str> {
    match error.cause()? {
        Cause::UnexpectedCharacter => of_character(marked_in(error)?),
        Cause::InvalidFloat => Some("numbers are integers: write \"1.5\", a text"),
        Cause::Expected(wanted, found) => of_expected(*wanted, *found, marked_in(error)?),
        Cause::UnexpectedKeyword(word) => of_keyword(word.as_str()),
        _ => None,
    }
}

const COMPARES: &str = "there are no operators: functions compare, as in `{% if eq(a, b) %}`";

const COMPUTES: &str = "there are no operators: functions compute, as in `{{ add(a, b) }}`";

const AND: &str = "there is no `and`: put one `if` into the other, or call a function";

const OR: &str = "there is no `or`: use `else if`, or call a function";

const NOT: &str = "`not` is written out, as in `{% if not a %}`";

const ONLY_IF: &str = "`not` is for `{% if not a %}` and `{% else if not a %}` alone";

const BINDS: &str = "a name is bound by `{% with VALUE as NAME %} .. {% endwith %}`";

const FOR: &str = "a loop is `{% for x in list %}`, or `{% for key, value in map %}`";

const INCLUDES: &str =
    "another template is `{% include \"NAME\" %}`, or `{% include \"NAME\" with {\"key\": value} %}`";

const CLOSES: &str = "a block is closed by `{% endif %}`, `{% endfor %}` or `{% endwith %}`";

const LAYOUT: &str =
    "there is no inheritance: a page includes its layout's parts, or a layout the page";

const COMMENT: &str = "a comment is `{# .. #}`";

const BLOCKS: &str = "`{% .. %}` is for blocks, `{{ .. }}` for values";

const MISSES: &str = "`a?.b` is none where `a` has no `b`, as in `{% if a?.b %}`";

const IF: &str = "a choice is `{% if a %} .. {% else %} .. {% endif %}`";

const RAW: &str = "a delimiter is shown by `{{ \"{{\" }}`";

// Words where a block's keyword is wanted.
const WORDS: [(&str, &str); 27] = [
    ("elif", "`elif` is `else if` here"),
    ("elsif", "`elsif` is `else if` here"),
    ("elseif", "`elseif` is `else if` here"),
    ("set", BINDS),
    ("assign", BINDS),
    ("let", BINDS),
    ("capture", BINDS),
    ("extends", LAYOUT),
    ("block", LAYOUT),
    ("endblock", LAYOUT),
    ("raw", RAW),
    ("verbatim", RAW),
    ("macro", INCLUDES),
    ("import", INCLUDES),
    ("from", INCLUDES),
    ("call", INCLUDES),
    ("render", INCLUDES),
    ("template", INCLUDES),
    (
        "filter",
        "a formatter is applied by `{{ value | formatter }}`",
    ),
    ("unless", "`unless` is `{% if not a %}` here"),
    ("case", IF),
    ("switch", IF),
    ("end", CLOSES),
    ("range", FOR),
    ("foreach", FOR),
    ("each", FOR),
    ("comment", COMMENT),
];

// What is written where a value may not go on.
const AFTER_VALUES: [(&str, &str); 5] = [
    ("and", AND),
    ("or", OR),
    ("is", MISSES),
    (
        "in",
        "there are no operators: a function looks whether a list has a value",
    ),
    ("if", IF),
];

// Characters that begin no token.
const CHARACTERS: [(&str, &str); 16] = [
    ("==", COMPARES),
    ("!=", COMPARES),
    ("<", COMPARES),
    (">", COMPARES),
    ("&&", AND),
    ("!", NOT),
    ("'", "a text is in double quotes"),
    ("*", COMPUTES),
    ("/", COMPUTES),
    ("%", COMPUTES),
    (
        "~",
        "texts are put together by tags next to each other: `{{ a }}{{ b }}`",
    ),
    ("??", MISSES),
    ("?", IF),
    ("$", "a name begins with a letter or `_`"),
    ("#", "a block is `{% if a %}`, or `{% for x in list %}`"),
    (";", "nothing is put at the end of a tag"),
];

// The hint of the first beginning that a text has.
fn first_of(hints: &[(&'static str, &'static str)], text: &str) -> Option<&'static str> {
    for (begin, hint) in hints {
        if text.starts_with(begin) {
            return Some(hint);
        }
    }
    None
}

// The hint of a word.
fn of_word(hints: &[(&'static str, &'static str)], word: &str) -> Option<&'static str> {
    for (own, hint) in hints {
        if *own == word {
            return Some(hint);
        }
    }
    None
}

// The hint for a character that begins no token.
fn of_character(marked: Marked<'_>) -> Option<&'static str> {
    let is_first = marked.before.trim_end().ends_with("{{");
    match marked.rest.chars().next() {
        Some('=') if !marked.rest.starts_with("==") => of_assignment(marked),
        Some('/') if is_first => Some(CLOSES),
        Some('>') if is_first => Some(INCLUDES),
        _ => first_of(CHARACTERS.as_slice(), marked.rest),
    }
}

// The hint for `=`.
fn of_assignment(marked: Marked<'_>) -> Option<&'static str> {
    if tag_of(marked.before).contains("include") {
        return Some(INCLUDES);
    }
    Some(BINDS)
}

// The hint for a word where a keyword is wanted.
fn of_block(marked: Marked<'_>) -> Option<&'static str> {
    let word = word_of(marked.rest);
    if tag_of(marked.before).trim().is_empty() {
        return of_word(WORDS.as_slice(), word);
    }
    if word == "of" { Some(FOR) } else { None }
}

// The hint for a name where a string is wanted.
fn of_name(marked: Marked<'_>) -> Option<&'static str> {
    if marked.before.trim_end().ends_with("{{{") {
        return Some(
            "values are not escaped; with --html, `{{ a | verbatim }}` leaves one as it is",
        );
    }
    if tag_of(marked.before).contains("include") {
        return Some(INCLUDES);
    }
    None
}

// The hint for a keyword where a block's word or a value is wanted.
fn of_keyword(word: &str) -> Option<&'static str> {
    if word == "not" {
        Some(ONLY_IF)
    } else {
        Some(BLOCKS)
    }
}

// The hint for a token where something else is wanted.
fn of_expected(wanted: Wanted, found: Token, marked: Marked<'_>) -> Option<&'static str> {
    match wanted {
        Wanted::Token(wanted) => of_pair(wanted, found, marked),
        Wanted::Expression | Wanted::NameOrIndex => of_token(found, marked),
    }
}

// The hint for a token where another one is wanted.
fn of_pair(wanted: Token, found: Token, marked: Marked<'_>) -> Option<&'static str> {
    match (wanted, found) {
        (Token::Keyword, Token::Ident) => of_block(marked),
        (Token::Ident, Token::Pipe) => Some(OR),
        (Token::Ident, Token::OpenParen) => Some(FOR),
        (Token::String, Token::Ident) => of_name(marked),
        _ => of_token(found, marked),
    }
}

// The hint for a token that may not stand there.
fn of_token(found: Token, marked: Marked<'_>) -> Option<&'static str> {
    match found {
        Token::OpenBracket => Some("the first item is `a.0`, a member `a.name`"),
        Token::OpenParen => of_call(marked),
        Token::Plus | Token::Minus => Some(COMPUTES),
        Token::Ident | Token::Keyword => of_word(AFTER_VALUES.as_slice(), word_of(marked.rest)),
        _ => None,
    }
}

// The hint for a parenthesis after what is no function's name.
fn of_call(marked: Marked<'_>) -> Option<&'static str> {
    if tag_of(marked.before).contains('|') {
        return Some("a formatter's arguments come after a colon: `{{ a | f: 1, 2 }}`");
    }
    Some("a value has no methods: a map is walked by `{% for key, value in map %}`")
}

// What stands in the tag before a place.
fn tag_of(before: &str) -> &str {
    let after_block = match before.rsplit_once("{%") {
        Some((_, tag)) => tag,
        None => before,
    };
    let tag = match after_block.rsplit_once("{{") {
        Some((_, tag)) => tag,
        None => after_block,
    };
    tag.strip_prefix('-').unwrap_or(tag)
}

// The letters, digits and `_` that a text begins with.
fn word_of(text: &str) -> &str {
    let end = text.find(|letter: char| !letter.is_alphanumeric() && letter != '_');
    match end {
        Some(end) => text.get(..end).unwrap_or_default(),
        None => text,
    }
}
