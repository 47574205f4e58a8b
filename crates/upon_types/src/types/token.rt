// What the text between a template's delimiters falls into.
ghost use Rattle.std.specs.Prelude.{◌≡◌};
ghost use Rattle.upon_types.specs.Token.{token_word};

/// A kind of token.
#[derive(Clone, Copy, Debug, PartialEq, Eq)]
pub enum Token {
    /// Text outside of delimiters.
    Raw,
    /// `{{`
    BeginExpr,
    /// `}}`
    EndExpr,
    /// `{%`
    BeginBlock,
    /// `%}`
    EndBlock,
    /// `{#`
    BeginComment,
    /// `#}`
    EndComment,
    /// `[`
    OpenBracket,
    /// `]`
    CloseBracket,
    /// `{`
    OpenBrace,
    /// `}`
    CloseBrace,
    /// `(`
    OpenParen,
    /// `)`
    CloseParen,
    /// `.`
    Dot,
    /// `?.`
    QuestionDot,
    /// `|`
    Pipe,
    /// `,`
    Comma,
    /// `:`
    Colon,
    /// `+`
    Plus,
    /// `-`
    Minus,
    /// Blanks and ends of lines.
    Whitespace,
    /// A word of the language, as `for`.
    Keyword,
    /// A name.
    Ident,
    /// A number after a `.`.
    Index,
    /// A number.
    Number,
    /// A text in quotes.
    String,
}

impl Token {
    /// Returns what a message calls this kind of token.
    pub fn human(self) -> &'static str
        ensures { result.now ≡ token_word self }
    {
        match self {
            Token::Raw => "raw template",
            Token::BeginExpr => "begin expression",
            Token::EndExpr => "end expression",
            Token::BeginBlock => "begin block",
            Token::EndBlock => "end block",
            Token::BeginComment => "begin comment",
            Token::EndComment => "end comment",
            Token::OpenBracket => "open bracket",
            Token::CloseBracket => "close bracket",
            Token::OpenBrace => "open brace",
            Token::CloseBrace => "close brace",
            Token::OpenParen => "open parenthesis",
            Token::CloseParen => "close parenthesis",
            Token::Dot => "member access operator",
            Token::QuestionDot => "optional member access operator",
            Token::Pipe => "pipe",
            Token::Comma => "comma",
            Token::Colon => "colon",
            Token::Plus => "plus",
            Token::Minus => "minus",
            Token::Whitespace => "whitespace",
            Token::Keyword => "keyword",
            Token::Ident => "identifier",
            Token::Index => "index",
            Token::Number => "number",
            Token::String => "string",
        }
    }
}
