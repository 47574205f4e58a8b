// The tokens of a template's text, one by one.
ghost use Rattle.std.specs.Prelude.{◌≡◌, ℕ, ◌<◌, ◌≤◌, ◌↔◌, IsTrue, List, [], Bool, true, false, length, encode_utf8, Some, None, Ok, IfOk, IfErr, IfSome, MatchOption};
ghost use Rattle.std.specs.Option.{ForSome};
ghost use Rattle.std.specs.List.{Contains};
ghost use Rattle.std.specs.Str.{IsCharBoundary};
ghost use Rattle.upon_types.specs.Span.{LiesIn};
ghost use Rattle.upon_types.specs.Fault.{bare_fault, fault_with_picture, syntax, OrMemory};
ghost use Rattle.upon_types.specs.Error.{fault_of};
ghost use Rattle.upon_language_spec.specs.Search.{DelimiterText, Occurs, NoneAt, IsBestDelimiter};
ghost use Rattle.upon_delimiters.specs.Searcher.{searcher_delimiters, IsNextDelimiter};
ghost use Rattle.upon_lexer.specs.Plain.{is_plain, is_frequent};
ghost use Rattle.upon_types.specs.declared.types.token.Token.TheVariants.{Raw};
ghost use Rattle.upon_language_spec.specs.Raw.{IsRaw};
ghost use Rattle.upon_language_spec.specs.Cut.{Lexeme, in_tag, in_comment};
ghost use Rattle.upon_language_spec.specs.Inside.{IsInside};
ghost use Rattle.upon_language_spec.specs.Faults.{awaited_sort, lexeme_at, span_of};
ghost use Rattle.upon_language_spec.specs.LexStep.{IsNext, state_after};
ghost use Rattle.upon_language_spec.specs.Lexing.{TrimsAt};
ghost use Rattle.upon_language_spec.specs.Shown.{shown_span};
ghost use Rattle.upon_lexer.specs.Roles.{sort_of};
ghost use Rattle.upon_lexer.specs.Reasons.{reason_of};
ghost use Rattle.upon_language_spec.specs.Delimiters.{end_sort};
ghost use Rattle.upon_language_spec.specs.Delimiters as language;
ghost use Rattle.upon_lexer.specs.declared.compile.brackets.OpenBracket.{OpenBracket};
ghost use Rattle.upon_lexer.specs.OpenTags.{mode_of};

use crate::compile::brackets::{
    BracketEffect, OpenBracket, apply, closes_innermost, effect_of, innermost,
};
use crate::compile::chars::char_at;
use crate::compile::fault::{SyntaxFault, Wrong};
use crate::compile::inside::token_inside;
use crate::compile::plain::plain_at;
use crate::compile::roles::{Role, Sort, has_hyphen, role_of};
use crate::compile::tags::{OpenTag, end_trims, is_space, pass_inner, pass_token};
use crate::compile::trim::{trim_end, trim_start};
use std::alloc::{AllocError, Global};
use upon_delimiters::search::Searcher;
use upon_types::error::{Error, ErrorKind, Result};
use upon_types::types::{Delimiter, Span, Token};

/// A token and where it is; of a delimiter, whether it has the hyphen.
#[derive(Clone, Copy)]
struct NextToken {
    token: Token,
    hyphen: bool,
    span: Span,
}

/// Cuts a template's text into tokens.
#[derive(Drop)]
pub struct Lexer<'a> {
    alloc: Global,
    searcher: &'a Searcher,
    source: &'a str,
    offset: usize,
    tag: Option<OpenTag>,
    brackets: Vec<OpenBracket>,
    trims: bool,
    over: bool,
    ghost boundary: { IsCharBoundary source.now offset },
    ghost tag_span: { ForSome tag (λ t. LiesIn source.now t.begin) },
    ghost bracket_spans: { (b : OpenBracket) → Contains brackets.items b → LiesIn source.now b.span },
}

impl<'a> Lexer<'a> {
    ghost use Rattle.upon_language_spec.specs.Lexing.{opens_bracket};
    ghost use Rattle.upon_lexer.specs.Spelling.{IsSpelled, LiesBetween};
    ghost use Rattle.upon_lexer.specs.Lexers.{lexer_text, lexer_delimiters, lexer_state, next_lexeme, ReadSoFar, GivesToken, GivesAfterSpace, GivesNext, FindsToken, GoesWrong, IsDelimiterAt, Passes, IsGivenWhole, HasPassedSpaces};

    /// Creates a lexer at the start of a text, over the delimiters of a searcher.
    pub fn new(alloc: Global, searcher: &'a Searcher, source: &'a str) -> Lexer<'a>
        ensures text { lexer_text result ≡ source.now }
        ensures delimiters { lexer_delimiters result ≡ searcher_delimiters searcher.now }
        ensures start { ReadSoFar result [] }
    {
        Lexer {
            alloc,
            searcher,
            source,
            offset: 0,
            tag: None,
            brackets: Vec::new(alloc),
            trims: false,
            over: false,
        }
    }

    /// Returns the next token and where it is, in bytes; of a raw part outside tags the span that trimming leaves.
    /// At the end of the text there is none. If the text can't be cut further, the error reports that fault, which
    /// is the text's first of its kind; if there is no memory to say it, or to keep a bracket that opens, it says
    /// that. After an error there are no more tokens.
    pub fn lex(&mut self) -> Result<Option<(Token, Span)>>
        ensures token { (ls : List Lexeme) → ReadSoFar self.old ls → GivesToken self.old ls result self.new }
        ensures span { IfOk result (λ found. IfSome found (λ given. LiesIn (lexer_text self.old) given.1)) }
        ensures spelled { IfOk result (λ found. IfSome found
            (λ given. IsSpelled (lexer_text self.old) given.0 given.1)) }
        ensures between { IfOk result (λ found. IfSome found (λ given. LiesBetween
            (lexer_state self.old).offset
            (lexer_state self.new).offset
            given.0
            given.1)) }
        ensures further { IfOk result (λ found. IfSome found
            (λ _. (lexer_state self.old).offset < (lexer_state self.new).offset)) }
        ensures stops { IfErr result (λ _. (lexer_state self.new).over ≡ true) }
        ensures stopped { (lexer_state self.old).over ≡ true
            → (result ≡ Ok None) × ((lexer_state self.new).over ≡ true) }
        ensures text { lexer_text self.new ≡ lexer_text self.old }
        ensures delimiters { lexer_delimiters self.new ≡ lexer_delimiters self.old }
    {
        if self.over {
            return Ok(None);
        }
        let delimiter = self.searcher.starts_with(self.source, self.offset);
        if let Some(given) = self.pass_frequent(delimiter) {
            return Ok(Some(given));
        }
        match self.step(delimiter) {
            Ok(Some(found)) => match self.pass(found) {
                Ok(()) => Ok(Some((found.token, found.span))),
                Err(e) => {
                    self.over = true;
                    Err(Error::from(e))
                }
            },
            Ok(None) => Ok(None),
            Err(wrong) => Err(self.refuse(wrong)),
        }
    }

    /// Returns the next token that is no whitespace inside a tag, as [`Lexer::lex`] gives it.
    #[inline(always)]
    pub fn next(&mut self) -> Result<Option<(Token, Span)>>
        ensures token { (ls : List Lexeme) → ReadSoFar self.old ls → GivesAfterSpace self.old ls result self.new }
        ensures span { IfOk result (λ found. IfSome found (λ given. LiesIn (lexer_text self.old) given.1)) }
        ensures spelled { IfOk result (λ found. IfSome found
            (λ given. IsSpelled (lexer_text self.old) given.0 given.1)) }
        ensures between { IfOk result (λ found. IfSome found (λ given. LiesBetween
            (lexer_state self.old).offset
            (lexer_state self.new).offset
            given.0
            given.1)) }
        ensures further { IfOk result (λ found. IfSome found
            (λ _. (lexer_state self.old).offset < (lexer_state self.new).offset)) }
        ensures stops { IfErr result (λ _. (lexer_state self.new).over ≡ true) }
        ensures stopped { (lexer_state self.old).over ≡ true
            → (result ≡ Ok None) × ((lexer_state self.new).over ≡ true) }
        ensures text { lexer_text self.new ≡ lexer_text self.old }
        ensures delimiters { lexer_delimiters self.new ≡ lexer_delimiters self.old }
    {
        match self.pass_right() {
            Some(given) => Ok(Some(given)),
            None => self.next_rare(),
        }
    }

    // Returns the next token that is no whitespace, where whitespace is before it, or there is none, or it is wrong.
    #[cold]
    #[inline(never)]
    fn next_rare(&mut self) -> Result<Option<(Token, Span)>>
        ensures gives { GivesNext
            (lexer_delimiters self.old)
            (lexer_text self.old)
            (lexer_state self.old)
            result
            (lexer_state self.new) }
        ensures text { lexer_text self.new ≡ lexer_text self.old }
        ensures delimiters { lexer_delimiters self.new ≡ lexer_delimiters self.old }
    {
        match self.lex() {
            Ok(Some((token, span))) => {
                if is_space(token) {
                    self.lex()
                } else {
                    Ok(Some((token, span)))
                }
            }
            Ok(None) => Ok(None),
            Err(e) => Err(e),
        }
    }

    /// Returns the next token inside a tag that is no whitespace, if it is a frequent one, and where it is, in bytes.
    /// `None` says nothing, but that the lexer may have passed whitespace.
    pub fn next_plain(&mut self) -> Option<(Token, Span)>
        ensures token { IfSome result (λ given. (ls : List Lexeme)
            → ReadSoFar self.old ls
            → GivesAfterSpace self.old ls (Ok (Some given)) self.new) }
        ensures blanks { result ≡ None → (ls : List Lexeme)
            → ReadSoFar self.old ls
            → HasPassedSpaces self.new ls }
        ensures plain { IfSome result (λ given. is_plain given.0 ≡ true) }
        ensures span { IfSome result (λ given. LiesIn (lexer_text self.old) given.1) }
        ensures before { IfSome result (λ given. given.1.n ≤ (lexer_state self.new).offset) }
        ensures further { IfSome result (λ _. (lexer_state self.old).offset < (lexer_state self.new).offset) }
        ensures onward { (lexer_state self.old).offset ≤ (lexer_state self.new).offset }
        ensures text { lexer_text self.new ≡ lexer_text self.old }
        ensures delimiters { lexer_delimiters self.new ≡ lexer_delimiters self.old }
    {
        'blanks: loop {
            let start = self.offset;
            let (token, end) = self.plain()?;
            self.pass_plain(token, end);
            if !is_space(token) {
                return Some((token, Span { m: start, n: end }));
            }
        }
    }

    // The token where the lexer is, and where it ends, if it is a frequent one in a tag and no delimiter may begin
    // there; `None` says nothing.
    fn plain(&self) -> Option<(Token, usize)>
        ensures token { IfSome result (λ found. IsNext
            (lexer_delimiters self.now)
            (lexer_text self.now)
            (lexer_state self.now)
            (lexeme_at found.0 false self.now.offset found.1)) }
        ensures kind { IfSome result (λ found. is_frequent found.0 ≡ true) }
        ensures span { IfSome result (λ found. LiesIn (lexer_text self.now) (span_of self.now.offset found.1)) }
        ensures further { IfSome result (λ found. self.now.offset < found.1) }
    {
        let tag = self.tag?;
        if let Sort::Comment = tag.sort {
            return None;
        }
        let bytes = self.source.as_bytes();
        if self.offset >= bytes.len() || self.searcher.may_begin(bytes, self.offset) {
            return None;
        }
        let (token, end) = plain_at(self.source, self.offset)?;
        Some((token, end))
    }

    // Moves after a frequent token.
    fn pass_plain(&mut self, token: Token, end: usize)
        requires kind { is_frequent token ≡ true }
        requires span { LiesIn (lexer_text self.now) (span_of self.now.offset end) }
        ensures state { self.old.over ≡ false → lexer_state self.new
            ≡ state_after (lexer_state self.old) (lexeme_at token false self.old.offset end) }
        ensures offset { (lexer_state self.new).offset ≡ end }
        ensures text { lexer_text self.new ≡ lexer_text self.old }
        ensures delimiters { lexer_delimiters self.new ≡ lexer_delimiters self.old }
    {
        pass_inner(&mut self.tag, token);
        self.trims = false;
        self.offset = end;
    }

    // Passes a token that is no whitespace, without a result that may be an error. `None` says nothing, and leaves the
    // lexer where it is.
    #[inline(always)]
    fn pass_right(&mut self) -> Option<(Token, Span)>
        ensures passed { IfSome result (λ given. Passes self.old given self.new) }
        ensures span { IfSome result (λ given. LiesIn (lexer_text self.old) given.1) }
        ensures stays { result ≡ None → lexer_state self.new ≡ lexer_state self.old }
        ensures text { lexer_text self.new ≡ lexer_text self.old }
        ensures delimiters { lexer_delimiters self.new ≡ lexer_delimiters self.old }
    {
        if self.over {
            return None;
        }
        let delimiter = self.searcher.starts_with(self.source, self.offset);
        match self.pass_frequent(delimiter) {
            Some(given) => Some(given),
            None => {
                if delimiter.is_none() {
                    self.pass_inside()
                } else {
                    None
                }
            }
        }
    }

    // Passes what is no delimiter in an open tag, in the same way.
    #[inline(never)]
    fn pass_inside(&mut self) -> Option<(Token, Span)>
        requires bare { NoneAt (lexer_delimiters self.now) (lexer_text self.now) self.now.offset }
        requires not_over { self.now.over ≡ false }
        ensures passed { IfSome result (λ given. Passes self.old given self.new) }
        ensures span { IfSome result (λ given. LiesIn (lexer_text self.old) given.1) }
        ensures stays { result ≡ None → lexer_state self.new ≡ lexer_state self.old }
        ensures text { lexer_text self.new ≡ lexer_text self.old }
        ensures delimiters { lexer_delimiters self.new ≡ lexer_delimiters self.old }
    {
        let tag = self.tag?;
        if tag.sort == Sort::Comment {
            return None;
        }
        let first = char_at(self.source, self.offset)?;
        let Ok(found) = self.inside(first, tag) else {
            return None;
        };
        if is_space(found.token) {
            return None;
        }
        match self.pass(found) {
            Ok(()) => Some((found.token, found.span)),
            Err(_) => None,
        }
    }

    // Passes what is there most often, and returns it with its span: outside tags a begin or a raw part, in a tag its
    // end where no bracket is open, in a comment its raw part. `None` says nothing, and leaves the lexer as it is.
    fn pass_frequent(&mut self, delimiter: Option<(Delimiter, Span)>) -> Option<(Token, Span)>
        requires best { IsDelimiterAt self.now delimiter }
        requires not_over { self.now.over ≡ false }
        ensures passed { IfSome result (λ given. Passes self.old given self.new) }
        ensures span { IfSome result (λ given. LiesIn (lexer_text self.old) given.1) }
        ensures stays { result ≡ None → self.new ≡ self.old }
        ensures end { result ≡ None → delimiter ≡ None → self.old.tag ≡ None
            → self.old.offset ≡ length (lexer_text self.old) }
        ensures text { lexer_text self.new ≡ lexer_text self.old }
        ensures delimiters { lexer_delimiters self.new ≡ lexer_delimiters self.old }
    {
        match (self.tag, delimiter) {
            (None, Some((kind, span))) => self.pass_begin(kind, span),
            (None, None) => self.pass_raw(),
            (Some(tag), Some((kind, span))) => self.pass_end(tag.sort, kind, span),
            (Some(tag), None) => {
                if tag.sort == Sort::Comment {
                    self.pass_comment()
                } else {
                    None
                }
            }
        }
    }

    // Passes a delimiter outside tags, if it is a begin.
    fn pass_begin(&mut self, kind: Delimiter, span: Span) -> Option<(Token, Span)>
        requires outside { self.now.tag ≡ None }
        requires best { IsDelimiterAt self.now (Some (kind, span)) }
        requires not_over { self.now.over ≡ false }
        ensures passed { IfSome result (λ given. Passes self.old given self.new) }
        ensures span { IfSome result (λ given. given.1 ≡ span) }
        ensures stays { result ≡ None → self.new ≡ self.old }
        ensures text { lexer_text self.new ≡ lexer_text self.old }
        ensures delimiters { lexer_delimiters self.new ≡ lexer_delimiters self.old }
    {
        let Role::Begin(sort) = role_of(kind) else {
            return None;
        };
        let token = sort.begin_token();
        pass_token(&mut self.tag, token, span);
        self.trims = false;
        self.offset = span.n;
        Some((token, span))
    }

    // Passes a delimiter in an open tag, if it is the tag's end and no bracket is open.
    fn pass_end(&mut self, sort: Sort, kind: Delimiter, span: Span) -> Option<(Token, Span)>
        requires open { awaited_sort (mode_of self.now.tag) ≡ Some (sort_of sort) }
        requires best { IsDelimiterAt self.now (Some (kind, span)) }
        requires not_over { self.now.over ≡ false }
        ensures passed { IfSome result (λ given. Passes self.old given self.new) }
        ensures span { IfSome result (λ given. given.1 ≡ span) }
        ensures stays { result ≡ None → self.new ≡ self.old }
        ensures text { lexer_text self.new ≡ lexer_text self.old }
        ensures delimiters { lexer_delimiters self.new ≡ lexer_delimiters self.old }
    {
        let Role::End(ended) = role_of(kind) else {
            return None;
        };
        if ended != sort || !self.brackets.is_empty() {
            return None;
        }
        self.tag = None;
        self.trims = has_hyphen(kind);
        self.offset = span.n;
        Some((sort.end_token(), span))
    }

    // Passes the raw part outside tags, and returns what the hyphens beside it leave; none is at the text's end.
    fn pass_raw(&mut self) -> Option<(Token, Span)>
        requires outside { self.now.tag ≡ None }
        requires bare { NoneAt (lexer_delimiters self.now) (lexer_text self.now) self.now.offset }
        requires not_over { self.now.over ≡ false }
        ensures passed { IfSome result (λ given. Passes self.old given self.new) }
        ensures span { IfSome result (λ given. LiesIn (lexer_text self.old) given.1) }
        ensures stays { result ≡ None → self.new ≡ self.old }
        ensures end { result ≡ None → self.old.offset ≡ length (lexer_text self.old) }
        ensures text { lexer_text self.new ≡ lexer_text self.old }
        ensures delimiters { lexer_delimiters self.new ≡ lexer_delimiters self.old }
    {
        if self.offset == self.source.len() {
            return None;
        }
        let (end, next) = self.searcher.raw_end(self.source, self.offset);
        let raw = Span {
            m: self.offset,
            n: end,
        };
        let given = shown(self.source, self.trims, begin_trims(next), raw);
        self.trims = false;
        self.offset = end;
        Some((Token::Raw, given))
    }

    // Passes the raw part of a comment; none is at the text's end.
    fn pass_comment(&mut self) -> Option<(Token, Span)>
        requires inside { mode_of self.now.tag ≡ in_comment }
        requires bare { NoneAt (lexer_delimiters self.now) (lexer_text self.now) self.now.offset }
        requires not_over { self.now.over ≡ false }
        ensures passed { IfSome result (λ given. Passes self.old given self.new) }
        ensures span { IfSome result (λ given. LiesIn (lexer_text self.old) given.1) }
        ensures stays { result ≡ None → self.new ≡ self.old }
        ensures text { lexer_text self.new ≡ lexer_text self.old }
        ensures delimiters { lexer_delimiters self.new ≡ lexer_delimiters self.old }
    {
        if self.offset == self.source.len() {
            return None;
        }
        let raw = self.raw();
        self.trims = false;
        self.offset = raw.span.n;
        Some((raw.token, raw.span))
    }

    // The token where the lexer is, where it is none of the frequent ones; none at the text's end.
    fn step(
        &self,
        delimiter: Option<(Delimiter, Span)>,
    ) -> std::result::Result<Option<NextToken>, Wrong>
        requires best { IsDelimiterAt self.now delimiter }
        requires end { delimiter ≡ None → self.now.tag ≡ None → self.now.offset ≡ length (lexer_text self.now) }
        ensures token { IfOk result (λ found. MatchOption
            found
            (self.now.offset ≡ length (lexer_text self.now))
            (λ f. FindsToken self.now f)) }
        ensures given { IfOk result (λ found. IfSome found (IsGivenWhole self.now)) }
        ensures span { IfOk result (λ found. IfSome found (λ f. LiesIn (lexer_text self.now) f.span)) }
        ensures wrong { IfErr result (λ wrong. GoesWrong self.now wrong) }
        ensures wrong_span { IfErr result (λ wrong. LiesIn (lexer_text self.now) wrong.span) }
    {
        if let Some((kind, span)) = delimiter {
            return self.delimiter(kind, span).map(Some);
        }
        let Some(tag) = self.tag else {
            return Ok(None);
        };
        let Some(first) = char_at(self.source, self.offset) else {
            return Ok(None);
        };
        if tag.sort == Sort::Comment {
            Ok(Some(self.raw()))
        } else {
            self.inside(first, tag).map(Some)
        }
    }

    // The token of the delimiter where the lexer is.
    fn delimiter(&self, kind: Delimiter, span: Span) -> std::result::Result<NextToken, Wrong>
        requires occurs { IsBestDelimiter (lexer_delimiters self.now) (lexer_text self.now) kind span.m span.n }
        requires start { span.m ≡ self.now.offset }
        requires span { LiesIn (lexer_text self.now) span }
        ensures token { IfOk result (λ f. FindsToken self.now f) }
        ensures span { IfOk result (λ f. f.span ≡ span) }
        ensures wrong { IfErr result (λ wrong. GoesWrong self.now wrong) }
        ensures wrong_span { IfErr result (λ wrong. LiesIn (lexer_text self.now) wrong.span) }
    {
        match role_of(kind) {
            Role::Begin(sort) => match self.tag {
                Some(tag) => Err(Wrong {
                    fault: SyntaxFault::UnclosedTag(tag.sort),
                    span: tag.begin,
                }),
                None => Ok(NextToken {
                    token: sort.begin_token(),
                    hyphen: has_hyphen(kind),
                    span,
                }),
            },
            Role::End(sort) => {
                if self.awaits(sort) {
                    self.end(kind, sort, span)
                } else {
                    Err(Wrong {
                        fault: SyntaxFault::UnexpectedEnd(sort),
                        span,
                    })
                }
            }
        }
    }

    // Whether a tag or a comment of a sort is open.
    fn awaits(&self, sort: Sort) -> bool
        ensures { IsTrue result ↔ (awaited_sort (mode_of self.now.tag) ≡ Some (sort_of sort)) }
    {
        match self.tag {
            Some(tag) => tag.sort == sort,
            None => false,
        }
    }

    // The token that the open tag's end is, where no bracket is open.
    fn end(&self, kind: Delimiter, sort: Sort, span: Span) -> std::result::Result<NextToken, Wrong>
        requires occurs { IsBestDelimiter (lexer_delimiters self.now) (lexer_text self.now) kind span.m span.n }
        requires start { span.m ≡ self.now.offset }
        requires sort { end_sort kind ≡ Some (sort_of sort) }
        requires awaited { awaited_sort (mode_of self.now.tag) ≡ Some (sort_of sort) }
        ensures token { IfOk result (λ f. FindsToken self.now f) }
        ensures span { IfOk result (λ f. f.span ≡ span) }
        ensures wrong { IfErr result (λ wrong. GoesWrong self.now wrong) }
        ensures wrong_span { IfErr result (λ wrong. LiesIn (lexer_text self.now) wrong.span) }
    {
        match innermost(&self.brackets) {
            Some(bracket) => Err(Wrong {
                fault: SyntaxFault::UnclosedBracket(bracket.shape),
                span: bracket.span,
            }),
            None => Ok(NextToken {
                token: sort.end_token(),
                hyphen: has_hyphen(kind),
                span,
            }),
        }
    }

    // The token that a character begins in a tag.
    fn inside(&self, first: char, tag: OpenTag) -> std::result::Result<NextToken, Wrong>
        requires bare { NoneAt (lexer_delimiters self.now) (lexer_text self.now) self.now.offset }
        requires occurs { Occurs (lexer_text self.now) self.now.offset (encode_utf8 first) }
        requires mode { (sort : language.Sort) × (mode_of self.now.tag ≡ in_tag sort tag.in_path) }
        ensures token { IfOk result (λ f. FindsToken self.now f) }
        ensures span { IfOk result (λ f. LiesIn (lexer_text self.now) f.span) }
        ensures wrong { IfErr result (λ wrong. GoesWrong self.now wrong) }
        ensures wrong_span { IfErr result (λ wrong. LiesIn (lexer_text self.now) wrong.span) }
    {
        match token_inside(self.source, self.offset, first, tag.in_path) {
            Ok((token, end)) => self.matched(
                token,
                Span {
                    m: self.offset,
                    n: end,
                },
            ),
            Err(wrong) => Err(wrong),
        }
    }

    // The token in a tag, where it closes no bracket but the innermost.
    fn matched(&self, token: Token, span: Span) -> std::result::Result<NextToken, Wrong>
        requires start { span.m ≡ self.now.offset }
        requires mode { (sort : language.Sort)
            × (in_path : Bool)
            × (mode_of self.now.tag ≡ in_tag sort in_path)
            × IsInside (lexer_delimiters self.now) (lexer_text self.now) in_path token span.m span.n }
        ensures token { IfOk result (λ f. FindsToken self.now f) }
        ensures span { IfOk result (λ f. f.span ≡ span) }
        ensures wrong { IfErr result (λ wrong. GoesWrong self.now wrong) }
        ensures wrong_span { IfErr result (λ wrong. wrong.span ≡ span) }
    {
        if let BracketEffect::Closes(shape) = effect_of(token) {
            if !closes_innermost(&self.brackets, shape) {
                return Err(Wrong {
                    fault: SyntaxFault::UnexpectedClose(shape),
                    span,
                });
            }
        }
        Ok(NextToken {
            token,
            hyphen: false,
            span,
        })
    }

    // The raw part of a comment, where the lexer is.
    fn raw(&self) -> NextToken
        requires bare { NoneAt (lexer_delimiters self.now) (lexer_text self.now) self.now.offset }
        requires some { self.now.offset < length (lexer_text self.now) }
        ensures token { result.token ≡ Raw }
        ensures hyphen { result.hyphen ≡ false }
        ensures start { result.span.m ≡ self.now.offset }
        ensures raw { IsRaw (lexer_delimiters self.now) (lexer_text self.now) self.now.offset result.span.n }
        ensures span { LiesIn (lexer_text self.now) result.span }
    {
        let (end, _) = self.searcher.raw_end(self.source, self.offset);
        NextToken {
            token: Token::Raw,
            hyphen: false,
            span: Span {
                m: self.offset,
                n: end,
            },
        }
    }

    // Moves after a token. Where there is no memory for its bracket, the lexer stays where it is.
    fn pass(&mut self, found: NextToken) -> std::result::Result<(), AllocError>
        requires next { FindsToken self.now found }
        requires span { LiesIn (lexer_text self.now) found.span }
        requires not_over { self.now.over ≡ false }
        ensures start { IfOk result
            (λ _. lexer_state self.new ≡ state_after (lexer_state self.old) (next_lexeme found)) }
        ensures stays { IfErr result (λ _. lexer_state self.new ≡ lexer_state self.old) }
        ensures opens { IfErr result (λ _. opens_bracket found.token ≡ true) }
        ensures text { lexer_text self.new ≡ lexer_text self.old }
        ensures delimiters { lexer_delimiters self.new ≡ lexer_delimiters self.old }
    {
        if let Err(e) = apply(&mut self.brackets, found.token, found.span) {
            return Err(e);
        }
        pass_token(&mut self.tag, found.token, found.span);
        self.trims = end_trims(found.token, found.hyphen);
        self.offset = found.span.n;
        Ok(())
    }

    // The error that says what is wrong with the text. The lexer gives no more tokens then.
    fn refuse(&mut self, wrong: Wrong) -> Error
        requires { LiesIn (lexer_text self.now) wrong.span }
        ensures words { OrMemory
            (fault_with_picture (lexer_text self.old)
            (bare_fault syntax (Some (reason_of wrong.fault)) (Some wrong.span)))
            (fault_of result) }
        ensures stopped { (lexer_state self.new).over ≡ true }
        ensures text { lexer_text self.new ≡ lexer_text self.old }
        ensures delimiters { lexer_delimiters self.new ≡ lexer_delimiters self.old }
    {
        self.over = true;
        Error::from_cause(
            self.alloc,
            ErrorKind::Syntax,
            wrong.fault.cause(),
            Some((self.source, wrong.span)),
        )
    }
}

// Whether the delimiter after a raw part is a begin with the hyphen.
fn begin_trims(next: Option<Delimiter>) -> bool
    ensures { (delimiters : List DelimiterText) (s : List ℕ) (p : ℕ)
        → IsNextDelimiter delimiters s p next → TrimsAt delimiters s p result }
{
    match next {
        Some(kind) => has_hyphen(kind) && matches!(role_of(kind), Role::Begin(_)),
        None => false,
    }
}

// What the hyphens before and after a raw part leave of it.
fn shown(source: &str, trims: bool, begin_behind: bool, raw: Span) -> Span
    requires { LiesIn source.now raw }
    ensures shown { result ≡ shown_span source.now trims begin_behind raw }
    ensures span { LiesIn source.now result }
{
    match (trims, begin_behind) {
        (false, false) => raw,
        (false, true) => trim_end(source, raw),
        (true, false) => trim_start(source, raw),
        (true, true) => trim_start(source, trim_end(source, raw)),
    }
}
