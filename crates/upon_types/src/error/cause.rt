// Why there is a fault, as data: one variant for each row of the faults, and the words that tell of it.
ghost use Rattle.std.specs.Prelude.{◌≡◌, ◌++◌, IfOk, string_bytes, codes};
ghost use Rattle.upon_types.specs.Cause.{cause_text, wanted_name, name_at_end, tag_keyword_word, counted_words, expected_but, expected_word_but};
ghost use Rattle.upon_types.specs.ValueKind.{kind_name};
ghost use Rattle.upon_types.specs.declared.error.cause.Cause.TheVariants.{UnexpectedKeyword, InvalidDigit, NumberOutOfRange, IndexOutOfRange, OutOfBounds, NotIterable, ListItemIntoTwo, MapItemIntoOne, FormatterExpects, FunctionExpects, WrongType, OutOfRange, TooDeep, Unformattable, LimitReached};

use crate::types::ast::name::Name;
use crate::types::block::{BlockKind, Closing};
use crate::types::token::Token;
use crate::value::kind::ValueKind;
use std::alloc::{AllocError, Global};

/// Why a text is no template, or why its rendering has ended, with the words of that row.
#[derive(Debug, Drop)]
pub enum Cause {
    /// The end of a tag or a bracket that is not open.
    Unexpected(Token),
    /// The begin of a tag, or a bracket, that is not closed.
    Unclosed(Token),
    /// A character that begins no token.
    UnexpectedCharacter,
    /// A quote that begins no string.
    UndelimitedString,
    /// A token where something else has to be.
    Expected(Wanted, Token),
    /// The end of the text where something has to be.
    ExpectedAtEnd(Wanted),
    /// A keyword where another one has to be.
    ExpectedKeyword(TagKeyword, Name),
    /// A keyword that may not be there.
    UnexpectedKeyword(Name),
    /// The closing tag of a block that is not the innermost open one.
    UnexpectedBlock(Closing),
    /// A block that the text's end leaves open.
    UnclosedBlock(BlockKind),
    /// A character that is no digit of this base.
    InvalidDigit(u32),
    /// A number, in this base, that no `i64` is.
    NumberOutOfRange(u32),
    /// A number with a dot or a sign in it.
    InvalidFloat,
    /// An index that no `u64` is.
    IndexOutOfRange,
    /// An escape that no string has.
    UnknownEscape,
    /// A path whose first member nothing binds.
    NotInScope,
    /// A member that a map does not have.
    NotInMap,
    /// An item that a list of this length does not have.
    OutOfBounds(usize),
    /// An index into a value of this kind.
    NoIndexAccess(ValueKind),
    /// A key into a value of this kind.
    NoKeyAccess(ValueKind),
    /// A member of a loop's key.
    IndexIntoString,
    /// An index after `loop`.
    IntegerIndex,
    /// A member of a value of this kind that `loop` has.
    IndexInto(ValueKind),
    /// A loop over a value of this kind.
    NotIterable(ValueKind),
    /// Two names for the items of a list.
    ListItemIntoTwo,
    /// One name for the entries of a map.
    MapItemIntoOne,
    /// A name that is neither a formatter's nor a function's.
    UnknownCallable,
    /// A name that is no function's.
    UnknownFunction,
    /// A formatter's name where a function has to be.
    FormatterFound,
    /// A formatter that is given so many values.
    FormatterExpects(usize),
    /// A function that expects so many arguments, and is given so many.
    FunctionExpects(usize, usize),
    /// An argument of this kind, which is not the one that is expected.
    WrongType(Argument, ValueKind),
    /// An argument whose type does not hold it; the number, if it is an integer.
    OutOfRange(Argument, Option<i64>),
    /// An include of a name that no template has.
    UnknownTemplate,
    /// Includes that are deeper than this.
    TooDeep(usize),
    /// A value of a kind that has no text.
    Unformattable(ValueKind),
    /// A limit of a rendering, of so many of these.
    LimitReached(usize, Counted),
}

/// What has to be at a place of a tag.
#[derive(Clone, Copy, Debug, PartialEq, Eq)]
pub enum Wanted {
    /// An expression.
    Expression,
    /// A name or an index.
    NameOrIndex,
    /// A token of this kind.
    Token(Token),
}

/// An argument that does not fit.
#[derive(Debug, Drop)]
pub struct Argument {
    /// The function's name.
    pub function: Name,
    /// The word of the type that it expects.
    pub wanted: Name,
}

/// A keyword inside a block's first tag.
#[derive(Clone, Copy, Debug, PartialEq, Eq)]
pub enum TagKeyword {
    /// The one between a loop's names and what it goes over.
    In,
    /// The one between a value and its name.
    As,
}

/// What a limit of a rendering counts.
#[derive(Clone, Copy, Debug, PartialEq, Eq)]
pub enum Counted {
    /// Steps of the program.
    Steps,
    /// Bytes of output.
    Bytes,
    /// Bytes of values.
    BytesOfValues,
}

impl Cause {
    /// Returns the words that tell of it. The error is that memory is out.
    pub fn text(&self, alloc: Global) -> Result<String, AllocError>
        ensures { IfOk result (λ text. string_bytes text ≡ cause_text self.now) }
    {
        match self {
            Cause::Unexpected(token) => around(alloc, "unexpected ", token.human(), ""),
            Cause::Unclosed(token) => around(alloc, "unclosed ", token.human(), ""),
            Cause::UnexpectedCharacter => fixed(alloc, "unexpected character"),
            Cause::UndelimitedString => fixed(alloc, "undelimited string"),
            Cause::Expected(wanted, token) => expected(alloc, wanted.name(), token.human()),
            Cause::ExpectedAtEnd(wanted) => expected(alloc, wanted.name_at_end(), "EOF"),
            Cause::ExpectedKeyword(wanted, word) => keyword(alloc, wanted.word(), word.as_str()),
            Cause::UnexpectedKeyword(word) => unexpected_keyword(alloc, word),
            Cause::UnexpectedBlock(tag) => around(alloc, "unexpected `", tag.words(), "` block"),
            Cause::UnclosedBlock(kind) => around(alloc, "unclosed `", kind.word(), "` block"),
            Cause::InvalidDigit(base) => invalid_digit(alloc, base),
            Cause::NumberOutOfRange(base) => number_out_of_range(alloc, base),
            Cause::InvalidFloat => fixed(alloc, "invalid float literal"),
            Cause::IndexOutOfRange => index_out_of_range(alloc),
            Cause::UnknownEscape => fixed(alloc, "unknown escape character"),
            Cause::NotInScope => fixed(alloc, "not found in this scope"),
            Cause::NotInMap => fixed(alloc, "not found in map"),
            Cause::OutOfBounds(length) => out_of_bounds(alloc, length),
            Cause::NoIndexAccess(kind) => no_access(alloc, *kind, "integer"),
            Cause::NoKeyAccess(kind) => no_access(alloc, *kind, "key"),
            Cause::IndexIntoString => fixed(alloc, "cannot index into string"),
            Cause::IntegerIndex => fixed(alloc, "cannot index into map with integer"),
            Cause::IndexInto(kind) => around(alloc, "cannot index into ", kind.human(), ""),
            Cause::NotIterable(kind) => not_iterable(alloc, *kind),
            Cause::ListItemIntoTwo => list_item_into_two(alloc),
            Cause::MapItemIntoOne => map_item_into_one(alloc),
            Cause::UnknownCallable => fixed(alloc, "unknown formatter or function"),
            Cause::UnknownFunction => fixed(alloc, "unknown function"),
            Cause::FormatterFound => fixed(alloc, "expected function, found formatter"),
            Cause::FormatterExpects(given) => formatter_expects(alloc, given),
            Cause::FunctionExpects(expected, given) => function_expects(alloc, expected, given),
            Cause::WrongType(argument, kind) => wrong_type(alloc, argument, *kind),
            Cause::OutOfRange(argument, number) => out_of_range(alloc, argument, number),
            Cause::UnknownTemplate => fixed(alloc, "unknown template"),
            Cause::TooDeep(limit) => too_deep(alloc, limit),
            Cause::Unformattable(kind) => unformattable(alloc, *kind),
            Cause::LimitReached(count, counted) => limit_reached(alloc, count, *counted),
        }
    }
}

impl Wanted {
    // What it is called.
    fn name(self) -> &'static str
        ensures { result.now ≡ wanted_name self }
    {
        match self {
            Wanted::Expression => "expression",
            Wanted::NameOrIndex => "identifier or index",
            Wanted::Token(token) => token.human(),
        }
    }

    // What it is called at the end of the text.
    fn name_at_end(self) -> &'static str
        ensures { result.now ≡ name_at_end self }
    {
        match self {
            Wanted::Expression => "token",
            Wanted::NameOrIndex => "token",
            Wanted::Token(token) => token.human(),
        }
    }
}

impl TagKeyword {
    // The keyword itself.
    fn word(self) -> &'static str
        ensures { result.now ≡ tag_keyword_word self }
    {
        match self {
            TagKeyword::In => "in",
            TagKeyword::As => "as",
        }
    }
}

impl Counted {
    // What a message calls them.
    fn words(self) -> &'static str
        ensures { result.now ≡ counted_words self }
    {
        match self {
            Counted::Steps => "steps",
            Counted::Bytes => "bytes",
            Counted::BytesOfValues => "bytes of values",
        }
    }
}

// Words that stand as they are.
fn fixed(alloc: Global, words: &str) -> Result<String, AllocError>
    ensures { IfOk result (λ text. string_bytes text ≡ words.now) }
{
    String::from_str(alloc, words)
}

// A word between others.
fn around(alloc: Global, before: &str, word: &str, after: &str) -> Result<String, AllocError>
    ensures { IfOk result (λ text. string_bytes text ≡ before.now ++ (word.now ++ after.now)) }
{
    format!(in alloc; "{before}{word}{after}")
}

// What is found where something else has to be.
fn expected(alloc: Global, wanted: &str, found: &str) -> Result<String, AllocError>
    ensures { IfOk result (λ text. string_bytes text ≡ expected_but wanted.now found.now) }
{
    format!(in alloc; "expected {wanted}, found {found}")
}

// A keyword that is found where another one has to be.
fn keyword(alloc: Global, wanted: &str, found: &str) -> Result<String, AllocError>
    ensures { IfOk result (λ text. string_bytes text ≡ expected_word_but wanted.now found.now) }
{
    format!(in alloc; "expected keyword `{wanted}`, found keyword `{found}`")
}

fn unexpected_keyword(alloc: Global, word: &Name) -> Result<String, AllocError>
    ensures { IfOk result (λ text. string_bytes text ≡ cause_text (UnexpectedKeyword word.now)) }
{
    let word = word.as_str();
    format!(in alloc; "unexpected keyword `{word}`")
}

fn invalid_digit(alloc: Global, base: &u32) -> Result<String, AllocError>
    ensures { IfOk result (λ text. string_bytes text ≡ cause_text (InvalidDigit base.now)) }
{
    format!(in alloc; "invalid digit for base {base} literal")
}

fn number_out_of_range(alloc: Global, base: &u32) -> Result<String, AllocError>
    ensures { IfOk result (λ text. string_bytes text ≡ cause_text (NumberOutOfRange base.now)) }
{
    format!(in alloc; "base {base} literal out of range for 64-bit integer")
}

fn index_out_of_range(alloc: Global) -> Result<String, AllocError>
    ensures { IfOk result (λ text. string_bytes text ≡ cause_text IndexOutOfRange) }
{
    fixed(
        alloc,
        "base 10 literal out of range for unsigned 64-bit integer",
    )
}

fn out_of_bounds(alloc: Global, length: &usize) -> Result<String, AllocError>
    ensures { IfOk result (λ text. string_bytes text ≡ cause_text (OutOfBounds length.now)) }
{
    format!(in alloc; "index out of bounds, the length is {length}")
}

// A value of a kind that has no members by such a thing.
fn no_access(alloc: Global, kind: ValueKind, by: &str) -> Result<String, AllocError>
    ensures { IfOk result (λ text. string_bytes text
        ≡ kind_name kind ++ (codes " does not support " ++ (by.now ++ codes "-based access"))) }
{
    let word = kind.human();
    format!(in alloc; "{word} does not support {by}-based access")
}

fn not_iterable(alloc: Global, kind: ValueKind) -> Result<String, AllocError>
    ensures { IfOk result (λ text. string_bytes text ≡ cause_text (NotIterable kind)) }
{
    let word = kind.human();
    format!(in alloc; "expected iterable, but expression evaluated to {word}")
}

fn list_item_into_two(alloc: Global) -> Result<String, AllocError>
    ensures { IfOk result (λ text. string_bytes text ≡ cause_text ListItemIntoTwo) }
{
    fixed(alloc, "cannot unpack list item into two variables")
}

fn map_item_into_one(alloc: Global) -> Result<String, AllocError>
    ensures { IfOk result (λ text. string_bytes text ≡ cause_text MapItemIntoOne) }
{
    fixed(alloc, "cannot unpack map item into one variable")
}

fn formatter_expects(alloc: Global, given: &usize) -> Result<String, AllocError>
    ensures { IfOk result (λ text. string_bytes text ≡ cause_text (FormatterExpects given.now)) }
{
    format!(in alloc; "formatter expects 1 argument, {given} provided")
}

fn function_expects(alloc: Global, expected: &usize, given: &usize) -> Result<String, AllocError>
    ensures { IfOk result (λ text. string_bytes text ≡ cause_text (FunctionExpects expected.now given.now)) }
{
    format!(in alloc; "function expects {expected} arguments, {given} provided")
}

fn wrong_type(alloc: Global, argument: &Argument, found: ValueKind) -> Result<String, AllocError>
    ensures { IfOk result (λ text. string_bytes text ≡ cause_text (WrongType argument.now found)) }
{
    let function = argument.function.as_str();
    let wanted = argument.wanted.as_str();
    let word = found.human();
    format!(in alloc; "function `{function}` expects {wanted} argument, found {word}")
}

fn out_of_range(
    alloc: Global,
    argument: &Argument,
    number: &Option<i64>,
) -> Result<String, AllocError>
    ensures { IfOk result (λ text. string_bytes text ≡ cause_text (OutOfRange argument.now number.now)) }
{
    let function = argument.function.as_str();
    let wanted = argument.wanted.as_str();
    match number {
        Some(number) => {
            format!(in alloc;
                "function `{function}` expects {wanted} argument, but `{number}` is out of range"
            )
        }
        None => {
            format!(in alloc;
                "function `{function}` expects {wanted} argument, but `` is out of range"
            )
        }
    }
}

fn too_deep(alloc: Global, limit: &usize) -> Result<String, AllocError>
    ensures { IfOk result (λ text. string_bytes text ≡ cause_text (TooDeep limit.now)) }
{
    format!(in alloc; "reached maximum include depth ({limit})")
}

fn unformattable(alloc: Global, kind: ValueKind) -> Result<String, AllocError>
    ensures { IfOk result (λ text. string_bytes text ≡ cause_text (Unformattable kind)) }
{
    let word = kind.human();
    format!(in alloc; "expression evaluated to unformattable type {word}")
}

fn limit_reached(alloc: Global, count: &usize, counted: Counted) -> Result<String, AllocError>
    ensures { IfOk result (λ text. string_bytes text ≡ cause_text (LimitReached count.now counted)) }
{
    let words = counted.words();
    format!(in alloc; "reached the limit of {count} {words}")
}
