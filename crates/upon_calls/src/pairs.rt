// The delimiters that options ask for.
ghost use Rattle.std.specs.Prelude.{◌≡◌, ◌<◌, length, None, Some, IfErr, IfOk, IfSome, codes, option_and_then, option_map};
ghost use Rattle.upon_types.specs.Val.{key_of};
ghost use Rattle.upon_types.specs.View.{view, vals_view};
ghost use Rattle.upon_delimiters.specs.Builder.{builder_texts};
ghost use Rattle.upon_delimiters.specs.Syntax.{syntax_delimiters};
ghost use Rattle.upon_calls.specs.Failure.{RefusedIf};
ghost use Rattle.upon_calls.specs.Arguments.{its_text};
ghost use Rattle.upon_calls.specs.Pairs.{delimiters_in, pairs_in, some_text_in, sort_in, triple_in, triple_of};
ghost use Rattle.upon_calls.specs.declared.failure.Argument.TheVariants.{Options as OptionsRefused};

use crate::arguments::text_in;
use crate::failure::Failure;
use crate::options::wants;
use std::alloc::Global;
use upon_delimiters::syntax::{Syntax, SyntaxBuilder};
use upon_types::value::{Value, look};

/// What a pair of delimiters is for.
#[derive(Clone, Copy, Debug, PartialEq, Eq)]
pub(crate) enum Sort {
    /// Expressions.
    Expr,
    /// Tags of blocks.
    Block,
    /// Comments.
    Comment,
}

impl Sort {
    // The sort of a word.
    fn of_word(word: &str) -> Option<Sort>
        ensures { result ≡ sort_in word.now }
    {
        if word == "expr" {
            Some(Sort::Expr)
        } else if word == "block" {
            Some(Sort::Block)
        } else if word == "comment" {
            Some(Sort::Comment)
        } else {
            None
        }
    }
}

// What the option wants.
const WANTED: &str =
    "a list of triples [\"expr\", BEGIN, END], also of \"block\" and \"comment\", with one of \"expr\" at least";

/// Returns the syntax that options ask for, or the default one. Of pairs for the same the last counts.
pub(crate) fn syntax_of(alloc: Global, options: &Value) -> Result<Syntax, Failure>
    ensures read { IfOk result
        (λ s. delimiters_in (key_of (codes "syntax") (view options.now)) ≡ Some (syntax_delimiters s)) }
    ensures refused { IfErr result
        (RefusedIf OptionsRefused (delimiters_in (key_of (codes "syntax") (view options.now)) ≡ None)) }
{
    match look::entry(options, "syntax") {
        None => Ok(Syntax::default()),
        Some(Value::List(triples)) => match builder_of(triples.as_slice()) {
            Some(builder) => Ok(builder.build(alloc)?),
            None => Err(wants(alloc, "syntax", WANTED)),
        },
        Some(_) => Err(wants(alloc, "syntax", WANTED)),
    }
}

// The builder in which the pairs of triples are set; `None` if one is no triple, or none is for expressions.
fn builder_of<'v>(triples: &'v [Value]) -> Option<SyntaxBuilder<'v>>
    ensures { option_map builder_texts result ≡ pairs_in (vals_view triples.entry.now) }
{
    let mut builder = Syntax::builder();
    let mut has_expr = false;
    for item in triples {
        let (sort, begin, end) = triple(item)?;
        match sort {
            Sort::Expr => {
                builder.expr(begin, end);
                has_expr = true;
            }
            Sort::Block => {
                builder.block(begin, end);
            }
            Sort::Comment => {
                builder.comment(begin, end);
            }
        }
    }
    if has_expr { Some(builder) } else { None }
}

// What a pair is for, and its texts, which have a byte at least.
fn triple<'v>(item: &'v Value) -> Option<(Sort, &'v str, &'v str)>
    ensures read { option_map (λ t. (t.0, (t.1.now, t.2.now))) result ≡ triple_in (view item.entry.now) }
    ensures bytes { IfSome result (λ t. (0 < length t.1.now) × (0 < length t.2.now)) }
{
    let Value::List(parts) = item else {
        return None;
    };
    let parts = parts.as_slice();
    if parts.len() != 3 {
        return None;
    }
    three(
        sort_of(&parts[0]),
        some_text(&parts[1]),
        some_text(&parts[2]),
    )
}

// The three, if each is there.
fn three<'v>(
    sort: Option<Sort>,
    begin: Option<&'v str>,
    end: Option<&'v str>,
) -> Option<(Sort, &'v str, &'v str)>
    requires begin { IfSome begin (λ text. 0 < length text.now) }
    requires end { IfSome end (λ text. 0 < length text.now) }
    ensures read { option_map (λ t. (t.0, (t.1.now, t.2.now))) result ≡ triple_of
        sort (option_map (λ text. text.now) begin.entry) (option_map (λ text. text.now) end.entry) }
    ensures bytes { IfSome result (λ t. (0 < length t.1.now) × (0 < length t.2.now)) }
{
    let sort = sort?;
    let begin = begin?;
    let end = end?;
    Some((sort, begin, end))
}

// What a pair is for, by the word that a value is.
fn sort_of(value: &Value) -> Option<Sort>
    ensures { result ≡ option_and_then sort_in (its_text (view value.now)) }
{
    match value {
        Value::String(word) => Sort::of_word(word),
        _ => None,
    }
}

// The text that a value is, if it has a byte.
fn some_text<'v>(value: &'v Value) -> Option<&'v str>
    ensures read { option_map (λ text. text.now) result ≡ some_text_in (view value.entry.now) }
    ensures bytes { IfSome result (λ text. 0 < length text.now) }
{
    let text = text_in(value)?;
    if text.is_empty() { None } else { Some(text) }
}
