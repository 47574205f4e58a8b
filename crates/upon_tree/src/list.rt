// The trees of lists and maps in a tag.
ghost use Rattle.std.specs.Prelude.{◌≡◌, ◌<◌, ◌≤◌, List, ◌∷◌, Bool, length, IfOk};
ghost use Rattle.upon_types.specs.declared.types.token.Token.TheVariants.{OpenBracket, OpenBrace};
ghost use Rattle.upon_language_spec.specs.Cut.{Lexeme};
ghost use Rattle.upon_language_spec.specs.Tokens.{Goes, from_to};
ghost use Rattle.upon_language_spec.specs.Parts.{Part, map_start};
ghost use Rattle.upon_tag_parser.specs.TagTokens.{lexemes_of, AreTagTokens, IsRest};
ghost use Rattle.upon_tag_parser.specs.TagParsing.{IfStuck, IsStuck};
ghost use Rattle.upon_tree.specs.AstExpression.{base_tree, bases_tree, items_tree};
ghost use Rattle.upon_types.specs.Expression.{list as list_expression, mapping};
ghost use Rattle.upon_tree.specs.Opened.{tree_reader_text, IsTreeStep, ListTreeGoesOn};
ghost use Rattle.upon_tree.specs.Opened.{MapTreeGoesOn, OpenTreeGoesOn, OpenTreeStuck};

use crate::ast::{BaseExpr, String};
use crate::expression::TreeReader;
use crate::made::{list_base, map_base};
use crate::opened::{Entries, Items, Open, Step};
use upon_lexer::literal::Lexed;
use upon_tag_parser::compile::parse::path::{Parsed, expect, take};
use upon_tag_parser::compile::parse::want::Want;
use upon_types::types::{Span, Token};

// A list, from its opening bracket to its closing one.
fn closed_list(list: Items, closing: Span) -> BaseExpr
    ensures { base_tree result ≡ list_expression (bases_tree list.items.items) (from_to list.opening closing) }
{
    let Items { items, opening } = list;
    let span = Span {
        m: opening.m,
        n: closing.n,
    };
    list_base(items, span)
}

// A map, from its opening brace to its closing one.
fn closed_map(map: Entries, closing: Span) -> BaseExpr
    ensures { base_tree result ≡ mapping (items_tree map.entries.items) (from_to map.opening closing) }
{
    let Entries { entries, opening } = map;
    let span = Span {
        m: opening.m,
        n: closing.n,
    };
    map_base(entries, span)
}

impl<'a> TreeReader<'a> {
    /// Reads a list, whose opening bracket was read, up to its first item.
    pub(crate) fn start_list<'t>(&self, opening: Span, tokens: &'t [Lexed]) -> (Step, &'t [Lexed])
        ensures step { (whole : Bool) (before : List Lexeme) → Goes OpenBracket opening before (lexemes_of tokens.now)
            → IsTreeStep (tree_reader_text self.now) whole result.0 before (lexemes_of result.1.now) }
        ensures rest { IsRest result.1.now tokens.now }
        ensures shorter { length result.1.now ≤ length tokens.now }
    {
        let items = Vec::new(self.parser.alloc);
        self.start_item(Items { items, opening }, tokens)
    }

    // The closing bracket of a list, or else an item starts.
    fn start_item<'t>(&self, list: Items, tokens: &'t [Lexed]) -> (Step, &'t [Lexed])
        ensures step { ListTreeGoesOn (tree_reader_text self.now) list
            (lexemes_of tokens.now) result.0 (lexemes_of result.1.now) }
        ensures rest { IsRest result.1.now tokens.now }
        ensures shorter { length result.1.now ≤ length tokens.now }
    {
        match take(Token::CloseBracket, tokens) {
            None => (Step::Opens(Open::List(list)), tokens),
            Some((closing, rest)) => (Step::Base(closed_list(list, closing)), rest),
        }
    }

    /// Goes on after an item of a list.
    pub(crate) fn after_item<'t>(
        &self,
        list: Items,
        item: BaseExpr,
        tokens: &'t [Lexed],
    ) -> Parsed<'t, Step>
        ensures step { IfOk result (λ r. OpenTreeGoesOn (tree_reader_text self.now) (Open.List list) item
            (lexemes_of tokens.now) r.0 (lexemes_of r.1.now)) }
        ensures rest { IfOk result (λ r. IsRest r.1.now tokens.now) }
        ensures shorter { IfOk result (λ r. length r.1.now < length tokens.now) }
        ensures stuck { IfStuck result (OpenTreeStuck
            (tree_reader_text self.now) (Open.List list) item (lexemes_of tokens.now)) }
    {
        let Items { mut items, opening } = list;
        items.push(item)?;
        let list = Items { items, opening };
        if let Some((_, rest)) = take(Token::Comma, tokens) {
            return Ok(self.start_item(list, rest));
        }
        let (closing, rest) = expect(Token::CloseBracket, Want::CloseBracket, tokens)?;
        Ok((Step::Base(closed_list(list, closing)), rest))
    }

    /// Reads a map, whose opening brace was read, up to its first value.
    pub(crate) fn start_map<'t>(&self, opening: Span, tokens: &'t [Lexed]) -> Parsed<'t, Step>
        requires tokens { AreTagTokens (tree_reader_text self.now) tokens.now }
        ensures step { IfOk result (λ r. (whole : Bool) (before : List Lexeme)
            → Goes OpenBrace opening before (lexemes_of tokens.now)
            → IsTreeStep (tree_reader_text self.now) whole r.0 before (lexemes_of r.1.now)) }
        ensures rest { IfOk result (λ r. IsRest r.1.now tokens.now) }
        ensures shorter { IfOk result (λ r. length r.1.now ≤ length tokens.now) }
        ensures stuck { IfStuck result (λ want left. (parts : List Part)
            → IsStuck (tree_reader_text self.now) (map_start ∷ parts) tokens.now want left) }
    {
        let entries = Vec::new(self.parser.alloc);
        self.start_entry(Entries { entries, opening }, tokens)
    }

    // The closing brace of a map, or else an entry up to its value.
    fn start_entry<'t>(&self, map: Entries, tokens: &'t [Lexed]) -> Parsed<'t, Step>
        requires tokens { AreTagTokens (tree_reader_text self.now) tokens.now }
        ensures step { IfOk result (λ r. MapTreeGoesOn (tree_reader_text self.now) map
            (lexemes_of tokens.now) r.0 (lexemes_of r.1.now)) }
        ensures rest { IfOk result (λ r. IsRest r.1.now tokens.now) }
        ensures shorter { IfOk result (λ r. length r.1.now ≤ length tokens.now) }
        ensures stuck { IfStuck result (λ want left. (parts : List Part)
            → IsStuck (tree_reader_text self.now) (map_start ∷ parts) tokens.now want left) }
    {
        if let Some((closing, rest)) = take(Token::CloseBrace, tokens) {
            return Ok((Step::Base(closed_map(map, closing)), rest));
        }
        let (key, rest) = self.parser.parse_string(tokens)?;
        let (_, left) = expect(Token::Colon, Want::Colon, rest)?;
        Ok((Step::Opens(Open::Map(map, key)), left))
    }

    /// Goes on after the value of a key in a map.
    pub(crate) fn after_entry<'t>(
        &self,
        map: Entries,
        key: String,
        value: BaseExpr,
        tokens: &'t [Lexed],
    ) -> Parsed<'t, Step>
        requires tokens { AreTagTokens (tree_reader_text self.now) tokens.now }
        ensures step { IfOk result (λ r. OpenTreeGoesOn (tree_reader_text self.now) (Open.Map map key) value
            (lexemes_of tokens.now) r.0 (lexemes_of r.1.now)) }
        ensures rest { IfOk result (λ r. IsRest r.1.now tokens.now) }
        ensures shorter { IfOk result (λ r. length r.1.now < length tokens.now) }
        ensures stuck { IfStuck result (OpenTreeStuck
            (tree_reader_text self.now) (Open.Map map key) value (lexemes_of tokens.now)) }
    {
        let Entries {
            mut entries,
            opening,
        } = map;
        entries.push((key, value))?;
        let map = Entries { entries, opening };
        if let Some((_, rest)) = take(Token::Comma, tokens) {
            return self.start_entry(map, rest);
        }
        let (closing, rest) = expect(Token::CloseBrace, Want::CloseBrace, tokens)?;
        Ok((Step::Base(closed_map(map, closing)), rest))
    }
}
