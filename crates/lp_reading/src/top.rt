//! The readers of whole texts.

ghost use Rattle.std.specs.Prelude.{◌≡◌, ◌+◌, ◌^◌, ◌<◌, IfOk, false, length};
ghost use Rattle.lp_reading.specs.Grammars.{grammar, grammar_tree};
ghost use Rattle.lp_reading.specs.Prefixes.{IsFreePrefix};
ghost use Rattle.lp_reading.specs.Tops.{top_by, top_tree, wanted};
ghost use Rattle.lp_types.specs.Left.{left};
ghost use Rattle.lp_types.specs.Reading.{Answers};
ghost use Rattle.lp_types.specs.Spelled.{IsReading};

use crate::prefix::free_prefix;
use crate::read_grammar::grammar;
use crate::read_pattern::token_pattern;
use lp_repr::repr::{TokenPattern, TypeRepr, WhereClause};
use lp_repr::text::Text;
use lp_syntax::PlainGrammar;
use lp_tok::Tok;
use lp_types::{PlainError, Read, Reader, Tokens};
use std::alloc::Global;

/// What a text is read as.
#[derive(Drop)]
pub enum Top {
    Grammar(PlainGrammar),
    Pattern(TokenPattern),
    TypeRef(TypeRepr),
    GrammarWhereClauses(Vec<WhereClause>),
}

/// What a first token asks for.
#[derive(Clone, Copy)]
enum Wanted {
    File,
    Pattern,
    TypeRef,
    Clauses,
}

/// The plain grammar that a text spells. Its prefix is the least of `__`, `___` and so on that
/// doesn't stand in the text. The error is at the first token with which no plain grammar goes on,
/// at the end where the tokens end too early, or the tokenizer's or an escape's, whichever comes
/// first; places are bytes of the text.
pub fn parse_grammar(alloc: Global, input: &str) -> Result<PlainGrammar, PlainError<'_>>
    ensures file { IsReading grammar_tree grammar input.now 0 result }
    ensures prefix { IfOk result (λ g. IsFreePrefix input.now g.prefix) }
    ensures lalr { IfOk result (λ g. g.algorithm.lalr ≡ false) }
{
    let prefix = Text(free_prefix(alloc, input)?);
    let tokens = Tokens::new(alloc, input, 0)?;
    let mut reader = Reader::new(alloc, &tokens, input.len());
    grammar(&mut reader, prefix)
}

/// The grammar, pattern, type or `where` with its clauses, as `first` names it, that a text
/// spells. Places carry the offset. A grammar's prefix is `__`, and it doesn't ask for LALR.
/// `first` is to be the start token of one of these four.
pub fn parse_top<'i>(
    alloc: Global,
    first: Tok<'_>,
    input: &'i str,
    offset: usize,
) -> Result<Top, PlainError<'i>>
    requires { length input.now + offset < 2 ^ 64 }
    ensures { IsReading top_tree (top_by (wanted first.entry)) input.now offset result }
{
    let tokens = Tokens::new(alloc, input, offset)?;
    let mut reader = Reader::new(alloc, &tokens, input.len() + offset);
    let want = want_of(&first);
    read_top(&mut reader, want)
}

/// What a first token asks for.
fn want_of(first: &Tok<'_>) -> Wanted
    ensures { result ≡ wanted first.now }
{
    match first {
        Tok::StartPattern => Wanted::Pattern,
        Tok::StartTypeRef => Wanted::TypeRef,
        Tok::StartGrammarWhereClauses => Wanted::Clauses,
        _ => Wanted::File,
    }
}

/// What is wanted, and nothing else.
fn read_top<'i>(reader: &mut Reader<'_, 'i>, want: Wanted) -> Read<'i, Top>
    ensures { Answers top_tree (top_by want (left reader.old)) result (left reader.new) }
{
    match want {
        Wanted::File => read_file(reader),
        Wanted::Pattern => read_pattern(reader),
        Wanted::TypeRef => read_type(reader),
        Wanted::Clauses => read_clauses(reader),
    }
}

fn read_file<'i>(reader: &mut Reader<'_, 'i>) -> Read<'i, Top>
    ensures { Answers top_tree (top_by Wanted.File (left reader.old)) result (left reader.new) }
{
    let prefix = Text::from_str(reader.alloc, "__")?;
    let found = grammar(reader, prefix)?;
    Ok(Top::Grammar(found))
}

fn read_pattern<'i>(reader: &mut Reader<'_, 'i>) -> Read<'i, Top>
    ensures { Answers top_tree (top_by Wanted.Pattern (left reader.old)) result (left reader.new) }
{
    let found = token_pattern(reader)?;
    reader.expect_end()?;
    Ok(Top::Pattern(found))
}

fn read_type<'i>(reader: &mut Reader<'_, 'i>) -> Read<'i, Top>
    ensures { Answers top_tree (top_by Wanted.TypeRef (left reader.old)) result (left reader.new) }
{
    let found = reader.full_type()?;
    reader.expect_end()?;
    Ok(Top::TypeRef(found))
}

fn read_clauses<'i>(reader: &mut Reader<'_, 'i>) -> Read<'i, Top>
    ensures { Answers top_tree (top_by Wanted.Clauses (left reader.old)) result (left reader.new) }
{
    reader.expect(&Tok::Where)?;
    let found = reader.clauses()?;
    reader.expect_end()?;
    Ok(Top::GrammarWhereClauses(found))
}
