//! Rules.

ghost use Rattle.std.specs.Prelude.{◌≡◌, [], ◌∷◌, IfOk, map};
ghost use Rattle.std.specs.Option.{option_map};
ghost use Rattle.lp_reading.specs.Rules.{alternatives, braced, inline_rule, next_rule, private_rule, rule, rule_body, rule_tree, rules, single, some_rule};
ghost use Rattle.lp_reading.specs.Symbols.{alternative};
ghost use Rattle.lp_tok.specs.declared.tok.Tok.TheVariants.{RightBrace};
ghost use Rattle.lp_types.specs.Left.{left};
ghost use Rattle.lp_types.specs.Reading.{Answers, listed};

use crate::read_symbol::alternative;
use lp_repr::consts::INLINE;
use lp_repr::repr::NonterminalString;
use lp_repr::text::{Items, Text};
use lp_syntax::{PlainAlternative, PlainRule};
use lp_tok::Tok;
use lp_types::{Kind, Read, Reader};
use std::alloc::{AllocError, Global};

/// Rules, up to a token that begins none.
pub fn rules<'i>(reader: &mut Reader<'_, 'i>) -> Read<'i, Vec<PlainRule>>
    ensures { Answers (λ v. map rule_tree v.items) (rules (left reader.old)) result (left reader.new) }
{
    let mut rules = Vec::new(reader.alloc);
    for turn in 0..reader.turns() {
        match next_rule(reader)? {
            None => return Ok(rules),
            Some(rule) => rules.push(rule)?,
        }
    }
    Err(reader.error())
}

/// The next rule, with `#[inline]`, `pub` or nothing before it, or none where no rule begins.
fn next_rule<'i>(reader: &mut Reader<'_, 'i>) -> Read<'i, Option<PlainRule>>
    ensures { Answers (option_map rule_tree) (next_rule (left reader.old)) result (left reader.new) }
{
    let is_marked = reader.passes(&Tok::Hash);
    if is_marked {
        return inline_rule(reader);
    }
    let is_public = reader.passes(&Tok::Pub);
    if is_public {
        return some_rule(reader, true, false);
    }
    private_rule(reader)
}

/// What follows the `#` of `#[inline]`, and its rule.
fn inline_rule<'i>(reader: &mut Reader<'_, 'i>) -> Read<'i, Option<PlainRule>>
    ensures { Answers (option_map rule_tree) (inline_rule (left reader.old)) result (left reader.new) }
{
    reader.expect(&Tok::LeftBracket)?;
    reader.expect_word(INLINE)?;
    reader.expect(&Tok::RightBracket)?;
    some_rule(reader, false, true)
}

/// A rule with nothing before it, or none where no name comes.
fn private_rule<'i>(reader: &mut Reader<'_, 'i>) -> Read<'i, Option<PlainRule>>
    ensures { Answers (option_map rule_tree) (private_rule (left reader.old)) result (left reader.new) }
{
    match reader.seen_text(Kind::Id) {
        Some(_) => some_rule(reader, false, false),
        None => Ok(None),
    }
}

/// A rule, where one comes.
fn some_rule<'i>(
    reader: &mut Reader<'_, 'i>,
    public: bool,
    inline: bool,
) -> Read<'i, Option<PlainRule>>
    ensures { Answers (option_map rule_tree) (some_rule public inline (left reader.old)) result (left reader.new) }
{
    let found = rule(reader, public, inline)?;
    Ok(Some(found))
}

/// A rule from its name on: whether `pub` or `#[inline]` stands before it is known.
fn rule<'i>(reader: &mut Reader<'_, 'i>, public: bool, inline: bool) -> Read<'i, PlainRule>
    ensures { Answers rule_tree (rule public inline (left reader.old)) result (left reader.new) }
{
    let place = reader.next_place();
    let id = reader.text(Kind::Id)?;
    reader.expect(&Tok::Colon)?;
    let ty = reader.full_type()?;
    reader.expect(&Tok::Equals)?;
    let alternatives = rule_body(reader)?;
    let name = Text::from_str(reader.alloc, id)?;
    Ok(PlainRule {
        public,
        inline,
        name: NonterminalString(name),
        ty,
        alternatives: Items(alternatives),
        place,
    })
}

/// What follows `=`: alternatives in braces, or one with `;`.
fn rule_body<'i>(reader: &mut Reader<'_, 'i>) -> Read<'i, Vec<PlainAlternative>>
    ensures { Answers (λ v. v.items) (rule_body (left reader.old)) result (left reader.new) }
{
    if reader.passes(&Tok::LeftBrace) {
        braced(reader)
    } else {
        single(reader)
    }
}

/// One alternative and `;`.
fn single<'i>(reader: &mut Reader<'_, 'i>) -> Read<'i, Vec<PlainAlternative>>
    ensures { Answers (λ v. v.items) (single (left reader.old)) result (left reader.new) }
{
    let one = alternative(reader)?;
    reader.expect(&Tok::Semi)?;
    let list = only(reader.alloc, one)?;
    Ok(list)
}

fn only(alloc: Global, one: PlainAlternative) -> Result<Vec<PlainAlternative>, AllocError>
    ensures { IfOk result (λ v. v.items ≡ one ∷ []) }
{
    let mut list = Vec::new(alloc);
    list.push(one)?;
    Ok(list)
}

/// What follows `{`: alternatives, `}`, and a `;` that may be there.
fn braced<'i>(reader: &mut Reader<'_, 'i>) -> Read<'i, Vec<PlainAlternative>>
    ensures { Answers (λ v. v.items) (braced (left reader.old)) result (left reader.new) }
{
    let found = alternatives(reader)?;
    let _is_closed = reader.passes(&Tok::Semi);
    Ok(found)
}

/// Alternatives between commas, up to `}`.
fn alternatives<'i>(reader: &mut Reader<'_, 'i>) -> Read<'i, Vec<PlainAlternative>>
    ensures { Answers (λ v. v.items) (alternatives (left reader.old)) result (left reader.new) }
{
    let mut list = Vec::new(reader.alloc);
    for turn in 0..reader.turns() {
        match next_alternative(reader)? {
            None => return Ok(list),
            Some(found) => list.push(found)?,
        }
    }
    Err(reader.error())
}

/// The next alternative, or none at `}`, which is passed.
fn next_alternative<'i>(reader: &mut Reader<'_, 'i>) -> Read<'i, Option<PlainAlternative>>
    ensures { Answers (λ o. o) (listed RightBrace alternative (left reader.old)) result (left reader.new) }
{
    if reader.passes(&Tok::RightBrace) {
        return Ok(None);
    }
    let found = alternative(reader)?;
    reader.separates(&Tok::RightBrace)?;
    Ok(Some(found))
}
