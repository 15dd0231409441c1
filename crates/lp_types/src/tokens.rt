//! The tokens of a grammar file, with the patterns of its enum as tokens of their own.

ghost use Rattle.std.specs.Prelude.{◌≡◌, ◌+◌, ◌-◌, ◌^◌, ◌<◌, IfOk, ℕ, length, map};
ghost use Rattle.std.specs.Option.{option_copied};
ghost use Rattle.lp_types.specs.Left.{left_of};
ghost use Rattle.lp_types.specs.Marks.{mark_of};
ghost use Rattle.lp_types.specs.Spelled.{AreInside, AreMarksOf, IsSpelling, Spliced, arrow_code, code_inside, seen, where_after};

use crate::texts::is_same;
use lp_tok::{Error, Spanned, Tok, Tokenizer};
use std::alloc::{AllocError, Global};

/// The tokens of a text, and the error that ends them, if one does.
#[derive(Drop)]
pub struct Tokens<'input> {
    pub list: Vec<Spanned<Tok<'input>>>,
    pub error: Option<Error>,
}

/// A token or an error, as the tokenizer answers it.
type Found<'i> = Result<Spanned<Tok<'i>>, Error>;

/// Where a token stands.
#[derive(Clone, Copy)]
enum Where {
    Outside,
    /// Between `enum` and its `{`.
    Heading,
    /// In the braces of `enum`.
    Inside,
}

impl Where {
    /// Where the token after this one stands.
    fn after(self, token: &Tok<'_>) -> Where
        ensures { result ≡ where_after self (mark_of token.now) }
    {
        match self {
            Where::Outside => {
                if is_same(token, &Tok::Enum) {
                    Where::Heading
                } else {
                    Where::Outside
                }
            }
            Where::Heading => {
                if is_same(token, &Tok::LeftBrace) {
                    Where::Inside
                } else {
                    Where::Heading
                }
            }
            Where::Inside => {
                if is_same(token, &Tok::RightBrace) {
                    Where::Outside
                } else {
                    Where::Inside
                }
            }
        }
    }

    /// The code of an arrow in the enum.
    fn code<'i>(self, token: &Tok<'i>) -> Option<&'i str>
        ensures { option_copied result ≡ code_inside self (mark_of token.now) }
    {
        match self {
            Where::Outside => None,
            Where::Heading => None,
            Where::Inside => arrow_code(token),
        }
    }
}

/// The code of an arrow.
fn arrow_code<'i>(token: &Tok<'i>) -> Option<&'i str>
    ensures { option_copied result ≡ arrow_code (mark_of token.now) }
{
    match token {
        Tok::EqualsGreaterThanCode(code) => Some(code),
        _ => None,
    }
}

impl<'input> Tokens<'input> {
    /// The tokens of a text whose places begin with `offset`. In the braces of `enum` the tokens
    /// of a code follow its `=>`, and so do those of a code among them.
    pub fn new(
        alloc: Global,
        input: &'input str,
        offset: usize,
    ) -> Result<Tokens<'input>, AllocError>
        requires { length input.now + offset < 2 ^ 64 }
        ensures { IfOk result (λ t. IsSpelling input.now offset (left_of t.list.items t.error (length input.now + offset))) }
    {
        let plain = plain_tokens(alloc, input, offset)?;
        let tokens = with_codes(alloc, plain, input.len().saturating_add(1))?;
        Ok(tokens)
    }
}

/// What the tokenizer answers for a text whose places begin with `offset`.
fn plain_tokens<'i>(
    alloc: Global,
    text: &'i str,
    offset: usize,
) -> Result<Vec<Found<'i>>, AllocError>
    requires { length text.now + offset < 2 ^ 64 }
    ensures { IfOk result (λ found. AreMarksOf text.now offset (map seen found.items)) }
{
    let mut found = Vec::new(alloc);
    let mut tokenizer = Tokenizer::new(text, offset);
    while let Some(item) = tokenizer.next() {
        found.push(item)?;
    }
    Ok(found)
}

/// These tokens, where in the braces of `enum` the tokens of a code follow its `=>`. Each token
/// takes a byte of the text, so that there are fewer than `turns`.
fn with_codes<'i>(
    alloc: Global,
    plain: Vec<Found<'i>>,
    turns: usize,
) -> Result<Tokens<'i>, AllocError>
    ensures { IfOk result (λ t. (end : ℕ) → Spliced end Where.Outside (map seen plain.entry.items) (left_of t.list.items t.error end)) }
{
    let mut list = Vec::new(alloc);
    let mut place = Where::Outside;
    let mut pending = plain;
    pending.reverse();
    for turn in 0..turns {
        match pending.pop() {
            None => return Ok(Tokens { list, error: None }),
            Some(Err(error)) => {
                return Ok(Tokens {
                    list,
                    error: Some(error),
                });
            }
            Some(Ok(spanned)) => {
                let mut inside = inside_of(alloc, place, &spanned)?;
                place = place.after(&spanned.1);
                list.push(spanned)?;
                inside.reverse();
                pending.append(&mut inside)?;
            }
        }
    }
    Err(AllocError)
}

/// The tokens that follow a token: those of its code, where it is an arrow in the enum.
fn inside_of<'i>(
    alloc: Global,
    place: Where,
    spanned: &Spanned<Tok<'i>>,
) -> Result<Vec<Found<'i>>, AllocError>
    ensures { IfOk result (λ found. AreInside place (mark_of spanned.now.1) spanned.now.2 (map seen found.items)) }
{
    match place.code(&spanned.1) {
        Some(code) => plain_tokens(alloc, code, spanned.2.saturating_sub(code.len())),
        None => Ok(Vec::new(alloc)),
    }
}
