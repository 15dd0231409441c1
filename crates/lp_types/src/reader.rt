//! A place in a list of tokens.

ghost use Rattle.std.specs.Prelude.{◌≡◌, suc, IfOk};
ghost use Rattle.std.specs.Option.{option_copied, option_map};
ghost use Rattle.lp_types.specs.Clauses.{goes_on};
ghost use Rattle.lp_types.specs.Left.{after, failure, fault_of, is_end, left, left_of, next, place, size, stop, unrecognized};
ghost use Rattle.lp_types.specs.Marks.{is_tok, mark_of, text_of};
ghost use Rattle.lp_types.specs.Reading.{Answers, IsError, Read, at_end, expected, expected_word, is_word, passed_word, next_place, next_stop, passed, seen, seen_text, taken, taken_where, text};

use crate::error::{ParseError, PlainError};
use crate::texts::{Kind, is_same, texted};
use crate::tokens::Tokens;
use lp_repr::text::Items;
use lp_tok::{Error, Spanned, Tok};
use std::alloc::{AllocError, Global};

/// What reading a part gives.
pub type Read<'i, T> = Result<T, PlainError<'i>>;

/// How deep types and patterns may nest, the types in a pattern counted with it. The stack is memory
/// too: what nests deeper is refused as want of memory.
pub const MOST_DEPTH: usize = 400;

/// The tokens that are left, and how they end.
#[derive(Drop)]
pub struct Reader<'a, 'i> {
    pub alloc: Global,
    rest: &'a [Spanned<Tok<'i>>],
    /// The error that ends the tokens.
    error: Option<Error>,
    /// Where the text ends.
    end: usize,
}

/// A copy of a token.
fn copied<'i>(token: &Tok<'i>) -> Result<Tok<'i>, AllocError>
    ensures { IfOk result (λ copy. copy ≡ token.now) }
{
    let copy = token.clone()?;
    Ok(copy)
}

/// The error of a token that goes on nothing.
fn unrecognized<'i>(alloc: Global, spanned: &Spanned<Tok<'i>>) -> Result<ParseError<'i>, AllocError>
    ensures { IfOk result (λ e. fault_of e ≡ unrecognized spanned.now.0 (mark_of spanned.now.1) spanned.now.2) }
{
    let token = copied(&spanned.1)?;
    Ok(ParseError::UnrecognizedToken {
        token: (spanned.0, token, spanned.2),
        expected: Items(Vec::new(alloc)),
    })
}

impl<'a, 'i> Reader<'a, 'i> {
    /// Stands before the first of the tokens of a text that ends at the place `end`.
    pub fn new(alloc: Global, tokens: &'a Tokens<'i>, end: usize) -> Reader<'a, 'i>
        ensures { left result ≡ left_of tokens.now.list.items tokens.now.error end }
    {
        Reader {
            alloc,
            rest: tokens.list.as_slice(),
            error: tokens.error,
            end,
        }
    }

    /// The next token.
    pub fn peek(&self) -> Option<&'a Tok<'i>>
        ensures { option_map (λ t. mark_of t.now) result ≡ next (left self.now) }
    {
        match self.rest.first() {
            None => None,
            Some(spanned) => Some(&spanned.1),
        }
    }

    /// Where the next token begins, or where the tokens end.
    pub fn next_place(&self) -> usize
        ensures { next_place (left self.now) ≡ Read result (left self.now) }
    {
        self.place()
    }

    /// Where the next token ends, or where the tokens end.
    pub fn next_stop(&self) -> usize
        ensures { next_stop (left self.now) ≡ Read result (left self.now) }
    {
        self.stop()
    }

    /// Where the next token begins.
    pub fn place(&self) -> usize
        ensures { result ≡ place (left self.now) }
    {
        match self.rest.first() {
            Some(spanned) => spanned.0,
            None => match self.error {
                Some(error) => error.location,
                None => self.end,
            },
        }
    }

    /// Where the next token ends.
    fn stop(&self) -> usize
        ensures { result ≡ stop (left self.now) }
    {
        match self.rest.first() {
            Some(spanned) => spanned.2,
            None => match self.error {
                Some(error) => error.location,
                None => self.end,
            },
        }
    }

    /// Passes the next token.
    pub fn pass(&mut self)
        ensures { left self.new ≡ after (left self.old) }
    {
        let tokens = self.rest;
        if !tokens.is_empty() {
            self.rest = &tokens[1..];
        }
    }

    /// One more than there are tokens left.
    pub fn turns(&self) -> usize
        ensures { result ≡ suc (size (left self.now)) }
    {
        self.rest.len() + 1
    }

    /// Whether the next token is this one.
    #[tactic(auto, unfolding(crate::specs::Reading::seen))]
    pub fn is_next(&self, token: &Tok<'_>) -> bool
        ensures value { result ≡ is_tok token.now (next (left self.now)) }
        ensures seen { seen token.now (left self.now) ≡ Read result (left self.now) }
    {
        match self.peek() {
            None => false,
            Some(next) => is_same(next, token),
        }
    }

    /// Whether the token after the next one is this one.
    pub fn is_second(&self, token: &Tok<'_>) -> bool
        ensures { result ≡ is_tok token.now (next (after (left self.now))) }
    {
        let mut behind = Reader {
            alloc: self.alloc,
            rest: self.rest,
            error: self.error,
            end: self.end,
        };
        behind.pass();
        behind.is_next(token)
    }

    /// Whether neither `;` nor the end of the text comes.
    pub fn goes_on(&self) -> bool
        ensures { result ≡ goes_on (left self.now) }
    {
        match self.rest.first() {
            None => self.error.is_some(),
            Some(spanned) => !is_same(&spanned.1, &Tok::Semi),
        }
    }

    /// Whether nothing is left, and no error ends the tokens.
    pub fn is_end(&self) -> bool
        ensures { result ≡ is_end (left self.now) }
    {
        match self.rest.first() {
            Some(_) => false,
            None => self.error.is_none(),
        }
    }

    /// Nothing is left, and no error ends the tokens.
    pub fn expect_end(&self) -> Read<'i, ()>
        ensures { Answers (λ _. tt) (at_end (left self.now)) result (left self.now) }
    {
        if self.is_end() {
            Ok(())
        } else {
            Err(self.error())
        }
    }

    /// Passes this token, if it is the next one.
    #[tactic(auto, unfolding(crate::specs::Reading::passed))]
    pub fn passes(&mut self, token: &Tok<'_>) -> bool
        ensures { passed token.now (left self.old) ≡ Read result (left self.new) }
    {
        let is_next = self.is_next(token);
        if is_next {
            self.pass();
        }
        is_next
    }

    /// Whether the next token is this name.
    fn is_word(&self, word: &str) -> bool
        ensures { result ≡ is_word word.now (text_of Kind.Id (next (left self.now))) }
    {
        match self.text_next(Kind::Id) {
            None => false,
            Some(text) => text == word,
        }
    }

    /// Passes this name, if it is the next token.
    #[tactic(auto, unfolding(crate::specs::Reading::passed_word))]
    pub fn passes_word(&mut self, word: &str) -> bool
        ensures { passed_word word.now (left self.old) ≡ Read result (left self.new) }
    {
        let is_there = self.is_word(word);
        if is_there {
            self.pass();
        }
        is_there
    }

    /// Passes this name.
    pub fn expect_word(&mut self, word: &str) -> Read<'i, ()>
        ensures { Answers (λ _. tt) (expected_word word.now (left self.old)) result (left self.new) }
    {
        if self.passes_word(word) {
            Ok(())
        } else {
            Err(self.error())
        }
    }

    /// Passes a token of this kind, if it is the next one, and gives its text.
    #[tactic(auto, unfolding(crate::specs::Reading::taken))]
    pub fn takes(&mut self, kind: Kind) -> Option<&'i str>
        ensures { taken kind (left self.old) ≡ Read (option_copied result) (left self.new) }
    {
        let text = self.text_next(kind)?;
        self.pass();
        Some(text)
    }

    /// The same, where that is allowed.
    #[tactic(auto, unfolding(crate::specs::Reading::taken_where, crate::specs::Reading::choose))]
    pub fn takes_where(&mut self, allowed: bool, kind: Kind) -> Option<&'i str>
        ensures { taken_where allowed kind (left self.old) ≡ Read (option_copied result) (left self.new) }
    {
        if allowed { self.takes(kind) } else { None }
    }

    /// The text of the next token, if it is of this kind.
    pub fn seen_text(&self, kind: Kind) -> Option<&'i str>
        ensures { seen_text kind (left self.now) ≡ Read (option_copied result) (left self.now) }
    {
        self.text_next(kind)
    }

    /// The text of the next token, if it is of this kind.
    pub fn text_next(&self, kind: Kind) -> Option<&'i str>
        ensures { option_copied result ≡ text_of kind (next (left self.now)) }
    {
        let (found, text) = texted(self.peek()?)?;
        if kind == found { Some(text) } else { None }
    }

    /// Passes this token.
    pub fn expect(&mut self, token: &Tok<'_>) -> Read<'i, ()>
        ensures { Answers (λ _. tt) (expected token.now (left self.old)) result (left self.new) }
    {
        if self.passes(token) {
            Ok(())
        } else {
            Err(self.error())
        }
    }

    /// Passes a token of this kind, and gives its text.
    pub fn text(&mut self, kind: Kind) -> Read<'i, &'i str>
        ensures { Answers (λ t. t.now) (text kind (left self.old)) result (left self.new) }
    {
        match self.takes(kind) {
            Some(text) => Ok(text),
            None => Err(self.error()),
        }
    }

    /// The error at the next token.
    pub fn error(&self) -> PlainError<'i>
        ensures { IsError (failure (left self.now)) result }
    {
        match self.parse_error() {
            Ok(error) => PlainError::Parse(error),
            Err(_) => PlainError::Memory,
        }
    }

    fn parse_error(&self) -> Result<ParseError<'i>, AllocError>
        ensures { IfOk result (λ e. fault_of e ≡ failure (left self.now)) }
    {
        match self.rest.first() {
            Some(spanned) => {
                let error = unrecognized(self.alloc, spanned)?;
                Ok(error)
            }
            None => match self.error {
                Some(error) => Ok(ParseError::User { error }),
                None => Ok(ParseError::UnrecognizedEof {
                    location: self.end,
                    expected: Items(Vec::new(self.alloc)),
                }),
            },
        }
    }
}
