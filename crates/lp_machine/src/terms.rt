//! Copies of the values of a parse.

ghost use Rattle.std.specs.Prelude.{◌≡◌, IfOk};
ghost use Rattle.lp_driver.specs.Values.{value_of};

use lp_repr::text::{Items, Text};
use lp_repr::values::{
    Loc, ParseError, Recovery, RunParseError, SpannedToken, Term, TokenValue, UserError,
};
use std::alloc::{AllocError, Global};
use std::marker::Model;

/// A copy of a text.
pub fn copied_text(text: &Text) -> Result<Text, AllocError>
    ensures { IfOk result (λ copy. copy ≡ text.now) }
{
    text.clone()
}

/// Copies of texts.
pub fn copied_texts(alloc: Global, texts: &[Text]) -> Result<Items<Text>, AllocError>
    ensures { IfOk result (λ copy. copy ≡ texts.now) }
{
    let mut copies = Vec::new(alloc);
    for text in texts {
        copies.push(copied_text(text)?)?;
    }
    Ok(Items(copies))
}

/// A copy of a token.
pub fn copied_token(alloc: Global, token: &SpannedToken) -> Result<SpannedToken, AllocError>
    ensures { IfOk result (λ copy. copy ≡ token.now) }
{
    let value = TokenValue {
        form: copied_text(&token.1.form)?,
        payloads: copied_texts(alloc, token.1.payloads.as_slice())?,
    };
    Ok((token.0, value, token.2))
}

/// Copies of tokens with their spans, in order. Fails where memory runs out.
pub fn copied_tokens(
    alloc: Global,
    tokens: &[SpannedToken],
) -> Result<Items<SpannedToken>, AllocError>
    ensures { IfOk result (λ copy. copy ≡ tokens.now) }
{
    let mut copies = Vec::new(alloc);
    for token in tokens {
        copies.push(copied_token(alloc, token)?)?;
    }
    Ok(Items(copies))
}

fn copied_blame(blame: &UserError) -> Result<UserError, AllocError>
    ensures { IfOk result (λ copy. copy ≡ blame.now) }
{
    Ok(match blame {
        UserError::Call(number) => UserError::Call(*number),
        UserError::Fault(name) => UserError::Fault(copied_text(name)?),
    })
}

/// A copy of an error.
pub fn copied_error(alloc: Global, error: &RunParseError) -> Result<RunParseError, AllocError>
    ensures { IfOk result (λ copy. copy ≡ error.now) }
{
    Ok(match error {
        ParseError::InvalidToken { location } => ParseError::InvalidToken {
            location: *location,
        },
        ParseError::UnrecognizedEof { location, expected } => ParseError::UnrecognizedEof {
            location: *location,
            expected: copied_texts(alloc, expected.as_slice())?,
        },
        ParseError::UnrecognizedToken { token, expected } => ParseError::UnrecognizedToken {
            token: copied_token(alloc, token)?,
            expected: copied_texts(alloc, expected.as_slice())?,
        },
        ParseError::ExtraToken { token } => ParseError::ExtraToken {
            token: copied_token(alloc, token)?,
        },
        ParseError::User { error } => ParseError::User {
            error: copied_blame(error)?,
        },
    })
}

fn copied_recovery(alloc: Global, recovery: &Recovery) -> Result<Recovery, AllocError>
    ensures { IfOk result (λ copy. copy ≡ recovery.now) }
{
    Ok(Recovery {
        error: copied_error(alloc, &recovery.error)?,
        dropped: copied_tokens(alloc, recovery.dropped.as_slice())?,
    })
}

/// A copy of a token without a span: of its form and its payloads. Fails where memory runs out.
pub fn copied_value(alloc: Global, token: &TokenValue) -> Result<TokenValue, AllocError>
    ensures { IfOk result (λ copy. copy ≡ token.now) }
{
    Ok(TokenValue {
        form: copied_text(&token.form)?,
        payloads: copied_texts(alloc, token.payloads.as_slice())?,
    })
}

/// A copy of a term.
pub fn copied_term(alloc: Global, term: &Term) -> Result<Term, AllocError>
    ensures { IfOk result (λ copy. value_of copy ≡ value_of term.now) }
{
    Ok(match term {
        Term::Payload(text) => Term::Payload(copied_text(text)?),
        Term::Token(token) => Term::Token(copied_value(alloc, token)?),
        Term::Tuple(texts) => Term::Tuple(copied_texts(alloc, texts.as_slice())?),
        Term::Location(location) => Term::Location(*location),
        Term::Result(number) => Term::Result(*number),
        Term::Recovered(recovery) => {
            Term::Recovered(Box::new(alloc, copied_recovery(alloc, recovery)?)?)
        }
    })
}

/// What stands on the stack of triples, which contracts see as the value of its term.
#[derive(Drop)]
pub struct Symbol {
    term: Term,
}

impl Model for Symbol {
    ghost use Rattle.lp_driver.specs.Values;
    ghost use Rattle.lp_driver.specs.Values.{value_of};

    ghost Value = { Values.Value };

    ghost view = { λ s. value_of s.term };
}

impl Symbol {
    /// The symbol whose value is that of the term.
    pub fn new(term: Term) -> Symbol
        ensures { result ≡ value_of term }
    {
        Symbol { term }
    }

    /// The term that it holds.
    pub fn into_term(self) -> Term
        ensures { value_of result ≡ self }
    {
        let Symbol { term } = self;
        term
    }

    /// Another symbol with the same value. Fails where memory runs out.
    pub fn copied(&self, alloc: Global) -> Result<Symbol, AllocError>
        ensures { IfOk result (λ copy. copy ≡ self.now) }
    {
        Ok(Symbol {
            term: copied_term(alloc, &self.term)?,
        })
    }
}

/// Copies of triples.
pub fn copied_triples(
    alloc: Global,
    triples: &[(Loc, Symbol, Loc)],
) -> Result<Items<(Loc, Symbol, Loc)>, AllocError>
    ensures { IfOk result (λ copies. copies ≡ triples.now) }
{
    let mut copies = Vec::new(alloc);
    for triple in triples {
        copies.push((triple.0, triple.1.copied(alloc)?, triple.2))?;
    }
    Ok(Items(copies))
}

/// A copy of how a run ends.
pub fn copied_ending(
    alloc: Global,
    ending: &Result<Symbol, RunParseError>,
) -> Result<Result<Symbol, RunParseError>, AllocError>
    ensures { IfOk result (λ copy. copy ≡ ending.now) }
{
    Ok(match ending {
        Ok(value) => Ok(value.copied(alloc)?),
        Err(error) => Err(copied_error(alloc, error)?),
    })
}
