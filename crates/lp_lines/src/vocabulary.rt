//! What token lines may name: public names, terminals and their captures.

ghost use Rattle.std.specs.Prelude.{◌≡◌, map, IfOk};
ghost use Rattle.std.specs.List.{find};
ghost use Rattle.std.specs.Str.{bytes_eq};
ghost use Rattle.lp_lines.specs.Scan.{all_some};
ghost use Rattle.std.specs.Option.{option_copied};
ghost use Rattle.lp_lines.specs.TokenLines.{span_of as span_numbers, before_closer as closed_before, payload_of, payloads_of, fault_of};
ghost use Rattle.lp_repr.specs.Numbering.{terminals_of};
ghost use Rattle.lp_lines.specs.Vocabularies.{starts_of as start_names, form_in, form_of as pattern_form};

use crate::scan::{ascii_text, is_name, is_payload, number, split, split_once};
use lp_repr::repr::{Grammar, TerminalString, TokenPattern};
use lp_repr::text::{Items, Text};
use lp_repr::values::{Loc, RunItem, TokenValue};
use std::alloc::{AllocError, Global};

/// The form of a terminal's tokens, and how many payloads they have.
#[derive(Drop)]
pub struct Form {
    /// The pattern's text with `_` in the holes.
    pub text: Text,
    pub captures: usize,
}

/// What token lines may name.
#[derive(Drop)]
pub struct Vocabulary {
    /// The grammar has a location type.
    pub located: bool,
    /// The public names.
    pub starts: Items<Text>,
    /// By terminal number; none for the error terminal.
    pub forms: Items<Option<Form>>,
}

impl Vocabulary {
    ghost use Rattle.lp_lines.specs.Scan.{split_at};
    ghost use Rattle.lp_lines.specs.TokenLines.{start_of, place_of, item_of, spanned_of, value_of, terminal_of, token_of, form_at};
    ghost use Rattle.lp_lines.specs.Vocabularies.{vocabulary_of};

    /// What token lines of a grammar may name.
    pub fn new(alloc: Global, grammar: &Grammar) -> Result<Vocabulary, AllocError>
        ensures { IfOk result (λ v. v ≡ vocabulary_of grammar.now) }
    {
        Ok(Vocabulary {
            located: grammar.types.loc.is_some(),
            starts: Items(starts_of(alloc, grammar)?),
            forms: Items(forms_of(alloc, grammar)?),
        })
    }

    /// A public name.
    pub fn start(&self, name: &[u8]) -> Result<Option<Text>, AllocError>
        ensures { IfOk result (λ start. start ≡ start_of self.now name.now) }
    {
        match find_text(self.starts.as_slice(), name) {
            None => Ok(None),
            Some(start) => Ok(Some(start.clone()?)),
        }
    }

    /// A place, or the default where the grammar has no location type.
    fn place(&self, place: u64) -> Loc
        ensures { result ≡ place_of self.now place }
    {
        if self.located {
            Loc::At(place)
        } else {
            Loc::Default
        }
    }

    /// What a part of a line says of the token source: `!name`, `?@a-b`, `i@a-b` or `i(p,q)@a-b`.
    pub fn item(&self, alloc: Global, part: &[u8]) -> Result<Option<RunItem>, AllocError>
        ensures { IfOk result (λ item. item ≡ item_of self.now part.now) }
    {
        match part {
            [] => Ok(None),
            [first, rest @ ..] => {
                if *first == b'!' {
                    fault(alloc, rest)
                } else {
                    self.spanned(alloc, part)
                }
            }
        }
    }

    /// `?@a-b`, `i@a-b` or `i(p,q)@a-b`
    fn spanned(&self, alloc: Global, part: &[u8]) -> Result<Option<RunItem>, AllocError>
        ensures { IfOk result (λ item. item ≡ spanned_of self.now part.now) }
    {
        let Some((head, span)) = split_once(part, b'@') else {
            return Ok(None);
        };
        let Some(value) = self.value(alloc, head)? else {
            return Ok(None);
        };
        let Some((from, to)) = span_of(span) else {
            return Ok(None);
        };
        Ok(Some(RunItem::Token(self.place(from), value, self.place(to))))
    }

    /// `?`, `i` or `i(p,q)`
    fn value(&self, alloc: Global, head: &[u8]) -> Result<Option<TokenValue>, AllocError>
        ensures { IfOk result (λ value. value ≡ value_of self.now head.now) }
    {
        if head == b"?".as_slice() {
            return Ok(Some(TokenValue {
                form: Text(String::new(alloc)),
                payloads: Items(Vec::new(alloc)),
            }));
        }
        self.terminal(alloc, head)
    }

    /// `i` or `i(p,q)`
    fn terminal(&self, alloc: Global, head: &[u8]) -> Result<Option<TokenValue>, AllocError>
        ensures { IfOk result (λ value. value ≡ terminal_of self.now head.now (split_at head.now 40)) }
    {
        let Some((digits, rest)) = split_once(head, b'(') else {
            return self.token(number(head), Items(Vec::new(alloc)));
        };
        let Some(inner) = before_closer(rest) else {
            return Ok(None);
        };
        match payloads(alloc, inner)? {
            None => Ok(None),
            Some(list) => self.token(number(digits), list),
        }
    }

    /// The token of the terminal of this number, if it has so many captures.
    fn token(
        &self,
        number: Option<u64>,
        payloads: Items<Text>,
    ) -> Result<Option<TokenValue>, AllocError>
        ensures { IfOk result (λ value. value ≡ token_of (form_at self.now number) payloads) }
    {
        match self.form(number) {
            None => Ok(None),
            Some(form) => {
                if form.captures != payloads.as_slice().len() {
                    return Ok(None);
                }
                Ok(Some(TokenValue {
                    form: form.text.clone()?,
                    payloads,
                }))
            }
        }
    }

    /// The form of the terminal of this number.
    fn form(&self, number: Option<u64>) -> Option<&Form>
        ensures { option_copied result ≡ form_at self.now number }
    {
        match number {
            None => None,
            Some(number) => match self.forms.as_slice().get(number as usize) {
                None => None,
                Some(form) => form.as_ref(),
            },
        }
    }
}

/// The bytes are those of the text.
fn is_text(text: &Text, bytes: &[u8]) -> bool
    ensures { result ≡ bytes_eq text.now bytes.now }
{
    text.as_str().as_bytes() == bytes
}

/// The text of these bytes.
fn find_text<'t>(texts: &'t [Text], bytes: &[u8]) -> Option<&'t Text>
    ensures { option_copied result ≡ find (λ text. bytes_eq text bytes.now) texts.now }
{
    texts.iter().find(|text| is_text(text, bytes))
}

/// `a-b`
fn span_of(span: &[u8]) -> Option<(u64, u64)>
    ensures { result ≡ span_numbers span.now }
{
    let (from, to) = split_once(span, b'-')?;
    Some((number(from)?, number(to)?))
}

/// What stands before a last `)`.
fn before_closer(text: &[u8]) -> Option<&[u8]>
    ensures { option_copied result ≡ closed_before text.now }
{
    if !text.is_empty() && text[text.len() - 1] == b')' {
        Some(&text[..text.len() - 1])
    } else {
        None
    }
}

/// A fault of this name.
fn fault(alloc: Global, name: &[u8]) -> Result<Option<RunItem>, AllocError>
    ensures { IfOk result (λ item. item ≡ fault_of name.now) }
{
    if is_name(name) {
        Ok(Some(RunItem::Fault(ascii_text(alloc, name)?)))
    } else {
        Ok(None)
    }
}

/// A payload.
fn payload(alloc: Global, text: &[u8]) -> Result<Option<Text>, AllocError>
    ensures { IfOk result (λ read. read ≡ payload_of text.now) }
{
    if is_payload(text) {
        Ok(Some(ascii_text(alloc, text)?))
    } else {
        Ok(None)
    }
}

/// `p,q`
fn payloads(alloc: Global, text: &[u8]) -> Result<Option<Items<Text>>, AllocError>
    ensures { IfOk result (λ list. list ≡ payloads_of text.now) }
{
    let parts = split(alloc, text, b',')?;
    let list = payloads_in(alloc, parts.as_slice())?;
    Ok(list)
}

/// The payloads that are all of these parts.
fn payloads_in(alloc: Global, parts: &[&[u8]]) -> Result<Option<Items<Text>>, AllocError>
    ensures { IfOk result (λ list. list ≡ all_some (map (λ part. payload_of part.now) parts.now)) }
{
    let mut list = Vec::new(alloc);
    for part in parts {
        match payload(alloc, part)? {
            None => return Ok(None),
            Some(text) => list.push(text)?,
        }
    }
    Ok(Some(Items(list)))
}

/// The public names, in key order.
fn starts_of(alloc: Global, grammar: &Grammar) -> Result<Vec<Text>, AllocError>
    ensures { IfOk result (λ starts. starts.items ≡ start_names grammar.now) }
{
    let mut starts = Vec::new(alloc);
    for name in grammar.start_nonterminals.keys() {
        starts.push(name.0.clone()?)?;
    }
    Ok(starts)
}

/// The form of each terminal, by number.
fn forms_of(alloc: Global, grammar: &Grammar) -> Result<Vec<Option<Form>>, AllocError>
    ensures { IfOk result (λ forms. forms.items ≡ map (form_in grammar.now) (terminals_of grammar.now)) }
{
    let mut forms = Vec::new(alloc);
    for terminal in grammar.terminals.all.as_slice() {
        forms.push(form_of(alloc, grammar, terminal)?)?;
    }
    Ok(forms)
}

/// The form of a terminal; none for the error terminal.
fn form_of(
    alloc: Global,
    grammar: &Grammar,
    terminal: &TerminalString,
) -> Result<Option<Form>, AllocError>
    ensures { IfOk result (λ form. form ≡ form_in grammar.now terminal.now) }
{
    match grammar.conversions.get(terminal) {
        None => Ok(None),
        Some(pattern) => Ok(Some(form_of_pattern(alloc, pattern)?)),
    }
}

fn form_of_pattern(alloc: Global, pattern: &TokenPattern) -> Result<Form, AllocError>
    ensures { IfOk result (λ form. form ≡ pattern_form pattern.now) }
{
    Ok(Form {
        text: Text(pattern.to_string(alloc)?),
        captures: pattern.holes.as_slice().len(),
    })
}
