//! Reading the entries of a table.

ghost use Rattle.std.specs.Prelude.{◌≡◌, ◌<◌, ◌≤◌, ◌+◌, ◌==◌, ◌∷◌, true, length, drop, IfOk};
ghost use Rattle.std.specs.Bool.{OnFalse};
ghost use Rattle.std.specs.Str.{IsCharBoundary};
ghost use Rattle.lp_spelling.specs.TableReading as tables;

use crate::cursor::{ends_line, line_end};
use crate::ends::{digit_run, rest_from, stands_at};
use crate::fill::{is_number, is_same};
use std::alloc::{AllocError, Global};

/// What stands at a place of a table.
enum RowStep {
    /// An entry, and the place after its `,`.
    Entry(i32, usize),
    /// A line feed, and the place after it.
    Line(usize),
    /// Something else that doesn't count, up to a place.
    Skip(usize),
    /// The end of the table.
    End,
    /// Nothing that stands in a table.
    Wrong,
}

/// How many bytes the sign in front has.
fn sign_len(text: &[u8]) -> usize
    ensures value { result ≡ tables.sign_len text.now }
    ensures bound { result ≤ length text.now }
{
    if text.starts_with(b"-") { 1 } else { 0 }
}

/// Where the sign and the digits in front end.
fn number_end(text: &[u8]) -> usize
    ensures value { result ≡ tables.number_end text.now }
    ensures bound { result ≤ length text.now }
{
    let sign = sign_len(text);
    let end = sign + digit_run(rest_from(text, sign));
    end
}

/// The number behind `-`, which stands in front of the digits in `text`.
fn negative_of(text: &str, digits: &[u8]) -> Option<i32>
    requires { text.now ≡ 45 ∷ digits.now }
    ensures { result ≡ tables.negative_of digits.now }
{
    if !is_number(digits) {
        return None;
    }
    if is_same(digits, b"0") {
        return None;
    }
    match text.parse::<i32>() {
        Ok(number) => Some(number),
        Err(_) => None,
    }
}

/// A number without a sign.
fn positive_of(text: &str) -> Option<i32>
    ensures { result ≡ tables.positive_of text.now }
{
    if !is_number(text.as_bytes()) {
        return None;
    }
    match text.parse::<i32>() {
        Ok(number) => Some(number),
        Err(_) => None,
    }
}

/// The number of 32 bits that a text spells.
#[tactic(auto, unfolding(crate::specs::TableReading::number_of))]
fn number_of(text: &str) -> Option<i32>
    ensures { result ≡ tables.number_of text.now }
{
    let bytes = text.as_bytes();
    if bytes.starts_with(b"-") {
        negative_of(text, rest_from(bytes, 1))
    } else {
        positive_of(text)
    }
}

/// The entry at a place, behind blanks.
fn entry_at(text: &str, at: usize) -> RowStep
    requires { IsCharBoundary text.now at }
    ensures { tables.IsEntryAt text.now at result }
{
    let (_, rest) = text.split_at(at);
    let bytes = rest.as_bytes();
    let end = number_end(bytes);
    let (spelled, behind) = rest.split_at(end);
    let Some(number) = number_of(spelled) else {
        return RowStep::Wrong;
    };
    if !behind.as_bytes().starts_with(b",") {
        return RowStep::Wrong;
    }
    let next = at + end + 1;
    RowStep::Entry(number, next)
}

/// How many bytes a character has, if it is a blank.
fn char_blank(c: char) -> usize
    ensures { result ≡ tables.char_blank c }
{
    if c.is_whitespace() { c.len_utf8() } else { 0 }
}

/// How many bytes a blank in front has.
fn first_blank(text: &str) -> usize
    ensures value { result ≡ tables.blank_len text.now }
    ensures cut { IsCharBoundary text.now result }
{
    let mut chars = text.chars();
    match chars.next() {
        None => 0,
        Some(c) => char_blank(c),
    }
}

/// How many bytes a blank at a place has.
fn blank_len(text: &str, at: usize) -> usize
    requires { IsCharBoundary text.now at }
    ensures value { result ≡ tables.blank_len (drop at text.now) }
    ensures next { IsCharBoundary text.now (at + result) }
{
    let (_, rest) = text.split_at(at);
    first_blank(rest)
}

/// Whether a byte is the `]` that ends a table.
fn ends_table(byte: u8) -> bool
    ensures { result ≡ (byte == 93) }
{
    byte == b']'
}

/// What stands at a place of a table. A line feed is passed by itself, a comment up to its line
/// feed.
fn row_step(text: &str, at: usize) -> RowStep
    requires { IsCharBoundary text.now at }
    ensures { tables.IsFront text.now at result }
{
    let bytes = text.as_bytes();
    if at >= bytes.len() {
        return RowStep::Wrong;
    }
    if ends_line(bytes[at]) {
        return RowStep::Line(at + 1);
    }
    if stands_at(bytes, at, b"//") {
        return RowStep::Skip(line_end(text, at));
    }
    if ends_table(bytes[at]) {
        return RowStep::End;
    }
    let blank = blank_len(text, at);
    if 0 < blank {
        return RowStep::Skip(at + blank);
    }
    entry_at(text, at)
}

/// What a table holds, and where its last line begins; or the place of what stands in no table, or
/// of a `]` that isn't at the front of its line.
#[derive(Drop)]
pub struct Table {
    pub numbers: Vec<i32>,
    pub end: usize,
    /// Whether the table ends there, at the front of a line.
    pub ended: bool,
}

/// Reads the entries of a table from a place on.
pub fn read_entries(alloc: Global, text: &str, from: usize) -> Result<Table, AllocError>
    requires { IsCharBoundary text.now from }
    ensures exact { IfOk result (λ table. tables.ReadsTable (drop from text.now) table.numbers.items (drop table.end text.now) table.ended) }
    ensures end { IfOk result (λ table. IsCharBoundary text.now table.end) }
    ensures broken { IfOk result (λ table. OnFalse table.ended (tables.IsBroken true (drop from text.now) (drop table.end text.now))) }
{
    let mut numbers = Vec::new(alloc);
    let mut at = from;
    let mut at_front = true;
    for _i in 0..text.len() - from {
        match row_step(text, at) {
            RowStep::Entry(number, next) => {
                numbers.push(number)?;
                at = next;
                at_front = false;
            }
            RowStep::Line(next) => {
                at = next;
                at_front = true;
            }
            RowStep::Skip(next) => at = next,
            RowStep::End => {
                return Ok(Table {
                    numbers,
                    end: at,
                    ended: at_front,
                });
            }
            RowStep::Wrong => {
                return Ok(Table {
                    numbers,
                    end: at,
                    ended: false,
                });
            }
        }
    }
    Ok(Table {
        numbers,
        end: at,
        ended: false,
    })
}
