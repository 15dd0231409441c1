//! Taking uses, user code and tables off a text.

ghost use Rattle.std.specs.Prelude.{◌≡◌, ℕ, List, drop, MatchOption, IfSome, IfOk};
ghost use Rattle.std.specs.Str.{IsCharBoundary, chars};
ghost use Rattle.lp_tok.specs.Cut.{EndsCut, StopsAt};
ghost use Rattle.lp_program.specs.CodeReading as codes_of;
ghost use Rattle.lp_program.specs.CodeReading.{StartsUse};
ghost use Rattle.lp_spelling.specs.Cursors.{left, IsTaken};
ghost use Rattle.lp_program.specs.Taking.{IsCutLine, IsTakenTable, IsTakenText};

use lp_spelling::cursor::Cursor;
use lp_spelling::rows::{Table, read_entries};
use lp_tok::{ErrorCode, code_end};
use std::alloc::{AllocError, Global};

/// A text that is taken off, and where the reading goes on behind it.
#[derive(Clone, Copy)]
pub(crate) struct Taken<'t> {
    pub(crate) text: &'t str,
    pub(crate) next: Cursor<'t>,
}

/// Whether nothing is left, or a line feed stands in front.
fn ends_there(text: &[u8]) -> bool
    ensures { result ≡ codes_of.ends_there text.now }
{
    text.is_empty() || text.starts_with(b"\n")
}

/// Where the text of a use starts, if the next line begins one.
fn use_start(cursor: Cursor<'_>) -> Option<usize>
    ensures start { IfSome result (λ from. StartsUse (left cursor.entry) (drop from cursor.entry.text.now)) }
    ensures start_in { IfSome result (λ from. IsCharBoundary cursor.entry.text.now from) }
    ensures none { MatchOption result ((behind : List ℕ) → StartsUse (left cursor.entry) behind → ⊥) (λ from. Unit {0}) }
{
    let text = cursor.text();
    let start = cursor.start();
    let (_, rest) = text.split_at(start);
    let Some(behind) = rest.strip_prefix("use ") else {
        return None;
    };
    Some(text.len() - behind.len())
}

/// Where the cut from a place stops, if it does.
fn cut_end(text: &str, from: usize) -> Option<usize>
    requires { IsCharBoundary text.now from }
    ensures { MatchOption result ((rest : List ℕ) → StopsAt (chars (drop from text.now)) rest → ⊥) (EndsCut text.now from) }
{
    match code_end(text, from) {
        Ok(end) => Some(end),
        Err(_) => None,
    }
}

/// Takes the use in the next line, if one is there.
pub(crate) fn take_use<'t>(cursor: Cursor<'t>) -> Option<Taken<'t>>
    ensures takes { IfSome result (λ taken. IsTaken cursor.entry taken.next × codes_of.IsUse (left cursor.entry) taken.text.now (left taken.next)) }
    ensures exact { IsTakenText (codes_of.IsUse (left cursor.entry)) result }
{
    let text = cursor.text();
    let Some(from) = use_start(cursor) else {
        return None;
    };
    let Some(end) = cut_end(text, from) else {
        return None;
    };
    let (_, behind) = text.split_at(end);
    if !behind.starts_with(";") {
        return None;
    }
    let next = end + 1;
    let (_, rest) = text.split_at(next);
    if !ends_there(rest.as_bytes()) {
        return None;
    }
    let Some(used) = text.get(from..end) else {
        return None;
    };
    Some(Taken {
        text: used,
        next: cursor.at(next),
    })
}

/// A text without a line feed at its end.
fn without_feed(text: &str) -> &str
    ensures { result.now ≡ codes_of.without_feed text.now }
{
    if !text.ends_with("\n") {
        return text;
    }
    let (front, _) = text.split_at(text.len() - 1);
    front
}

/// Takes user code: up to the `}` at which its cut stops, without the line feed before it.
pub(crate) fn take_code<'t>(cursor: Cursor<'t>) -> Option<Taken<'t>>
    ensures takes { IfSome result (λ taken. IsTaken cursor.entry taken.next × codes_of.IsCode (left cursor.entry) taken.text.now (left taken.next)) }
    ensures exact { IsTakenText (codes_of.IsCode (left cursor.entry)) result }
{
    let text = cursor.text();
    let from = cursor.raw();
    let Some(end) = cut_end(text, from) else {
        return None;
    };
    let (_, behind) = text.split_at(end);
    if !behind.starts_with("}") {
        return None;
    }
    let Some(whole) = text.get(from..end) else {
        return None;
    };
    Some(Taken {
        text: without_feed(whole),
        next: cursor.at(end),
    })
}

/// The entries that are taken off, and where the reading goes on at the table's end; or the place
/// of what stands in no table.
#[derive(Drop)]
pub(crate) enum TakenTable<'t> {
    Whole(Vec<i32>, Cursor<'t>),
    Broken(usize),
}

/// Takes the entries of a table.
pub(crate) fn take_entries<'t>(
    alloc: Global,
    cursor: Cursor<'t>,
) -> Result<TakenTable<'t>, AllocError>
    ensures { IfOk result (IsTakenTable cursor.entry) }
{
    let Table {
        numbers,
        end,
        ended,
    } = read_entries(alloc, cursor.text(), cursor.raw())?;
    if ended {
        Ok(TakenTable::Whole(numbers, cursor.at(end)))
    } else {
        Ok(TakenTable::Broken(end))
    }
}

/// The line of the place at which the cut from a place stops, or of a fault that no text behind it
/// mends; one past the last line for any other, or where the place is not in the text.
pub(crate) fn cut_line(cursor: Cursor<'_>, from: usize) -> usize
    ensures { IsCutLine cursor.entry.text.now from result }
{
    let text = cursor.text();
    if !text.is_char_boundary(from) {
        return cursor.past_last();
    }
    match code_end(text, from) {
        Ok(end) => cursor.line_from(end),
        Err(error) if error.code == ErrorCode::ExpectedStringLiteral => {
            cursor.line_from(error.location)
        }
        Err(_) => cursor.past_last(),
    }
}
