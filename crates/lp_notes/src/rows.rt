//! The rows of tables, and the comments of their entries.

ghost use Rattle.std.specs.Prelude.{◌≡◌, [], ◌++◌, map, option_copied, slice_get, string_bytes, IfOk, OnOk};
ghost use Rattle.lp_repr.specs.Numbering.{productions_of};
ghost use Rattle.lp_notes.specs.Notes.{action_row, action_rows, comments_from, end_row, end_rows, entry_comment, entry_end, item_line, item_lines, reduced_end};
ghost use Rattle.lp_tree.specs.ProgramTree.{noted};

use crate::source::Source;
use lp_repr::lr1::Item;
use lp_repr::repr::Production;
use lp_repr::{Lr1State, ShownItem, ShownToken, Token};
use lp_tree::{Piece, RowNote};
use std::alloc::{AllocError, Global};
use std::borrow::CowStr;

/// A text that was made for a note.
pub(crate) fn made<'t>(text: String) -> Piece<'t>
    ensures { result ≡ string_bytes text }
{
    Piece::new(CowStr::Owned(text))
}

/// The rows of the table of actions, one a state.
pub(crate) fn action_rows<'t>(
    alloc: Global,
    source: &Source<'_>,
    states: &[Lr1State],
    entries: &[i32],
) -> Result<Vec<RowNote<'t>>, AllocError>
    ensures { IfOk result (λ v. map noted v.items ≡ action_rows source.now.comments source.now.grammar.now 0 entries.now states.now) }
{
    let terminals = source.grammar.terminals.all.as_slice().len();
    let mut rows = Vec::new(alloc);
    let mut left = entries;
    let mut end = 0usize;
    for state in states {
        let count = terminals.min(left.len());
        end = end.checked_add(count).ok_or(AllocError)?;
        rows.push(action_row(alloc, source, end, &left[..count], state)?)?;
        left = &left[count..];
    }
    Ok(rows)
}

/// The row of a state, up to so many entries.
fn action_row<'t>(
    alloc: Global,
    source: &Source<'_>,
    end: usize,
    entries: &[i32],
    state: &Lr1State,
) -> Result<RowNote<'t>, AllocError>
    ensures { IfOk result (λ row. noted row ≡ action_row source.now.comments source.now.grammar.now end entries.now state.now) }
{
    if !source.comments {
        return Ok(bare_row(alloc, end));
    }
    let lines = item_lines(alloc, source, state)?;
    let comments = comments(alloc, source, entries)?;
    Ok(RowNote {
        end,
        lines,
        comments,
    })
}

/// A row without comments.
fn bare_row<'t>(alloc: Global, end: usize) -> RowNote<'t>
    ensures { noted result ≡ record { end = end; lines = []; comments = [] } }
{
    RowNote {
        end,
        lines: Vec::new(alloc),
        comments: Vec::new(alloc),
    }
}

/// The comments of the entries of a row.
fn comments<'t>(
    alloc: Global,
    source: &Source<'_>,
    entries: &[i32],
) -> Result<Vec<Piece<'t>>, AllocError>
    ensures { IfOk result (λ v. v.items ≡ comments_from source.now.grammar.now 0 entries.now) }
{
    let mut comments = Vec::new(alloc);
    for (terminal, entry) in entries.iter().enumerate() {
        let token = Token::Terminal(terminal);
        comments.push(entry_comment(alloc, source, token, *entry)?)?;
    }
    Ok(comments)
}

/// The rows of the table of the end of input, one an entry.
pub(crate) fn end_rows<'t>(
    alloc: Global,
    source: &Source<'_>,
    entries: &[i32],
) -> Result<Vec<RowNote<'t>>, AllocError>
    ensures { IfOk result (λ v. map noted v.items ≡ end_rows source.now.comments source.now.grammar.now 0 entries.now) }
{
    let mut rows = Vec::new(alloc);
    for (place, entry) in entries.iter().enumerate() {
        rows.push(end_row(alloc, source, place + 1, *entry)?)?;
    }
    Ok(rows)
}

/// The row of one of these entries.
fn end_row<'t>(
    alloc: Global,
    source: &Source<'_>,
    end: usize,
    entry: i32,
) -> Result<RowNote<'t>, AllocError>
    ensures { IfOk result (λ row. noted row ≡ end_row source.now.comments source.now.grammar.now end entry) }
{
    if !source.comments {
        return Ok(bare_row(alloc, end));
    }
    let comment = entry_comment(alloc, source, Token::Eof, entry)?;
    Ok(RowNote {
        end,
        lines: Vec::new(alloc),
        comments: vec![in alloc; comment]?,
    })
}

/// The comment of the entry of a token.
fn entry_comment<'t>(
    alloc: Global,
    source: &Source<'_>,
    token: Token,
    entry: i32,
) -> Result<Piece<'t>, AllocError>
    ensures { IfOk result (λ p. p ≡ entry_comment source.now.grammar.now token entry) }
{
    let terminals = &source.grammar.terminals;
    let token = ShownToken { terminals, token };
    let mut text = format!(in alloc; " // on {token}")?;
    push_entry_end(&mut text, source, entry)?;
    Ok(made(text))
}

/// Appends what an entry means.
fn push_entry_end(text: &mut String, source: &Source<'_>, entry: i32) -> Result<(), AllocError>
    ensures { OnOk result (string_bytes text.new ≡ string_bytes text.old ++ entry_end source.now.grammar.now entry) }
{
    if entry > 0 {
        let state = (entry - 1) as usize;
        write!(text, ", goto {state}")?;
        return Ok(());
    }
    if entry == 0 {
        return text.push_str(", error");
    }
    let production = -(entry + 1) as usize;
    push_reduced_end(text, source.production(production))
}

/// Appends what a reduction's entry means.
fn push_reduced_end(text: &mut String, production: Option<&Production>) -> Result<(), AllocError>
    ensures { OnOk result (string_bytes text.new ≡ string_bytes text.old ++ reduced_end (option_copied production.entry)) }
{
    match production {
        Some(production) => {
            write!(text, ", reduce `{production}`")?;
            Ok(())
        }
        None => text.push_str(", error"),
    }
}

/// The items of a state, a line each.
pub(crate) fn item_lines<'t>(
    alloc: Global,
    source: &Source<'_>,
    state: &Lr1State,
) -> Result<Vec<Piece<'t>>, AllocError>
    ensures { IfOk result (λ v. v.items ≡ item_lines source.now.grammar.now state.now) }
{
    let mut lines = Vec::new(alloc);
    for item in state.items.as_slice() {
        push_item(alloc, &mut lines, source, item)?;
    }
    Ok(lines)
}

/// Adds the line of an item, if its production is there.
fn push_item<'t>(
    alloc: Global,
    lines: &mut Vec<Piece<'t>>,
    source: &Source<'_>,
    item: &Item,
) -> Result<(), AllocError>
    ensures { OnOk result (lines.new.items ≡ lines.old.items ++ item_line source.now.grammar.now item.now (slice_get (productions_of source.now.grammar.now) item.now.production)) }
{
    match source.production(item.production) {
        None => Ok(()),
        Some(production) => {
            let terminals = &source.grammar.terminals;
            let shown = ShownItem {
                terminals,
                production,
                item,
            };
            lines.push(made(format!(in alloc; "//     {shown}")?))?;
            Ok(())
        }
    }
}
