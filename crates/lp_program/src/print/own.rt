//! The lines that a step prints itself.

ghost use Rattle.std.specs.Prelude.{◌≡◌, ◌++◌, [], ◌∷◌, map, replicate, codes, if◌then◌else◌};
ghost use Rattle.lp_form.specs.Templates.{piece};
ghost use Rattle.lp_spelling.specs.Lines.{line_of};
ghost use Rattle.lp_program.specs.OwnLines.{code_lines, hole, note_lines, own_lines};
ghost use Rattle.lp_tree.specs.ProgramTree.{noted};
ghost use Rattle.lp_program.specs.Trees.{content, forest, tree_count};
ghost use Rattle.lp_write.specs.Lines.Line.{line};
ghost use Rattle.lp_write.specs.Writes.{options_of, writing, Writes, write_ending};

use crate::print::table::print_table;
use lp_form::Step;
use lp_form::template::Piece as LinePart;
use lp_spelling::spell::line_text;
use lp_tree::piece::Piece;
use lp_tree::tree::{Entry, RowNote};
use lp_view::end_of;
use lp_write::{RustWrite, Sink, WriteError};
use std::alloc::Global;

/// Appends the lines of a step itself, over the parts below.
pub(crate) fn print_own<W: Sink>(
    alloc: Global,
    prefix: &str,
    entry: &Entry<'_>,
    below: &[Entry<'_>],
    step: Step,
    pieces: &[LinePart],
    out: &mut RustWrite<W>,
) -> Result<(), WriteError>
    ensures { Writes (write_ending result) (writing W.told out.old) (writing W.told out.new) (own_lines (options_of out.old) prefix.now (content entry.now) (tree_count (forest below.now)) (map piece pieces.now) step) }
{
    let holes = entry.holes.as_slice();
    let notes = entry.notes.as_slice();
    match step {
        Step::Line(blanks) => print_times(alloc, prefix, holes, blanks, pieces, 1, out),
        Step::Each(blanks) => {
            print_times(alloc, prefix, holes, blanks, pieces, tree_count(below), out)
        }
        Step::Empty => print_line("", out),
        Step::Note => print_comments(notes, out),
        Step::NoteAlways => print_notes(notes, out),
        Step::Use => print_use(alloc, hole(entry, 0), out),
        Step::Code => print_code(hole(entry, 0), out),
        Step::Entries => print_table(alloc, entry.numbers.as_slice(), notes, out),
        Step::One(_) => Ok(()),
        Step::Optional(_) => Ok(()),
        Step::Many(_) => Ok(()),
        Step::Some(_) => Ok(()),
        Step::Pairs(_, _) => Ok(()),
    }
}

/// How many trees stand side by side.
pub(crate) fn tree_count(entries: &[Entry<'_>]) -> usize
    ensures { result ≡ tree_count (forest entries.now) }
{
    let mut count = 0;
    let mut at = 0;
    while at < entries.len() {
        at = end_of(entries, at);
        count += 1;
    }
    count
}

/// Appends a line of a template so many times.
fn print_times<W: Sink>(
    alloc: Global,
    prefix: &str,
    holes: &[Piece<'_>],
    blanks: u8,
    pieces: &[LinePart],
    times: usize,
    out: &mut RustWrite<W>,
) -> Result<(), WriteError>
    ensures { Writes (write_ending result) (writing W.told out.old) (writing W.told out.new) (replicate times (line (replicate blanks 32 ++ line_of prefix.now holes.now (map piece pieces.now)))) }
{
    let text = line_text(alloc, prefix, holes, blanks, pieces)?;
    print_same(text.as_str(), times, out)
}

/// Appends a line so many times.
fn print_same<W: Sink>(text: &str, times: usize, out: &mut RustWrite<W>) -> Result<(), WriteError>
    ensures { Writes (write_ending result) (writing W.told out.old) (writing W.told out.new) (replicate times (line text.now)) }
{
    for _i in 0..times {
        out.line(text)?;
    }
    Ok(())
}

/// Appends a line.
pub(crate) fn print_line<W: Sink>(text: &str, out: &mut RustWrite<W>) -> Result<(), WriteError>
    ensures { Writes (write_ending result) (writing W.told out.old) (writing W.told out.new) (line text.now ∷ []) }
{
    out.line(text)?;
    Ok(())
}

/// Appends a line per text.
pub(crate) fn print_texts<W: Sink>(
    texts: &[Piece<'_>],
    out: &mut RustWrite<W>,
) -> Result<(), WriteError>
    ensures { Writes (write_ending result) (writing W.told out.old) (writing W.told out.new) (map line texts.now) }
{
    for text in texts {
        out.line(text.as_str())?;
    }
    Ok(())
}

/// Appends the comment lines of notes.
fn print_notes<W: Sink>(notes: &[RowNote<'_>], out: &mut RustWrite<W>) -> Result<(), WriteError>
    ensures { Writes (write_ending result) (writing W.told out.old) (writing W.told out.new) (note_lines (map noted notes.now)) }
{
    for note in notes {
        print_texts(note.lines.as_slice(), out)?;
    }
    Ok(())
}

/// Appends the comment lines of notes, with comments on.
fn print_comments<W: Sink>(notes: &[RowNote<'_>], out: &mut RustWrite<W>) -> Result<(), WriteError>
    ensures { Writes (write_ending result) (writing W.told out.old) (writing W.told out.new) (if (options_of out.old).comments then note_lines (map noted notes.now) else []) }
{
    if out.options().comments {
        return print_notes(notes, out);
    }
    Ok(())
}

/// Appends a use.
fn print_use<W: Sink>(alloc: Global, path: &str, out: &mut RustWrite<W>) -> Result<(), WriteError>
    ensures { Writes (write_ending result) (writing W.told out.old) (writing W.told out.new) (line (codes "use " ++ (path.now ++ codes ";")) ∷ []) }
{
    let text = format!(in alloc; "use {path};")?;
    print_line(text.as_str(), out)
}

/// Appends user code, unless it is `()`.
fn print_code<W: Sink>(code: &str, out: &mut RustWrite<W>) -> Result<(), WriteError>
    ensures { Writes (write_ending result) (writing W.told out.old) (writing W.told out.new) (code_lines code.now) }
{
    if code == "()" {
        return Ok(());
    }
    out.code(code)?;
    Ok(())
}

/// What a hole holds; the empty text where there is none.
fn hole<'e>(entry: &'e Entry<'_>, k: usize) -> &'e str
    ensures { result.now ≡ hole (content entry.now) k }
{
    if k < entry.holes.len() {
        entry.holes[k].as_str()
    } else {
        ""
    }
}
