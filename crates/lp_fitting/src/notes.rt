//! Comments: lines of their own, and what stands behind the entries of a row.

ghost use Rattle.std.specs.Prelude.{◌≡◌, ◌↔◌, false, All, IsTrue};
ghost use Rattle.std.specs.Char.{is_whitespace};
ghost use Rattle.std.specs.Str.{chars};
ghost use Rattle.lp_write.specs.Lines.{opens};
ghost use Rattle.lp_texts.specs.OneLine.{begins};
ghost use Rattle.lp_reading_laws.specs.Printing.LineTexts.{is_on_line, ends_open, IsLineText, IsSkipped};
ghost use Rattle.lp_reading_laws.specs.Printing.WellFormed.{IsNote, IsSteady, IsTrailing};
ghost use Rattle.lp_tree.specs.ProgramTree.{noted};

use lp_spelling::cursor::is_skipped;
use lp_tree::{Piece, RowNote};

/// Whether a text has no line feed.
fn is_on_line(text: &[u8]) -> bool
    ensures { result ≡ is_on_line text.now }
{
    text.iter().all(|byte| *byte != b'\n')
}

/// Whether a text begins with a blank.
fn begins_blank(text: &str) -> bool
    ensures { result ≡ begins is_whitespace (chars text.now) }
{
    match text.chars().next() {
        None => false,
        Some(c) => c.is_whitespace(),
    }
}

/// Whether a text may stand on a line, from its first character that is no blank on.
fn is_line_text(text: &str) -> bool
    ensures { IsTrue result ↔ IsLineText text.now }
{
    is_on_line(text.as_bytes()) && !begins_blank(text)
}

/// Whether a text is empty, or a comment.
fn is_comment(text: &str) -> bool
    ensures { IsTrue result ↔ IsSkipped text.now }
{
    is_line_text(text) && is_skipped(text)
}

/// Whether a byte is an opening bracket.
fn opens(byte: u8) -> bool
    ensures { result ≡ opens byte }
{
    byte == b'{' || byte == b'[' || byte == b'('
}

/// Whether a text ends with an opening bracket.
fn ends_open(text: &[u8]) -> bool
    ensures { result ≡ ends_open text.now }
{
    match text.last() {
        None => false,
        Some(byte) => opens(*byte),
    }
}

/// Whether a text is blanks, and behind them nothing or a comment.
fn is_trailing(text: &str) -> bool
    ensures { IsTrue result ↔ IsTrailing text.now }
{
    is_comment(text.trim_start_matches(' '))
}

/// Whether a text may be a comment line: it leaves the indent as it was.
fn is_steady(line: &str) -> bool
    ensures { IsTrue result ↔ (IsTrailing line.now × (ends_open line.now ≡ false)) }
{
    is_trailing(line) && !ends_open(line.as_bytes())
}

fn are_steady(lines: &[Piece<'_>]) -> bool
    ensures { IsTrue result ↔ All (λ line. IsTrailing line × (ends_open line ≡ false)) lines.now }
{
    for line in lines {
        if !is_steady(line.as_str()) {
            return false;
        }
    }
    true
}

fn are_trailing(comments: &[Piece<'_>]) -> bool
    ensures { IsTrue result ↔ All IsTrailing comments.now }
{
    for comment in comments {
        if !is_trailing(comment.as_str()) {
            return false;
        }
    }
    true
}

fn is_note(part: &RowNote<'_>) -> bool
    ensures { IsTrue result ↔ (IsNote (noted part.now) × IsSteady (noted part.now)) }
{
    are_steady(&part.lines) && are_trailing(&part.comments)
}

/// Whether notes are comments, none of whose lines ends with an opening bracket.
pub(crate) fn are_notes(notes: &[RowNote<'_>]) -> bool
    ensures { IsTrue result ↔ All (λ part. IsNote (noted part) × IsSteady (noted part)) notes.now }
{
    for part in notes {
        if !is_note(part) {
            return false;
        }
    }
    true
}
