//! Lines that are made before they are written.

ghost use Rattle.std.specs.Prelude.{◌≡◌, ℕ, List, ◌++◌, ◌∷◌, [], map, IfOk, OnOk};
ghost use Rattle.lp_write.specs.Lines.Line.{line};
ghost use Rattle.lp_write.specs.Writes.{writing, Writes, write_ending};
ghost use Rattle.lp_codegen.specs.Modules.{line_if};

use lp_repr::Text;
use lp_write::{RustWrite, Sink, WriteError};
use std::alloc::{AllocError, Global};

/// Appends a line per text.
pub(crate) fn write_texts<W: Sink>(out: &mut RustWrite<W>, texts: &[Text]) -> Result<(), WriteError>
    ensures { Writes (write_ending result) (writing W.told out.old) (writing W.told out.new) (map line texts.now) }
{
    for text in texts {
        out.line(text.as_str())?;
    }
    Ok(())
}

/// Appends a line per text, if memory for the texts was found.
pub(crate) fn write_found<W: Sink>(
    out: &mut RustWrite<W>,
    texts: Result<Vec<Text>, AllocError>,
) -> Result<(), WriteError>
    ensures { (lines : List (List ℕ)) → IfOk texts (λ found. found.items ≡ lines) → Writes (write_ending result) (writing W.told out.old) (writing W.told out.new) (map line lines) }
{
    let texts = texts?;
    write_texts(out, texts.as_slice())
}

/// Appends one line.
pub(crate) fn write_line<W: Sink>(out: &mut RustWrite<W>, text: &str) -> Result<(), WriteError>
    ensures { Writes (write_ending result) (writing W.told out.old) (writing W.told out.new) (line text.now ∷ []) }
{
    out.line(text)?;
    Ok(())
}

/// A copy of a text.
pub(crate) fn text(alloc: Global, text: &str) -> Result<Text, AllocError>
    ensures { IfOk result (λ t. t ≡ text.now) }
{
    Text::from_str(alloc, text)
}

/// Adds a line where it is asked for.
pub(crate) fn push_if(lines: &mut Vec<Text>, asked: bool, text: Text) -> Result<(), AllocError>
    ensures { OnOk result (lines.new.items ≡ lines.old.items ++ line_if asked text) }
{
    if asked {
        lines.push(text)?;
    }
    Ok(())
}
