//! The texts of table rows.

ghost use Rattle.std.specs.Prelude.{◌≡◌, ℤ, ◌++◌, IfOk, OnOk, string_bytes};
ghost use Rattle.std.specs.List.{flat_map};
ghost use Rattle.lp_write.specs.Rows.{entry_piece, row_text, IsEntryText, AreEntryTexts};

use lp_repr::Text;
use std::alloc::{AllocError, Global};
use std::fmt::Display;

/// The numbers of a row, a `,` behind each.
pub(crate) fn row_text<C>(
    alloc: Global,
    whitespace: bool,
    row: &[(i32, C)],
) -> Result<String, AllocError>
    ensures { IfOk result (λ text. string_bytes text ≡ row_text whitespace row.now) }
{
    let mut text = String::new(alloc);
    if let Some((first, others)) = row.split_first() {
        text.push_str(entry_piece(alloc, first)?.as_str())?;
        push_pieces(alloc, &mut text, if whitespace { " " } else { "" }, others)?;
    }
    Ok(text)
}

/// Appends the numbers, each after the separator.
fn push_pieces<C>(
    alloc: Global,
    text: &mut String,
    separator: &str,
    row: &[(i32, C)],
) -> Result<(), AllocError>
    ensures { OnOk result (string_bytes text.new ≡ string_bytes text.old ++ flat_map (λ e. separator.now ++ entry_piece e) row.now) }
{
    for entry in row {
        text.push_str(separator)?;
        text.push_str(entry_piece(alloc, entry)?.as_str())?;
    }
    Ok(())
}

/// The number of an entry, and a `,`.
fn entry_piece<C>(alloc: Global, entry: &(i32, C)) -> Result<String, AllocError>
    ensures { IfOk result (λ text. string_bytes text ≡ entry_piece entry.now) }
{
    let number = entry.0;
    format!(in alloc; "{number},")
}

/// The number of each entry, with its comment.
pub(crate) fn entry_texts<C: Display>(
    alloc: Global,
    row: &[(i32, C)],
) -> Result<Vec<Text>, AllocError>
    ensures { IfOk result (λ texts. AreEntryTexts C.output row.now texts.items) }
{
    let mut texts = Vec::new(alloc);
    for entry in row {
        texts.push(entry_text(alloc, entry)?)?;
    }
    Ok(texts)
}

fn entry_text<C: Display>(alloc: Global, entry: &(i32, C)) -> Result<Text, AllocError>
    ensures { IfOk result (λ text. IsEntryText C.output entry.now text) }
{
    let number = entry.0;
    let comment = entry.1.to_string(alloc)?;
    Ok(Text(format!(in alloc; "{number}, {comment}")?))
}
