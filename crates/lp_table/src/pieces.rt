//! Texts as pieces of a tree.

ghost use Rattle.std.specs.Prelude.{◌≡◌, ◌++◌, codes, string_bytes, IfOk, OnOk};
ghost use Rattle.std.specs.List.{flat_map};
ghost use Rattle.lp_parts.specs.Texts.{comma_list};
ghost use Rattle.lp_table.specs.Pieces.{borrowed_option, unless_empty, variant_text, vec_of};

use lp_repr::Text;
use lp_tree::{Name, Piece};
use std::alloc::{AllocError, Global};
use std::borrow::CowStr;

/// A text that outlives the tree.
pub fn lent<'t>(text: &'t str) -> Piece<'t>
    ensures { result ≡ text.entry.now }
{
    Piece::new(CowStr::Borrowed(text))
}

/// A text that was made for the tree.
pub fn made<'t>(text: String) -> Piece<'t>
    ensures { result ≡ string_bytes text }
{
    Piece::new(CowStr::Owned(text))
}

/// A copy of a text.
pub fn copied<'t>(alloc: Global, text: &str) -> Result<Piece<'t>, AllocError>
    ensures { IfOk result (λ p. p ≡ text.now) }
{
    Ok(made(String::from_str(alloc, text)?))
}

/// A copy of a text, if it isn't empty.
pub fn copied_unless_empty<'t>(alloc: Global, text: &str) -> Result<Option<Piece<'t>>, AllocError>
    ensures { IfOk result (λ p. p ≡ unless_empty text.now) }
{
    if text.is_empty() {
        return Ok(None);
    }
    Ok(Some(copied(alloc, text)?))
}

/// What a value is always shown as.
pub fn piece_of<'t, T: lp_repr::Shown>(alloc: Global, value: &T) -> Result<Piece<'t>, AllocError>
    ensures { IfOk result (λ p. p ≡ T.text value.now) }
{
    Ok(made(value.to_string(alloc)?))
}

/// A name that outlives the tree.
pub fn lent_name<'t>(text: &'t str) -> Name<'t>
    ensures { result ≡ text.entry.now }
{
    Name::new(CowStr::Borrowed(text))
}

/// A copy of a name.
pub fn copied_name<'t>(alloc: Global, text: &str) -> Result<Name<'t>, AllocError>
    ensures { IfOk result (λ n. n ≡ text.now) }
{
    Ok(Name::new(CowStr::Owned(String::from_str(alloc, text)?)))
}

/// The name of the variant of this number.
pub fn variant_name<'t>(alloc: Global, number: usize) -> Result<Name<'t>, AllocError>
    ensures { IfOk result (λ n. n ≡ variant_text number) }
{
    Ok(Name::new(CowStr::Owned(format!(in alloc; "Variant{number}")?)))
}

/// Lists of a type.
#[tactic(auto, unfolding(crate::specs::Pieces::vec_of))]
pub fn vec_of(alloc: Global, ty: &str) -> Result<String, AllocError>
    ensures { IfOk result (λ s. string_bytes s ≡ vec_of ty.now) }
{
    format!(in alloc; "alloc::vec::Vec<{ty}>")
}

/// A reference to a type that may be there.
#[tactic(auto, unfolding(crate::specs::Pieces::borrowed_option))]
pub fn borrowed_option(alloc: Global, ty: &str) -> Result<String, AllocError>
    ensures { IfOk result (λ s. string_bytes s ≡ borrowed_option ty.now) }
{
    format!(in alloc; "Option<&{ty}>")
}

/// The texts, joined by `, `.
pub fn comma_list(alloc: Global, texts: &[Text]) -> Result<String, AllocError>
    ensures { IfOk result (λ s. string_bytes s ≡ comma_list texts.now) }
{
    let mut list = String::new(alloc);
    match texts.split_first() {
        None => {}
        Some((first, rest)) => {
            list.push_str(first.as_str())?;
            push_after_commas(&mut list, rest)?;
        }
    }
    Ok(list)
}

/// Appends the texts, each after `, `.
fn push_after_commas(list: &mut String, texts: &[Text]) -> Result<(), AllocError>
    ensures { OnOk result (string_bytes list.new ≡ string_bytes list.old ++ flat_map (λ text. codes ", " ++ text) texts.now) }
{
    for text in texts {
        list.push_str(", ")?;
        list.push_str(text.as_str())?;
    }
    Ok(())
}
