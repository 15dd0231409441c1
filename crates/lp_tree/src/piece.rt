//! Texts of a program: borrowed from the text that was read, or made.

ghost use Rattle.std.specs.Prelude.{◌≡◌, IfOk};
ghost use Rattle.std.specs.Fmt.{decimal};
ghost use Rattle.std.specs.Cow.{cow_str_bytes};

use std::alloc::{AllocError, Global};
use std::borrow::CowStr;
use std::convert::AsStr;
use std::marker::Model;

/// A text of a program, which contracts see as its bytes.
#[derive(Drop)]
pub struct Piece<'t> {
    text: CowStr<'t>,
}

impl<'t> Model for Piece<'t> {
    ghost use Rattle.std.specs.Prelude.{ℕ, List};
    ghost use Rattle.std.specs.Cow.{cow_str_bytes};

    ghost Value = { List ℕ };

    ghost view = { λ p. cow_str_bytes p.text };
}

impl<'t> Piece<'t> {
    /// The text as a piece.
    pub fn new(text: CowStr<'t>) -> Piece<'t>
        ensures { result ≡ cow_str_bytes text.entry }
    {
        Piece { text }
    }

    /// The text.
    pub fn as_str(&self) -> &str
        ensures { result.now ≡ self.now }
    {
        self.text.as_str()
    }

    /// A copy that is borrowed from this one.
    pub fn borrowed(&self) -> Piece<'_>
        ensures { result ≡ self.now }
    {
        Piece::new(CowStr::Borrowed(self.as_str()))
    }

    /// A number in decimal digits.
    pub fn number(alloc: Global, number: u64) -> Result<Piece<'t>, AllocError>
        ensures { IfOk result (λ p. p ≡ decimal number) }
    {
        Ok(Piece::new(CowStr::Owned(number.to_string(alloc)?)))
    }
}

/// A text of a program that is an identifier.
#[derive(Drop)]
pub struct Name<'t> {
    piece: Piece<'t>,
}

impl<'t> Model for Name<'t> {
    ghost use Rattle.std.specs.Prelude.{ℕ, List};

    ghost Value = { List ℕ };

    ghost view = { λ n. n.piece };
}

impl<'t> Name<'t> {
    /// The text, which is an identifier, as a name.
    pub fn new(text: CowStr<'t>) -> Name<'t>
        ensures { result ≡ cow_str_bytes text.entry }
    {
        Name {
            piece: Piece::new(text),
        }
    }

    /// The text.
    pub fn as_str(&self) -> &str
        ensures { result.now ≡ self.now }
    {
        self.piece.as_str()
    }

    /// The name as a piece.
    pub fn into_piece(self) -> Piece<'t>
        ensures { result ≡ self.entry }
    {
        let Name { piece } = self;
        piece
    }
}
