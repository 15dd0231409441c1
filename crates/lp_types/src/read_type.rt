//! Types.

ghost use Rattle.std.specs.Prelude.{◌≡◌, IfOk, map};
ghost use Rattle.std.specs.Option.{option_copied, option_map};
ghost use Rattle.lp_repr.specs.TypeTrees.{name_of, type_tree, types_trees};
ghost use Rattle.lp_types.specs.Left.{left};
ghost use Rattle.lp_types.specs.Reading.{Answers, listed};
ghost use Rattle.lp_types.specs.Types.{argument_by, arguments_by, full_type, named_by, named_tree, reference_by, slice_by, tuple_by, type_by, type_within, types_by};

use crate::error::PlainError;
use crate::reader::{MOST_DEPTH, Read, Reader};
use crate::texts::Kind;
use lp_repr::parse_tree::Path;
use lp_repr::repr::{NominalTypeRepr, TypeRepr};
use lp_tok::Tok;
use std::alloc::{AllocError, Global};

impl<'a, 'i> Reader<'a, 'i> {
    /// A type.
    pub fn full_type(&mut self) -> Read<'i, TypeRepr>
        ensures { Answers type_tree (full_type (left self.old)) result (left self.new) }
    {
        self.ty(MOST_DEPTH)
    }

    /// A type that nests at most so deep.
    #[cycle(type_reading)]
    pub fn ty(&mut self, depth: usize) -> Read<'i, TypeRepr>
        ensures { Answers type_tree (type_within depth (left self.old)) result (left self.new) }
    {
        match depth.checked_sub(1) {
            None => Err(PlainError::Memory),
            Some(inner) => self.shallow_type(inner),
        }
    }

    /// A type whose parts nest at most so deep.
    #[cycle(type_reading)]
    fn shallow_type(&mut self, inner: usize) -> Read<'i, TypeRepr>
        ensures { Answers type_tree (type_by (type_within inner) (left self.old)) result (left self.new) }
    {
        let is_tuple = self.passes(&Tok::LeftParen);
        if is_tuple {
            return self.tuple(inner);
        }
        let is_slice = self.passes(&Tok::LeftBracket);
        if is_slice {
            return self.slice(inner);
        }
        let is_reference = self.passes(&Tok::Ampersand);
        if is_reference {
            return self.reference(inner);
        }
        let is_object = self.passes(&Tok::Dyn);
        self.named_type(is_object, inner)
    }

    /// What follows `(`.
    #[cycle(type_reading)]
    fn tuple(&mut self, inner: usize) -> Read<'i, TypeRepr>
        ensures { Answers type_tree (tuple_by (type_within inner) (left self.old)) result (left self.new) }
    {
        let types = self.types(&Tok::RightParen, false, inner)?;
        Ok(TypeRepr::Tuple(types))
    }

    /// What follows `[`.
    #[cycle(type_reading)]
    fn slice(&mut self, inner: usize) -> Read<'i, TypeRepr>
        ensures { Answers type_tree (slice_by (type_within inner) (left self.old)) result (left self.new) }
    {
        let element = self.ty(inner)?;
        self.expect(&Tok::RightBracket)?;
        let boxed = Box::new(self.alloc, element)?;
        Ok(TypeRepr::Slice(boxed))
    }

    /// What follows `&`.
    #[cycle(type_reading)]
    fn reference(&mut self, inner: usize) -> Read<'i, TypeRepr>
        ensures { Answers type_tree (reference_by (type_within inner) (left self.old)) result (left self.new) }
    {
        let name = self.takes(Kind::Lifetime);
        let mutable = self.passes(&Tok::Mut);
        let referent = self.ty(inner)?;
        let lifetime = owned(self.alloc, name)?;
        let boxed = Box::new(self.alloc, referent)?;
        Ok(TypeRepr::Ref {
            lifetime,
            mutable,
            referent: boxed,
        })
    }

    /// Types between commas, up to the closer, and lifetimes, where those are allowed.
    #[cycle(type_reading)]
    pub fn types(
        &mut self,
        closer: &Tok<'_>,
        lifetimes: bool,
        inner: usize,
    ) -> Read<'i, Vec<TypeRepr>>
        ensures { Answers (λ v. map type_tree v.items) (types_by (type_within inner) lifetimes closer.now (left self.old)) result (left self.new) }
    {
        let mut types = Vec::new(self.alloc);
        for turn in 0..self.turns() {
            match self.next_type(closer, lifetimes, inner)? {
                None => return Ok(types),
                Some(ty) => types.push(ty)?,
            }
        }
        Err(self.error())
    }

    /// The next of types between commas, or none at the closer, which is passed.
    #[cycle(type_reading)]
    fn next_type(
        &mut self,
        closer: &Tok<'_>,
        lifetimes: bool,
        inner: usize,
    ) -> Read<'i, Option<TypeRepr>>
        ensures { Answers (option_map type_tree) (listed closer.now (argument_by (type_within inner) lifetimes) (left self.old)) result (left self.new) }
    {
        if self.passes(closer) {
            return Ok(None);
        }
        let ty = self.argument(lifetimes, inner)?;
        self.separates(closer)?;
        Ok(Some(ty))
    }

    /// A type, or a lifetime, where those are allowed.
    #[cycle(type_reading)]
    fn argument(&mut self, lifetimes: bool, inner: usize) -> Read<'i, TypeRepr>
        ensures { Answers type_tree (argument_by (type_within inner) lifetimes (left self.old)) result (left self.new) }
    {
        match self.takes_where(lifetimes, Kind::Lifetime) {
            Some(lifetime) => {
                let name = String::from_str(self.alloc, lifetime)?;
                Ok(TypeRepr::Lifetime(name))
            }
            None => self.ty(inner),
        }
    }

    /// A path with its arguments, after `dyn` or without it.
    #[cycle(type_reading)]
    fn named_type(&mut self, object: bool, inner: usize) -> Read<'i, TypeRepr>
        ensures { Answers type_tree (named_by (type_within inner) object (left self.old)) result (left self.new) }
    {
        let path = self.path(true)?;
        let types = self.arguments(inner)?;
        Ok(named(object, path, types))
    }

    /// The arguments of a path, if it has some.
    #[cycle(type_reading)]
    fn arguments(&mut self, inner: usize) -> Read<'i, Vec<TypeRepr>>
        ensures { Answers (λ v. map type_tree v.items) (arguments_by (type_within inner) (left self.old)) result (left self.new) }
    {
        if self.passes(&Tok::LessThan) {
            self.types(&Tok::GreaterThan, true, inner)
        } else {
            Ok(Vec::new(self.alloc))
        }
    }
}

/// An object or a nominal type.
fn named(object: bool, path: Path, types: Vec<TypeRepr>) -> TypeRepr
    ensures { type_tree result ≡ named_tree object path (types_trees types.items) }
{
    let nominal = NominalTypeRepr { path, types };
    if object {
        TypeRepr::TraitObject(nominal)
    } else {
        TypeRepr::Nominal(nominal)
    }
}

/// A copy of a text, if there is one.
fn owned(alloc: Global, text: Option<&str>) -> Result<Option<String>, AllocError>
    ensures { IfOk result (λ name. name_of name ≡ option_copied text.entry) }
{
    match text {
        None => Ok(None),
        Some(text) => {
            let name = String::from_str(alloc, text)?;
            Ok(Some(name))
        }
    }
}
