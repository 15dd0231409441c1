//! Names, paths and type parameters.

ghost use Rattle.std.specs.Prelude.{◌≡◌};
ghost use Rattle.lp_types.specs.Left.{left};
ghost use Rattle.lp_types.specs.Names.{name_part, part, path, type_parameter, type_parameters};
ghost use Rattle.lp_types.specs.Reading.{Answers, chained, listed, separated};
ghost use Rattle.lp_tok.specs.declared.tok.Tok.TheVariants.{GreaterThan};

use crate::reader::{Read, Reader};
use crate::texts::Kind;
use lp_repr::parse_tree::{Path, TypeParameter};
use lp_repr::text::{Items, Text};
use lp_tok::Tok;

impl<'a, 'i> Reader<'a, 'i> {
    /// A path. Where it takes arguments, its last name may be one that `<` follows at once.
    pub fn path(&mut self, takes_arguments: bool) -> Read<'i, Path>
        ensures { Answers (λ p. p) (path takes_arguments (left self.old)) result (left self.new) }
    {
        let absolute = self.passes(&Tok::ColonColon);
        let ids = self.parts(takes_arguments)?;
        Ok(Path { absolute, ids })
    }

    /// The names of a path, with `::` between.
    fn parts(&mut self, takes_arguments: bool) -> Read<'i, Items<Text>>
        ensures { Answers (λ ids. ids) (chained (part takes_arguments) (left self.old)) result (left self.new) }
    {
        let mut ids = Vec::new(self.alloc);
        for turn in 0..self.turns() {
            let found = self.part(takes_arguments)?;
            let more = found.1;
            ids.push(found.0)?;
            if !more {
                return Ok(Items(ids));
            }
        }
        Err(self.error())
    }

    /// A name of a path, and whether another one follows.
    fn part(&mut self, takes_arguments: bool) -> Read<'i, (Text, bool)>
        ensures { Answers (λ p. p) (part takes_arguments (left self.old)) result (left self.new) }
    {
        match self.takes_where(takes_arguments, Kind::MacroId) {
            Some(last) => {
                let name = Text::from_str(self.alloc, last)?;
                Ok((name, false))
            }
            None => self.name_part(),
        }
    }

    fn name_part(&mut self) -> Read<'i, (Text, bool)>
        ensures { Answers (λ p. p) (name_part (left self.old)) result (left self.new) }
    {
        let id = self.text(Kind::Id)?;
        let more = self.passes(&Tok::ColonColon);
        let name = Text::from_str(self.alloc, id)?;
        Ok((name, more))
    }

    /// Passes the `,` after a thing in a list, or sees that the closer comes.
    pub fn separates(&mut self, closer: &Tok<'_>) -> Read<'i, ()>
        ensures { Answers (λ _. tt) (separated closer.now (left self.old)) result (left self.new) }
    {
        if self.passes(&Tok::Comma) {
            return Ok(());
        }
        if self.is_next(closer) {
            Ok(())
        } else {
            Err(self.error())
        }
    }

    /// Type parameters between commas, up to `>`.
    pub fn type_parameters(&mut self) -> Read<'i, Vec<TypeParameter>>
        ensures { Answers (λ v. v.items) (type_parameters (left self.old)) result (left self.new) }
    {
        let mut parameters = Vec::new(self.alloc);
        for turn in 0..self.turns() {
            match self.next_type_parameter()? {
                None => return Ok(parameters),
                Some(parameter) => parameters.push(parameter)?,
            }
        }
        Err(self.error())
    }

    /// The next type parameter, or none at `>`, which is passed.
    fn next_type_parameter(&mut self) -> Read<'i, Option<TypeParameter>>
        ensures { Answers (λ o. o) (listed GreaterThan type_parameter (left self.old)) result (left self.new) }
    {
        if self.passes(&Tok::GreaterThan) {
            return Ok(None);
        }
        let parameter = self.type_parameter()?;
        self.separates(&Tok::GreaterThan)?;
        Ok(Some(parameter))
    }

    fn type_parameter(&mut self) -> Read<'i, TypeParameter>
        ensures { Answers (λ p. p) (type_parameter (left self.old)) result (left self.new) }
    {
        match self.takes(Kind::Lifetime) {
            Some(lifetime) => {
                let name = Text::from_str(self.alloc, lifetime)?;
                Ok(TypeParameter::Lifetime(name))
            }
            None => {
                let id = self.text(Kind::Id)?;
                let name = Text::from_str(self.alloc, id)?;
                Ok(TypeParameter::Id(name))
            }
        }
    }
}
