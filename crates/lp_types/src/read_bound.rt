//! Bounds of types.

ghost use Rattle.std.specs.Prelude.{◌≡◌, map};
ghost use Rattle.std.specs.Option.{option_map};
ghost use Rattle.lp_repr.specs.TypeTrees.{bound_parameter_tree, bound_tree, type_tree};
ghost use Rattle.lp_tok.specs.declared.tok.Tok.TheVariants.{GreaterThan};
ghost use Rattle.lp_types.specs.Bounds.{associated, binder, bound_argument, bound_arguments, function_bound, maybe_arguments, maybe_binder, named_next, path_bound, ret, trait_bound, type_bound, typed_argument};
ghost use Rattle.lp_types.specs.Left.{left};
ghost use Rattle.lp_types.specs.Reading.{Answers, Read, listed};

use crate::reader::{MOST_DEPTH, Read, Reader};
use crate::texts::Kind;
use lp_repr::parse_tree::{Path, TypeBound, TypeBoundParameter, TypeParameter};
use lp_repr::repr::TypeRepr;
use lp_repr::text::{Items, Text};
use lp_tok::Tok;

impl<'a, 'i> Reader<'a, 'i> {
    /// The type parameters in `for<..>`.
    pub fn binder(&mut self) -> Read<'i, Vec<TypeParameter>>
        ensures { Answers (λ v. v.items) (binder (left self.old)) result (left self.new) }
    {
        self.expect(&Tok::LessThan)?;
        self.type_parameters()
    }

    /// Those, if `for` comes.
    fn maybe_binder(&mut self) -> Read<'i, Vec<TypeParameter>>
        ensures { Answers (λ v. v.items) (maybe_binder (left self.old)) result (left self.new) }
    {
        if self.passes(&Tok::For) {
            self.binder()
        } else {
            Ok(Vec::new(self.alloc))
        }
    }

    /// A bound: a lifetime, or one that begins with a path or with `for`.
    pub fn type_bound(&mut self) -> Read<'i, TypeBound<TypeRepr>>
        ensures { Answers bound_tree (type_bound (left self.old)) result (left self.new) }
    {
        match self.takes(Kind::Lifetime) {
            Some(lifetime) => {
                let name = Text::from_str(self.alloc, lifetime)?;
                Ok(TypeBound::Lifetime(name))
            }
            None => self.path_bound(),
        }
    }

    /// `for<'a> p(A) -> B` or `for<'a> p<A, I = B>`.
    fn path_bound(&mut self) -> Read<'i, TypeBound<TypeRepr>>
        ensures { Answers bound_tree (path_bound (left self.old)) result (left self.new) }
    {
        let names = self.maybe_binder()?;
        let path = self.path(true)?;
        let is_function = self.passes(&Tok::LeftParen);
        if is_function {
            return self.function_bound(names, path);
        }
        self.trait_bound(names, path)
    }

    /// A function, from behind its `(` on.
    fn function_bound(
        &mut self,
        names: Vec<TypeParameter>,
        path: Path,
    ) -> Read<'i, TypeBound<TypeRepr>>
        ensures { Answers bound_tree (function_bound names.items path (left self.old)) result (left self.new) }
    {
        let types = self.types(&Tok::RightParen, false, MOST_DEPTH)?;
        let ret = self.ret()?;
        Ok(TypeBound::Fn {
            binder: Items(names),
            path,
            parameters: Items(types),
            ret,
        })
    }

    /// The result of a function, if it has one.
    fn ret(&mut self) -> Read<'i, Option<TypeRepr>>
        ensures { Answers (option_map type_tree) (ret (left self.old)) result (left self.new) }
    {
        let is_given = self.passes(&Tok::MinusGreaterThan);
        if !is_given {
            return Ok(None);
        }
        let ty = self.full_type()?;
        Ok(Some(ty))
    }

    /// A path with its arguments, if it has some.
    fn trait_bound(
        &mut self,
        names: Vec<TypeParameter>,
        path: Path,
    ) -> Read<'i, TypeBound<TypeRepr>>
        ensures { Answers bound_tree (trait_bound names.items path (left self.old)) result (left self.new) }
    {
        let parameters = self.maybe_arguments()?;
        Ok(TypeBound::Trait {
            binder: Items(names),
            path,
            parameters: Items(parameters),
        })
    }

    /// The arguments of a bound's path, if it has some.
    fn maybe_arguments(&mut self) -> Read<'i, Vec<TypeBoundParameter<TypeRepr>>>
        ensures { Answers (λ v. map bound_parameter_tree v.items) (maybe_arguments (left self.old)) result (left self.new) }
    {
        if self.passes(&Tok::LessThan) {
            self.bound_arguments()
        } else {
            Ok(Vec::new(self.alloc))
        }
    }

    /// Arguments of a bound's path between commas, up to `>`.
    fn bound_arguments(&mut self) -> Read<'i, Vec<TypeBoundParameter<TypeRepr>>>
        ensures { Answers (λ v. map bound_parameter_tree v.items) (bound_arguments (left self.old)) result (left self.new) }
    {
        let mut arguments = Vec::new(self.alloc);
        for turn in 0..self.turns() {
            match self.next_argument()? {
                None => return Ok(arguments),
                Some(argument) => arguments.push(argument)?,
            }
        }
        Err(self.error())
    }

    /// The next of them, or none at `>`, which is passed.
    fn next_argument(&mut self) -> Read<'i, Option<TypeBoundParameter<TypeRepr>>>
        ensures { Answers (option_map bound_parameter_tree) (listed GreaterThan bound_argument (left self.old)) result (left self.new) }
    {
        if self.passes(&Tok::GreaterThan) {
            return Ok(None);
        }
        let argument = self.bound_argument()?;
        self.separates(&Tok::GreaterThan)?;
        Ok(Some(argument))
    }

    /// An argument of a bound's path: `'a`, `A` or `I = A`.
    fn bound_argument(&mut self) -> Read<'i, TypeBoundParameter<TypeRepr>>
        ensures { Answers bound_parameter_tree (bound_argument (left self.old)) result (left self.new) }
    {
        match self.takes(Kind::Lifetime) {
            Some(lifetime) => {
                let name = Text::from_str(self.alloc, lifetime)?;
                Ok(TypeBoundParameter::Lifetime(name))
            }
            None => self.typed_argument(),
        }
    }

    /// `A` or `I = A`.
    fn typed_argument(&mut self) -> Read<'i, TypeBoundParameter<TypeRepr>>
        ensures { Answers bound_parameter_tree (typed_argument (left self.old)) result (left self.new) }
    {
        let is_named = self.named_next();
        if is_named {
            return self.associated();
        }
        let ty = self.full_type()?;
        Ok(TypeBoundParameter::TypeParameter(ty))
    }

    /// `I = A`.
    fn associated(&mut self) -> Read<'i, TypeBoundParameter<TypeRepr>>
        ensures { Answers bound_parameter_tree (associated (left self.old)) result (left self.new) }
    {
        let id = self.text(Kind::Id)?;
        self.expect(&Tok::Equals)?;
        let ty = self.full_type()?;
        let name = Text::from_str(self.alloc, id)?;
        Ok(TypeBoundParameter::Associated(name, ty))
    }

    /// Whether a name with `=` after it comes next.
    #[tactic(auto, unfolding(crate::specs::Bounds::named_next))]
    fn named_next(&self) -> bool
        ensures { named_next (left self.now) ≡ Read result (left self.now) }
    {
        match self.text_next(Kind::Id) {
            None => false,
            Some(_) => self.is_second(&Tok::Equals),
        }
    }
}
