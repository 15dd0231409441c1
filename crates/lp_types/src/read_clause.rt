//! Where clauses.

ghost use Rattle.std.specs.Prelude.{◌≡◌, IfOk, None, map, string_bytes, true};
ghost use Rattle.lp_repr.specs.TypeTrees.{bound_clause, bound_tree, clause_tree, forall_clause, lifetime_type, type_tree};
ghost use Rattle.lp_types.specs.Clauses.{bound_clauses, clause, clauses, in_binder, lifetime_bound, linked_bound, linked_clause, more_clauses, names_of, other_clauses, subject_clauses, type_clauses};
ghost use Rattle.lp_types.specs.Left.{left};
ghost use Rattle.lp_types.specs.Reading.{Answers, Read, choose, chained_by};
ghost use Rattle.lp_types.specs.Bounds.{type_bound};

use crate::reader::{Read, Reader};
use crate::texts::Kind;
use lp_repr::parse_tree::{TypeBound, TypeParameter};
use lp_repr::repr::{TypeRepr, WhereClause};
use lp_repr::text::Text;
use lp_tok::Tok;
use std::alloc::{AllocError, Global};

impl<'a, 'i> Reader<'a, 'i> {
    /// Where clauses between commas, at least one; a `,` may stand behind the last.
    pub fn clauses(&mut self) -> Read<'i, Vec<WhereClause>>
        ensures { Answers (λ v. map clause_tree v.items) (clauses (left self.old)) result (left self.new) }
    {
        let mut clauses = Vec::new(self.alloc);
        for turn in 0..self.turns() {
            let found = self.linked_clause()?;
            let more = found.1;
            let mut list = found.0;
            clauses.append(&mut list)?;
            if !more {
                return Ok(clauses);
            }
        }
        Err(self.error())
    }

    /// A clause, as one per bound, and whether another one follows.
    fn linked_clause(&mut self) -> Read<'i, (Vec<WhereClause>, bool)>
        ensures { Answers (λ p. (map clause_tree p.0.items, p.1)) (linked_clause (left self.old)) result (left self.new) }
    {
        let found = self.clause()?;
        let more = self.more_clauses();
        Ok((found, more))
    }

    /// Whether another clause follows: a `,` comes, which is passed, and a clause can follow.
    fn more_clauses(&mut self) -> bool
        ensures { more_clauses (left self.old) ≡ Read result (left self.new) }
    {
        let is_comma = self.passes(&Tok::Comma);
        if !is_comma {
            return false;
        }
        self.goes_on()
    }

    /// A clause, as one per bound.
    fn clause(&mut self) -> Read<'i, Vec<WhereClause>>
        ensures { Answers (λ v. map clause_tree v.items) (clause (left self.old)) result (left self.new) }
    {
        match self.takes(Kind::Lifetime) {
            Some(lifetime) => {
                let name = String::from_str(self.alloc, lifetime)?;
                self.lifetime_clauses(name)
            }
            None => self.other_clauses(),
        }
    }

    /// A clause of a lifetime, from behind it on.
    fn lifetime_clauses(&mut self, name: String) -> Read<'i, Vec<WhereClause>>
        ensures { Answers (λ v. map clause_tree v.items) (subject_clauses None (lifetime_type (string_bytes name)) true (left self.old)) result (left self.new) }
    {
        let subject = TypeRepr::Lifetime(name);
        self.subject_clauses(None, &subject, true)
    }

    /// `T: bounds` or `for<..> T: bounds`.
    fn other_clauses(&mut self) -> Read<'i, Vec<WhereClause>>
        ensures { Answers (λ v. map clause_tree v.items) (other_clauses (left self.old)) result (left self.new) }
    {
        let is_forall = self.passes(&Tok::For);
        if !is_forall {
            return self.type_clauses(None);
        }
        let names = self.binder()?;
        self.type_clauses(Some(&names))
    }

    /// `T: bounds`, in a binder, where there is one.
    fn type_clauses(&mut self, names: Option<&Vec<TypeParameter>>) -> Read<'i, Vec<WhereClause>>
        ensures { Answers (λ v. map clause_tree v.items) (type_clauses (names_of names.entry) (left self.old)) result (left self.new) }
    {
        let subject = self.full_type()?;
        self.subject_clauses(names, &subject, false)
    }

    /// What follows a subject: `:` and bounds with `+` between, a clause per bound.
    fn subject_clauses(
        &mut self,
        names: Option<&Vec<TypeParameter>>,
        subject: &TypeRepr,
        lifetimes: bool,
    ) -> Read<'i, Vec<WhereClause>>
        ensures { Answers (λ v. map clause_tree v.items) (subject_clauses (names_of names.entry) (type_tree subject.now) lifetimes (left self.old)) result (left self.new) }
    {
        self.expect(&Tok::Colon)?;
        self.bound_clauses(names, subject, lifetimes)
    }

    /// Bounds with `+` between, a clause per bound.
    fn bound_clauses(
        &mut self,
        names: Option<&Vec<TypeParameter>>,
        subject: &TypeRepr,
        lifetimes: bool,
    ) -> Read<'i, Vec<WhereClause>>
        ensures { Answers (λ v. map clause_tree v.items) (chained_by (bound_clauses (names_of names.entry) (type_tree subject.now)) (linked_bound lifetimes) (left self.old)) result (left self.new) }
    {
        let mut clauses = Vec::new(self.alloc);
        for turn in 0..self.turns() {
            let found = self.linked_bound(lifetimes)?;
            let more = found.1;
            let clause = clause_in(self.alloc, names, subject, found.0)?;
            clauses.push(clause)?;
            if !more {
                return Ok(clauses);
            }
        }
        Err(self.error())
    }

    /// A bound, and whether another one follows after `+`; of a lifetime each bound is a lifetime.
    fn linked_bound(&mut self, lifetimes: bool) -> Read<'i, (TypeBound<TypeRepr>, bool)>
        ensures { Answers (λ p. (bound_tree p.0, p.1)) (linked_bound lifetimes (left self.old)) result (left self.new) }
    {
        let bound = self.bound_of(lifetimes)?;
        let more = self.passes(&Tok::Plus);
        Ok((bound, more))
    }

    /// A bound; of a lifetime it is a lifetime.
    fn bound_of(&mut self, lifetimes: bool) -> Read<'i, TypeBound<TypeRepr>>
        ensures { Answers bound_tree (choose lifetimes lifetime_bound type_bound (left self.old)) result (left self.new) }
    {
        if lifetimes {
            self.lifetime_bound()
        } else {
            self.type_bound()
        }
    }

    fn lifetime_bound(&mut self) -> Read<'i, TypeBound<TypeRepr>>
        ensures { Answers bound_tree (lifetime_bound (left self.old)) result (left self.new) }
    {
        let lifetime = self.text(Kind::Lifetime)?;
        let name = Text::from_str(self.alloc, lifetime)?;
        Ok(TypeBound::Lifetime(name))
    }
}

/// The clause of a bound, in a binder, where there is one.
fn clause_in(
    alloc: Global,
    names: Option<&Vec<TypeParameter>>,
    subject: &TypeRepr,
    bound: TypeBound<TypeRepr>,
) -> Result<WhereClause, AllocError>
    ensures { IfOk result (λ c. clause_tree c ≡ in_binder (names_of names.entry) (bound_clause (type_tree subject.now) (bound_tree bound))) }
{
    let clause = plain_clause(subject, bound)?;
    match names {
        None => Ok(clause),
        Some(binder) => {
            let inside = forall(alloc, binder, clause)?;
            Ok(inside)
        }
    }
}

/// The clause of a bound.
fn plain_clause(subject: &TypeRepr, bound: TypeBound<TypeRepr>) -> Result<WhereClause, AllocError>
    ensures { IfOk result (λ c. clause_tree c ≡ bound_clause (type_tree subject.now) (bound_tree bound)) }
{
    let copy = subject.clone()?;
    Ok(WhereClause::Bound {
        subject: copy,
        bound,
    })
}

/// A clause in a binder.
fn forall(
    alloc: Global,
    names: &Vec<TypeParameter>,
    clause: WhereClause,
) -> Result<WhereClause, AllocError>
    ensures { IfOk result (λ c. clause_tree c ≡ forall_clause names.now.items (clause_tree clause)) }
{
    let binder = copy_names(names)?;
    let boxed = Box::new(alloc, clause)?;
    Ok(WhereClause::Forall {
        binder,
        clause: boxed,
    })
}

fn copy_names(names: &Vec<TypeParameter>) -> Result<Vec<TypeParameter>, AllocError>
    ensures { IfOk result (λ copy. copy.items ≡ names.now.items) }
{
    let mut copy = Vec::new(*names.allocator());
    for name in names {
        copy.push(name.clone()?)?;
    }
    Ok(copy)
}
