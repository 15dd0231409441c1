//! Grammar files as wholes.

ghost use Rattle.std.specs.Prelude.{◌≡◌, ◌++◌, IfOk, false, map};
ghost use Rattle.lp_reading.specs.ExternView.{extern_tree};
ghost use Rattle.lp_reading.specs.Grammars.{file_tree, grammar, grammar_tree};
ghost use Rattle.lp_reading.specs.HeadView.{head_tree};
ghost use Rattle.lp_reading.specs.Rules.{rule_tree};
ghost use Rattle.lp_types.specs.Left.{left};
ghost use Rattle.lp_types.specs.Reading.{Answers};

use crate::read_extern::{AssociatedTypes, Extern, TokenEnum, extern_block};
use crate::read_head::{Head, Lists, file_head};
use crate::read_rule::rules;
use lp_repr::repr::Algorithm;
use lp_repr::text::{Items, Text};
use lp_syntax::{PlainGrammar, PlainRule};
use lp_types::{Read, Reader};
use std::alloc::AllocError;

/// A grammar file, which is all that is left, with this prefix.
pub fn grammar<'i>(reader: &mut Reader<'_, 'i>, prefix: Text) -> Read<'i, PlainGrammar>
    ensures file { Answers grammar_tree (grammar (left reader.old)) result (left reader.new) }
    ensures prefix { IfOk result (λ g. g.prefix ≡ prefix) }
    ensures lalr { IfOk result (λ g. g.algorithm.lalr ≡ false) }
{
    let head = file_head(reader)?;
    let before = rules(reader)?;
    let block = extern_block(reader)?;
    let behind = rules(reader)?;
    reader.expect_end()?;
    let all = joined(before, behind)?;
    Ok(plain(prefix, head, block, all))
}

/// These rules and then those.
fn joined(before: Vec<PlainRule>, behind: Vec<PlainRule>) -> Result<Vec<PlainRule>, AllocError>
    ensures { IfOk result (λ v. v.items ≡ before.items ++ behind.items) }
{
    let mut all = before;
    let mut rest = behind;
    all.append(&mut rest)?;
    Ok(all)
}

/// The plain grammar of its parts.
fn plain(prefix: Text, head: Head, block: Extern, rules: Vec<PlainRule>) -> PlainGrammar
    ensures file { grammar_tree result ≡ file_tree (head_tree head) (extern_tree block) (map rule_tree rules.items) }
    ensures prefix { result.prefix ≡ prefix }
    ensures lalr { result.algorithm.lalr ≡ false }
{
    let Head {
        attributes,
        uses,
        codegen,
        lists,
    } = head;
    let Lists {
        type_parameters,
        parameters,
        where_clauses,
    } = lists;
    let Extern { types, tokens } = block;
    let AssociatedTypes { location, error } = types;
    let TokenEnum { token, conversions } = tokens;
    PlainGrammar {
        prefix,
        attributes: Items(attributes),
        uses: Items(uses),
        algorithm: Algorithm {
            lalr: false,
            codegen,
        },
        type_parameters: Items(type_parameters),
        parameters: Items(parameters),
        where_clauses: Items(where_clauses),
        location,
        error,
        token,
        conversions: Items(conversions),
        rules: Items(rules),
    }
}
