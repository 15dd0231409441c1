//! The tokens of a grammar without an enum of its own.

ghost use Rattle.std.specs.Prelude.{◌≡◌, map, IfOk};
ghost use Rattle.lp_tree.specs.ProgramTree.{items};
ghost use Rattle.lp_assembly.specs.Built.{intern_entry, intern_lines};

use lp_build::{InternEntry, token_module};
use lp_repr::repr::{Grammar, InternToken, MatchEntry};
use lp_table::frame::add_inner_uses;
use lp_table::pieces::made;
use lp_tree::Node;
use lp_write::literal;
use std::alloc::{AllocError, Global};

/// The module that makes the tokens, with the re-export of their type.
pub fn module<'t>(
    alloc: Global,
    grammar: &'t Grammar,
    intern_token: &InternToken,
) -> Result<Node<'t>, AllocError>
    ensures { IfOk result (λ n. items n ≡ intern_lines grammar.entry.now intern_token.now.match_entries) }
{
    let entries = entries_of(alloc, intern_token.match_entries.as_slice())?;
    let mut below = Vec::new(alloc);
    add_inner_uses(alloc, &mut below, grammar)?;
    token_module(alloc, entries, below)
}

/// Each regular expression as a literal.
fn entries_of<'t>(alloc: Global, entries: &[MatchEntry]) -> Result<Vec<InternEntry<'t>>, AllocError>
    ensures { IfOk result (λ v. v.items ≡ map intern_entry entries.now) }
{
    let mut found = Vec::new(alloc);
    for entry in entries {
        found.push(entry_of(alloc, entry)?)?;
    }
    Ok(found)
}

fn entry_of<'t>(alloc: Global, entry: &MatchEntry) -> Result<InternEntry<'t>, AllocError>
    ensures { IfOk result (λ e. e ≡ intern_entry entry.now) }
{
    Ok(InternEntry {
        literal: made(literal(alloc, entry.regex.as_str())?),
        skip: entry.skip,
    })
}
