//! The body of an action's function.

ghost use Rattle.std.specs.Prelude.{◌≡◌, Bool, IfOk};
ghost use Rattle.lp_build.specs.Actions.{action_part, body_lines};
ghost use Rattle.lp_actions.specs.ActionFunctions.{calling_part, kind_lines, kind_part};
ghost use Rattle.lp_actions.specs.Inlines.{inline_lines};

use crate::calls::{calls, outer_call};
use crate::spans::spans;
use lp_build::ActionBody;
use lp_repr::repr::{ActionFnDefnKind, Grammar, InlinedSymbol, LookaroundActionFn};
use lp_table::pieces::lent;
use std::alloc::{AllocError, Global};

/// The body of an action's function.
pub fn action_body<'t>(
    alloc: Global,
    grammar: &'t Grammar,
    fallible: bool,
    kind: &'t ActionFnDefnKind,
) -> Result<ActionBody<'t>, AllocError>
    ensures lines { IfOk result (λ b. body_lines b ≡ kind_lines grammar.entry.now fallible kind.entry.now) }
    ensures part { (unused : Bool) → IfOk result (λ b. action_part b unused ≡ kind_part kind.entry.now unused) }
{
    match kind {
        ActionFnDefnKind::User {
            arg_patterns: _,
            arg_types: _,
            code,
        } => Ok(ActionBody::User {
            code: lent(code.as_str()),
        }),
        ActionFnDefnKind::Lookaround(LookaroundActionFn::Lookahead) => Ok(ActionBody::Lookahead),
        ActionFnDefnKind::Lookaround(LookaroundActionFn::Lookbehind) => Ok(ActionBody::Lookbehind),
        ActionFnDefnKind::Inline {
            action: outer,
            symbols,
        } => inline_body(alloc, grammar, fallible, *outer, symbols.as_slice()),
    }
}

/// The lines of inlined actions.
fn inline_body<'t>(
    alloc: Global,
    grammar: &'t Grammar,
    fallible: bool,
    outer: usize,
    symbols: &'t [InlinedSymbol],
) -> Result<ActionBody<'t>, AllocError>
    ensures lines { IfOk result (λ b. body_lines b ≡ inline_lines grammar.entry.now fallible outer symbols.entry.now) }
    ensures part { (unused : Bool) → IfOk result (λ b. action_part b unused ≡ calling_part unused) }
{
    let spans = spans(alloc, grammar.prefix.as_str(), symbols)?;
    let calls = calls(alloc, grammar, symbols)?;
    let outer = outer_call(alloc, grammar, fallible, outer, symbols)?;
    Ok(ActionBody::Inline {
        spans,
        calls,
        outer,
    })
}
