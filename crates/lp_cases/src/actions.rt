//! Actions in lines.

use lp_repr::Items;
use lp_repr::repr::{
    ActionFnDefn, ActionFnDefnKind, InlinedSymbol, LookaroundActionFn, Symbol, TypeRepr,
};
use lp_repr::text::Text;
use std::alloc::AllocError;

/// The number of each action, its type, `?` where it may fail, and what it does.
pub fn show_actions(out: &mut String, actions: &[ActionFnDefn]) -> Result<(), AllocError> {
    for (number, action) in actions.iter().enumerate() {
        show_action(out, number, action)?;
    }
    Ok(())
}

fn show_action(out: &mut String, number: usize, action: &ActionFnDefn) -> Result<(), AllocError> {
    let ty = &action.ret_type;
    write!(out, "{number}: {ty}")?;
    out.push_str(if action.fallible { "? = " } else { " = " })?;
    show_kind(out, &action.kind)?;
    out.push_str("\n")
}

/// Arguments and code, a place, or an action with its parts.
fn show_kind(out: &mut String, kind: &ActionFnDefnKind) -> Result<(), AllocError> {
    match kind {
        ActionFnDefnKind::User {
            arg_patterns,
            arg_types,
            code,
        } => {
            show_arguments(out, arg_patterns, arg_types.as_slice())?;
            write!(out, "{code}")
        }
        ActionFnDefnKind::Lookaround(LookaroundActionFn::Lookahead) => out.push_str("@L"),
        ActionFnDefnKind::Lookaround(LookaroundActionFn::Lookbehind) => out.push_str("@R"),
        ActionFnDefnKind::Inline { action, symbols } => {
            write!(out, "inline {action} of")?;
            show_parts(out, symbols.as_slice())
        }
    }
}

/// Arguments with their types.
fn show_arguments(
    out: &mut String,
    names: &Items<Text>,
    types: &[TypeRepr],
) -> Result<(), AllocError> {
    for (name, ty) in names.as_slice().iter().zip(types) {
        write!(out, "{name}: {ty}; ")?;
    }
    Ok(())
}

/// The parts of an inline: a symbol, or an action with its symbols in brackets.
fn show_parts(out: &mut String, parts: &[InlinedSymbol]) -> Result<(), AllocError> {
    for part in parts {
        match part {
            InlinedSymbol::Original(symbol) => write!(out, " {symbol}")?,
            InlinedSymbol::Inlined(action, symbols) => {
                show_inlined(out, *action, symbols.as_slice())?
            }
        }
    }
    Ok(())
}

fn show_inlined(out: &mut String, action: usize, symbols: &[Symbol]) -> Result<(), AllocError> {
    write!(out, " {action}[")?;
    show_symbols(out, symbols)?;
    out.push_str(" ]")
}

/// Symbols, each behind a blank.
pub fn show_symbols(out: &mut String, symbols: &[Symbol]) -> Result<(), AllocError> {
    for symbol in symbols {
        write!(out, " {symbol}")?;
    }
    Ok(())
}
