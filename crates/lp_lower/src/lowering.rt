//! Lowering, and its refusals.

ghost use Rattle.std.specs.Prelude.{◌≡◌, IfErr, IfOk, OnOk, map};
ghost use Rattle.lp_lower.specs.Causes.{IsAccepted, IsCause};
ghost use Rattle.lp_lower.specs.Expansion.{all_sources};
ghost use Rattle.lp_lower.specs.Extents.{extent_of};
ghost use Rattle.lp_lower.specs.Framing.{frame_of};
ghost use Rattle.lp_lower.specs.Lowering.{IsKept, IsLowering, IsTyping};
ghost use Rattle.lp_lower.specs.RightSides.{inline_sides};

use crate::actions::actions;
use crate::copies::{copy_clauses, copy_given, copy_parameters, copy_texts, copy_type_parameters};
use crate::expand::{Sources, make_sources};
use crate::extents::{Extent, inline_extents, too_many};
use crate::frame::{Frame, make_frame};
use crate::names::Names;
use crate::productions::nonterminals;
use crate::refusals::{duplicate, inline_order, unknown_name};
use crate::symbols::all_symbols;
use crate::tables::{nonterminal_types, patterns, public_names, terminal_names, terminal_types};
use lp_repr::parse_tree::TypeParameter;
use lp_repr::repr::{Grammar, Parameter, TerminalSet, Types, WhereClause};
use lp_repr::text::{Items, Text};
use lp_syntax::PlainGrammar;
use std::alloc::{AllocError, Global};

/// Why a plain grammar isn't lowered. Places are bytes of its file.
#[derive(Clone, Copy)]
pub enum LowerFault {
    /// The symbol here is neither a rule nor a terminal.
    UnknownName { place: usize },
    /// The symbol here is an inline rule that isn't above the inline rule that uses it.
    InlineOrder { place: usize },
    /// The rule or terminal here stands a second time, or its pattern's text does.
    Duplicate { place: usize },
    /// With the rule here the expanded rules have more alternatives or symbols than they may.
    TooManyProductions { place: usize },
    Memory,
}

impl From<AllocError> for LowerFault {
    ghost use Rattle.lp_lower.specs.declared.lowering.LowerFault.TheVariants.{Memory};

    ghost from_gives = { λ _ e. e ≡ Memory };

    fn from(_e: AllocError) -> LowerFault {
        LowerFault::Memory
    }
}

/// The grammar that a plain grammar stands for. The refusals come in the order of `LowerFault`,
/// each at its least place.
pub fn lower(alloc: Global, grammar: &PlainGrammar) -> Result<Grammar, LowerFault>
    ensures refused { IfErr result (IsCause grammar.now) }
    ensures accepted { OnOk result (IsAccepted grammar.now) }
    ensures lowered { IfOk result (IsLowering grammar.now) }
{
    let names = Names::new(alloc, grammar)?;
    let extents = accept(alloc, &names)?;
    Ok(lowered(alloc, &names, extents.as_slice())?)
}

/// The extents of the inline rules of a grammar that is not refused.
fn accept(alloc: Global, names: &Names<'_>) -> Result<Vec<Extent>, LowerFault>
    ensures refused { IfErr result (IsCause names.now.plain.now) }
    ensures accepted { OnOk result (IsAccepted names.now.plain.now) }
    ensures extents { IfOk result (λ v. v.items ≡ map extent_of (inline_sides names.now.plain.now)) }
{
    let symbols = all_symbols(alloc, names.plain)?;
    if let Some(place) = unknown_name(names, symbols.as_slice()) {
        return Err(LowerFault::UnknownName { place });
    }
    if let Some(place) = inline_order(alloc, names)? {
        return Err(LowerFault::InlineOrder { place });
    }
    if let Some(place) = duplicate(alloc, names.plain)? {
        return Err(LowerFault::Duplicate { place });
    }
    let extents = inline_extents(alloc, names)?;
    if let Some(place) = too_many(names, extents.as_slice()) {
        return Err(LowerFault::TooManyProductions { place });
    }
    Ok(extents)
}

/// The lowering of a grammar.
fn lowered(alloc: Global, names: &Names<'_>, extents: &[Extent]) -> Result<Grammar, AllocError>
    requires { extents.now ≡ map extent_of (inline_sides names.now.plain.now) }
    ensures { IfOk result (IsLowering names.now.plain.now) }
{
    let frame = make_frame(alloc, names.plain)?;
    let sources = make_sources(alloc, names, extents, frame)?;
    Ok(assembled(alloc, names, extents, frame, &sources)?)
}

/// The lowering of a grammar, over what stands in front of its rules and what is replaced.
fn assembled(
    alloc: Global,
    names: &Names<'_>,
    extents: &[Extent],
    frame: Frame,
    sources: &Sources,
) -> Result<Grammar, AllocError>
    requires counted { extents.now ≡ map extent_of (inline_sides names.now.plain.now) }
    requires framed { frame ≡ frame_of names.now.plain.now }
    requires replaced { sources.now ≡ all_sources names.now.plain.now }
    ensures { IfOk result (IsLowering names.now.plain.now) }
{
    let plain = names.plain;
    let kept = keep(alloc, plain)?;
    let start_nonterminals = public_names(alloc, plain)?;
    let all = terminal_names(alloc, plain, frame)?;
    let conversions = patterns(alloc, plain)?;
    let types = types(alloc, plain, frame)?;
    let action_fn_defns = actions(alloc, names, extents, sources, frame)?;
    let nonterminals = nonterminals(alloc, names, extents, sources, frame)?;
    Ok(Grammar {
        prefix: plain.prefix.clone()?,
        algorithm: plain.algorithm,
        uses_error_recovery: frame.uses_error,
        start_nonterminals,
        uses: kept.uses,
        type_parameters: kept.type_parameters,
        parameters: kept.parameters,
        where_clauses: kept.where_clauses,
        intern_token: None,
        action_fn_defns,
        terminals: TerminalSet { all },
        nonterminals,
        conversions,
        types,
        module_attributes: kept.attributes,
    })
}

/// The lists that a lowered grammar takes over as they are.
#[derive(Drop)]
struct Kept {
    uses: Items<Text>,
    type_parameters: Items<TypeParameter>,
    parameters: Items<Parameter>,
    where_clauses: Items<WhereClause>,
    attributes: Items<Text>,
}

/// The lists that are taken over.
fn keep(alloc: Global, plain: &PlainGrammar) -> Result<Kept, AllocError>
    ensures { IfOk result (IsKept plain.now) }
{
    let uses = copy_texts(alloc, &plain.uses)?;
    let type_parameters = copy_type_parameters(alloc, &plain.type_parameters)?;
    let parameters = copy_parameters(alloc, &plain.parameters)?;
    let where_clauses = copy_clauses(alloc, &plain.where_clauses)?;
    let attributes = copy_texts(alloc, &plain.attributes)?;
    Ok(Kept {
        uses,
        type_parameters,
        parameters,
        where_clauses,
        attributes,
    })
}

/// The types of a grammar.
fn types(alloc: Global, plain: &PlainGrammar, frame: Frame) -> Result<Types, AllocError>
    requires { frame ≡ frame_of plain.now }
    ensures { IfOk result (IsTyping plain.now) }
{
    let loc = copy_given(&plain.location)?;
    let token = plain.token.clone()?;
    let error = copy_given(&plain.error)?;
    let terminals = terminal_types(alloc, plain, frame)?;
    let nonterminals = nonterminal_types(alloc, plain)?;
    Ok(Types {
        loc,
        token,
        error,
        terminals,
        nonterminals,
    })
}
