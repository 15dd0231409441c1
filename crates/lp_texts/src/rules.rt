//! The rule of each kind of text.

ghost use Rattle.lp_repr.specs.Shown.{terminal_text, visibility_text};
ghost use Rattle.lp_repr.specs.ShownTypes.{type_text};
ghost use Rattle.lp_texts.specs.TextRules.{AnswersAttribute, AnswersTerminal, AnswersNonterminal, AnswersLine};
ghost use Rattle.lp_texts.specs.Pattern.{AnswersPattern};
ghost use Rattle.lp_texts.specs.UserCode.{AnswersUse, AnswersAction};
ghost use Rattle.std.specs.Prelude.{IfOk};

use crate::code::{action_fault, use_fault};
use crate::counted::Rule;
use crate::line::line_fault;
use crate::names::{attribute_fault, nonterminal_fault, terminal_fault};
use crate::pattern::pattern_fault;
use lp_repr::repr::{
    ActionFnDefn, NonterminalData, NonterminalString, Parameter, TerminalString, TokenPattern,
};
use lp_repr::{Shown, Text};
use std::alloc::{AllocError, Global};

/// A use is closed.
pub(crate) struct UseRule;

/// An attribute begins with `#![`, ends with `]` and has no line end.
pub(crate) struct AttributeRule;

/// A terminal is shown without a line end and without `"###`.
pub(crate) struct TerminalRule;

/// A nonterminal's name has no line end.
pub(crate) struct NonterminalRule;

/// A pattern is a text of one line, and its holes are apart from words.
pub(crate) struct PatternRule;

/// What is shown is a text of one line.
pub(crate) struct LineRule;

/// So is a parameter's type.
pub(crate) struct ParameterRule;

/// So is a visibility.
pub(crate) struct VisibilityRule;

/// So is the type of what an action gives.
pub(crate) struct ReturnRule;

/// An action's code is closed.
pub(crate) struct CodeRule;

impl Rule<Text> for UseRule {
    ghost answers = { AnswersUse };

    fn fault(alloc: Global, thing: &Text) -> Result<Option<usize>, AllocError> {
        use_fault(alloc, thing.as_str())
    }
}

impl Rule<Text> for AttributeRule {
    ghost answers = { AnswersAttribute };

    fn fault(_alloc: Global, thing: &Text) -> Result<Option<usize>, AllocError> {
        Ok(attribute_fault(thing.as_str().as_bytes()))
    }
}

impl Rule<TerminalString> for TerminalRule {
    ghost answers = { λ t. AnswersTerminal (terminal_text t) };

    fn fault(alloc: Global, thing: &TerminalString) -> Result<Option<usize>, AllocError> {
        let text = thing.to_string(alloc)?;
        Ok(terminal_fault(text.as_bytes()))
    }
}

impl Rule<NonterminalString> for NonterminalRule {
    ghost answers = { λ n. AnswersNonterminal n.0 };

    fn fault(_alloc: Global, thing: &NonterminalString) -> Result<Option<usize>, AllocError> {
        Ok(nonterminal_fault(thing.0.as_str().as_bytes()))
    }
}

impl Rule<TokenPattern> for PatternRule {
    ghost answers = { λ p. AnswersPattern p.pieces };

    fn fault(alloc: Global, thing: &TokenPattern) -> Result<Option<usize>, AllocError> {
        pattern_fault(alloc, thing)
    }
}

impl<T: Shown> Rule<T> for LineRule {
    ghost answers = { λ x. AnswersLine (T.text x) };

    fn fault(alloc: Global, thing: &T) -> Result<Option<usize>, AllocError> {
        let text = thing.to_string(alloc)?;
        line_fault(alloc, text.as_str(), false)
    }
}

impl Rule<Parameter> for ParameterRule {
    ghost answers = { λ p. AnswersLine (type_text p.ty) };

    fn fault(alloc: Global, thing: &Parameter) -> Result<Option<usize>, AllocError> {
        let text = thing.ty.to_string(alloc)?;
        line_fault(alloc, text.as_str(), false)
    }
}

impl Rule<NonterminalData> for VisibilityRule {
    ghost answers = { λ d. AnswersLine (visibility_text d.visibility) };

    fn fault(alloc: Global, thing: &NonterminalData) -> Result<Option<usize>, AllocError> {
        let text = thing.visibility.to_string(alloc)?;
        line_fault(alloc, text.as_str(), false)
    }
}

impl Rule<ActionFnDefn> for ReturnRule {
    ghost answers = { λ a. AnswersLine (type_text a.ret_type) };

    fn fault(alloc: Global, thing: &ActionFnDefn) -> Result<Option<usize>, AllocError> {
        let text = thing.ret_type.to_string(alloc)?;
        line_fault(alloc, text.as_str(), false)
    }
}

impl Rule<ActionFnDefn> for CodeRule {
    ghost answers = { λ a. AnswersAction a.kind };

    fn fault(alloc: Global, thing: &ActionFnDefn) -> Result<Option<usize>, AllocError> {
        action_fault(alloc, &thing.kind)
    }
}
