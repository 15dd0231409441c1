//! The rules on uses and on the code of actions.

ghost use Rattle.std.specs.Prelude.{◌++◌, IfOk};
ghost use Rattle.lp_texts.specs.UserCode.{HaltsAt, AnswersUse, AnswersCode, AnswersAction};

use lp_repr::repr::ActionFnDefnKind;
use lp_tok::{Error, closed_code, closed_use, code_end};
use std::alloc::{AllocError, Global};

/// Where the cut of a text and a closer behind it stops or fails.
fn halt(alloc: Global, text: &str, closer: &str) -> Result<usize, AllocError>
    ensures { IfOk result (HaltsAt (text.now ++ closer.now)) }
{
    let mut whole = String::from_str(alloc, text)?;
    whole.push_str(closer)?;
    match code_end(whole.as_str(), 0) {
        Ok(place) => Ok(place),
        Err(error) => {
            let Error { location, .. } = error;
            Ok(location)
        }
    }
}

/// What is wrong about a use.
pub(crate) fn use_fault(alloc: Global, text: &str) -> Result<Option<usize>, AllocError>
    ensures { IfOk result (AnswersUse text.now) }
{
    if closed_use(text) {
        return Ok(None);
    }
    Ok(Some(halt(alloc, text, ";")?))
}

/// What is wrong about a code.
fn code_fault(alloc: Global, text: &str) -> Result<Option<usize>, AllocError>
    ensures { IfOk result (AnswersCode text.now) }
{
    if closed_code(text) {
        return Ok(None);
    }
    Ok(Some(halt(alloc, text, "\n}")?))
}

/// What is wrong about the code of an action, if it has one.
pub(crate) fn action_fault(
    alloc: Global,
    kind: &ActionFnDefnKind,
) -> Result<Option<usize>, AllocError>
    ensures { IfOk result (AnswersAction kind.now) }
{
    match kind {
        ActionFnDefnKind::User { code, .. } => code_fault(alloc, code.as_str()),
        ActionFnDefnKind::Lookaround(_) => Ok(None),
        ActionFnDefnKind::Inline { .. } => Ok(None),
    }
}
