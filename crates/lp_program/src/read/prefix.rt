//! The prefix that a text shows.

ghost use Rattle.std.specs.Prelude.{◌≡◌, ℕ, ◌<◌, ◌^◌, true, List, length, MatchOption, IfSome};
ghost use Rattle.lp_program.specs.Prefixes.{renamed, ShowsPrefix};
ghost use Rattle.lp_program.specs.Reads.{is_prefix};

use crate::read::taking::take_use;
use lp_spelling::cursor::Cursor;
use lp_texts::is_identifier;

/// What stands for a prefix that isn't shown: a text that shows none fails at the latest where the
/// standard uses show it.
pub(crate) const NO_PREFIX: &str = "__";

/// The prefix of a name of the standard uses, with what follows it on the line: it isn't empty, and
/// what it makes of `lalrpop_util` is an identifier.
fn prefix_in(shown: &str) -> Option<&str>
    ensures fits { IfSome result (λ prefix. is_prefix prefix.now ≡ true) }
    ensures exact { MatchOption result ((prefix : List ℕ) → shown.now ≡ renamed prefix → is_prefix prefix ≡ true → ⊥) (λ prefix. shown.now ≡ renamed prefix.now) }
{
    let Some(name) = shown.strip_suffix(";") else {
        return None;
    };
    let Some(prefix) = name.strip_suffix("lalrpop_util") else {
        return None;
    };
    if prefix.is_empty() {
        return None;
    }
    if !is_identifier(name) {
        return None;
    }
    Some(prefix)
}

/// The prefix that the standard uses show.
pub(crate) fn prefix_of(text: &str) -> Option<&str>
    ensures fits { IfSome result (λ prefix. is_prefix prefix.now ≡ true) }
    ensures exact { MatchOption result ((prefix : List ℕ) → ShowsPrefix prefix text.now → ⊥) (λ prefix. ShowsPrefix prefix.now text.now) }
    ensures size { length text.now < 2 ^ 64 }
{
    let mut cursor = Cursor::new(text);
    for _i in 0..text.len() {
        let Some(line) = cursor.line() else {
            return None;
        };
        if line.starts_with("use ") {
            match take_use(cursor) {
                Some(taken) => cursor = taken.next,
                None => return None,
            }
        } else {
            if let Some(shown) = line.strip_prefix("extern crate lalrpop_util as ") {
                return prefix_in(shown);
            }
            cursor = cursor.after_line();
        }
    }
    None
}
