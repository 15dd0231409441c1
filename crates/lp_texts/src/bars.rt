//! Where a list of patterns is parted.

ghost use Rattle.std.specs.Prelude.{◌≡◌, ◌+◌, ◌-◌, ◌<◌, ◌^◌, length, if◌then◌else◌};
ghost use Rattle.lp_texts.specs.Brackets.{opens, closes};
ghost use Rattle.lp_texts.specs.FirstWrong.{IsFirst};
ghost use Rattle.lp_texts.specs.Bars.{IsBar};

use crate::line::{closes, opens};
use crate::quotes::{Found, piece_at};

/// The place of the first ` | ` of a text outside quotes and brackets.
pub fn first_bar(text: &[u8]) -> Option<usize>
    ensures { IsFirst (IsBar text.now) result }
{
    let mut depth = 0usize;
    let mut at = 0;
    while at < text.len() {
        match piece_at(text, at) {
            Found::Single => {
                if depth == 0 && text[at..].starts_with(b" | ") {
                    return Some(at);
                }
                depth = depth_after(depth, text[at]);
                at += 1;
            }
            Found::Quote(end) => at = end,
            Found::Unended => return None,
        }
    }
    None
}

/// The number of brackets that are open after a byte.
fn depth_after(depth: usize, byte: u8) -> usize
    requires { depth + 1 < 2 ^ 64 }
    ensures { result ≡ (if opens byte then depth + 1 else (if closes byte then depth - 1 else depth)) }
{
    if opens(byte) {
        depth + 1
    } else if closes(byte) {
        depth.saturating_sub(1)
    } else {
        depth
    }
}
