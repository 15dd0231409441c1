//! String literals, their escapes applied.

ghost use Rattle.std.specs.Prelude.{◌≡◌, ◌+◌, ◌^◌, ◌<◌, length};
ghost use Rattle.lp_reading.specs.Literals.{error_of, inside_place, taken_value, value_read};
ghost use Rattle.lp_types.specs.Left.{left};
ghost use Rattle.lp_types.specs.Reading.{Answers};

use lp_repr::text::Text;
use lp_tok::{EscapeError, apply_string_escapes};
use lp_types::{Kind, ParseError, PlainError, Read, Reader};

/// The value of a string literal, if one comes, which is passed.
pub fn takes_value<'i>(reader: &mut Reader<'_, 'i>) -> Read<'i, Option<Text>>
    ensures { Answers (λ value. value) (taken_value (left reader.old)) result (left reader.new) }
{
    let stop = reader.next_stop();
    match reader.takes(Kind::StringLiteral) {
        None => Ok(None),
        Some(inside) => value(reader, stop, inside),
    }
}

/// The value of a literal with this inside, whose token ends at `stop`; nothing is passed.
fn value<'i>(reader: &Reader<'_, 'i>, stop: usize, inside: &'i str) -> Read<'i, Option<Text>>
    ensures { Answers (λ value. value) (value_read stop inside.now (left reader.now)) result (left reader.now) }
{
    let place = inside_place(stop, inside);
    match apply_string_escapes(reader.alloc, inside, place) {
        Ok(text) => {
            let value = text.into_owned(reader.alloc)?;
            Ok(Some(Text(value)))
        }
        Err(fault) => Err(error_of(fault)),
    }
}

/// The error of a literal's escapes.
fn error_of<'i>(fault: EscapeError) -> PlainError<'i>
    ensures { result ≡ error_of fault }
{
    match fault {
        EscapeError::Bad(error) => PlainError::Parse(ParseError::User { error }),
        EscapeError::Memory => PlainError::Memory,
    }
}

/// Where a literal's inside begins: a quote ends the token.
fn inside_place(stop: usize, inside: &str) -> usize
    ensures place { result ≡ inside_place stop inside.now }
    ensures fits { length inside.now + result < 2 ^ 64 }
{
    stop.saturating_sub(1).saturating_sub(inside.len())
}
