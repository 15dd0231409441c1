//! The escaper: a text as a literal.

ghost use Rattle.std.specs.Prelude.{◌≡◌, ◌<◌, unwrap_or, IfSome, Some};
ghost use Rattle.std.specs.Fmt.{WritesOnOk};
ghost use Rattle.lp_repr.specs.Escapes.{escape_letter, plain_character, escaped_character, escaped_text};

use std::fmt;

/// A text as a literal of Rust: in quotes, with `\"`, `\\`, `\n`, `\r`, `\t` and `\0` for these
/// characters and `\u{h}` for other ASCII controls.
#[derive(Clone, Copy)]
pub struct Escaped<'a>(pub &'a str);

impl fmt::Display for Escaped<'_> {
    ghost output = { λ e. Some (escaped_text e.0.now) };

    fn fmt<W: fmt::Write>(&self, f: &mut fmt::Formatter<W>) -> fmt::Result {
        write_escaped(f, self.0)
    }
}

fn write_escaped<W: fmt::Write>(f: &mut fmt::Formatter<W>, text: &str) -> fmt::Result
    ensures { WritesOnOk W.write_str_gives f.old result (escaped_text text.now) f.new }
{
    f.write_char('"')?;
    for c in text.chars() {
        escape(f, c)?;
    }
    f.write_char('"')
}

/// The letter after `\` that stands for the character.
fn letter(c: char) -> Option<char>
    ensures value { unwrap_or result 0 ≡ escape_letter c }
    ensures ascii { IfSome result (λ l. (l < 128) × (0 < l)) }
{
    match c {
        '"' => Some('"'),
        '\\' => Some('\\'),
        '\n' => Some('n'),
        '\r' => Some('r'),
        '\t' => Some('t'),
        '\0' => Some('0'),
        _ => None,
    }
}

fn escape<W: fmt::Write>(f: &mut fmt::Formatter<W>, c: char) -> fmt::Result
    ensures { WritesOnOk W.write_str_gives f.old result (escaped_character c) f.new }
{
    match letter(c) {
        Some(letter) => {
            f.write_char('\\')?;
            f.write_char(letter)
        }
        None => write_unlettered(f, c),
    }
}

/// The code of a control, or the character itself.
fn write_unlettered<W: fmt::Write>(f: &mut fmt::Formatter<W>, c: char) -> fmt::Result
    ensures { WritesOnOk W.write_str_gives f.old result (plain_character c) f.new }
{
    if c < ' ' || c == '\x7f' {
        let code = c as u32;
        write!(f, "\\u{{{code:x}}}")
    } else {
        f.write_char(c)
    }
}
