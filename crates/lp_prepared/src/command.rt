//! The words of a call.

ghost use Rattle.std.specs.Prelude.{◌≡◌, ◌<◌, nat_eq};
ghost use Rattle.std.specs.Cmp.Lexicographic.{pointwise};
ghost use Rattle.lp_prepared.specs.Command.{command_of, named_of, made_of, option_of, options_of, one_option_of, two_options_of, level_of, digit_of, one_digit, two_digits};

use lp_repr::Text;
use lp_write::Options;

/// What a call asks for.
#[derive(Clone, Copy)]
pub enum Command {
    /// The parser text of a grammar file.
    Emit(Options),
    /// The parser text of a grammar file, and the run of each of its token lines.
    Run(Options),
    /// The generated grammar of so many levels, emitted and run.
    Make(u8),
}

/// An option of how the text looks.
#[derive(Clone, Copy)]
pub enum Look {
    Comments,
    NoWhitespace,
}

fn is_word(word: &Text, name: &str) -> bool
    ensures { result ≡ pointwise nat_eq word.now name.now }
{
    word.as_str() == name
}

fn look_of(word: &Text) -> Option<Look>
    ensures { result ≡ option_of word.now }
{
    if is_word(word, "--comments") {
        return Some(Look::Comments);
    }
    if is_word(word, "--no-whitespace") {
        return Some(Look::NoWhitespace);
    }
    None
}

/// The options that the words name, each at most once and in any order.
fn options(words: &[Text]) -> Option<Options>
    ensures { result ≡ options_of words.now }
{
    match words {
        [] => Some(Options {
            comments: false,
            whitespace: true,
        }),
        [one] => one_option(look_of(one)),
        [one, other] => two_options(look_of(one), look_of(other)),
        _ => None,
    }
}

fn one_option(look: Option<Look>) -> Option<Options>
    ensures { result ≡ one_option_of look }
{
    match look {
        Some(Look::Comments) => Some(Options {
            comments: true,
            whitespace: true,
        }),
        Some(Look::NoWhitespace) => Some(Options {
            comments: false,
            whitespace: false,
        }),
        None => None,
    }
}

fn two_options(one: Option<Look>, other: Option<Look>) -> Option<Options>
    ensures { result ≡ two_options_of one other }
{
    let both = Some(Options {
        comments: true,
        whitespace: false,
    });
    match (one, other) {
        (Some(Look::Comments), Some(Look::NoWhitespace)) => both,
        (Some(Look::NoWhitespace), Some(Look::Comments)) => both,
        _ => None,
    }
}

fn digit(byte: u8) -> Option<u8>
    ensures { result ≡ digit_of byte }
{
    match byte {
        b'0'..=b'9' => Some(byte - b'0'),
        _ => None,
    }
}

/// A number from 1 to 32, in decimal digits with no zero in front.
fn level(word: &Text) -> Option<u8>
    ensures { result ≡ level_of word.now }
{
    match word.as_str().as_bytes() {
        [one] => within(digit(*one)?),
        [ten, one] => within_tens(digit(*ten)?, digit(*one)?),
        _ => None,
    }
}

fn within(one: u8) -> Option<u8>
    ensures { result ≡ one_digit one }
{
    if one == 0 { None } else { Some(one) }
}

fn within_tens(ten: u8, one: u8) -> Option<u8>
    requires { one < 10 }
    ensures { result ≡ two_digits ten one }
{
    if ten == 0 || ten > 3 {
        return None;
    }
    let number = 10 * ten + one;
    if number > 32 { None } else { Some(number) }
}

/// The command that the words name: `emit` or `run` with options, or `make` with a number.
pub fn read_words(words: &[Text]) -> Option<Command>
    ensures { result ≡ command_of words.now }
{
    match words {
        [] => None,
        [first, others @ ..] => named(first, others),
    }
}

fn named(first: &Text, others: &[Text]) -> Option<Command>
    ensures { result ≡ named_of first.now others.now }
{
    if is_word(first, "emit") {
        return Some(Command::Emit(options(others)?));
    }
    if is_word(first, "run") {
        return Some(Command::Run(options(others)?));
    }
    if is_word(first, "make") {
        return Some(Command::Make(made(others)?));
    }
    None
}

fn made(words: &[Text]) -> Option<u8>
    ensures { result ≡ made_of words.now }
{
    match words {
        [word] => level(word),
        _ => None,
    }
}
