//! Errors of reading, in words.

ghost use Rattle.std.specs.Prelude.{◌≡◌, IfOk, string_bytes};
ghost use Rattle.lp_reading.specs.Messages.{MayAnswer, character_at, code_message, invalid_message, message_of, quoted, span_of, text_between};

use lp_tok::ErrorCode;
use lp_types::{ParseError, Span};
use std::alloc::{AllocError, Global};

/// Hands the text, the span and the message of an error to `reporter`, and answers what that
/// answers. Where a place of a token is past the end of the text or within a character, the message
/// has nothing between its backquotes; where that of an invalid token is, it tells of the end.
pub fn report_parse_error<E, F: FnMut(&str, Span, &str) -> E>(
    alloc: Global,
    text: &str,
    error: ParseError<'_>,
    mut reporter: F,
) -> Result<E, AllocError>
where
    F: Drop,
    requires { F.IsAlwaysCallable reporter }
    ensures { IfOk result (MayAnswer F.FnMut reporter text.now (span_of error.entry) (message_of text.now error.entry)) }
{
    let (span, message) = report(alloc, text, &error)?;
    Ok(reporter(text, span, message.as_str()))
}

/// The span and the message of an error.
fn report(alloc: Global, text: &str, error: &ParseError<'_>) -> Result<(Span, String), AllocError>
    ensures span { IfOk result (λ told. told.0 ≡ span_of error.now) }
    ensures message { IfOk result (λ told. string_bytes told.1 ≡ message_of text.now error.now) }
{
    match error {
        ParseError::InvalidToken { location } => {
            let span = Span(*location, *location);
            Ok((span, invalid_token(alloc, text, *location)?))
        }
        ParseError::UnrecognizedEof { location, .. } => {
            let message = String::from_str(alloc, "unexpected end of file")?;
            Ok((Span(*location, *location), message))
        }
        ParseError::UnrecognizedToken { token, .. } => {
            let span = Span(token.0, token.2);
            Ok((span, quoted(alloc, "unexpected token: `", text, span)?))
        }
        ParseError::ExtraToken { token } => {
            let span = Span(token.0, token.2);
            Ok((
                span,
                quoted(alloc, "extra token at end of input: `", text, span)?,
            ))
        }
        ParseError::User { error } => {
            let span = Span(error.location, error.location.saturating_add(1));
            Ok((span, String::from_str(alloc, code_message(error.code))?))
        }
    }
}

/// The message on a character that begins no token, or on the end of the text.
fn invalid_token(alloc: Global, text: &str, location: usize) -> Result<String, AllocError>
    ensures { IfOk result (λ s. string_bytes s ≡ invalid_message (character_at text.now location)) }
{
    match character_at(text, location) {
        None => String::from_str(alloc, "unexpected end of file"),
        Some(character) => format!(in alloc; "invalid character `{character}`"),
    }
}

fn character_at(text: &str, location: usize) -> Option<char>
    ensures { result ≡ character_at text.now location }
{
    text_between(text, location, text.len()).chars().next()
}

/// The text from one place to another, empty where one of them is none of the text.
fn text_between(text: &str, lo: usize, hi: usize) -> &str
    ensures { result.now ≡ text_between text.now lo hi }
{
    text.get(lo..hi).unwrap_or("")
}

/// The front, the text of a span, and a backquote.
fn quoted(alloc: Global, front: &str, text: &str, span: Span) -> Result<String, AllocError>
    ensures { IfOk result (λ s. string_bytes s ≡ quoted front.now (text_between text.now span.0 span.1)) }
{
    let mut message = String::from_str(alloc, front)?;
    message.push_str(text_between(text, span.0, span.1))?;
    message.push_str("`")?;
    Ok(message)
}

fn code_message(code: ErrorCode) -> &'static str
    ensures { result.now ≡ code_message code }
{
    match code {
        ErrorCode::UnrecognizedToken => "unrecognized token",
        ErrorCode::UnterminatedEscape => "unterminated escape; missing '`'?",
        ErrorCode::UnterminatedAsciiEscape => "unterminated ascii escape; missing second digit?",
        ErrorCode::UnrecognizedEscape => {
            r#"unrecognized escape; only \n, \r, \t, \0, \", \\, and \x## are recognized"#
        }
        ErrorCode::UnterminatedStringLiteral => "unterminated string literal; missing `\"`?",
        ErrorCode::UnterminatedCharacterLiteral => "unterminated character literal; missing `'`?",
        ErrorCode::UnterminatedAttribute => "unterminated #! attribute; missing `]`?",
        ErrorCode::ExpectedStringLiteral => "expected string literal; missing `\"`?",
        ErrorCode::UnterminatedCode => {
            "unterminated code block; perhaps a missing `;`, `)`, `]` or `}`?"
        }
        ErrorCode::UnterminatedBlockComment => "unterminated block comment; missing `*/`?",
    }
}
