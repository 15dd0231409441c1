//! Tokens and their errors.

/// An error of the tokenizer, of a cut or of a string's escapes: where, in bytes, and what.
#[derive(Clone, Copy, PartialEq, Eq)]
pub struct Error {
    pub location: usize,
    pub code: ErrorCode,
}

/// What is wrong at an error's place.
#[derive(Clone, Copy, PartialEq, Eq)]
pub enum ErrorCode {
    /// A character that begins no token, or a symbol that breaks off.
    UnrecognizedToken,
    /// A backquote without a second one.
    UnterminatedEscape,
    /// A `\x` with fewer than two characters behind it.
    UnterminatedAsciiEscape,
    /// A `\` that begins none of the known escapes.
    UnrecognizedEscape,
    /// A string literal without an end.
    UnterminatedStringLiteral,
    /// A character literal without an end.
    UnterminatedCharacterLiteral,
    /// Never comes: a `#![` that is not closed is read as `#` and what follows.
    UnterminatedAttribute,
    /// User code whose brackets are not closed, or none at all.
    UnterminatedCode,
    /// `r` and hashes, followed by neither a string nor a word.
    ExpectedStringLiteral,
    /// A block comment without an end.
    UnterminatedBlockComment,
}

/// The byte at which something begins, the thing, and the byte after it.
pub type Spanned<T> = (usize, T, usize);

/// A token of a grammar file. Texts are parts of the input.
#[derive(Clone, Drop, PartialEq, Eq)]
pub enum Tok<'input> {
    Enum,
    Extern,
    Grammar,
    Match,
    Else,
    If,
    Mut,
    Pub,
    In,
    TypeWord,
    Where,
    For,
    Dyn,
    /// The cut after `use`.
    Use(&'input str),
    /// What stands between two backquotes.
    Escape(&'input str),
    Id(&'input str),
    /// A word that `<` follows at once.
    MacroId(&'input str),
    /// With its `'`.
    Lifetime(&'input str),
    /// Without its quotes.
    StringLiteral(&'input str),
    /// Without its quotes.
    CharLiteral(&'input str),
    /// Without `r`, hashes and quotes.
    RegexLiteral(&'input str),
    Ampersand,
    BangEquals,
    BangTilde,
    Colon,
    ColonColon,
    Comma,
    DotDot,
    Equals,
    EqualsEquals,
    /// The cut after `=>`.
    EqualsGreaterThanCode(&'input str),
    /// The cut after `=>?`.
    EqualsGreaterThanQuestionCode(&'input str),
    EqualsGreaterThanLookahead,
    EqualsGreaterThanLookbehind,
    Hash,
    GreaterThan,
    LeftBrace,
    LeftBracket,
    LeftParen,
    LessThan,
    Lookahead,
    Lookbehind,
    MinusGreaterThan,
    Plus,
    Question,
    RightBrace,
    RightBracket,
    RightParen,
    Semi,
    Star,
    TildeTilde,
    Underscore,
    Bang,
    /// `#![` to the matching `]`, both with it.
    ShebangAttribute(&'input str),
    /// This and those below are never read: they choose what a parser begins with.
    StartGrammar,
    StartPattern,
    StartMatchMapping,
    StartGrammarWhereClauses,
    StartTypeRef,
}
