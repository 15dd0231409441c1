//! What a grammar file says.

use lp_repr::parse_tree::TypeParameter;
use lp_repr::repr::{
    Algorithm, NonterminalString, Parameter, TerminalString, TokenPattern, TypeRepr, WhereClause,
};
use lp_repr::text::{Items, Text};

/// A grammar file: what stands before its rules, its `extern` block, and its rules in order.
#[derive(Drop)]
pub struct PlainGrammar {
    /// In front of each name that the emitted text makes itself.
    pub prefix: Text,
    /// The attributes `#![..]`, whole.
    pub attributes: Items<Text>,
    /// The texts between `use` and `;`, without blanks around them.
    pub uses: Items<Text>,
    pub algorithm: Algorithm,
    pub type_parameters: Items<TypeParameter>,
    pub parameters: Items<Parameter>,
    /// One per bound, in order.
    pub where_clauses: Items<WhereClause>,
    pub location: Option<TypeRepr>,
    pub error: Option<TypeRepr>,
    pub token: TypeRepr,
    pub conversions: Items<PlainTerminal>,
    pub rules: Items<PlainRule>,
}

/// A terminal and the pattern of its tokens.
#[derive(Drop)]
pub struct PlainTerminal {
    pub name: TerminalString,
    pub pattern: TokenPattern,
    /// Where the terminal begins.
    pub place: usize,
}

/// A rule: a nonterminal, its type and its alternatives.
#[derive(Drop)]
pub struct PlainRule {
    pub public: bool,
    pub inline: bool,
    pub name: NonterminalString,
    pub ty: TypeRepr,
    pub alternatives: Items<PlainAlternative>,
    /// Where the name begins.
    pub place: usize,
}

/// An alternative: symbols, and the code that makes a value of theirs.
#[derive(Drop)]
pub struct PlainAlternative {
    pub symbols: Items<PlainSymbol>,
    /// Its arrow is `=>?`.
    pub fallible: bool,
    /// Without blanks around it.
    pub code: Text,
}

/// A symbol, and the name that it is bound to.
#[derive(Drop)]
pub struct PlainSymbol {
    /// The argument's pattern: `_`, a name, or `mut` and a name.
    pub name: Text,
    pub kind: PlainKind,
    /// Where the symbol itself begins.
    pub place: usize,
}

/// What a symbol stands for.
#[derive(Drop)]
pub enum PlainKind {
    /// A rule, or else a terminal that is a bare name.
    Name(Text),
    /// A terminal that is a string literal.
    Terminal(Text),
    /// `@L`
    Lookahead,
    /// `@R`
    Lookbehind,
    /// `!`
    Error,
}
