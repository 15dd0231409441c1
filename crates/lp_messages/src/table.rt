//! What is seen where a grammar file isn't read, and what is said of it.

/// A place where a file isn't read, and what is said there.
#[derive(Clone, Copy)]
pub struct Hint {
    /// The part of the file, the words of the two tokens before the place, and that of the token there,
    /// with blanks between; `|` stands between several, and `.` for any. `start` is before all tokens,
    /// `end` behind them, and `error` stands for what begins none.
    pub at: &'static str,
    /// What the text begins with there, with `|` between several; nothing for any text.
    pub begins: &'static str,
    pub title: &'static str,
    pub help: &'static str,
}

/// How many groups of hints there are.
pub const GROUPS: usize = 10;

/// The hints of the group of this number.
pub fn hints(group: usize) -> &'static [Hint] {
    match group {
        0 => sign_hints(),
        1 => head_hints(),
        2 => block_hints(),
        3 => pattern_hints(),
        4 => type_hints(),
        5 => rule_hints(),
        6 => symbol_hints(),
        7 => angle_hints(),
        8 => arrow_hints(),
        _ => word_hints(),
    }
}

fn sign_hints() -> &'static [Hint] {
    SIGNS
}

fn head_hints() -> &'static [Hint] {
    HEADS
}

fn block_hints() -> &'static [Hint] {
    BLOCKS
}

fn pattern_hints() -> &'static [Hint] {
    PATTERNS
}

fn type_hints() -> &'static [Hint] {
    TYPES
}

fn rule_hints() -> &'static [Hint] {
    RULES
}

fn symbol_hints() -> &'static [Hint] {
    SYMBOLS
}

fn angle_hints() -> &'static [Hint] {
    ANGLES
}

fn arrow_hints() -> &'static [Hint] {
    ARROWS
}

fn word_hints() -> &'static [Hint] {
    WORDS
}

/// Hints on what begins no token.
const SIGNS: &[Hint] = &[
    Hint {
        at: "head . start error",
        begins: "\u{feff}",
        title: "the file begins with a byte order mark",
        help: "save it as UTF-8 without one",
    },
    Hint {
        at: ". . . error",
        begins: "%%\r",
        title: "the line `%%` ends with a carriage return",
        help: "end it with a line feed alone: what stands behind it is read byte by byte",
    },
    Hint {
        at: ". . . error",
        begins: "%%",
        title: "a line that isn't exactly `%%`",
        help: "in front of token lines stands a line of two percent signs and nothing else",
    },
    Hint {
        at: "enum . . error",
        begins: "|",
        title: "alternatives in a pattern",
        help: "write a terminal for each pattern: no two terminals may have one pattern, and a token is the first that it fits",
    },
    Hint {
        at: "alternatives . . error",
        begins: "|",
        title: "`|` between alternatives",
        help: "put them in braces, with commas between: `= { a => .., b => .. };`",
    },
    Hint {
        at: "enum . . error",
        begins: "0|1|2|3|4|5|6|7|8|9",
        title: "a number in a pattern",
        help: "give the tokens a variant of their own, as `Tok::Zero`",
    },
];

/// Hints on what stands in front of the rules.
const HEADS: &[Hint] = &[
    Hint {
        at: "head . . #![]",
        begins: "",
        title: "an attribute `#![..]` behind something else",
        help: "attributes stand first of all, then the `use` lines",
    },
    Hint {
        at: "grammar|rules|type|alternatives|extern . . #![]",
        begins: "",
        title: "an attribute `#![..]` within the grammar",
        help: "attributes stand first of all in the file",
    },
    Hint {
        at: "grammar|rules|type|alternatives|extern . . use",
        begins: "",
        title: "`use` behind `grammar`",
        help: "`use` lines stand in front of `grammar`",
    },
    Hint {
        at: "head . ] use",
        begins: "",
        title: "`use` behind the attribute of the back end",
        help: "write the `use` lines first, then `#[..]`, then `grammar`",
    },
    Hint {
        at: "head # [ name",
        begins: "LALR|lane_table",
        title: "the attribute `#[LALR]`",
        help: "leave it out: tables are canonical LR(1), which take each grammar that LALR(1) takes",
    },
    Hint {
        at: "head # [ name",
        begins: "test_all",
        title: "the attribute `#[test_all]`",
        help: "take `#[table_driven]` or `#[recursive_ascent]`",
    },
    Hint {
        at: "head # [ .",
        begins: "",
        title: "another attribute than `#[table_driven]` and `#[recursive_ascent]`",
        help: "attributes of the module are written `#![..]`, and stand first",
    },
    Hint {
        at: "head . ] #",
        begins: "",
        title: "a second attribute of the back end",
        help: "one of `#[table_driven]` and `#[recursive_ascent]` stands in front of `grammar`",
    },
    Hint {
        at: "head . start|;|#![]|use end",
        begins: "",
        title: "the file has no `grammar;`",
        help: "begin with attributes and `use` lines, then `grammar;`, then the block `extern` and the rules",
    },
    Hint {
        at: "head . . extern|pub|name",
        begins: "",
        title: "the line `grammar;` is missing",
        help: "write `grammar;` behind the `use` lines, in front of all else",
    },
];

/// Hints on the block `extern`.
const BLOCKS: &[Hint] = &[
    Hint {
        at: "grammar . name|lifetime :",
        begins: "",
        title: "a bound in `grammar<..>`",
        help: "name the parameter alone, and write the bound behind: `grammar<T>(..) where T: Bound;`",
    },
    Hint {
        at: "rules . ;|} end",
        begins: "",
        title: "no block `extern`: there is no built-in lexer",
        help: "say what your tokens are: `extern { type Location = usize; enum Tok { \"+\" => Tok::Plus, } }`",
    },
    Hint {
        at: "rules . . match",
        begins: "",
        title: "`match`: there is no built-in lexer",
        help: "write a lexer of your own, and say in the block `extern` what its tokens are",
    },
    Hint {
        at: "rules . . extern",
        begins: "",
        title: "a second block `extern`",
        help: "one block has the types and the tokens",
    },
    Hint {
        at: "extern . extern name",
        begins: "crate",
        title: "`extern crate` in a grammar",
        help: "what the codes need comes by `use` lines; here stands `extern { .. }`",
    },
    Hint {
        at: "extern . ; type",
        begins: "",
        title: "the types of the block are in another order",
        help: "write `type Location = ..;` first, then `type Error = ..;`, then `enum`",
    },
    Hint {
        at: "extern . } type",
        begins: "",
        title: "a type behind `enum`",
        help: "write `type Location = ..;` and `type Error = ..;` in front of `enum`",
    },
    Hint {
        at: "extern . type name",
        begins: "",
        title: "another type than `Location` and `Error`",
        help: "the block has `type Location = ..;`, then `type Error = ..;`, each of which may be left out",
    },
    Hint {
        at: "extern . . }",
        begins: "",
        title: "the block `extern` has no `enum`",
        help: "say what your tokens are: `enum Tok { \"+\" => Tok::Plus, }`",
    },
    Hint {
        at: "extern . } enum",
        begins: "",
        title: "a second `enum`",
        help: "the tokens have one type: gather its terminals in one `enum`",
    },
];

/// Hints on terminals and patterns.
const PATTERNS: &[Hint] = &[
    Hint {
        at: "enum . . regex",
        begins: "",
        title: "a regular expression as a terminal",
        help: "a terminal is a name or a string literal: `\"N\" => Tok::Num(<i32>),`; your lexer finds its tokens",
    },
    Hint {
        at: "enum . . {",
        begins: "",
        title: "a pattern with fields by name",
        help: "match a variant with a tuple: `Tok::Num(<i32>)`",
    },
    Hint {
        at: "enum . char|name ..",
        begins: "",
        title: "a range in a pattern",
        help: "give the tokens a variant of their own",
    },
    Hint {
        at: "enum . . name",
        begins: "if",
        title: "a condition in a pattern",
        help: "give the tokens a variant of their own",
    },
];

/// Hints on types.
const TYPES: &[Hint] = &[
    Hint {
        at: ". [ . ;",
        begins: "",
        title: "an array as a type",
        help: "name it in your crate, as `type Four = [u8; 4];`, and write the name",
    },
    Hint {
        at: ". . . *",
        begins: "*const|*mut",
        title: "a raw pointer as a type",
        help: "name it in your crate, as `type Pointer = *const T;`, and write the name",
    },
    Hint {
        at: "type|extern|enum dyn name|macro|> (",
        begins: "",
        title: "a function's type behind `dyn`",
        help: "name it in your crate, as `type Act = dyn Fn(T) -> U;`, and write the name",
    },
    Hint {
        at: "type|extern|enum . name|macro (",
        begins: "",
        title: "a function as a type",
        help: "name it in your crate, as `type Act = fn(T) -> U;`, and write the name",
    },
    Hint {
        at: "grammar dyn|: name (",
        begins: "",
        title: "a function's type behind `dyn` among the parameters",
        help: "name it in your crate, as `type Act = dyn Fn(T) -> U;`, and write the name",
    },
    Hint {
        at: "type|extern|enum|grammar . . +",
        begins: "",
        title: "bounds between `+` in a type",
        help: "name it in your crate, as `type Shown = dyn Show + Send;`, and write the name",
    },
    Hint {
        at: "type|extern|enum|grammar . name name|dyn|macro",
        begins: "",
        title: "a type of two words",
        help: "`impl Trait`, `fn` and `unsafe` are no types here: name the type in your crate, and write the name",
    },
    Hint {
        at: "type . . !",
        begins: "",
        title: "`!` as a type",
        help: "name it in your crate, as `std::convert::Infallible` by a `use` line",
    },
];

/// Hints on rules.
const RULES: &[Hint] = &[
    Hint {
        at: "rules . pub (",
        begins: "",
        title: "`pub(..)` before a rule",
        help: "write `pub`; write `mod` without `pub` for the module, where its parsers are to stay within your crate",
    },
    Hint {
        at: "rules . ] pub",
        begins: "",
        title: "a public rule with `#[inline]`",
        help: "an inline rule is expanded where it is used: leave out `pub`, or `#[inline]`",
    },
    Hint {
        at: "rules . pub #",
        begins: "",
        title: "an attribute behind `pub`",
        help: "an inline rule isn't public: write `#[inline]` and the name",
    },
    Hint {
        at: "rules # [ name",
        begins: "cfg",
        title: "a condition `#[cfg(..)]` on a rule",
        help: "there are no conditions: write a file for each",
    },
    Hint {
        at: "rules # [ .",
        begins: "",
        title: "another attribute than `#[inline]` on a rule",
        help: "leave it out; attributes of the module are written `#![..]`, first of all",
    },
    Hint {
        at: "rules . . macro",
        begins: "",
        title: "a rule with parameters",
        help: "there are no macros: write a rule for each use, as `CommaExpr: Vec<Expr> = ..`",
    },
    Hint {
        at: "rules . name =",
        begins: "",
        title: "a rule without a type",
        help: "write what its codes give: `Name: Type = ..`",
    },
    Hint {
        at: "type . name ;|}",
        begins: "",
        title: "a rule without alternatives",
        help: "write `Name: Type = { .. };`",
    },
    Hint {
        at: "rules . . =>|=>?",
        begins: "",
        title: "an arrow outside of a rule",
        help: "look for a `;` or `}` too many in front of it",
    },
];

/// Hints on symbols.
const SYMBOLS: &[Hint] = &[
    Hint {
        at: "alternatives . . if",
        begins: "",
        title: "a condition on an alternative",
        help: "there are no macros, and no conditions: write a rule for each use",
    },
    Hint {
        at: "alternatives . . macro",
        begins: "",
        title: "a macro's use",
        help: "there are no macros: write a rule for it, as `CommaExpr: Vec<Expr> = ..`, and its name here",
    },
    Hint {
        at: "alternatives . . regex",
        begins: "",
        title: "a regular expression as a symbol",
        help: "there is no built-in lexer: declare a terminal in the block `extern`, and write it here",
    },
    Hint {
        at: "alternatives . . *",
        begins: "",
        title: "the repetition `*`",
        help: "write a rule: `As: Vec<T> = { () => vec![], <mut v:As> <a:\"a\"> => { v.push(a); v } };`",
    },
    Hint {
        at: "alternatives . . +",
        begins: "",
        title: "the repetition `+`",
        help: "write a rule: `As: Vec<T> = { <a:\"a\"> => vec![a], <mut v:As> <a:\"a\"> => { v.push(a); v } };`",
    },
    Hint {
        at: "alternatives . . ?",
        begins: "",
        title: "the option `?`",
        help: "write a rule: `MaybeA: Option<T> = { () => None, <a:\"a\"> => Some(a) };`",
    },
    Hint {
        at: "alternatives . < >",
        begins: "",
        title: "`<>` as a symbol",
        help: "name each symbol that the code needs: `<a:Expr>`",
    },
    Hint {
        at: "alternatives . < (",
        begins: "",
        title: "a group `<(..)>` as a symbol",
        help: "write a rule for it, and its name here",
    },
];

/// Hints on names of symbols, groups and attributes.
const ANGLES: &[Hint] = &[
    Hint {
        at: "alternatives . < string|@L|@R|!",
        begins: "",
        title: "`<..>` without a name",
        help: "name the symbol, and use the name in the code: `<a:\"a\"> => .. a ..`",
    },
    Hint {
        at: "alternatives < name >",
        begins: "",
        title: "a symbol in `<..>` without a name",
        help: "name it, and use the name in the code: `<a:Expr> => .. a ..`",
    },
    Hint {
        at: "alternatives . mut|name >",
        begins: "",
        title: "a name without a symbol in `<..>`",
        help: "write `<name:symbol>`",
    },
    Hint {
        at: "alternatives . : (",
        begins: "",
        title: "a group behind a name",
        help: "write a rule for it, and name that: `<pair:Pair>`",
    },
    Hint {
        at: "alternatives . ( .",
        begins: "",
        title: "a group `(..)` of symbols",
        help: "write a rule for it; `()` alone stands for no symbols",
    },
    Hint {
        at: "alternatives . . (",
        begins: "",
        title: "a group `(..)` within an alternative",
        help: "write a rule for it, and its name here",
    },
    Hint {
        at: "alternatives . name|string :",
        begins: "",
        title: "a name of a symbol outside of `<..>`",
        help: "write `<name:symbol>`",
    },
    Hint {
        at: "alternatives . {|,|= #",
        begins: "#[precedence|#[assoc",
        title: "levels of precedence",
        help: "write a rule for each level, as the rules `Expr` and `Term` of a calculator",
    },
    Hint {
        at: "alternatives . {|,|= #",
        begins: "",
        title: "an attribute on an alternative",
        help: "there are no conditions and no levels: leave it out",
    },
];

/// Hints on arrows, and where alternatives end.
const ARROWS: &[Hint] = &[
    Hint {
        at: "alternatives . {|,|= =>|=>?",
        begins: "",
        title: "an alternative without symbols",
        help: "write `()` in front of the arrow: `() => code`",
    },
    Hint {
        at: "alternatives . {|,|= ,|;",
        begins: "",
        title: "an empty alternative",
        help: "write `() => code` where no symbols are meant",
    },
    Hint {
        at: "alternatives . . =>@L|=>@R",
        begins: "",
        title: "a place behind an arrow",
        help: "name it among the symbols: `<l:@L> => l`",
    },
    Hint {
        at: "alternatives . =>|=>? ;",
        begins: "",
        title: "`;` among alternatives in braces",
        help: "write `,` behind each alternative and `}` behind the last; or a bracket in the code isn't closed",
    },
    Hint {
        at: "alternatives . =>|=>? ,|}",
        begins: "",
        title: "`,` or `}` behind an alternative without braces",
        help: "write `;`, or put the alternatives in braces: `{ .. }`",
    },
    Hint {
        at: "alternatives . =>|=>? .",
        begins: "",
        title: "a bracket too many behind a code",
        help: "a code ends at the first `,`, `;`, `)`, `]` or `}` outside of brackets",
    },
    Hint {
        at: "alternatives . string|name|>|@L|@R|! ,|}|;",
        begins: "",
        title: "an alternative without an arrow",
        help: "write `=> code`; it sees the named symbols, `=> ()` none",
    },
    Hint {
        at: "alternatives . . #|pub|extern",
        begins: "",
        title: "a rule begins within another",
        help: "look for a `}` or `;` that is missing in front of it",
    },
    Hint {
        at: "alternatives . . ==|~~|!=",
        begins: "",
        title: "a comparison in an alternative",
        help: "there are no macros, and no conditions: write a rule for each use",
    },
];

/// Hints on words and characters.
const WORDS: &[Hint] = &[
    Hint {
        at: "rules|type|alternatives|extern|enum|grammar . . enum|match|else|if|mut|in|type|where|for|dyn|pub|extern|grammar",
        begins: "",
        title: "a word with a meaning in grammar files",
        help: "as a name take another one",
    },
    Hint {
        at: ". . . escape",
        begins: "",
        title: "a name between backquotes",
        help: "write it without",
    },
    Hint {
        at: "alternatives|rules . . char",
        begins: "",
        title: "a character as a symbol",
        help: "declare a terminal in the block `extern`: a name, or a string literal",
    },
];
