//! What the names of a plain grammar stand for.

ghost use Rattle.std.specs.Prelude.{◌≡◌, IfOk, option_copied, slice_get};
ghost use Rattle.std.specs.BTreeMap.{get};
ghost use Rattle.lp_repr.specs.declared.repr.TerminalString.{TerminalString};
ghost use Rattle.lp_repr.specs.declared.repr.TerminalString.TheVariants as terminal_string;
ghost use Rattle.lp_lower.specs.Naming.{text_cmp, rule_number, terminal_number, target};

use lp_repr::repr::TerminalString;
use lp_repr::text::Text;
use lp_syntax::{PlainGrammar, PlainKind, PlainRule, PlainTerminal};
use std::alloc::{AllocError, Global};
use std::collections::BTreeMap;

/// What a symbol stands for: rules and terminals by their numbers in the plain grammar.
#[derive(Clone, Copy)]
pub enum Target {
    Rule(usize),
    Terminal(usize),
    Lookahead,
    Lookbehind,
    Error,
}

/// The first rule or terminal of each name, found in logarithmic time.
#[derive(Drop)]
pub struct Names<'g> {
    /// The grammar whose names are looked up.
    pub plain: &'g PlainGrammar,
    rules: BTreeMap<Text, usize>,
    bare: BTreeMap<Text, usize>,
    quoted: BTreeMap<Text, usize>,
    ghost rules_numbered: { (q : _) → get text_cmp rules q ≡ rule_number plain.now.rules q },
    ghost bare_numbered: { (q : _) → get text_cmp bare q ≡ terminal_number plain.now.conversions (terminal_string.Bare q) },
    ghost quoted_numbered: { (q : _) → get text_cmp quoted q ≡ terminal_number plain.now.conversions (terminal_string.Quoted q) },
}

impl<'g> Names<'g> {
    /// The names of a grammar.
    pub fn new(alloc: Global, plain: &'g PlainGrammar) -> Result<Names<'g>, AllocError>
        ensures { IfOk result (λ n. n.plain.now ≡ plain.now) }
    {
        Ok(Names {
            plain,
            rules: rule_numbers(alloc, plain.rules.as_slice())?,
            bare: bare_numbers(alloc, plain.conversions.as_slice())?,
            quoted: quoted_numbers(alloc, plain.conversions.as_slice())?,
        })
    }

    /// The rule of this number.
    pub fn rule(&self, number: usize) -> Option<&'g PlainRule>
        ensures { option_copied result ≡ slice_get self.now.plain.now.rules number }
    {
        self.plain.rules.as_slice().get(number)
    }

    /// The terminal of this number.
    pub fn terminal(&self, number: usize) -> Option<&'g PlainTerminal>
        ensures { option_copied result ≡ slice_get self.now.plain.now.conversions number }
    {
        self.plain.conversions.as_slice().get(number)
    }

    /// What a symbol stands for; none where its name is neither a rule's nor a terminal's.
    #[tactic(auto, unfolding(crate::specs::Naming::target))]
    pub fn target(&self, kind: &PlainKind) -> Option<Target>
        ensures { result ≡ target self.now.plain.now kind.now }
    {
        match kind {
            PlainKind::Name(name) => match self.rules.get(name) {
                Some(rule) => Some(Target::Rule(*rule)),
                None => self.bare.get(name).copied().map(Target::Terminal),
            },
            PlainKind::Terminal(text) => self.quoted.get(text).copied().map(Target::Terminal),
            PlainKind::Lookahead => Some(Target::Lookahead),
            PlainKind::Lookbehind => Some(Target::Lookbehind),
            PlainKind::Error => Some(Target::Error),
        }
    }
}

/// The first rule of each name.
fn rule_numbers(alloc: Global, rules: &[PlainRule]) -> Result<BTreeMap<Text, usize>, AllocError>
    ensures { IfOk result (λ m. (q : _) → get text_cmp m q ≡ rule_number rules.now q) }
{
    let mut numbers = BTreeMap::new(alloc);
    let mut number = rules.len();
    while number > 0 {
        number -= 1;
        // The last to be written stands, which is the first of its name.
        numbers.insert(rules[number].name.0.clone()?, number)?;
    }
    Ok(numbers)
}

/// The first terminal of each bare name.
fn bare_numbers(
    alloc: Global,
    terminals: &[PlainTerminal],
) -> Result<BTreeMap<Text, usize>, AllocError>
    ensures { IfOk result (λ m. (q : _) → get text_cmp m q ≡ terminal_number terminals.now (terminal_string.Bare q)) }
{
    let mut numbers = BTreeMap::new(alloc);
    let mut number = terminals.len();
    while number > 0 {
        number -= 1;
        if let TerminalString::Bare(name) = &terminals[number].name {
            numbers.insert(name.clone()?, number)?;
        }
    }
    Ok(numbers)
}

/// The first terminal of each string literal.
fn quoted_numbers(
    alloc: Global,
    terminals: &[PlainTerminal],
) -> Result<BTreeMap<Text, usize>, AllocError>
    ensures { IfOk result (λ m. (q : _) → get text_cmp m q ≡ terminal_number terminals.now (terminal_string.Quoted q)) }
{
    let mut numbers = BTreeMap::new(alloc);
    let mut number = terminals.len();
    while number > 0 {
        number -= 1;
        if let TerminalString::Quoted(text) = &terminals[number].name {
            numbers.insert(text.clone()?, number)?;
        }
    }
    Ok(numbers)
}
