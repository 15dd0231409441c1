//! What the forms of one module share.

ghost use Rattle.std.specs.Prelude.{◌≡◌, ◌<◌, length, map, option_map, slice_get, string_bytes, IfOk, IsSome};
ghost use Rattle.std.specs.BTreeMap.{btree_map_len, get};
ghost use Rattle.std.specs.Map.Iter.{deref, deref_pair};
ghost use Rattle.lp_repr.specs.NameOrder.{nonterminal_cmp};
ghost use Rattle.lp_repr.specs.Numbering.{nonterminal_number, productions_of, symbol_number, terminal_number};
ghost use Rattle.lp_repr.specs.Shown.{parameter_text};
ghost use Rattle.lp_parts.specs.Phantom.{phantom_expression_of, phantom_type_of};
ghost use Rattle.lp_parts.specs.StateType.{state_type_of};
ghost use Rattle.lp_parts.specs.Texts.{arguments_of, each_with_comma, error_text, generic_names_text, location_text, parse_error_text, symbol_clauses_text, symbol_parameters, symbol_parameters_text, symbol_text, token_text, triple_text};
ghost use Rattle.lp_parts.specs.Variants.{nonterminal_type, nonterminal_variants, terminal_type, terminal_variants};
ghost use Rattle.lp_repr.specs.ShownTypes.{type_text};
ghost use Rattle.lp_repr.specs.declared.repr.NonterminalString.{NonterminalString};
ghost use Rattle.lp_repr.specs.declared.repr.TerminalString.{TerminalString};
ghost use Rattle.lp_table.specs.Pieces.{spanned_symbol_text, variant_types_shown};
ghost use Rattle.lp_table.specs.Starts.{is_fallible, is_start, location_name, state_name, start_for, start_of, symbol_type, visibility_or_none};

use lp_parts::number_type::state_type;
use lp_parts::texts::{ParameterTexts, SymbolTexts, TypeTexts};
use lp_parts::variants::Variants;
use lp_repr::Lr1State;
use lp_repr::numbering::{Numbers, SymbolNumber, productions};
use lp_repr::repr::{Grammar, NonterminalString, Production, Symbol, TerminalString, TypeRepr};
use std::alloc::{AllocError, Global};

/// A start: its public name, its nonterminal, and the type and the visibility of that.
#[derive(Drop)]
pub struct StartTexts<'t> {
    pub public_name: &'t str,
    pub nonterminal: &'t NonterminalString,
    pub ty: String,
    /// Nothing, `pub ` or `pub(path) `.
    pub visibility: String,
}

impl<'t> StartTexts<'t> {
    /// What the text of the start `nonterminal` says, whose parser is called by `public_name`. The error is
    /// want of memory.
    pub fn new(
        alloc: Global,
        grammar: &'t Grammar,
        public_name: &'t NonterminalString,
        nonterminal: &'t NonterminalString,
    ) -> Result<StartTexts<'t>, AllocError>
        ensures { IfOk result (λ s. start_of s ≡ start_for grammar.entry.now public_name.entry.now nonterminal.entry.now) }
    {
        let ty = nonterminal_type(grammar, nonterminal).to_string(alloc)?;
        let visibility = visibility_of(alloc, grammar, nonterminal)?;
        Ok(StartTexts {
            public_name: public_name.0.as_str(),
            nonterminal,
            ty,
            visibility,
        })
    }
}

/// The visibility of a nonterminal, none where it isn't there.
fn visibility_of(
    alloc: Global,
    grammar: &Grammar,
    nonterminal: &NonterminalString,
) -> Result<String, AllocError>
    ensures { IfOk result (λ s. string_bytes s ≡ visibility_or_none (get nonterminal_cmp grammar.now.nonterminals nonterminal.now)) }
{
    match grammar.nonterminals.get(nonterminal) {
        Some(found) => found.visibility.to_string(alloc),
        None => Ok(String::new(alloc)),
    }
}

/// The type of a terminal's values, that of tokens where it has none of its own.
fn terminal_type<'t>(grammar: &'t Grammar, terminal: &TerminalString) -> &'t TypeRepr
    ensures { result.now ≡ terminal_type grammar.entry.now terminal.now }
{
    match grammar.types.terminals.get(terminal) {
        Some(ty) => ty,
        None => &grammar.types.token,
    }
}

/// The type of a nonterminal's values, that of tokens where it has none of its own.
pub fn nonterminal_type<'t>(grammar: &'t Grammar, nonterminal: &NonterminalString) -> &'t TypeRepr
    ensures { result.now ≡ nonterminal_type grammar.entry.now nonterminal.now }
{
    match grammar.types.nonterminals.get(nonterminal) {
        Some(ty) => ty,
        None => &grammar.types.token,
    }
}

/// The type of a symbol's values, that of tokens where it has none of its own.
pub fn symbol_type<'t>(grammar: &'t Grammar, symbol: &Symbol) -> &'t TypeRepr
    ensures { result.now ≡ symbol_type grammar.entry.now symbol.now }
{
    match symbol {
        Symbol::Nonterminal(nonterminal) => nonterminal_type(grammar, nonterminal),
        Symbol::Terminal(terminal) => terminal_type(grammar, terminal),
    }
}

/// A start's public name and its nonterminal.
pub fn start_at(grammar: &Grammar, start: usize) -> Option<(&NonterminalString, &NonterminalString)>
    ensures there { start < btree_map_len grammar.now.start_nonterminals → IsSome result }
    ensures entry { option_map deref_pair result ≡ slice_get grammar.now.start_nonterminals.entries start }
{
    grammar.start_nonterminals.iter().nth(start)
}

/// What the forms of one module share.
#[derive(Drop)]
pub struct Shared<'t> {
    pub grammar: &'t Grammar,
    pub states: &'t [Lr1State],
    pub start: StartTexts<'t>,
    pub state_type: &'static str,
    pub types: TypeTexts,
    pub symbols: SymbolTexts<'t>,
    pub parameters: ParameterTexts,
    pub numbers: Numbers<'t>,
    pub productions: Vec<&'t Production>,
    pub variants: Variants<'t>,
    ghost state_type_fits: { state_type.now ≡ state_type_of (length states.now) (length (productions_of grammar.now)) },
    ghost location_shown: { string_bytes types.location ≡ location_text grammar.now },
    ghost token_shown: { string_bytes types.token ≡ token_text grammar.now },
    ghost error_shown: { string_bytes types.error ≡ error_text grammar.now },
    ghost parse_error_shown: { string_bytes types.parse_error ≡ parse_error_text grammar.now },
    ghost triple_shown: { string_bytes types.triple ≡ triple_text grammar.now },
    ghost symbol_parameters_kept: { map deref symbols.type_parameters.items ≡ symbol_parameters grammar.now },
    ghost symbol_parameters_shown: { string_bytes symbols.parameters ≡ symbol_parameters_text grammar.now },
    ghost symbol_clauses_shown: { string_bytes symbols.clauses ≡ symbol_clauses_text grammar.now },
    ghost symbol_shown: { string_bytes symbols.symbol ≡ symbol_text grammar.now },
    ghost spanned_symbol_shown: { string_bytes symbols.spanned_symbol ≡ spanned_symbol_text grammar.now },
    ghost generics_shown: { string_bytes parameters.type_parameters ≡ each_with_comma (map parameter_text grammar.now.type_parameters) },
    ghost generic_names_shown: { string_bytes parameters.generic_names ≡ generic_names_text grammar.now },
    ghost arguments_shown: { string_bytes parameters.arguments ≡ arguments_of grammar.now.parameters },
    ghost phantom_type_shown: { string_bytes parameters.phantom_type ≡ phantom_type_of grammar.now.type_parameters },
    ghost phantom_shown: { string_bytes parameters.phantom_expression ≡ phantom_expression_of grammar.now.type_parameters },
    ghost nonterminals_numbered: { (q : NonterminalString) → nonterminal_number numbers.grammar.now q ≡ nonterminal_number grammar.now q },
    ghost terminals_numbered: { (t : TerminalString) → terminal_number numbers.grammar.now t ≡ terminal_number grammar.now t },
    ghost productions_listed: { map deref productions.items ≡ productions_of grammar.now },
    ghost variants_shown: { map type_text (map deref variants.types.items) ≡ variant_types_shown grammar.now },
    ghost terminals_varied: { variants.terminals.items ≡ terminal_variants grammar.now },
    ghost nonterminals_varied: { variants.nonterminals.items ≡ nonterminal_variants grammar.now },
}

impl<'t> Shared<'t> {
    /// What the parts of the module of one start share. The error is want of memory.
    pub fn new(
        alloc: Global,
        grammar: &'t Grammar,
        start: StartTexts<'t>,
        states: &'t [Lr1State],
    ) -> Result<Shared<'t>, AllocError>
        ensures grammar { IfOk result (λ s. s.grammar.now ≡ grammar.entry.now) }
        ensures states { IfOk result (λ s. s.states.now ≡ states.entry.now) }
        ensures start { IfOk result (λ s. start_of s.start ≡ start_of start.entry) }
    {
        let types = TypeTexts::new(alloc, grammar)?;
        let symbols = SymbolTexts::new(alloc, grammar, types.location.as_str())?;
        let parameters = ParameterTexts::new(alloc, grammar)?;
        let numbers = Numbers::new(alloc, grammar)?;
        let productions = productions(alloc, grammar)?;
        let variants = Variants::new(alloc, grammar)?;
        Ok(Shared {
            grammar,
            states,
            start,
            state_type: state_type(states.len(), productions.len()),
            types,
            symbols,
            parameters,
            numbers,
            productions,
            variants,
        })
    }

    /// The type of states.
    #[tactic(auto, unfolding(crate::specs::Starts::state_name))]
    pub fn state_name(&self) -> &str
        ensures { result.now ≡ state_name self.now.grammar.now self.now.states.now }
    {
        self.state_type
    }

    /// The type of locations.
    #[tactic(auto, unfolding(crate::specs::Starts::location_name))]
    pub fn location_name(&self) -> &str
        ensures { result.now ≡ location_name self.now.grammar.now }
    {
        self.types.location.as_str()
    }

    /// The number of a nonterminal, if it is declared.
    pub fn nonterminal(&self, name: &NonterminalString) -> Option<usize>
        ensures { result ≡ nonterminal_number self.now.grammar.now name.now }
    {
        self.numbers.nonterminal(name)
    }

    /// The number of a terminal, if it is declared.
    fn terminal(&self, terminal: &TerminalString) -> Option<usize>
        ensures { result ≡ terminal_number self.now.grammar.now terminal.now }
    {
        self.numbers.terminal(terminal)
    }

    /// The number of a symbol, if it is declared.
    pub fn symbol(&self, symbol: &Symbol) -> Option<SymbolNumber>
        ensures { result ≡ symbol_number self.now.grammar.now symbol.now }
    {
        match symbol {
            Symbol::Nonterminal(name) => self.nonterminal(name).map(SymbolNumber::Nonterminal),
            Symbol::Terminal(terminal) => self.terminal(terminal).map(SymbolNumber::Terminal),
        }
    }

    /// The production is the one whose reduction ends the parse.
    pub fn is_start(&self, production: &Production) -> bool
        ensures { result ≡ is_start (start_of self.now.start) production.now }
    {
        production.nonterminal == *self.start.nonterminal
    }

    /// The action of a production is fallible.
    pub fn is_fallible(&self, production: &Production) -> bool
        ensures { result ≡ is_fallible self.now.grammar.now production.now }
    {
        match self
            .grammar
            .action_fn_defns
            .as_slice()
            .get(production.action)
        {
            Some(action) => action.fallible,
            None => false,
        }
    }
}
