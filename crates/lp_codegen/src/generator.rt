//! What prints the parts of one module to a writer.

ghost use Rattle.std.specs.Prelude.{◌≡◌, [], ◌∷◌, codes, map, string_bytes, IfOk};
ghost use Rattle.std.specs.Fn.{FnOnceReturnsAtMut, FnOnceTakesAtMut};
ghost use Rattle.lp_parts.specs.Phantom.{phantom_expression_of, phantom_type_of};
ghost use Rattle.lp_write.specs.Lines.Line.{line};
ghost use Rattle.lp_write.specs.Writes.{ending, writing, Writes, write_ending};
ghost use Rattle.lp_codegen.specs.Generators.{closing_lines, head_lines, parser_lines, source_lines, uses_lines};
ghost use Rattle.lp_codegen.specs.ModuleCalls.{IsOpened, WritesModule};
ghost use Rattle.lp_codegen.specs.declared.generator.CodeGenerator.{CodeGenerator};

use crate::calls::{
    close_module, close_parser, open_module, write_parser, write_source, write_uses,
};
use lp_parts::phantom::{phantom_expression, phantom_type};
use lp_repr::Lr1State;
use lp_repr::repr::{Grammar, NonterminalString, Types};
use lp_write::{Failed, RustWrite, Sink, WriteError};
use std::alloc::{AllocError, Global};

/// What prints the parts of the module of one start to a writer. `C` is what a kind of code adds.
#[derive(Drop)]
pub struct CodeGenerator<'codegen, 'grammar, W, C> {
    alloc: Global,
    pub grammar: &'grammar Grammar,
    /// In front of each name that the text makes itself.
    pub prefix: &'grammar str,
    /// The types of the grammar.
    pub types: &'grammar Types,
    /// The public name.
    pub user_start_symbol: &'grammar NonterminalString,
    /// The nonterminal of the start.
    pub start_symbol: &'grammar NonterminalString,
    /// The states of the start, by number.
    pub states: &'codegen [Lr1State],
    /// Where the lines go.
    pub out: &'codegen mut RustWrite<W>,
    /// The path of the module that has the actions, as `super`.
    pub action_module: &'codegen str,
    /// What the kind of code adds.
    pub custom: C,
    /// The tokens can be gone through again.
    pub repeatable: bool,
}

impl<'codegen, 'grammar, W: Sink, C> CodeGenerator<'codegen, 'grammar, W, C> {
    /// What prints to `out`, which it leaves as it is; the prefix and the types are the grammar's.
    pub fn new(
        alloc: Global,
        grammar: &'grammar Grammar,
        user_start_symbol: &'grammar NonterminalString,
        start_symbol: &'grammar NonterminalString,
        states: &'codegen [Lr1State],
        out: &'codegen mut RustWrite<W>,
        repeatable: bool,
        action_module: &'codegen str,
        custom: C,
    ) -> Self
        ensures grammar { result.grammar.now ≡ grammar.entry.now }
        ensures prefix { result.prefix.now ≡ grammar.entry.now.prefix }
        ensures types { result.types.now ≡ grammar.entry.now.types }
        ensures user_start_symbol { result.user_start_symbol.now ≡ user_start_symbol.entry.now }
        ensures start_symbol { result.start_symbol.now ≡ start_symbol.entry.now }
        ensures states { result.states.now ≡ states.entry.now }
        ensures same_reference { result.out.ghost_name ≡ out.entry.ghost_name }
        ensures same_writer { result.out.now ≡ out.old }
        ensures repeatable { result.repeatable ≡ repeatable }
        ensures action_module { result.action_module.now ≡ action_module.entry.now }
        ensures custom { result.custom ≡ custom }
    {
        CodeGenerator {
            alloc,
            grammar,
            prefix: grammar.prefix.as_str(),
            types: &grammar.types,
            user_start_symbol,
            start_symbol,
            states,
            out,
            action_module,
            custom,
            repeatable,
        }
    }

    /// Appends the uses of a module: those of the grammar, one that begins with `super::` after the
    /// path of the action module, those of every module, and where the tokens come from.
    pub fn write_uses(&mut self) -> Result<(), WriteError>
        ensures lines { Writes (write_ending result) (writing W.told self.old.out.now) (writing W.told self.new.out.now) (map line (uses_lines self.old)) }
        ensures same_reference { self.new.out.ghost_name ≡ self.old.out.ghost_name }
        ensures kept { self.new ≡ record self.old { out = self.new.out } }
    {
        write_uses(
            self.alloc,
            self.out,
            self.grammar,
            self.action_module,
            self.prefix,
        )
    }

    /// Appends the parser up to the bracket that opens the body of its `parse` method. A start that
    /// isn't declared is private, and one without a type has that of the tokens.
    pub fn start_parser_fn(&mut self) -> Result<(), WriteError>
        ensures lines { Writes (write_ending result) (writing W.told self.old.out.now) (writing W.told self.new.out.now) (map line (parser_lines self.old)) }
        ensures same_reference { self.new.out.ghost_name ≡ self.old.out.ghost_name }
        ensures kept { self.new ≡ record self.old { out = self.new.out } }
    {
        write_parser(
            self.alloc,
            self.out,
            self.grammar,
            self.start_symbol,
            self.user_start_symbol.0.as_str(),
            self.action_module,
            self.prefix,
            self.repeatable,
        )
    }

    /// Appends where the tokens come from: the matcher of an interned grammar, else the list that
    /// was handed in.
    pub fn define_tokens(&mut self) -> Result<(), WriteError>
        ensures lines { Writes (write_ending result) (writing W.told self.old.out.now) (writing W.told self.new.out.now) (map line (source_lines self.old)) }
        ensures same_reference { self.new.out.ghost_name ≡ self.old.out.ghost_name }
        ensures kept { self.new ≡ record self.old { out = self.new.out } }
    {
        write_source(
            self.alloc,
            self.out,
            self.grammar,
            self.repeatable,
            self.prefix,
        )
    }

    /// Appends the brackets that close the `parse` method and the parser.
    pub fn end_parser_fn(&mut self) -> Result<(), Failed>
        ensures lines { Writes (ending result) (writing W.told self.old.out.now) (writing W.told self.new.out.now) (map line closing_lines) }
        ensures same_reference { self.new.out.ghost_name ≡ self.old.out.ghost_name }
        ensures kept { self.new ≡ record self.old { out = self.new.out } }
    {
        close_parser(self.out)
    }

    /// The type of phantom data that uses each type parameter of the grammar.
    pub fn phantom_data_type(&self) -> Result<String, AllocError>
        ensures { IfOk result (λ s. string_bytes s ≡ phantom_type_of self.now.grammar.now.type_parameters) }
    {
        phantom_type(self.alloc, self.grammar.type_parameters.as_slice())
    }

    /// The phantom data itself.
    pub fn phantom_data_expr(&self) -> Result<String, AllocError>
        ensures { IfOk result (λ s. string_bytes s ≡ phantom_expression_of self.now.grammar.now.type_parameters) }
    {
        phantom_expression(self.alloc, self.grammar.type_parameters.as_slice())
    }

    /// Appends the lines of a module before those of its body.
    fn open_module(&mut self) -> Result<(), WriteError>
        ensures lines { Writes (write_ending result) (writing W.told self.old.out.now) (writing W.told self.new.out.now) (map line (head_lines self.old)) }
        ensures same_reference { self.new.out.ghost_name ≡ self.old.out.ghost_name }
        ensures kept { self.new ≡ record self.old { out = self.new.out } }
    {
        open_module(
            self.alloc,
            self.out,
            self.grammar,
            self.start_symbol.0.as_str(),
            self.action_module,
            self.prefix,
        )
    }

    /// Appends the last line of a module.
    fn close_module(&mut self) -> Result<(), WriteError>
        ensures lines { Writes (write_ending result) (writing W.told self.old.out.now) (writing W.told self.new.out.now) (map line (codes "}" ∷ [])) }
        ensures same_reference { self.new.out.ghost_name ≡ self.old.out.ghost_name }
        ensures kept { self.new ≡ record self.old { out = self.new.out } }
    {
        close_module(self.out)
    }
}

impl<'generator, W: Sink, C> CodeGenerator<'generator, 'generator, W, C> {
    /// Appends a module round what the body appends: the module's head and uses, the lines of the
    /// body, and the bracket that closes the module. A refusal of the body is handed on as it is.
    pub fn write_parse_mod<F: FnOnce(&mut Self) -> Result<(), WriteError>>(
        &mut self,
        body: F,
    ) -> Result<(), WriteError>
        requires { (opened : CodeGenerator W C) → IsOpened W.told self.old opened → FnOnceTakesAtMut F.FnOnce body opened }
        ensures { WritesModule W.told (FnOnceReturnsAtMut F.FnOnce body) self.old self.new result }
    {
        self.open_module()?;
        run_body(self, body)?;
        self.close_module()
    }
}

/// Runs the body of a module.
fn run_body<G, F: FnOnce(&mut G) -> Result<(), WriteError>>(
    generator: &mut G,
    body: F,
) -> Result<(), WriteError>
    requires { FnOnceTakesAtMut F.FnOnce body generator.old }
    ensures { FnOnceReturnsAtMut F.FnOnce body generator.old result generator.new }
{
    body(generator)
}
