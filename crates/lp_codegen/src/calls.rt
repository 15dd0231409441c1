//! What a code generator writes, over a grammar and a writer.

ghost use Rattle.std.specs.Prelude.{◌≡◌, [], ◌∷◌, codes, map, string_bytes, IfOk};
ghost use Rattle.std.specs.BTreeMap.{get};
ghost use Rattle.lp_parts.specs.Variants.{nonterminal_type};
ghost use Rattle.lp_repr.specs.NameOrder.{nonterminal_cmp};
ghost use Rattle.lp_repr.specs.Shown.{visibility_text};
ghost use Rattle.lp_write.specs.Headers.{header_lines};
ghost use Rattle.lp_write.specs.Lines.Line.{line};
ghost use Rattle.lp_write.specs.Writes.{ending, writing, Writes, write_ending};
ghost use Rattle.lp_codegen.specs.Generators.{answer_of, closing_lines, front_of, head_of, header_of, is_interned, parser_of, uses_of, visibility_in, visibility_or};
ghost use Rattle.lp_codegen.specs.Modules.{module_head, token_use};
ghost use Rattle.lp_codegen.specs.Texts.{texts_header};
ghost use Rattle.lp_codegen.specs.Parsers.{token_generics, token_parameters, token_source};

use crate::header::{HeaderTexts, header_lines, parse_header};
use crate::lines::{write_found, write_line};
use crate::modules::{inside_of, module_head, token_use};
use crate::parsers::{parse_answer, parser_front, token_generics, token_parameters, token_source};
use lp_parts::texts::TypeTexts;
use lp_repr::Text;
use lp_repr::parse_tree::Visibility;
use lp_repr::repr::{Grammar, NonterminalString, TypeRepr};
use lp_write::{Failed, RustWrite, Sink, WriteError};
use std::alloc::{AllocError, Global};

/// Appends the uses of a module, and where its tokens come from.
pub(crate) fn write_uses<W: Sink>(
    alloc: Global,
    out: &mut RustWrite<W>,
    grammar: &Grammar,
    action_module: &str,
    prefix: &str,
) -> Result<(), WriteError>
    ensures { Writes (write_ending result) (writing W.told out.old) (writing W.told out.new) (map line (uses_of grammar.now action_module.now prefix.now)) }
{
    let front = inside_of(alloc, action_module)?;
    let last = token_use_of(alloc, grammar, action_module, prefix)?;
    out.write_uses(alloc, front.as_str(), grammar)?;
    write_line(out, last.as_str())
}

/// Appends the lines of a module before those of its own.
pub(crate) fn open_module<W: Sink>(
    alloc: Global,
    out: &mut RustWrite<W>,
    grammar: &Grammar,
    start: &str,
    action_module: &str,
    prefix: &str,
) -> Result<(), WriteError>
    ensures { Writes (write_ending result) (writing W.told out.old) (writing W.told out.new) (map line (head_of grammar.now start.now action_module.now prefix.now)) }
{
    write_head(alloc, out, prefix, start)?;
    write_uses(alloc, out, grammar, action_module, prefix)
}

/// Appends the lines of a module before its uses.
fn write_head<W: Sink>(
    alloc: Global,
    out: &mut RustWrite<W>,
    prefix: &str,
    start: &str,
) -> Result<(), WriteError>
    ensures { Writes (write_ending result) (writing W.told out.old) (writing W.told out.new) (map line (module_head prefix.now start.now)) }
{
    write_found(out, module_head(alloc, prefix, start))
}

/// Appends the last line of a module.
pub(crate) fn close_module<W: Sink>(out: &mut RustWrite<W>) -> Result<(), WriteError>
    ensures { Writes (write_ending result) (writing W.told out.old) (writing W.told out.new) (map line (codes "}" ∷ [])) }
{
    write_line(out, "}")
}

/// Appends a parser up to the bracket that opens the body of its `parse` method.
pub(crate) fn write_parser<W: Sink>(
    alloc: Global,
    out: &mut RustWrite<W>,
    grammar: &Grammar,
    start: &NonterminalString,
    name: &str,
    action_module: &str,
    prefix: &str,
    repeatable: bool,
) -> Result<(), WriteError>
    ensures { Writes (write_ending result) (writing W.told out.old) (writing W.told out.new) (map line (parser_of grammar.now start.now name.now action_module.now prefix.now repeatable)) }
{
    write_front(alloc, out, grammar, start, name, action_module, prefix)?;
    write_parse_header(alloc, out, grammar, start, prefix, repeatable)?;
    write_line(out, "{")
}

/// Appends the lines of a parser before the header of its `parse` method.
fn write_front<W: Sink>(
    alloc: Global,
    out: &mut RustWrite<W>,
    grammar: &Grammar,
    start: &NonterminalString,
    name: &str,
    action_module: &str,
    prefix: &str,
) -> Result<(), WriteError>
    ensures { Writes (write_ending result) (writing W.told out.old) (writing W.told out.new) (map line (front_of grammar.now start.now name.now action_module.now prefix.now)) }
{
    let lines = front_of(alloc, grammar, start, name, action_module, prefix);
    write_found(out, lines)
}

/// Appends the header of `parse`.
fn write_parse_header<W: Sink>(
    alloc: Global,
    out: &mut RustWrite<W>,
    grammar: &Grammar,
    start: &NonterminalString,
    prefix: &str,
    repeatable: bool,
) -> Result<(), WriteError>
    ensures { Writes (write_ending result) (writing W.told out.old) (writing W.told out.new) (map line (header_lines (visibility_in grammar.now start.now) (header_of grammar.now start.now prefix.now repeatable))) }
{
    let lines = lines_of_header(alloc, grammar, start, prefix, repeatable);
    write_found(out, lines)
}

/// The lines of the header of `parse`.
fn lines_of_header(
    alloc: Global,
    grammar: &Grammar,
    start: &NonterminalString,
    prefix: &str,
    repeatable: bool,
) -> Result<Vec<Text>, AllocError>
    ensures { IfOk result (λ v. v.items ≡ header_lines (visibility_in grammar.now start.now) (header_of grammar.now start.now prefix.now repeatable)) }
{
    let texts = texts_of_header(alloc, grammar, start, prefix, repeatable)?;
    let private = Visibility::Priv;
    header_lines(alloc, visibility_or(grammar, start, &private), &texts)
}

/// The texts of the header of `parse`.
fn texts_of_header(
    alloc: Global,
    grammar: &Grammar,
    start: &NonterminalString,
    prefix: &str,
    repeatable: bool,
) -> Result<HeaderTexts, AllocError>
    ensures { IfOk result (λ h. texts_header h ≡ header_of grammar.now start.now prefix.now repeatable) }
{
    let generics = generics_of(alloc, grammar, prefix, repeatable)?;
    let parameters = parameters_of(alloc, grammar, prefix)?;
    let answer = answer_of(alloc, grammar, start)?;
    parse_header(alloc, grammar, generics, parameters, answer)
}

/// Appends where the tokens come from.
pub(crate) fn write_source<W: Sink>(
    alloc: Global,
    out: &mut RustWrite<W>,
    grammar: &Grammar,
    repeatable: bool,
    prefix: &str,
) -> Result<(), WriteError>
    ensures { Writes (write_ending result) (writing W.told out.old) (writing W.told out.new) (map line (token_source (is_interned grammar.now) repeatable prefix.now)) }
{
    let lines = source_of(alloc, grammar, repeatable, prefix);
    write_found(out, lines)
}

/// Appends the brackets that close a `parse` method and its parser.
pub(crate) fn close_parser<W: Sink>(out: &mut RustWrite<W>) -> Result<(), Failed>
    ensures { Writes (ending result) (writing W.told out.old) (writing W.told out.new) (map line closing_lines) }
{
    out.line("}")?;
    out.line("}")
}

/// The tokens are made by the module of tokens.
fn is_interned(grammar: &Grammar) -> bool
    ensures { result ≡ is_interned grammar.now }
{
    grammar.intern_token.is_some()
}

/// Where the tokens of a module come from.
fn token_use_of(
    alloc: Global,
    grammar: &Grammar,
    action_module: &str,
    prefix: &str,
) -> Result<Text, AllocError>
    ensures { IfOk result (λ t. t ≡ token_use (is_interned grammar.now) action_module.now prefix.now) }
{
    token_use(alloc, is_interned(grammar), action_module, prefix)
}

/// The lines of a parser before the header of its `parse` method.
fn front_of(
    alloc: Global,
    grammar: &Grammar,
    start: &NonterminalString,
    name: &str,
    action_module: &str,
    prefix: &str,
) -> Result<Vec<Text>, AllocError>
    ensures { IfOk result (λ v. v.items ≡ front_of grammar.now start.now name.now action_module.now prefix.now) }
{
    let visibility = visibility_text(alloc, grammar, start)?;
    let interned = is_interned(grammar);
    parser_front(
        alloc,
        interned,
        action_module,
        prefix,
        visibility.as_str(),
        name,
    )
}

/// The further type parameters of `parse`.
fn generics_of(
    alloc: Global,
    grammar: &Grammar,
    prefix: &str,
    repeatable: bool,
) -> Result<Vec<Text>, AllocError>
    ensures { IfOk result (λ v. v.items ≡ token_generics (is_interned grammar.now) repeatable prefix.now grammar.now.type_parameters) }
{
    let declared = grammar.type_parameters.as_slice();
    token_generics(alloc, is_interned(grammar), repeatable, prefix, declared)
}

/// The further parameters of `parse`.
fn parameters_of(alloc: Global, grammar: &Grammar, prefix: &str) -> Result<Vec<Text>, AllocError>
    ensures { IfOk result (λ v. v.items ≡ token_parameters (is_interned grammar.now) prefix.now) }
{
    token_parameters(alloc, is_interned(grammar), prefix)
}

/// What `parse` of a start nonterminal answers.
fn answer_of(
    alloc: Global,
    grammar: &Grammar,
    start: &NonterminalString,
) -> Result<Text, AllocError>
    ensures { IfOk result (λ t. t ≡ answer_of grammar.now start.now) }
{
    let ty = type_in(grammar, start).to_string(alloc)?;
    let texts = TypeTexts::new(alloc, grammar)?;
    parse_answer(alloc, ty.as_str(), texts.parse_error.as_str())
}

/// Where the tokens come from.
fn source_of(
    alloc: Global,
    grammar: &Grammar,
    repeatable: bool,
    prefix: &str,
) -> Result<Vec<Text>, AllocError>
    ensures { IfOk result (λ v. v.items ≡ token_source (is_interned grammar.now) repeatable prefix.now) }
{
    token_source(alloc, is_interned(grammar), repeatable, prefix)
}

/// The visibility of a nonterminal, another one where it isn't declared.
fn visibility_or<'g>(
    grammar: &'g Grammar,
    nonterminal: &NonterminalString,
    other: &'g Visibility,
) -> &'g Visibility
    ensures { result.now ≡ visibility_or other.entry.now (get nonterminal_cmp grammar.entry.now.nonterminals nonterminal.now) }
{
    match grammar.nonterminals.get(nonterminal) {
        Some(found) => &found.visibility,
        None => other,
    }
}

/// The text of the visibility of a nonterminal, which is private where it isn't declared.
fn visibility_text(
    alloc: Global,
    grammar: &Grammar,
    nonterminal: &NonterminalString,
) -> Result<String, AllocError>
    ensures { IfOk result (λ s. string_bytes s ≡ visibility_text (visibility_in grammar.now nonterminal.now)) }
{
    let private = Visibility::Priv;
    visibility_or(grammar, nonterminal, &private).to_string(alloc)
}

/// The type of a nonterminal's values, that of tokens where it has none of its own.
fn type_in<'g>(grammar: &'g Grammar, nonterminal: &NonterminalString) -> &'g TypeRepr
    ensures { result.now ≡ nonterminal_type grammar.entry.now nonterminal.now }
{
    match grammar.types.nonterminals.get(nonterminal) {
        Some(ty) => ty,
        None => &grammar.types.token,
    }
}
