//! Headers of functions.

ghost use Rattle.std.specs.Prelude.{◌≡◌, ℕ, List, [], ◌∷◌, ◌++◌, map, IfOk, OnOk, OnErr, Some, string_bytes, codes};
ghost use Rattle.std.specs.Borrow.{sem};
ghost use Rattle.std.specs.List.{AllZip};
ghost use Rattle.lp_write.specs.Headers.{header, header_of, visibility_of, writer_of, empty_header, listed, opening, closing, where_lines, parameter_lines, header_lines, AddsGrammar, RestsIfRefused};
ghost use Rattle.lp_write.specs.Lines.Line.{line};
ghost use Rattle.lp_write.specs.Texts.{IsShownAs, AreShownAs};
ghost use Rattle.lp_write.specs.Writes.{writing, Writes, write_ending};

use crate::rust::{RustWrite, WriteError};
use crate::sinks::Sink;
use lp_repr::Text;
use lp_repr::parse_tree::Visibility;
use lp_repr::repr::{Grammar, Parameter};
use std::alloc::{AllocError, Global};
use std::fmt::Display;

/// The texts of a header.
#[derive(Drop)]
pub struct HeaderTexts {
    alloc: Global,
    name: Text,
    type_parameters: Vec<Text>,
    parameters: Vec<Text>,
    return_type: Option<Text>,
    where_clauses: Vec<Text>,
}

/// The header of a function, up to and without the `{` of its body. It is made of a name, and lists
/// are added to it. A call that finds no memory for them lets the header go with nothing written.
#[derive(Drop)]
pub struct FnHeader<'me, W, V = &'me Visibility, T = HeaderTexts> {
    write: &'me mut RustWrite<W>,
    visibility: V,
    texts: T,
}

impl<'me, W: Sink> FnHeader<'me, W> {
    /// A header without parameters, of a function that answers `()`.
    pub fn new(
        alloc: Global,
        write: &'me mut RustWrite<W>,
        visibility: &'me Visibility,
        name: String,
    ) -> Self
        ensures same_reference { (writer_of result).ghost_name ≡ write.entry.ghost_name }
        ensures same_writer { (writer_of result).now ≡ write.old }
        ensures same_visibility { (visibility_of result).now ≡ visibility.now }
        ensures header { header result ≡ empty_header (string_bytes name) }
    {
        FnHeader {
            write,
            visibility,
            texts: HeaderTexts {
                alloc,
                name: Text(name),
                type_parameters: Vec::new(alloc),
                parameters: Vec::new(alloc),
                return_type: None,
                where_clauses: Vec::new(alloc),
            },
        }
    }

    /// Appends the header.
    pub fn emit(self) -> Result<(), WriteError>
        ensures { Writes (write_ending result) (writing W.told (writer_of self.entry).now) (writing W.told self.exit.0.now) (map line (header_lines (visibility_of self.entry).now (header self.entry))) }
    {
        let FnHeader {
            write,
            visibility,
            texts,
        } = self;
        write.write_lines(header_lines(visibility, &texts))
    }
}

impl<'me, W: Sink, V: Drop> FnHeader<'me, W, V> {
    /// Adds the type parameters, the where clauses and the parameters of the grammar.
    pub fn with_grammar(self, grammar: &Grammar) -> Result<Self, AllocError>
        ensures* refused { sem 𝓛 (RestsIfRefused W.row self.entry result) }
        ensures same_reference { IfOk result (λ h. (writer_of h).ghost_name ≡ (writer_of self.entry).ghost_name) }
        ensures same_writer { IfOk result (λ h. (writer_of h).now ≡ (writer_of self.entry).now) }
        ensures same_visibility { IfOk result (λ h. visibility_of h ≡ visibility_of self.entry) }
        ensures added { IfOk result (λ h. AddsGrammar ⟦<lp_repr::repr::WhereClause as Display>⟧.output ⟦<Parameter as ParameterDisplay>⟧.IsParameterText grammar.now (header self.entry) (header h)) }
    {
        let FnHeader {
            write,
            visibility,
            mut texts,
        } = self;
        push_grammar(&mut texts, grammar)?;
        Ok(FnHeader {
            write,
            visibility,
            texts,
        })
    }

    /// Adds type parameters; lifetimes have to come first.
    pub fn with_type_parameters<T: Display>(self, tps: &[T]) -> Result<Self, AllocError>
        ensures* refused { sem 𝓛 (RestsIfRefused W.row self.entry result) }
        ensures same_reference { IfOk result (λ h. (writer_of h).ghost_name ≡ (writer_of self.entry).ghost_name) }
        ensures same_writer { IfOk result (λ h. (writer_of h).now ≡ (writer_of self.entry).now) }
        ensures same_visibility { IfOk result (λ h. visibility_of h ≡ visibility_of self.entry) }
        ensures added { IfOk result (λ h. (texts : List (List ℕ)) × AreShownAs T.output tps.now texts × (header h ≡ record (header self.entry) { type_parameters = (header self.entry).type_parameters ++ texts })) }
    {
        let FnHeader {
            write,
            visibility,
            mut texts,
        } = self;
        push_shown(texts.alloc, &mut texts.type_parameters, tps)?;
        Ok(FnHeader {
            write,
            visibility,
            texts,
        })
    }

    /// Adds where clauses.
    pub fn with_where_clauses<T: Display>(self, wcs: &[T]) -> Result<Self, AllocError>
        ensures* refused { sem 𝓛 (RestsIfRefused W.row self.entry result) }
        ensures same_reference { IfOk result (λ h. (writer_of h).ghost_name ≡ (writer_of self.entry).ghost_name) }
        ensures same_writer { IfOk result (λ h. (writer_of h).now ≡ (writer_of self.entry).now) }
        ensures same_visibility { IfOk result (λ h. visibility_of h ≡ visibility_of self.entry) }
        ensures added { IfOk result (λ h. (texts : List (List ℕ)) × AreShownAs T.output wcs.now texts × (header h ≡ record (header self.entry) { where_clauses = (header self.entry).where_clauses ++ texts })) }
    {
        let FnHeader {
            write,
            visibility,
            mut texts,
        } = self;
        push_shown(texts.alloc, &mut texts.where_clauses, wcs)?;
        Ok(FnHeader {
            write,
            visibility,
            texts,
        })
    }

    /// Adds parameters.
    pub fn with_parameters<P: ParameterDisplay>(self, parameters: &[P]) -> Result<Self, AllocError>
        ensures* refused { sem 𝓛 (RestsIfRefused W.row self.entry result) }
        ensures same_reference { IfOk result (λ h. (writer_of h).ghost_name ≡ (writer_of self.entry).ghost_name) }
        ensures same_writer { IfOk result (λ h. (writer_of h).now ≡ (writer_of self.entry).now) }
        ensures same_visibility { IfOk result (λ h. visibility_of h ≡ visibility_of self.entry) }
        ensures added { IfOk result (λ h. (texts : List (List ℕ)) × AllZip P.IsParameterText parameters.now texts × (header h ≡ record (header self.entry) { parameters = (header self.entry).parameters ++ texts })) }
    {
        let FnHeader {
            write,
            visibility,
            mut texts,
        } = self;
        push_parameters(texts.alloc, &mut texts.parameters, parameters)?;
        Ok(FnHeader {
            write,
            visibility,
            texts,
        })
    }

    /// Sets the type that the function answers.
    pub fn with_return_type<R: Display>(self, rt: &R) -> Result<Self, AllocError>
        ensures* refused { sem 𝓛 (RestsIfRefused W.row self.entry result) }
        ensures same_reference { IfOk result (λ h. (writer_of h).ghost_name ≡ (writer_of self.entry).ghost_name) }
        ensures same_writer { IfOk result (λ h. (writer_of h).now ≡ (writer_of self.entry).now) }
        ensures same_visibility { IfOk result (λ h. visibility_of h ≡ visibility_of self.entry) }
        ensures set { IfOk result (λ h. (text : List ℕ) × IsShownAs (R.output rt.now) text × (header h ≡ record (header self.entry) { return_type = Some text })) }
    {
        let FnHeader {
            write,
            visibility,
            mut texts,
        } = self;
        texts.return_type = Some(Text(rt.to_string(texts.alloc)?));
        Ok(FnHeader {
            write,
            visibility,
            texts,
        })
    }
}

/// Adds the lists of a grammar.
fn push_grammar(texts: &mut HeaderTexts, grammar: &Grammar) -> Result<(), AllocError>
    ensures { OnOk result (AddsGrammar ⟦<lp_repr::repr::WhereClause as Display>⟧.output ⟦<Parameter as ParameterDisplay>⟧.IsParameterText grammar.now (header_of texts.old) (header_of texts.new)) }
{
    let alloc = texts.alloc;
    push_shown(
        alloc,
        &mut texts.type_parameters,
        grammar.type_parameters.as_slice(),
    )?;
    push_shown(
        alloc,
        &mut texts.where_clauses,
        grammar.where_clauses.as_slice(),
    )?;
    push_parameters(alloc, &mut texts.parameters, grammar.parameters.as_slice())
}

/// Adds the texts that values are shown as.
fn push_shown<T: Display>(
    alloc: Global,
    texts: &mut Vec<Text>,
    shown: &[T],
) -> Result<(), AllocError>
    ensures { OnOk result ((added : List (List ℕ)) × AreShownAs T.output shown.now added × (texts.new.items ≡ texts.old.items ++ added)) }
{
    for x in shown {
        texts.push(Text(x.to_string(alloc)?))?;
    }
    Ok(())
}

/// Adds the texts of parameters.
fn push_parameters<P: ParameterDisplay>(
    alloc: Global,
    texts: &mut Vec<Text>,
    parameters: &[P],
) -> Result<(), AllocError>
    ensures { OnOk result ((added : List (List ℕ)) × AllZip P.IsParameterText parameters.now added × (texts.new.items ≡ texts.old.items ++ added)) }
{
    for parameter in parameters {
        texts.push(Text(parameter.to_parameter_string(alloc)?))?;
    }
    Ok(())
}

/// The lines of a header.
fn header_lines(visibility: &Visibility, texts: &HeaderTexts) -> Result<Vec<Text>, AllocError>
    ensures { IfOk result (λ lines. lines.items ≡ header_lines visibility.now (header_of texts.now)) }
{
    let alloc = texts.alloc;
    let mut lines = parameter_lines(visibility, texts)?;
    lines.push(closing(alloc, &texts.return_type)?)?;
    push_where(alloc, &mut lines, texts.where_clauses.as_slice())?;
    Ok(lines)
}

/// The lines up to the parameters.
fn parameter_lines(visibility: &Visibility, texts: &HeaderTexts) -> Result<Vec<Text>, AllocError>
    ensures { IfOk result (λ lines. lines.items ≡ parameter_lines visibility.now (header_of texts.now)) }
{
    let alloc = texts.alloc;
    let mut lines = Vec::new(alloc);
    lines.push(opening(alloc, visibility, &texts.name)?)?;
    push_listed(alloc, &mut lines, "    ", texts.type_parameters.as_slice())?;
    lines.push(Text::from_str(alloc, ">(")?)?;
    push_listed(alloc, &mut lines, "", texts.parameters.as_slice())?;
    Ok(lines)
}

/// The line with the name.
fn opening(alloc: Global, visibility: &Visibility, name: &Text) -> Result<Text, AllocError>
    ensures { IfOk result (λ text. text ≡ opening visibility.now name.now) }
{
    Ok(Text(format!(in alloc; "{visibility}fn {name}<")?))
}

/// A line per text, after a front and with a `,`.
fn push_listed(
    alloc: Global,
    lines: &mut Vec<Text>,
    front: &str,
    texts: &[Text],
) -> Result<(), AllocError>
    ensures { OnOk result (lines.new.items ≡ lines.old.items ++ map (listed front.now) texts.now) }
{
    for text in texts {
        lines.push(Text(format!(in alloc; "{front}{text},")?))?;
    }
    Ok(())
}

/// The line that closes the parameters.
fn closing(alloc: Global, return_type: &Option<Text>) -> Result<Text, AllocError>
    ensures { IfOk result (λ text. text ≡ closing return_type.now) }
{
    match return_type {
        Some(text) if text.as_str() != "()" => Ok(Text(format!(in alloc; ") -> {text}")?)),
        _ => Text::from_str(alloc, ")"),
    }
}

/// The lines of where clauses.
fn push_where(alloc: Global, lines: &mut Vec<Text>, clauses: &[Text]) -> Result<(), AllocError>
    ensures { OnOk result (lines.new.items ≡ lines.old.items ++ where_lines clauses.now) }
{
    if clauses.is_empty() {
        return Ok(());
    }
    lines.push(Text::from_str(alloc, "where")?)?;
    push_listed(alloc, lines, "    ", clauses)
}

/// What can stand as a parameter of a function.
pub trait ParameterDisplay {
    /// A text that it may stand as.
    ghost IsParameterText: { Self → List ℕ → Type 0 };

    /// A text that it stands as. The error is want of memory.
    fn to_parameter_string(&self, alloc: Global) -> Result<String, AllocError>
        ensures { IfOk result (λ text. IsParameterText self.now (string_bytes text)) };
}

/// The text itself, as `name: type`.
impl ParameterDisplay for String {
    ghost IsParameterText = { λ s text. text ≡ string_bytes s };

    fn to_parameter_string(&self, alloc: Global) -> Result<String, AllocError> {
        String::from_str(alloc, self.as_str())
    }
}

impl ParameterDisplay for Parameter {
    ghost IsParameterText = { λ p text. (ty : List ℕ) × IsShownAs (⟦<lp_repr::repr::TypeRepr as Display>⟧.output p.ty) ty × (text ≡ p.name ++ (codes ": " ++ ty)) };

    fn to_parameter_string(&self, alloc: Global) -> Result<String, AllocError> {
        let ty = self.ty.to_string(alloc)?;
        parameter_string(alloc, &self.name, &ty)
    }
}

fn parameter_string(alloc: Global, name: &Text, ty: &String) -> Result<String, AllocError>
    ensures { IfOk result (λ text. string_bytes text ≡ name.now ++ (codes ": " ++ string_bytes ty.now)) }
{
    format!(in alloc; "{name}: {ty}")
}
