//! The writer of indented lines.

ghost use Rattle.std.specs.Prelude.{◌≡◌, ℕ, ◌+◌, ◌-◌, ◌<◌, ◌≤◌, true, false, List, [], ◌∷◌, ◌++◌, length, map, slice_index, IfOk, OnOk, OnErr, string_bytes};
ghost use Rattle.lp_write.specs.Sinks.{Took, Broke};
ghost use Rattle.lp_write.specs.Lines.{closes, opens, lowered, raised, blanks, indented};
ghost use Rattle.lp_write.specs.Lines.Line.{line, verbatim};
ghost use Rattle.lp_write.specs.Headers.{header, visibility_of, writer_of, empty_header};
ghost use Rattle.lp_write.specs.Rows.{row_text, AreEntryTexts};
ghost use Rattle.lp_write.specs.Uses.{standard_uses, all_uses};
ghost use Rattle.lp_write.specs.Writes.{sink_of, indent_of, options_of, writing, Writes, ending, write_ending};

use crate::headers::FnHeader;
use crate::rows::{entry_texts, row_text};
use crate::sinks::{Failed, Sink, write_all, write_blanks};
use crate::uses::{all_uses, standard_uses};
use crate::util::AsStr;
use lp_repr::Text;
use lp_repr::parse_tree::Visibility;
use lp_repr::repr::Grammar;
use std::alloc::{AllocError, Global};
use std::fmt::Display;
use thiserror::Error;

/// Why a call that takes memory wrote less than it was to write.
#[derive(Clone, Copy, Debug, Error)]
pub enum WriteError {
    /// A write failed; the sink's count of faults rose in this call.
    #[error("write fault")]
    Fault,
    #[error("memory")]
    Memory,
}

impl From<Failed> for WriteError {
    ghost use Rattle.std.specs.Prelude.{◌≡◌};
    ghost use Rattle.lp_write.specs.declared.rust.WriteError.TheVariants.{Fault};

    ghost from_gives = { λ _ e. e ≡ Fault };

    fn from(_failed: Failed) -> WriteError {
        WriteError::Fault
    }
}

impl From<AllocError> for WriteError {
    ghost use Rattle.std.specs.Prelude.{◌≡◌};
    ghost use Rattle.lp_write.specs.declared.rust.WriteError.TheVariants.{Memory};

    ghost from_gives = { λ _ e. e ≡ Memory };

    fn from(_error: AllocError) -> WriteError {
        WriteError::Memory
    }
}

/// How emitted text looks.
#[derive(Clone, Copy, PartialEq, Eq)]
pub struct Options {
    /// Comment lines are printed.
    pub comments: bool,
    /// Indents are printed.
    pub whitespace: bool,
}

impl Default for Options {
    ghost use Rattle.std.specs.Prelude.{true, false};

    ghost is_default = { λ o. o ≡ record { comments = false; whitespace = true } };

    /// No comments, and whitespace on.
    fn default() -> Options {
        Options {
            comments: false,
            whitespace: true,
        }
    }
}

/// By how much an opening bracket at a line's end raises the indent.
const TAB: usize = 4;

/// A writer of lines of Rust. It keeps an indent, which goes by the brackets that begin and end the
/// lines.
#[derive(Drop)]
pub struct RustWrite<W> {
    write: W,
    indent: usize,
    options: Options,
}

fn closes(byte: u8) -> bool
    ensures { result ≡ closes byte }
{
    byte == b'}' || byte == b']' || byte == b')'
}

fn opens(byte: u8) -> bool
    ensures { result ≡ opens byte }
{
    byte == b'{' || byte == b'[' || byte == b'('
}

/// The indent of a text that isn't empty.
fn lowered(indent: usize, text: &[u8]) -> usize
    requires { 0 < length text.now }
    ensures { result ≡ lowered indent text.now }
{
    if closes(text[0]) {
        indent.saturating_sub(TAB)
    } else {
        indent
    }
}

/// The indent after a text that isn't empty.
fn raised(indent: usize, text: &[u8]) -> usize
    requires { 0 < length text.now }
    ensures { result ≡ raised indent text.now }
{
    if opens(text[text.len() - 1]) && indent <= usize::MAX - TAB {
        indent + TAB
    } else {
        indent
    }
}

/// Writes the blanks of an indent, if blanks are printed.
fn write_indent<W: Sink>(sink: &mut W, whitespace: bool, indent: usize) -> Result<(), Failed>
    ensures whole { OnOk result (Took (W.told sink.old) (W.told sink.new) (blanks whitespace indent)) }
    ensures broke { OnErr result (Broke (W.told sink.old) (W.told sink.new) (blanks whitespace indent)) }
{
    if whitespace {
        return write_blanks(sink, indent);
    }
    Ok(())
}

impl<W: Sink> RustWrite<W> {
    /// A writer at indent 0.
    pub fn new(w: W, options: Options) -> RustWrite<W>
        ensures sink { sink_of result ≡ w }
        ensures indent { indent_of result ≡ 0 }
        ensures options { options_of result ≡ options }
    {
        RustWrite {
            write: w,
            indent: 0,
            options,
        }
    }

    /// The sink.
    pub fn into_inner(self) -> W
        ensures { result ≡ sink_of self }
    {
        self.write
    }

    /// The options that it was made with.
    pub fn options(&self) -> Options
        ensures { result ≡ options_of self.now }
    {
        self.options
    }

    /// Appends a line; the text counts as one line. An empty text is a line end alone. A text that
    /// begins with a closing bracket first lowers the indent by 4, down to 0; one that ends with an
    /// opening bracket raises it by 4 for the lines after it.
    pub fn line(&mut self, text: &str) -> Result<(), Failed>
        ensures { Writes (ending result) (writing W.told self.old) (writing W.told self.new) (line text.now ∷ []) }
    {
        let bytes = text.as_bytes();
        if bytes.is_empty() {
            return write_all(&mut self.write, b"\n");
        }
        let indent = lowered(self.indent, bytes);
        self.write_at(indent, bytes)?;
        self.indent = raised(indent, bytes);
        Ok(())
    }

    /// Appends user code: the indent, the code with its own line ends, a line end. The indent stays
    /// as it was.
    pub fn code(&mut self, text: &str) -> Result<(), Failed>
        ensures { Writes (ending result) (writing W.told self.old) (writing W.told self.new) (verbatim text.now ∷ []) }
    {
        let indent = self.indent;
        self.write_at(indent, text.as_bytes())
    }

    /// Appends the text at an indent, and a line end.
    fn write_at(&mut self, indent: usize, text: &[u8]) -> Result<(), Failed>
        ensures whole { OnOk result (Took (W.told self.old.write) (W.told self.new.write) (indented self.old.options.whitespace indent text.now)) }
        ensures broke { OnErr result (Broke (W.told self.old.write) (W.told self.new.write) (indented self.old.options.whitespace indent text.now)) }
        ensures indent { self.new.indent ≡ self.old.indent }
        ensures options { self.new.options ≡ self.old.options }
    {
        write_indent(&mut self.write, self.options.whitespace, indent)?;
        write_all(&mut self.write, text)?;
        write_all(&mut self.write, b"\n")
    }

    /// Appends a line per text, in order.
    pub(crate) fn lines<S: AsStr>(&mut self, texts: &[S]) -> Result<(), Failed>
        ensures { Writes (ending result) (writing W.told self.old) (writing W.told self.new) (map (λ s. line (S.text s)) texts.now) }
    {
        for text in texts {
            self.line(text.as_str())?;
        }
        Ok(())
    }

    /// Appends user code per text, in order.
    fn codes(&mut self, texts: &[Text]) -> Result<(), Failed>
        ensures { Writes (ending result) (writing W.told self.old) (writing W.told self.new) (map verbatim texts.now) }
    {
        for text in texts {
            self.code(text.as_str())?;
        }
        Ok(())
    }

    /// Appends a line per text, if memory for the texts was found.
    pub(crate) fn write_lines(
        &mut self,
        texts: Result<Vec<Text>, AllocError>,
    ) -> Result<(), WriteError>
        ensures { (lines : List (List ℕ)) → IfOk texts (λ found. found.items ≡ lines) → Writes (write_ending result) (writing W.told self.old) (writing W.told self.new) (map line lines) }
    {
        let texts = texts?;
        self.write_texts(texts.as_slice())
    }

    fn write_texts(&mut self, texts: &[Text]) -> Result<(), WriteError>
        ensures { Writes (write_ending result) (writing W.told self.old) (writing W.told self.new) (map line texts.now) }
    {
        self.lines(texts)?;
        Ok(())
    }

    /// Appends a row of a table: its numbers on one line, or, with comments on, one line with the
    /// comment per number and an empty line. The indent stays as it was.
    pub fn write_table_row<C: Display>(
        &mut self,
        alloc: Global,
        row: &[(i32, C)],
    ) -> Result<(), WriteError>
        ensures plain { (options_of self.old).comments ≡ false → Writes (write_ending result) (writing W.told self.old) (writing W.told self.new) (verbatim (row_text (options_of self.old).whitespace row.now) ∷ []) }
        ensures commented { (options_of self.old).comments ≡ true → (texts : List (List ℕ)) × AreEntryTexts C.output row.now texts × Writes (write_ending result) (writing W.told self.old) (writing W.told self.new) (map verbatim texts ++ line [] ∷ []) }
    {
        if self.options.comments {
            self.write_commented_row(alloc, row)
        } else {
            self.write_plain_row(alloc, row)
        }
    }

    fn write_plain_row<C>(&mut self, alloc: Global, row: &[(i32, C)]) -> Result<(), WriteError>
        ensures { Writes (write_ending result) (writing W.told self.old) (writing W.told self.new) (verbatim (row_text self.old.options.whitespace row.now) ∷ []) }
    {
        let text = row_text(alloc, self.options.whitespace, row)?;
        self.code(text.as_str())?;
        Ok(())
    }

    fn write_commented_row<C: Display>(
        &mut self,
        alloc: Global,
        row: &[(i32, C)],
    ) -> Result<(), WriteError>
        ensures { (texts : List (List ℕ)) × AreEntryTexts C.output row.now texts × Writes (write_ending result) (writing W.told self.old) (writing W.told self.new) (map verbatim texts ++ line [] ∷ []) }
    {
        let texts = entry_texts(alloc, row)?;
        self.write_entries(texts.as_slice())?;
        Ok(())
    }

    /// Appends the entries of a row with their comments, and an empty line.
    fn write_entries(&mut self, texts: &[Text]) -> Result<(), Failed>
        ensures { Writes (ending result) (writing W.told self.old) (writing W.told self.new) (map verbatim texts.now ++ line [] ∷ []) }
    {
        self.codes(texts)?;
        self.line("")
    }

    /// Appends the attributes of the grammar's module, one per line.
    pub fn write_module_attributes(&mut self, grammar: &Grammar) -> Result<(), Failed>
        ensures { Writes (ending result) (writing W.told self.old) (writing W.told self.new) (map line grammar.now.module_attributes) }
    {
        self.lines(grammar.module_attributes.as_slice())
    }

    /// Appends a `use` line per use of the grammar, one that begins with `super::` after the
    /// prefix, and then the uses of every module.
    pub fn write_uses(
        &mut self,
        alloc: Global,
        super_prefix: &str,
        grammar: &Grammar,
    ) -> Result<(), WriteError>
        ensures { Writes (write_ending result) (writing W.told self.old) (writing W.told self.new) (map line (all_uses super_prefix.now grammar.now.prefix grammar.now.uses)) }
    {
        self.write_lines(all_uses(
            alloc,
            super_prefix,
            grammar.prefix.as_str(),
            grammar.uses.as_slice(),
        ))
    }

    /// Appends the uses of every module, under the prefix.
    pub fn write_standard_uses(&mut self, alloc: Global, prefix: &str) -> Result<(), WriteError>
        ensures { Writes (write_ending result) (writing W.told self.old) (writing W.told self.new) (map line (standard_uses prefix.now)) }
    {
        self.write_lines(standard_uses(alloc, prefix))
    }

    /// A header of a function of this name, to which lists are added and which then is emitted.
    pub fn fn_header<'me>(
        &'me mut self,
        alloc: Global,
        visibility: &'me Visibility,
        name: String,
    ) -> FnHeader<'me, W>
        ensures same_reference { (writer_of result).ghost_name ≡ self.entry.ghost_name }
        ensures same_writer { (writer_of result).now ≡ self.old }
        ensures same_visibility { (visibility_of result).now ≡ visibility.now }
        ensures header { header result ≡ empty_header (string_bytes name) }
    {
        FnHeader::new(alloc, self, visibility, name)
    }
}
