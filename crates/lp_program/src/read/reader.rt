//! The reader of programs: by the templates of the parts, from the front of the text on.

ghost use Rattle.std.specs.Prelude.{◌≡◌, ℕ, ◌<◌, ◌≤◌, ◌+◌, ◌^◌, ◌++◌, min, true, Some, None, List, [], length, drop, map, codes, IsTrue, MatchResult, IfErr, IfOk, OnOk, IfSome};
ghost use Rattle.std.specs.Bool.{Decides, OnTrue};
ghost use Rattle.lp_form.specs.Templates.{holes_of, steps_of};
ghost use Rattle.lp_form.specs.Templates as template;
ghost use Rattle.lp_form.specs.declared.class.Class.TheVariants as class_of;
ghost use Rattle.lp_form.specs.declared.part.Part.TheVariants as part_of;
ghost use Rattle.lp_form.specs.declared.template.Step.TheVariants as step_of;
ghost use Rattle.lp_spelling.specs.Counting.{front_line, settled};
ghost use Rattle.lp_spelling.specs.Cursors.{left};
ghost use Rattle.lp_spelling.specs.LineNumbers.{past_last};
ghost use Rattle.lp_program.specs.Adding.{kids, Adds, Brings, FilledAt, IsPair, IsPart, MayHave, Opened, OwnTaken, Reread, StepBrings, StepsBring, WholeRead};
ghost use Rattle.lp_program.specs.Answering.{AnswersTrees, AnswersSteps, held};
ghost use Rattle.lp_program.specs.Begins.{Begins, IsUseFirst};
ghost use Rattle.lp_program.specs.Choosing.{AnyChosen, Below, BodyChosen, ClassChosen, EitherChosen, InlinedChosen, IsChosen, IsRefused, MemberChosen, OptionalChosen, PairChosen, PartChosen, PartSteps, StepChosen, WholeChosen};
ghost use Rattle.lp_program.specs.CodeReading.{IsUse, IsCode};
ghost use Rattle.lp_program.specs.Looking.{Chooses, OfLines, Picks};
ghost use Rattle.lp_program.specs.Nearby.{OfLike, next_number};
ghost use Rattle.lp_program.specs.Parameters.{first_or, last_parameter, parameter_after, parameters_of};
ghost use Rattle.lp_program.specs.Printed.{is_member};
ghost use Rattle.lp_program.specs.Reads.{ReadsAs};
ghost use Rattle.lp_program.specs.Starting.{Begun, IsBegun, MemberStarts, OfNewLook, OwnBegun, PairStarts, StepStarts};
ghost use Rattle.lp_program.specs.Starting.Goal.{below_step, one_part};
ghost use Rattle.lp_program.specs.Telling.{AnswersOwn, OwnTold, StepTells, TellsTable, TellsText, told, untold};
ghost use Rattle.lp_program.specs.Trees.{content};
ghost use Rattle.lp_program.specs.Trees.Forest.{bare};

use crate::print::own::tree_count;
use crate::read::growing::{Growing, code_step, line_fits, line_step, lines_step, use_step};
use crate::read::prefix::{NO_PREFIX, prefix_of};
use crate::read::taking::{TakenTable, cut_line, take_entries};
use crate::read::told::{is_blank_part, is_told};
use lp_form::{Class, Line, Part, Step, holes, members, steps};
use lp_spelling::cursor::Cursor;
use lp_spelling::line::Scope;
use lp_tree::piece::Piece;
use lp_tree::tree::{Entry, Program};
use std::alloc::{AllocError, Global};
use std::borrow::CowStr;

/// Why a text wasn't read.
#[derive(Clone, Copy)]
pub enum ReadFault {
    /// The first line, from 1, that fits no form at its place; one past the last line where the
    /// text ends too early. The lines before it begin a program; and no text with the same lines up
    /// to it is read as one that has the prefix which this text shows.
    NoForm { line: usize },
    Memory,
}

impl From<AllocError> for ReadFault {
    ghost use Rattle.std.specs.Prelude.{◌≡◌};
    ghost use Rattle.lp_program.specs.declared.read.reader.ReadFault.TheVariants.{Memory};

    ghost from_gives = { λ _ e. e ≡ Memory };

    fn from(_error: AllocError) -> ReadFault {
        ReadFault::Memory
    }
}

/// How deep parts may stand in one another; no program has more.
const DEPTH: usize = 16;

/// A reader at a place of its text.
#[derive(Drop)]
struct Reader<'t> {
    alloc: Global,
    prefix: &'t str,
    cursor: Cursor<'t>,
    /// The last line that was looked at.
    looked: usize,
    entries: Vec<Entry<'t>>,
}

/// The program that the text reads as: it reads so, and it is the one that is chosen by the lines in
/// front. Its texts are borrowed from the text. Outside code, uses and
/// attributes, blanks at the front of a line, empty lines and comment lines don't count; in table
/// rows neither do blanks, line ends and what follows `//` after an entry.
pub fn read_program<'t>(alloc: Global, text: &'t str) -> Result<Program<'t>, ReadFault>
    ensures reads { IfOk result (ReadsAs text.now) }
    ensures chosen { IfOk result (IsChosen text.now) }
    ensures refused { IfErr result (IsRefused text.now) }
    ensures begun { IfErr result (IsBegun text.now) }
{
    let shown = prefix_of(text);
    let mut reader = Reader {
        alloc,
        prefix: shown.unwrap_or(NO_PREFIX),
        cursor: Cursor::new(text),
        looked: 0,
        entries: Vec::new(alloc),
    };
    let front = reader.cursor;
    if !reader.read_whole()? {
        let line = misfit_line(front, reader.looked);
        return Err(ReadFault::NoForm { line });
    }
    let Some(prefix) = shown else {
        let line = misfit_line(front, reader.looked);
        return Err(ReadFault::NoForm { line });
    };
    let Reader { entries, .. } = reader;
    Ok(Program {
        prefix: Piece::new(CowStr::Borrowed(prefix)),
        entries,
    })
}

/// The last line that was looked at, or one past the last.
fn misfit_line(front: Cursor<'_>, looked: usize) -> usize
    ensures line { result ≡ min looked (past_last front.entry.text.now) }
    ensures small { looked < 2 ^ 64 }
{
    looked.min(front.past_last())
}

impl<'t> Reader<'t> {
    fn scope(&self, part: Part) -> Scope<'t>
        ensures prefix { result.prefix.now ≡ self.now.prefix.now }
        ensures kinds { result.kinds.now ≡ holes_of part }
    {
        Scope {
            alloc: self.alloc,
            prefix: self.prefix,
            kinds: holes(part),
        }
    }

    /// Notes that a line is looked at, whether or not it fits: behind one that fits another is looked
    /// at, before the reader gives up.
    fn look_at(&mut self, line: usize)
        ensures kept { self.new ≡ record self.old { looked = self.new.looked } }
        ensures looked { self.old.looked ≤ self.new.looked }
        ensures at { line ≤ self.new.looked }
        ensures new_is { self.old.looked < self.new.looked → self.new.looked ≡ line }
    {
        if line > self.looked {
            self.looked = line;
        }
    }

    /// What is left of the text.
    fn ahead(&self) -> &'t str
        ensures { result.now ≡ left self.now.cursor }
    {
        let (_, rest) = self.cursor.text().split_at(self.cursor.raw());
        rest
    }

    /// Whether nothing is left that counts.
    fn at_end(&mut self) -> bool
        ensures kept { self.new ≡ record self.old { looked = self.new.looked } }
        ensures looked { self.old.looked ≤ self.new.looked }
        ensures none { IsTrue result → settled (left self.old.cursor) ≡ [] }
        ensures exact { OfLike self.new.looked self.old.cursor (λ text. Decides result (settled text ≡ [])) }
        ensures begun { OfNewLook self.old.looked self.old.cursor self.new.looked (λ text. settled text ≡ []) }
    {
        let cursor = self.cursor;
        self.look_at(cursor.number());
        is_over(cursor)
    }

    /// Reads a whole program, after which nothing is left that counts.
    fn read_whole(&mut self) -> Result<bool, AllocError>
        ensures reads { IfOk result (λ b. OnTrue b (WholeRead self.old self.new)) }
        ensures chosen { IfOk result (λ b. AnswersTrees (WholeChosen self.old.prefix.now) self.old b self.new) }
        ensures begun { OnOk result (Begun (one_part part_of.Program) self.old self.new) }
    {
        if !self.read_part(DEPTH, Part::Program)? {
            return Ok(false);
        }
        Ok(self.at_end())
    }

    /// Reads a part with all below it.
    #[cycle(reading)]
    fn read_part(&mut self, depth: usize, part: Part) -> Result<bool, AllocError>
        ensures reads { IfOk result (λ b. Brings (IsPart part) self.old b self.new) }
        ensures chosen { IfOk result (λ b. AnswersTrees (PartChosen depth self.old.prefix.now part) self.old b self.new) }
        ensures begun { OnOk result (Begun (one_part part) self.old self.new) }
    {
        if depth == 0 {
            return Ok(false);
        }
        let at = self.entries.len();
        let mut growing = self.open(part)?;
        if !self.read_steps(depth - 1, at, &mut growing)? {
            return Ok(false);
        }
        if !is_told(&growing) {
            return Ok(false);
        }
        self.finish(at, growing);
        Ok(true)
    }

    /// Adds a part of which nothing is read yet.
    fn open(&mut self, part: Part) -> Result<Growing<'t>, AllocError>
        ensures { IfOk result (λ growing. Opened part self.old self.new growing) }
    {
        self.entries.push(Entry {
            part,
            holes: Vec::new(self.alloc),
            numbers: Vec::new(self.alloc),
            notes: Vec::new(self.alloc),
            below: 0,
        })?;
        Ok(Growing {
            part,
            holes: Vec::new(self.alloc),
            numbers: Vec::new(self.alloc),
            tabled: false,
        })
    }

    /// Puts in what was not known when a part was added.
    fn finish(&mut self, at: usize, growing: Growing<'t>)
        requires { at < length self.old.entries.items }
        ensures kept { self.new ≡ record self.old { entries = self.new.entries } }
        ensures filled { FilledAt at growing.entry self.old.entries.items self.new.entries.items }
    {
        let Growing { holes, numbers, .. } = growing;
        let below = self.entries.len() - at - 1;
        let entry = &mut self.entries[at];
        entry.holes = holes;
        entry.numbers = numbers;
        entry.below = below;
    }

    /// Takes the steps of a part that was added last, and what they have below.
    #[cycle(reading)]
    fn read_steps(
        &mut self,
        depth: usize,
        at: usize,
        growing: &mut Growing<'t>,
    ) -> Result<bool, AllocError>
        requires at { at + 1 ≡ length self.old.entries.items }
        requires none { told growing.old ≡ untold }
        ensures reads { IfOk result (λ b. StepsBring growing.old.part growing.new self.old b self.new) }
        ensures chosen { IfOk result (λ b. AnswersSteps (PartSteps depth self.old.prefix.now (PartChosen depth self.old.prefix.now) growing.old.part) (told growing.new) self.old b self.new) }
        ensures begun { OnOk result (Begun (one_part growing.old.part) self.old self.new) }
    {
        for step in steps(growing.part) {
            if !self.read_step(depth, at, *step, growing)? {
                return Ok(false);
            }
        }
        Ok(true)
    }

    /// Takes what a step prints itself, and reads the parts that it has.
    #[cycle(reading)]
    fn read_step(
        &mut self,
        depth: usize,
        at: usize,
        step: Line,
        growing: &mut Growing<'t>,
    ) -> Result<bool, AllocError>
        requires { at < length self.old.entries.items }
        ensures reads { IfOk result (λ b. StepBrings at (template.line step.entry) growing.old growing.new self.old b self.new) }
        ensures chosen { IfOk result (λ b. AnswersSteps (StepChosen (Below depth self.old.prefix.now) self.old.prefix.now growing.old.part (kids at self.old) (held at self.old) (template.line step.entry) (told growing.old)) (told growing.new) self.old b self.new) }
        ensures begun { OnOk result (OfNewLook self.old.looked self.old.cursor self.new.looked (StepStarts self.old.prefix.now growing.old (kids at self.old) (template.line step.entry))) }
    {
        if !self.read_own(at, step, growing)? {
            return Ok(false);
        }
        self.read_below(depth, at, step.0)
    }

    /// Takes what a step prints itself.
    fn read_own(
        &mut self,
        at: usize,
        step: Line,
        growing: &mut Growing<'t>,
    ) -> Result<bool, AllocError>
        requires { at < length self.old.entries.items }
        ensures kept { OnOk result (self.new ≡ record self.old { cursor = self.new.cursor; looked = self.new.looked }) }
        ensures looked { OnOk result (self.old.looked ≤ self.new.looked) }
        ensures takes { IfOk result (λ b. OnTrue b (OwnTaken self.old.prefix.now growing.old growing.new (kids at self.old) (template.line step.entry) (left self.old.cursor) (left self.new.cursor))) }
        ensures tells { IfOk result (λ b. OwnTold self.old.prefix.now growing.old (kids at self.old) (template.line step.entry) self.old b growing.new self.new) }
        ensures begun { OnOk result (OfNewLook self.old.looked self.old.cursor self.new.looked (StepStarts self.old.prefix.now growing.old (kids at self.old) (template.line step.entry))) }
    {
        let first = self.cursor.number();
        match self.own_taken(at, step, growing)? {
            Ok(next) => {
                self.look_at(first);
                self.look_at(next.number());
                self.cursor = next;
                Ok(true)
            }
            Err(line) => {
                self.look_at(first);
                self.look_at(line);
                Ok(false)
            }
        }
    }

    /// The place behind what a step prints itself, or the line that doesn't fit.
    fn own_taken(
        &self,
        at: usize,
        step: Line,
        growing: &mut Growing<'t>,
    ) -> Result<Result<Cursor<'t>, usize>, AllocError>
        requires { at < length self.now.entries.items }
        ensures takes { IfOk result (λ r. IfOk r (λ next. OwnTaken self.now.prefix.now growing.old growing.new (kids at self.now) (template.line step.entry) (left self.now.cursor) (left next))) }
        ensures tells { IfOk result (AnswersOwn self.now.cursor (StepTells self.now.prefix.now growing.old (kids at self.now) (template.line step.entry)) growing.new) }
        ensures begun { IfOk result (OwnBegun self.now.cursor (StepStarts self.now.prefix.now growing.old (kids at self.now) (template.line step.entry))) }
    {
        match step.0 {
            Step::Line(_) => {
                let next = line_step(self.scope(growing.part), step.1, growing, self.cursor)?;
                Ok(self.or_misfit(next))
            }
            Step::Each(_) => {
                let scope = self.scope(growing.part);
                let count = self.kids_of(at);
                let (place, all) = lines_step(scope, count, step.1, growing, self.cursor)?;
                if !all {
                    return Ok(Err(place.number()));
                }
                Ok(Ok(place))
            }
            Step::Use => self.use_taken(growing),
            Step::Code => self.code_taken(growing),
            Step::Entries => self.entries_taken(growing),
            Step::Empty => Ok(Ok(self.cursor)),
            Step::Note => Ok(Ok(self.cursor)),
            Step::NoteAlways => Ok(Ok(self.cursor)),
            Step::One(_) => Ok(Ok(self.cursor)),
            Step::Optional(_) => Ok(Ok(self.cursor)),
            Step::Many(_) => Ok(Ok(self.cursor)),
            Step::Some(_) => Ok(Ok(self.cursor)),
            Step::Pairs(_, _) => Ok(Ok(self.cursor)),
        }
    }

    /// A place, or else the next line, which doesn't fit.
    fn or_misfit(&self, next: Option<Cursor<'t>>) -> Result<Cursor<'t>, usize>
        ensures either { MatchResult result (λ place. next.entry ≡ Some place) (λ line. next.entry ≡ None) }
        ensures line { IfErr result (λ line. line ≡ next_number self.now.cursor) }
    {
        match next {
            Some(place) => Ok(place),
            None => Err(self.cursor.number()),
        }
    }

    /// How many parts stand directly below a part, so far.
    fn kids_of(&self, at: usize) -> usize
        requires { at < length self.now.entries.items }
        ensures { result ≡ kids at self.now }
    {
        tree_count(&self.entries.as_slice()[at + 1..])
    }

    /// The place behind a use, or the line that doesn't fit.
    fn use_taken(&self, growing: &mut Growing<'t>) -> Result<Result<Cursor<'t>, usize>, AllocError>
        ensures takes { IfOk result (λ r. IfOk r (λ next. (count : ℕ) (pieces : List template.Piece) → OwnTaken self.now.prefix.now growing.old growing.new count (step_of.Use, pieces) (left self.now.cursor) (left next))) }
        ensures tells { IfOk result (AnswersOwn self.now.cursor (λ text. TellsText growing.old.part (IsUse text) (told growing.old)) growing.new) }
        ensures begun { IfOk result (λ r. (count : ℕ) (pieces : List template.Piece) → OwnBegun self.now.cursor (StepStarts self.now.prefix.now growing.old count (step_of.Use, pieces)) r) }
    {
        if !is_blank_part(growing) {
            return Ok(Err(0));
        }
        match use_step(growing, self.cursor)? {
            Some(place) => Ok(Ok(place)),
            None => {
                if !is_use_first(self.cursor) {
                    return Ok(Err(0));
                }
                let from = self.cursor.start().saturating_add(4);
                Ok(Err(cut_line(self.cursor, from)))
            }
        }
    }

    /// The place behind user code, or the line that doesn't fit.
    fn code_taken(&self, growing: &mut Growing<'t>) -> Result<Result<Cursor<'t>, usize>, AllocError>
        ensures takes { IfOk result (λ r. IfOk r (λ next. (count : ℕ) (pieces : List template.Piece) → OwnTaken self.now.prefix.now growing.old growing.new count (step_of.Code, pieces) (left self.now.cursor) (left next))) }
        ensures tells { IfOk result (AnswersOwn self.now.cursor (λ text. TellsText growing.old.part (IsCode text) (told growing.old)) growing.new) }
        ensures begun { IfOk result (λ r. (count : ℕ) (pieces : List template.Piece) → OwnBegun self.now.cursor (StepStarts self.now.prefix.now growing.old count (step_of.Code, pieces)) r) }
    {
        if !is_blank_part(growing) {
            return Ok(Err(0));
        }
        match code_step(growing, self.cursor)? {
            Some(place) => Ok(Ok(place)),
            None => Ok(Err(cut_line(self.cursor, self.cursor.raw()))),
        }
    }

    /// The place behind a table's entries, or the line that doesn't fit.
    fn entries_taken(
        &self,
        growing: &mut Growing<'t>,
    ) -> Result<Result<Cursor<'t>, usize>, AllocError>
        ensures takes { IfOk result (λ r. IfOk r (λ next. (count : ℕ) (pieces : List template.Piece) → OwnTaken self.now.prefix.now growing.old growing.new count (step_of.Entries, pieces) (left self.now.cursor) (left next))) }
        ensures tells { IfOk result (AnswersOwn self.now.cursor (λ text new rest. TellsTable (told growing.old) new text rest) growing.new) }
        ensures begun { IfOk result (λ r. (count : ℕ) (pieces : List template.Piece) → OwnBegun self.now.cursor (StepStarts self.now.prefix.now growing.old count (step_of.Entries, pieces)) r) }
    {
        if growing.tabled {
            return Ok(Err(0));
        }
        let taken = take_entries(self.alloc, self.cursor)?;
        match taken {
            TakenTable::Whole(numbers, place) => {
                growing.numbers = numbers;
                growing.tabled = true;
                Ok(Ok(place))
            }
            TakenTable::Broken(place) => Ok(Err(self.cursor.line_from(place))),
        }
    }

    /// Reads the parts that a step has.
    #[cycle(reading)]
    fn read_below(&mut self, depth: usize, at: usize, step: Step) -> Result<bool, AllocError>
        requires { at < length self.old.entries.items }
        ensures reads { IfOk result (λ b. Brings (MayHave step) self.old b self.new) }
        ensures chosen { IfOk result (λ b. AnswersTrees (Below depth self.old.prefix.now step (held at self.old)) self.old b self.new) }
        ensures begun { OnOk result (Begun (below_step step) self.old self.new) }
    {
        match step {
            Step::One(class) => self.read_class(depth, at, class),
            Step::Optional(class) => self.read_optional(depth, class),
            Step::Many(class) => self.read_many(depth, class),
            Step::Some(class) => self.read_some(depth, at, class),
            Step::Pairs(first, second) => self.read_pairs(depth, at, first, second),
            Step::Line(_) => Ok(true),
            Step::Each(_) => Ok(true),
            Step::Empty => Ok(true),
            Step::Note => Ok(true),
            Step::NoteAlways => Ok(true),
            Step::Use => Ok(true),
            Step::Code => Ok(true),
            Step::Entries => Ok(true),
        }
    }

    /// Whether the lines in front begin the part.
    #[cycle(looking)]
    fn begins(&mut self, depth: usize, part: Part) -> Result<bool, AllocError>
        ensures kept { OnOk result (self.new ≡ record self.old { looked = self.new.looked }) }
        ensures looked { OnOk result (self.old.looked ≤ self.new.looked) }
        ensures exact { IfOk result (λ b. OfLike self.new.looked self.old.cursor (λ text. OfLines text (λ lines. Decides b (Begins depth self.old.prefix.now part lines)))) }
        ensures begun { OnOk result (Begun (one_part part) self.old self.new) }
    {
        if depth == 0 {
            return Ok(false);
        }
        let scope = self.scope(part);
        let mut known = Vec::new(self.alloc);
        let mut cursor = self.cursor;
        let mut lines = false;
        for step in steps(part) {
            match step.0 {
                Step::Line(_) => {
                    self.look_at(cursor.number());
                    if !line_fits(scope, step.1, &mut known, cursor)? {
                        return Ok(false);
                    }
                    cursor = cursor.after_line();
                    lines = true;
                }
                Step::Empty => {}
                Step::Note => {}
                Step::NoteAlways => {}
                Step::Use => return Ok(self.begins_use(cursor)),
                Step::One(class) => {
                    return Ok(lines || self.pick(depth - 1, class)?.is_some());
                }
                _ => return Ok(true),
            }
        }
        Ok(true)
    }

    /// Whether the next line at a place begins a use.
    fn begins_use(&mut self, cursor: Cursor<'t>) -> bool
        ensures kept { self.new ≡ record self.old { looked = self.new.looked } }
        ensures looked { self.old.looked ≤ self.new.looked }
        ensures exact { OfLike self.new.looked cursor.entry (λ text. OfLines text (λ lines. Decides result (IsUseFirst lines))) }
        ensures begun { OfNewLook self.old.looked cursor.entry self.new.looked (λ text. settled text ≡ []) }
    {
        self.look_at(cursor.number());
        is_use_first(cursor)
    }

    /// The part of a class that the lines in front begin.
    #[cycle(looking)]
    fn pick(&mut self, depth: usize, class: Class) -> Result<Option<Part>, AllocError>
        ensures kept { OnOk result (self.new ≡ record self.old { looked = self.new.looked }) }
        ensures looked { OnOk result (self.old.looked ≤ self.new.looked) }
        ensures member { IfOk result (λ r. IfSome r (λ part. is_member class part ≡ true)) }
        ensures exact { IfOk result (λ r. OfLike self.new.looked self.old.cursor (λ text. OfLines text (Picks depth self.old.prefix.now class r))) }
        ensures begun { OnOk result (OfNewLook self.old.looked self.old.cursor self.new.looked (MemberStarts self.old.prefix.now class)) }
    {
        for part in members(class) {
            if self.begins(depth, *part)? {
                return Ok(Some(*part));
            }
        }
        Ok(None)
    }

    /// The one part of a class, or that which the lines in front begin.
    fn choose(&mut self, depth: usize, class: Class) -> Result<Option<Part>, AllocError>
        ensures kept { OnOk result (self.new ≡ record self.old { looked = self.new.looked }) }
        ensures looked { OnOk result (self.old.looked ≤ self.new.looked) }
        ensures member { IfOk result (λ r. IfSome r (λ part. is_member class part ≡ true)) }
        ensures exact { IfOk result (λ r. OfLike self.new.looked self.old.cursor (λ text. OfLines text (Chooses depth self.old.prefix.now class r))) }
        ensures begun { OnOk result (OfNewLook self.old.looked self.old.cursor self.new.looked (MemberStarts self.old.prefix.now class)) }
    {
        let parts = members(class);
        if parts.len() == 1 {
            return Ok(Some(parts[0]));
        }
        self.pick(depth, class)
    }

    /// Reads one part of a class.
    #[cycle(reading)]
    fn read_class(&mut self, depth: usize, at: usize, class: Class) -> Result<bool, AllocError>
        requires { at < length self.old.entries.items }
        ensures reads { IfOk result (λ b. Brings (MayHave (step_of.One class)) self.old b self.new) }
        ensures chosen { IfOk result (λ b. AnswersTrees (ClassChosen depth self.old.prefix.now (PartChosen depth self.old.prefix.now) (held at self.old) class) self.old b self.new) }
        ensures begun { OnOk result (OfNewLook self.old.looked self.old.cursor self.new.looked (MemberStarts self.old.prefix.now class)) }
    {
        match class {
            Class::ActionBody => self.read_body(depth, at),
            _ => self.read_member(depth, class),
        }
    }

    /// Reads the one part of a class, or that which the lines in front begin.
    #[cycle(reading)]
    fn read_member(&mut self, depth: usize, class: Class) -> Result<bool, AllocError>
        ensures reads { IfOk result (λ b. Brings (MayHave (step_of.One class)) self.old b self.new) }
        ensures chosen { IfOk result (λ b. AnswersTrees (MemberChosen depth self.old.prefix.now (PartChosen depth self.old.prefix.now) class) self.old b self.new) }
        ensures begun { OnOk result (OfNewLook self.old.looked self.old.cursor self.new.looked (MemberStarts self.old.prefix.now class)) }
    {
        match self.choose(depth, class)? {
            Some(part) => self.read_part(depth, part),
            None => Ok(false),
        }
    }

    /// Reads a part of a class, if one is there.
    #[cycle(reading)]
    fn read_optional(&mut self, depth: usize, class: Class) -> Result<bool, AllocError>
        ensures reads { IfOk result (λ b. Brings (MayHave (step_of.Optional class)) self.old b self.new) }
        ensures chosen { IfOk result (λ b. AnswersTrees (OptionalChosen depth self.old.prefix.now (PartChosen depth self.old.prefix.now) class) self.old b self.new) }
        ensures begun { OnOk result (Begun (below_step (step_of.Optional class)) self.old self.new) }
    {
        match self.pick(depth, class)? {
            Some(part) => self.read_part(depth, part),
            None => Ok(true),
        }
    }

    /// Reads as many parts of a class as there are.
    #[cycle(reading)]
    fn read_many(&mut self, depth: usize, class: Class) -> Result<bool, AllocError>
        ensures reads { IfOk result (λ b. Brings (MayHave (step_of.Many class)) self.old b self.new) }
        ensures chosen { IfOk result (λ b. AnswersTrees (AnyChosen depth self.old.prefix.now (λ p sofar. PartChosen depth self.old.prefix.now p) class bare) self.old b self.new) }
        ensures begun { OnOk result (Begun (below_step (step_of.Many class)) self.old self.new) }
    {
        'parts: loop {
            let ahead = self.ahead().len();
            let Some(part) = self.pick(depth, class)? else {
                return Ok(true);
            };
            if !self.read_part(depth, part)? {
                return Ok(false);
            }
            if self.ahead().len() >= ahead {
                return Ok(false);
            }
        }
    }

    /// Reads a part of a class, and as many more as there are.
    #[cycle(reading)]
    fn read_some(&mut self, depth: usize, at: usize, class: Class) -> Result<bool, AllocError>
        requires { at < length self.old.entries.items }
        ensures reads { IfOk result (λ b. Brings (MayHave (step_of.Some class)) self.old b self.new) }
        ensures chosen { IfOk result (λ b. AnswersTrees (Below depth self.old.prefix.now (step_of.Some class) (held at self.old)) self.old b self.new) }
        ensures begun { OnOk result (Begun (below_step (step_of.Some class)) self.old self.new) }
    {
        if !self.read_class(depth, at, class)? {
            return Ok(false);
        }
        self.read_many(depth, class)
    }

    /// Reads as many pairs as there are.
    #[cycle(reading)]
    fn read_pairs(
        &mut self,
        depth: usize,
        at: usize,
        first: Class,
        second: Class,
    ) -> Result<bool, AllocError>
        requires { at < length self.old.entries.items }
        ensures reads { IfOk result (λ b. Brings (MayHave (step_of.Pairs first second)) self.old b self.new) }
        ensures chosen { IfOk result (λ b. AnswersTrees (Below depth self.old.prefix.now (step_of.Pairs first second) (held at self.old)) self.old b self.new) }
        ensures begun { OnOk result (Begun (below_step (step_of.Pairs first second)) self.old self.new) }
    {
        'pairs: loop {
            let ahead = self.ahead().len();
            let Some(part) = self.pick(depth, first)? else {
                return Ok(true);
            };
            if !self.read_pair(depth, at, part, second)? {
                return Ok(false);
            }
            if self.ahead().len() >= ahead {
                return Ok(false);
            }
        }
    }

    /// Reads a part, and one of a class behind it.
    #[cycle(reading)]
    fn read_pair(
        &mut self,
        depth: usize,
        at: usize,
        part: Part,
        second: Class,
    ) -> Result<bool, AllocError>
        requires { at < length self.old.entries.items }
        ensures reads { IfOk result (λ b. Brings (IsPair part second) self.old b self.new) }
        ensures chosen { IfOk result (λ b. AnswersTrees (PairChosen depth self.old.prefix.now (PartChosen depth self.old.prefix.now) (held at self.old) second part) self.old b self.new) }
        ensures begun { OnOk result (OfNewLook self.old.looked self.old.cursor self.new.looked (PairStarts self.old.prefix.now part second)) }
    {
        if !self.read_part(depth, part)? {
            return Ok(false);
        }
        self.read_class(depth, at, second)
    }

    /// Reads the body of an action: inlined actions where the parameters are theirs, or where there
    /// are none and the lines are those of inlined actions; else user code.
    #[cycle(reading)]
    fn read_body(&mut self, depth: usize, at: usize) -> Result<bool, AllocError>
        requires { at < length self.old.entries.items }
        ensures reads { IfOk result (λ b. Brings (MayHave (step_of.One class_of.ActionBody)) self.old b self.new) }
        ensures chosen { IfOk result (λ b. AnswersTrees (BodyChosen (PartChosen depth self.old.prefix.now) (parameters_of self.old.prefix.now (last_parameter [] (held at self.old)))) self.old b self.new) }
        ensures begun { OnOk result (OfNewLook self.old.looked self.old.cursor self.new.looked (MemberStarts self.old.prefix.now class_of.ActionBody)) }
    {
        match self.last_parameter(at + 1) {
            Parameters::User => self.read_part(depth, Part::UserBody),
            Parameters::Inlined => self.read_part(depth, Part::InlineBody),
            Parameters::None => self.read_either(depth),
        }
    }

    /// Reads the lines of inlined actions, or else user code.
    #[cycle(reading)]
    fn read_either(&mut self, depth: usize) -> Result<bool, AllocError>
        ensures reads { IfOk result (λ b. Brings (MayHave (step_of.One class_of.ActionBody)) self.old b self.new) }
        ensures chosen { IfOk result (λ b. AnswersTrees (EitherChosen (PartChosen depth self.old.prefix.now)) self.old b self.new) }
        ensures begun { OnOk result (OfNewLook self.old.looked self.old.cursor self.new.looked (MemberStarts self.old.prefix.now class_of.ActionBody)) }
    {
        if self.read_inlined(depth)? {
            return Ok(true);
        }
        self.read_part(depth, Part::UserBody)
    }

    /// Reads the lines of inlined actions, if they are there up to the `}` behind them; else the
    /// reader is where it was.
    #[cycle(reading)]
    fn read_inlined(&mut self, depth: usize) -> Result<bool, AllocError>
        ensures reads { IfOk result (λ b. Reread (IsPart part_of.InlineBody) self.old b self.new) }
        ensures chosen { IfOk result (λ b. AnswersTrees (InlinedChosen (PartChosen depth self.old.prefix.now)) self.old b self.new) }
        ensures begun { OnOk result (OfNewLook self.old.looked self.old.cursor self.new.looked (MemberStarts self.old.prefix.now class_of.ActionBody)) }
    {
        let cursor = self.cursor;
        let count = self.entries.len();
        if self.read_closed(depth)? {
            return Ok(true);
        }
        self.cursor = cursor;
        self.entries.truncate(count);
        Ok(false)
    }

    /// Reads the lines of inlined actions up to the `}` behind them.
    #[cycle(reading)]
    fn read_closed(&mut self, depth: usize) -> Result<bool, AllocError>
        ensures reads { IfOk result (λ b. Brings (IsPart part_of.InlineBody) self.old b self.new) }
        ensures chosen { IfOk result (λ b. AnswersTrees (InlinedChosen (PartChosen depth self.old.prefix.now)) self.old b self.new) }
        ensures begun { OnOk result (OfNewLook self.old.looked self.old.cursor self.new.looked (MemberStarts self.old.prefix.now class_of.ActionBody)) }
    {
        if !self.read_part(depth, Part::InlineBody)? {
            return Ok(false);
        }
        Ok(self.closes())
    }

    /// Whether the next line is a `}`.
    fn closes(&mut self) -> bool
        ensures kept { self.new ≡ record self.old { looked = self.new.looked } }
        ensures looked { self.old.looked ≤ self.new.looked }
        ensures exact { OfLike self.new.looked self.old.cursor (λ text. Decides result (front_line (settled text) ≡ codes "}")) }
        ensures begun { OfNewLook self.old.looked self.old.cursor self.new.looked (λ text. settled text ≡ []) }
    {
        let cursor = self.cursor;
        self.look_at(cursor.number());
        is_close_first(cursor)
    }

    /// Whose parameters the header of an action ends with.
    fn last_parameter(&self, at: usize) -> Parameters
        ensures { result ≡ parameters_of self.now.prefix.now (last_parameter [] (map content (drop at self.now.entries.items))) }
    {
        let mut last = "";
        for i in at..self.entries.len() {
            last = parameter_after(last, &self.entries[i]);
        }
        if last.starts_with("(_, ") {
            return Parameters::User;
        }
        match last.strip_prefix(self.prefix) {
            Some(rest) if rest.starts_with("look") => Parameters::None,
            Some(_) => Parameters::Inlined,
            None => Parameters::None,
        }
    }
}

/// Whether nothing is left that counts.
fn is_over(cursor: Cursor<'_>) -> bool
    ensures none { IsTrue result → settled (left cursor.entry) ≡ [] }
    ensures some { settled (left cursor.entry) ≡ [] → result ≡ true }
{
    cursor.line().is_none()
}

/// Whether the next line begins a use.
fn is_use_first(cursor: Cursor<'_>) -> bool
    ensures { OfLines (left cursor.entry) (λ lines. Decides result (IsUseFirst lines)) }
{
    match cursor.line() {
        Some(line) if line.starts_with("use ") => true,
        _ => false,
    }
}

/// Whether the next line is a `}`.
fn is_close_first(cursor: Cursor<'_>) -> bool
    ensures { Decides result (front_line (settled (left cursor.entry)) ≡ codes "}") }
{
    match cursor.line() {
        Some(line) => line == "}",
        None => false,
    }
}

/// Whose parameters an action has after those of the grammar.
#[derive(Clone, Copy)]
pub enum Parameters {
    /// Patterns of user code.
    User,
    /// Numbered arguments of inlined actions.
    Inlined,
    /// None.
    None,
}

/// The last parameter after a part, where this was the last before it.
fn parameter_after<'a>(last: &'a str, entry: &'a Entry<'_>) -> &'a str
    ensures { result.now ≡ parameter_after last.now (content entry.now) }
{
    if entry.part == Part::ParameterRow {
        return first_or(last, entry);
    }
    last
}

/// The first hole of a part, if it has one; else another text.
fn first_or<'a>(other: &'a str, entry: &'a Entry<'_>) -> &'a str
    ensures { result.now ≡ first_or other.now entry.now.holes.items }
{
    if entry.holes.is_empty() {
        return other;
    }
    entry.holes[0].as_str()
}
