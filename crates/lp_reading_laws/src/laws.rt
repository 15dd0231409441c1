//! Laws between the printing and the reading of programs, for all programs.

ghost use Rattle.lp_reading_laws.specs.Printing.Laws.{LinesComeBack, OthersDont, TablesComeBack, UsesEnd, CodesEnd, LinesFill, AttributesFill, TerminalsFill, ReadsBack, CodeIsLevel, IndentReturns, EachIsRead, SameToNorm, ReadsAreLines};
ghost use Rattle.lp_reading_laws.specs.Holes.Laws.{HolesFound, LinesTellAll, EqualHoles, PrefixesAreWords};
ghost use Rattle.lp_reading_laws.specs.FirstLines.Laws.{AlternativesApart, EndsSeen, TailsSeen, PrintedBegin};
ghost use Rattle.lp_reading_laws.specs.Texts.Laws.{LinesExist, LinesAreThese, TreesShown, TreesChosen, TreesBegun, StepsEnded, TailsEnded};
ghost use Rattle.lp_reading_laws.specs.Choosing.Laws.{TreesAreChosen, PrefixesAreShown, ProgramsAreChosen, EachIsTold, SomeIsChosen, ProgramsAreOne, ChosenIsIt, NeverRefused, OthersAreNoInlined};
ghost use Rattle.lp_reading_laws.specs.Printed.Laws.{PrintedIsChosen, PrintedIsOne};

/// A printed line that counts is read as it is, whatever its indent. One that is empty or a comment
/// is passed over.
pub fn lines()
    ensures counting { LinesComeBack }
    ensures others { OthersDont }
{}

/// The rows of a table are read as its numbers, whatever the options and the comments.
pub fn tables()
    ensures { TablesComeBack }
{}

/// A use and user code that `check_texts` lets pass end where the printed `;` and `}` stand, whatever
/// stands behind. Types, attributes and texts of terminals that it lets pass may stand in their holes.
pub fn texts()
    ensures uses { UsesEnd }
    ensures codes { CodesEnd }
    ensures lines { LinesFill }
    ensures attributes { AttributesFill }
    ensures terminals { TerminalsFill }
{}

/// The text of a program that is well formed reads as that program, user code up to `norm`, whatever
/// the options: comments and whitespace change the text and not the program. All its user code is
/// printed at the indent of a function's body, and the indent behind it is what it was before. A text
/// reads as a program exactly where it is the program's lines, when what doesn't count is left aside.
pub fn programs()
    ensures text { ReadsBack }
    ensures level { CodeIsLevel }
    ensures indent { IndentReturns }
    ensures read { EachIsRead }
    ensures codes { SameToNorm }
    ensures lines { ReadsAreLines }
{}

/// Every line of every template reads as exactly the holes that it was spelled with, where they hold
/// what they may and are parted, and not where they aren't. So equal lines have equal holes.
pub fn holes()
    ensures found { HolesFound }
    ensures told { LinesTellAll }
    ensures equal { EqualHoles }
{}

/// What is asked of the prefix holds of each that makes an identifier of `lalrpop_util`.
pub fn prefixes()
    ensures { PrefixesAreWords }
{}

/// Where a step of a template has parts of a class, the lines of the printed one begin it, and none of
/// those before it in the order in which they are tried.
pub fn alternatives()
    ensures apart { AlternativesApart }
    ensures begun { PrintedBegin }
{}

/// Where a step has no more parts of a class, what stands behind begins none: what follows the step in
/// its part, or what follows that in the part above.
pub fn ends()
    ensures own { EndsSeen }
    ensures tails { TailsSeen }
{}

/// Where a text reads as trees, its lines are those that the first tree's part shows; they begin it, and
/// none of the parts before it in its class. Where steps take something off a text, its lines begin no
/// part that may be missing in front of them.
pub fn shown()
    ensures shown { TreesShown }
    ensures chosen { TreesChosen }
    ensures begun { TreesBegun }
    ensures ended { StepsEnded }
    ensures tails { TailsEnded }
{}

/// Each text has one list of lines that count.
pub fn text_lines()
    ensures exist { LinesExist }
    ensures these { LinesAreThese }
{}

/// A text that reads as a program shows its prefix, and a reader that chooses each part by the lines in
/// front reads what the text reads as, as far as the text tells it, where the holes are parted and the
/// bodies of actions are told. So it reads as no other such program, and is never refused but for want of
/// memory.
pub fn chosen()
    ensures trees { TreesAreChosen }
    ensures shown { PrefixesAreShown }
    ensures chosen { ProgramsAreChosen }
    ensures told { EachIsTold }
    ensures some { SomeIsChosen }
    ensures one { ProgramsAreOne }
    ensures same { ChosenIsIt }
    ensures never { NeverRefused }
{}

/// User code whose first line begins otherwise than those of inlined actions isn't read as these.
pub fn bodies()
    ensures { OthersAreNoInlined }
{}

/// What is printed of a well-formed program whose holes are parted and whose bodies of actions are told is
/// chosen as it, as far as a text tells it. Two such programs of equal lines are equal, as far as a text
/// tells them.
pub fn printed()
    ensures chosen { PrintedIsChosen }
    ensures one { PrintedIsOne }
{}
