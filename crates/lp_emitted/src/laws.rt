//! Laws between the building and the printing of programs.

ghost use Rattle.lp_emitted.specs.Laws.{BuiltIsOne, BuiltIsShaped, EmittedEntriesFit, EmittedFits, EmittedHasPrefix, EmittedIsWellFormed, EmittedReadsBack, ShapedIsWellFormed};

/// The program of a grammar and its states has its parts below one another as the templates say,
/// whatever the grammar, its texts and its tables are. So it is well formed where its texts may
/// stand where they do, and then its text reads as that program. Its bytes are given, for all options.
pub fn built()
    ensures one { BuiltIsOne }
    ensures shaped { BuiltIsShaped }
    ensures well_formed { ShapedIsWellFormed }
{}

/// Where a grammar and its states may be emitted, and the texts of the program that is built of them
/// may stand where they do, its uses, its user code and its tables fit too, and its prefix is one. So
/// it is well formed, and its text reads as it.
pub fn emitted()
    ensures entries { EmittedEntriesFit }
    ensures fits { EmittedFits }
    ensures prefix { EmittedHasPrefix }
    ensures well_formed { EmittedIsWellFormed }
    ensures text { EmittedReadsBack }
{}
