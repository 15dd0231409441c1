//! The law of a back end, and what follows from it for every text that is emitted.

ghost use Rattle.lp_back_end_laws.specs.Filled.BackEndLaw.{EmissionsAgree};

use lp_ascent::AscentBackEnd;
use lp_table::BackEnd;
use lp_table_module::TableBackEnd;

/// A back end that obeys the law: what it makes is the module of its kind of code, and in every
/// program that is built with that code all runs of the module of a start are those of the stack
/// machine over the start's tables.
pub trait LawfulBackEnd: BackEnd {
    ghost use Rattle.lp_back_end_laws.specs.Filled.BackEndLaw.{IsLawful};
    ghost use Rattle.lp_repr.specs.declared.repr.LrCodeGeneration.{LrCodeGeneration};

    /// The kind of code that it makes.
    ghost code: { LrCodeGeneration };

    /// The law.
    ghost law: { IsLawful Self.IsBuilt code };
}

impl LawfulBackEnd for TableBackEnd {
    ghost use Rattle.lp_repr.specs.declared.repr.LrCodeGeneration.TheVariants.{TableDriven};
    ghost use Rattle.lp_round_trip.specs.Lawful.{tables_lawful};

    ghost code = { TableDriven };

    ghost law = { tables_lawful };
}

impl LawfulBackEnd for AscentBackEnd {
    ghost use Rattle.lp_repr.specs.declared.repr.LrCodeGeneration.TheVariants.{RecursiveAscent};
    ghost use Rattle.lp_round_trip.specs.Lawful.{ascent_lawful};

    ghost code = { RecursiveAscent };

    ghost law = { ascent_lawful };
}

/// What is emitted with the code of a back end that obeys the law agrees with the tables, whichever
/// back end it is: the modules are composed with the functions of actions, the text is read back,
/// and what it reads as makes the machine's reductions.
pub fn lawful_emissions<B: LawfulBackEnd>()
    ensures { EmissionsAgree B.code }
{}
