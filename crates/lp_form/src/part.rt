//! The parts of a program: the printed forms, their rows, and the alternatives of their lines.

ghost use Rattle.std.specs.Prelude.{◌≡◌};
ghost use Rattle.lp_form.specs.Forms.{form_of, is_element_of};

use crate::kind::FormKind;

/// A part of a program: a printed form in one of its spellings, a row of a list, or one of several
/// alternative lines.
#[derive(Clone, Copy, PartialEq, Eq)]
pub enum Part {
    /// The whole text.
    Program,
    /// An attribute of the whole text.
    Attribute,
    /// A `use`.
    UseLine,
    /// The uses that each module has.
    StandardUses,
    /// The module of one start.
    ParseModule,
    /// The token type of an interned grammar.
    TokenUseInterned,
    /// The trait of the tokens.
    TokenUsePlain,
    /// A parser under its public name.
    Reexport,
    /// What a table-driven module holds.
    TableItems,
    /// What a recursive ascent module holds.
    AscentItems,
    /// A function header.
    HeaderParse,
    /// A function header.
    HeaderExpectedFromStates,
    /// A function header.
    HeaderTokenToInteger,
    /// A function header.
    HeaderTokenToSymbol,
    /// A function header.
    HeaderSimulateReduce,
    /// A function header.
    HeaderAccepts,
    /// A function header.
    HeaderReduce,
    /// A function header.
    HeaderReduceFn,
    /// A function header.
    HeaderState,
    /// A function header.
    HeaderAction,
    /// A type parameter of a header.
    TypeRow,
    /// A parameter of a header.
    ParameterRow,
    /// A header without a result.
    ResultUnit,
    /// The result of a header.
    ResultType,
    /// The where clauses of a header.
    Clauses,
    /// A where clause of a header.
    ClauseRow,
    /// A parser with its `parse` method.
    TableParserInterned,
    /// A parser with its `parse` method.
    TableParserPlain,
    /// A parser with its `parse` method.
    AscentParserInterned,
    /// A parser with its `parse` method.
    AscentParserPlain,
    /// Where the tokens come from.
    TokenSourceInterned,
    /// Where the tokens come from.
    TokenSourcePlain,
    /// The values of symbols.
    SymbolEnum,
    /// The where clauses of an enum or a pop function.
    WhereLine,
    /// A variant of the symbol enum.
    VariantRow,
    /// The actions by state and terminal.
    ActionTable,
    /// The action of a state on a terminal.
    ActionLookup,
    /// The action of a state, with one terminal.
    ActionLookupOne,
    /// The actions by state at the end of input.
    EofTable,
    /// The goto function.
    GotoFn,
    /// A nonterminal whose gotos have one target.
    GotoOne,
    /// A nonterminal whose gotos have several targets.
    GotoMatch,
    /// The states that go to one target.
    GotoRange,
    /// The names of the terminals.
    TerminalList,
    /// The name of a terminal.
    TerminalRow,
    /// The terminals with an action in a state.
    Expected,
    /// The terminals that a stack of states accepts.
    ExpectedFromStates,
    /// The struct that the driver asks.
    MachineStruct,
    /// A field of the machine.
    FieldRow,
    /// What the driver asks the struct.
    MachineImpl,
    /// The methods of a grammar with an error terminal.
    RecoveryOn,
    /// The methods of a grammar without an error terminal.
    RecoveryOff,
    /// A parameter that the machine hands on.
    SelfRow,
    /// The number of a token.
    TokenToInteger,
    /// The pattern of a terminal.
    IntegerRow,
    /// The value of a token.
    TokenToSymbol,
    /// Terminals without captures.
    SymbolArm,
    /// Terminals with captures.
    SymbolMatch,
    /// What a reduction would do.
    SimulateReduce,
    /// The production of the start.
    SimulateAccept,
    /// A production.
    SimulateArm,
    /// The call of the driver.
    Drive,
    /// A parameter of the machine.
    DriveRow,
    /// Whether a stack of states accepts a token.
    Accepts,
    /// A reduction.
    Reduce,
    /// A production with a function of its own.
    ReduceCallArm,
    /// A production that is reduced in place.
    ReduceBodyArm,
    /// The reduction of one production.
    ReduceBody,
    /// The number of symbols.
    AssertLine,
    /// A symbol that is popped.
    PopLine,
    /// The span of the symbols.
    SpanPopped,
    /// The span of no symbols.
    SpanEmpty,
    /// The call of an action.
    CallPlain,
    /// The call of a fallible action.
    CallFallible,
    /// The end of the start production.
    OutcomeStart,
    /// The end of another production.
    OutcomePush,
    /// A symbol of another variant.
    Mismatch,
    /// Takes a symbol of one variant.
    Pop,
    /// A type parameter of a pop function.
    PopRow,
    /// The function of one production.
    ReduceFn,
    /// The call of the first state.
    Start,
    /// What a state function answers.
    ReturnEnum,
    /// A nonterminal of that enum.
    ReturnRow,
    /// The function of one state.
    StateFn,
    /// Takes the next token.
    NextToken,
    /// A slot that is made optional.
    SlotLine,
    /// A shift of a terminal with captures.
    ShiftArm,
    /// A shift of a terminal without captures.
    ShiftWhole,
    /// A reduction on several tokens.
    ReduceMany,
    /// A reduction on one token.
    ReduceToken,
    /// A reduction at the end of input.
    ReduceEnd,
    /// A further token.
    TokenRow,
    /// The last token.
    LastToken,
    /// The end of input as the last token.
    LastEnd,
    /// What a reduction does.
    ReduceLines,
    /// Takes an optional slot.
    TakeLine,
    /// Answers the result.
    ReturnLine,
    /// The span of the symbols.
    AscentPopped,
    /// The span of no symbols above a fixed slot.
    AscentFixed,
    /// The span of no symbols above an optional slot.
    AscentOptional,
    /// The span of no symbols above nothing.
    AscentBottom,
    /// The call of an action.
    AscentCall,
    /// The call of a fallible action.
    AscentCallFallible,
    /// A token without an action.
    ErrorArm,
    /// The end of a fixed slot.
    LocationFixed,
    /// The default location.
    LocationDefault,
    /// The end of the topmost slot that is full.
    LocationChain,
    /// A slot that may be empty.
    LocationRow,
    /// The call of another state.
    Transition,
    /// A frame without gotos.
    GotoReturn,
    /// The gotos of a frame.
    GotoLoop,
    /// The top slot was taken.
    EmptyCheck,
    /// A goto.
    GotoArm,
    /// A nonterminal without a goto.
    GotoOther,
    /// The function of an action.
    ActionFn,
    /// The function of an action of a grammar with parameters.
    ActionFnUnused,
    /// The function of an action.
    Lookaround,
    /// The function of an action of a grammar with parameters.
    LookaroundUnused,
    /// User code.
    UserBody,
    /// The location of the lookahead.
    LookaheadBody,
    /// The location behind.
    LookbehindBody,
    /// Inlined actions and the outer one.
    InlineBody,
    /// The span of an inlined action.
    InlineSpan,
    /// The call of an inlined action.
    InlineCall,
    /// The call of an inlined action with type arguments.
    InlineCallTyped,
    /// The end of a call.
    CallEndPlain,
    /// The end of a fallible call.
    CallEndFallible,
    /// An argument of a call.
    ArgumentRow,
    /// A type argument of a call.
    TypeArgument,
    /// The outer call.
    OuterCall,
    /// The outer call with type arguments.
    OuterCallTyped,
    /// The outer call under `Ok`.
    OuterCallOk,
    /// The outer call under `Ok` with type arguments.
    OuterCallOkTyped,
    /// The tokens of an interned grammar.
    TokenModule,
    /// A regular expression whose matches are skipped.
    InternSkip,
    /// A regular expression of a token.
    InternKeep,
    /// White space, where nothing is skipped.
    WhitespaceRow,
    /// How items become triples.
    ToTripleLocatedWhere,
    /// How items become triples.
    ToTripleLocated,
    /// How items become triples.
    ToTriplePlainWhere,
    /// How items become triples.
    ToTriplePlain,
    /// What a reduction of a trial pops and produces.
    AscentSimulate,
    /// The production of the start.
    AscentAccept,
    /// A production.
    AscentArm,
    /// Whether a stack of states accepts a terminal.
    AscentAccepts,
    /// The terminals that a stack of states accepts.
    AscentExpected,
}

/// The printed form that a part is; None for rows and alternatives.
#[tactic(auto, unfolding(crate::specs::Forms::form_of))]
pub fn form(part: Part) -> Option<FormKind>
    ensures { result ≡ form_of part }
{
    match part {
        Part::Program => Some(FormKind::Program),
        Part::Attribute => Some(FormKind::Attribute),
        Part::UseLine => Some(FormKind::UseLine),
        Part::StandardUses => Some(FormKind::StandardUses),
        Part::ParseModule => Some(FormKind::ParseModule),
        Part::TokenUseInterned | Part::TokenUsePlain => Some(FormKind::TokenUse),
        Part::Reexport => Some(FormKind::Reexport),
        Part::HeaderParse
        | Part::HeaderExpectedFromStates
        | Part::HeaderTokenToInteger
        | Part::HeaderTokenToSymbol
        | Part::HeaderSimulateReduce
        | Part::HeaderAccepts
        | Part::HeaderReduce
        | Part::HeaderReduceFn
        | Part::HeaderState
        | Part::HeaderAction => Some(FormKind::Header),
        Part::TableParserInterned
        | Part::TableParserPlain
        | Part::AscentParserInterned
        | Part::AscentParserPlain => Some(FormKind::Parser),
        Part::TokenSourceInterned | Part::TokenSourcePlain => Some(FormKind::TokenSource),
        Part::SymbolEnum => Some(FormKind::SymbolEnum),
        Part::ActionTable => Some(FormKind::ActionTable),
        Part::ActionLookup | Part::ActionLookupOne => Some(FormKind::ActionLookup),
        Part::EofTable => Some(FormKind::EofTable),
        Part::GotoFn => Some(FormKind::GotoFn),
        Part::GotoOne => Some(FormKind::GotoOne),
        Part::GotoMatch => Some(FormKind::GotoMatch),
        Part::TerminalList => Some(FormKind::TerminalList),
        Part::Expected => Some(FormKind::Expected),
        Part::ExpectedFromStates => Some(FormKind::ExpectedFromStates),
        Part::MachineStruct => Some(FormKind::MachineStruct),
        Part::MachineImpl => Some(FormKind::MachineImpl),
        Part::TokenToInteger => Some(FormKind::TokenToInteger),
        Part::TokenToSymbol => Some(FormKind::TokenToSymbol),
        Part::SymbolArm | Part::SymbolMatch => Some(FormKind::SymbolArm),
        Part::SimulateReduce => Some(FormKind::SimulateReduce),
        Part::Drive => Some(FormKind::Drive),
        Part::Accepts => Some(FormKind::Accepts),
        Part::Reduce => Some(FormKind::Reduce),
        Part::ReduceBody => Some(FormKind::ReduceBody),
        Part::Mismatch => Some(FormKind::Mismatch),
        Part::Pop => Some(FormKind::Pop),
        Part::ReduceFn => Some(FormKind::ReduceFn),
        Part::Start => Some(FormKind::Start),
        Part::ReturnEnum => Some(FormKind::ReturnEnum),
        Part::StateFn => Some(FormKind::StateFn),
        Part::ShiftArm | Part::ShiftWhole => Some(FormKind::ShiftArm),
        Part::ReduceMany | Part::ReduceToken | Part::ReduceEnd => Some(FormKind::ReduceArm),
        Part::ErrorArm => Some(FormKind::ErrorArm),
        Part::Transition => Some(FormKind::Transition),
        Part::GotoReturn | Part::GotoLoop => Some(FormKind::GotoLoop),
        Part::ActionFn | Part::ActionFnUnused | Part::Lookaround | Part::LookaroundUnused => Some(
            FormKind::ActionFn,
        ),
        Part::TokenModule => Some(FormKind::TokenModule),
        Part::ToTripleLocatedWhere
        | Part::ToTripleLocated
        | Part::ToTriplePlainWhere
        | Part::ToTriplePlain => Some(FormKind::ToTriple),
        Part::AscentSimulate => Some(FormKind::AscentSimulate),
        Part::AscentAccepts => Some(FormKind::AscentAccepts),
        Part::AscentExpected => Some(FormKind::AscentExpected),
        _ => None,
    }
}

/// Whether a part is an element of a list of its form.
#[tactic(auto, unfolding(crate::specs::Forms::is_element_of))]
pub fn is_element(part: Part) -> bool
    ensures { result ≡ is_element_of part }
{
    match part {
        Part::TypeRow => true,
        Part::ParameterRow => true,
        Part::ClauseRow => true,
        Part::VariantRow => true,
        Part::GotoRange => true,
        Part::TerminalRow => true,
        Part::FieldRow => true,
        Part::SelfRow => true,
        Part::IntegerRow => true,
        Part::SimulateAccept => true,
        Part::SimulateArm => true,
        Part::DriveRow => true,
        Part::ReduceCallArm => true,
        Part::ReduceBodyArm => true,
        Part::PopLine => true,
        Part::PopRow => true,
        Part::ReturnRow => true,
        Part::SlotLine => true,
        Part::TokenRow => true,
        Part::TakeLine => true,
        Part::LocationRow => true,
        Part::GotoArm => true,
        Part::InlineSpan => true,
        Part::InlineCall => true,
        Part::InlineCallTyped => true,
        Part::ArgumentRow => true,
        Part::TypeArgument => true,
        Part::InternSkip => true,
        Part::InternKeep => true,
        Part::AscentAccept => true,
        Part::AscentArm => true,
        _ => false,
    }
}
