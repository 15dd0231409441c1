//! The members of each class.

ghost use Rattle.std.specs.Prelude.{◌≡◌};
ghost use Rattle.lp_form.specs.Classes.{members_of};

use crate::class::Class;
use crate::part::Part;

/// The parts of a class, in the order in which a reader tries them.
#[tactic(auto, unfolding(crate::specs::Classes::members_of))]
pub fn members(class: Class) -> &'static [Part]
    ensures { result.now ≡ members_of class }
{
    match class {
        Class::Use => USE,
        Class::Module => MODULE,
        Class::TokenUse => TOKEN_USE,
        Class::ModuleItems => MODULE_ITEMS,
        Class::Action => ACTION,
        Class::ToTriple => TO_TRIPLE,
        Class::ActionLookup => ACTION_LOOKUP,
        Class::TableParser => TABLE_PARSER,
        Class::AscentParser => ASCENT_PARSER,
        Class::ResultLine => RESULT_LINE,
        Class::TokenSource => TOKEN_SOURCE,
        Class::Goto => GOTO,
        Class::RecoveryMethods => RECOVERY_METHODS,
        Class::SymbolArm => SYMBOL_ARM,
        Class::SimulateRow => SIMULATE_ROW,
        Class::ReduceRow => REDUCE_ROW,
        Class::SpanLines => SPAN_LINES,
        Class::CallLines => CALL_LINES,
        Class::OutcomeLines => OUTCOME_LINES,
        Class::ShiftArm => SHIFT_ARM,
        Class::ReduceArm => REDUCE_ARM,
        Class::LastToken => LAST_TOKEN,
        Class::AscentSpan => ASCENT_SPAN,
        Class::AscentCall => ASCENT_CALL,
        Class::LocationLines => LOCATION_LINES,
        Class::GotoLoop => GOTO_LOOP,
        Class::ActionBody => ACTION_BODY,
        Class::LookaroundBody => LOOKAROUND_BODY,
        Class::InlineCall => INLINE_CALL,
        Class::CallEnd => CALL_END,
        Class::OuterCall => OUTER_CALL,
        Class::InternRow => INTERN_ROW,
        Class::AscentRow => ASCENT_ROW,
        Class::Attribute => ATTRIBUTE,
        Class::StandardUses => STANDARD_USES,
        Class::Reexport => REEXPORT,
        Class::TokenModule => TOKEN_MODULE,
        Class::SymbolEnum => SYMBOL_ENUM,
        Class::ActionTable => ACTION_TABLE,
        Class::EofTable => EOF_TABLE,
        Class::GotoFn => GOTO_FN,
        Class::TerminalList => TERMINAL_LIST,
        Class::Expected => EXPECTED,
        Class::ExpectedFromStates => EXPECTED_FROM_STATES,
        Class::MachineStruct => MACHINE_STRUCT,
        Class::MachineImpl => MACHINE_IMPL,
        Class::TokenToInteger => TOKEN_TO_INTEGER,
        Class::TokenToSymbol => TOKEN_TO_SYMBOL,
        Class::SimulateReduce => SIMULATE_REDUCE,
        Class::Accepts => ACCEPTS,
        Class::Reduce => REDUCE,
        Class::Mismatch => MISMATCH,
        Class::Pop => POP,
        Class::ReduceFn => REDUCE_FN,
        Class::ReturnEnum => RETURN_ENUM,
        Class::StateFn => STATE_FN,
        Class::AscentSimulate => ASCENT_SIMULATE,
        Class::AscentAccepts => ASCENT_ACCEPTS,
        Class::AscentExpected => ASCENT_EXPECTED,
        Class::TypeRow => TYPE_ROW,
        Class::ParameterRow => PARAMETER_ROW,
        Class::Clauses => CLAUSES,
        Class::ClauseRow => CLAUSE_ROW,
        Class::HeaderParse => HEADER_PARSE,
        Class::Drive => DRIVE,
        Class::Start => START,
        Class::WhereLine => WHERE_LINE,
        Class::VariantRow => VARIANT_ROW,
        Class::GotoRange => GOTO_RANGE,
        Class::TerminalRow => TERMINAL_ROW,
        Class::HeaderExpectedFromStates => HEADER_EXPECTED_FROM_STATES,
        Class::FieldRow => FIELD_ROW,
        Class::SelfRow => SELF_ROW,
        Class::HeaderTokenToInteger => HEADER_TOKEN_TO_INTEGER,
        Class::IntegerRow => INTEGER_ROW,
        Class::HeaderTokenToSymbol => HEADER_TOKEN_TO_SYMBOL,
        Class::HeaderSimulateReduce => HEADER_SIMULATE_REDUCE,
        Class::DriveRow => DRIVE_ROW,
        Class::HeaderAccepts => HEADER_ACCEPTS,
        Class::HeaderReduce => HEADER_REDUCE,
        Class::ReduceBody => REDUCE_BODY,
        Class::AssertLine => ASSERT_LINE,
        Class::PopLine => POP_LINE,
        Class::PopRow => POP_ROW,
        Class::HeaderReduceFn => HEADER_REDUCE_FN,
        Class::ReturnRow => RETURN_ROW,
        Class::HeaderState => HEADER_STATE,
        Class::NextToken => NEXT_TOKEN,
        Class::SlotLine => SLOT_LINE,
        Class::ErrorArm => ERROR_ARM,
        Class::Transition => TRANSITION,
        Class::TokenRow => TOKEN_ROW,
        Class::ReduceLines => REDUCE_LINES,
        Class::TakeLine => TAKE_LINE,
        Class::ReturnLine => RETURN_LINE,
        Class::LocationRow => LOCATION_ROW,
        Class::EmptyCheck => EMPTY_CHECK,
        Class::GotoArm => GOTO_ARM,
        Class::GotoOther => GOTO_OTHER,
        Class::HeaderAction => HEADER_ACTION,
        Class::InlineSpan => INLINE_SPAN,
        Class::ArgumentRow => ARGUMENT_ROW,
        Class::TypeArgument => TYPE_ARGUMENT,
        Class::WhitespaceRow => WHITESPACE_ROW,
    }
}

const USE: &[Part] = &[Part::UseLine];

const MODULE: &[Part] = &[Part::ParseModule];

const TOKEN_USE: &[Part] = &[Part::TokenUseInterned, Part::TokenUsePlain];

const MODULE_ITEMS: &[Part] = &[Part::TableItems, Part::AscentItems];

const ACTION: &[Part] = &[
    Part::ActionFn,
    Part::ActionFnUnused,
    Part::Lookaround,
    Part::LookaroundUnused,
];

const TO_TRIPLE: &[Part] = &[
    Part::ToTripleLocatedWhere,
    Part::ToTripleLocated,
    Part::ToTriplePlainWhere,
    Part::ToTriplePlain,
];

const ACTION_LOOKUP: &[Part] = &[Part::ActionLookup, Part::ActionLookupOne];

const TABLE_PARSER: &[Part] = &[Part::TableParserInterned, Part::TableParserPlain];

const ASCENT_PARSER: &[Part] = &[Part::AscentParserInterned, Part::AscentParserPlain];

const RESULT_LINE: &[Part] = &[Part::ResultUnit, Part::ResultType];

const TOKEN_SOURCE: &[Part] = &[Part::TokenSourceInterned, Part::TokenSourcePlain];

const GOTO: &[Part] = &[Part::GotoOne, Part::GotoMatch];

const RECOVERY_METHODS: &[Part] = &[Part::RecoveryOn, Part::RecoveryOff];

const SYMBOL_ARM: &[Part] = &[Part::SymbolArm, Part::SymbolMatch];

const SIMULATE_ROW: &[Part] = &[Part::SimulateAccept, Part::SimulateArm];

const REDUCE_ROW: &[Part] = &[Part::ReduceCallArm, Part::ReduceBodyArm];

const SPAN_LINES: &[Part] = &[Part::SpanPopped, Part::SpanEmpty];

const CALL_LINES: &[Part] = &[Part::CallPlain, Part::CallFallible];

const OUTCOME_LINES: &[Part] = &[Part::OutcomeStart, Part::OutcomePush];

const SHIFT_ARM: &[Part] = &[Part::ShiftWhole, Part::ShiftArm];

const REDUCE_ARM: &[Part] = &[Part::ReduceMany, Part::ReduceToken, Part::ReduceEnd];

const LAST_TOKEN: &[Part] = &[Part::LastToken, Part::LastEnd];

const ASCENT_SPAN: &[Part] = &[
    Part::AscentPopped,
    Part::AscentFixed,
    Part::AscentOptional,
    Part::AscentBottom,
];

const ASCENT_CALL: &[Part] = &[Part::AscentCall, Part::AscentCallFallible];

const LOCATION_LINES: &[Part] = &[
    Part::LocationFixed,
    Part::LocationDefault,
    Part::LocationChain,
];

const GOTO_LOOP: &[Part] = &[Part::GotoReturn, Part::GotoLoop];

const ACTION_BODY: &[Part] = &[Part::InlineBody, Part::UserBody];

const LOOKAROUND_BODY: &[Part] = &[Part::LookaheadBody, Part::LookbehindBody];

const INLINE_CALL: &[Part] = &[Part::InlineCall, Part::InlineCallTyped];

const CALL_END: &[Part] = &[Part::CallEndPlain, Part::CallEndFallible];

const OUTER_CALL: &[Part] = &[
    Part::OuterCall,
    Part::OuterCallTyped,
    Part::OuterCallOk,
    Part::OuterCallOkTyped,
];

const INTERN_ROW: &[Part] = &[Part::InternSkip, Part::InternKeep];

const ASCENT_ROW: &[Part] = &[Part::AscentAccept, Part::AscentArm];

const ATTRIBUTE: &[Part] = &[Part::Attribute];

const STANDARD_USES: &[Part] = &[Part::StandardUses];

const REEXPORT: &[Part] = &[Part::Reexport];

const TOKEN_MODULE: &[Part] = &[Part::TokenModule];

const SYMBOL_ENUM: &[Part] = &[Part::SymbolEnum];

const ACTION_TABLE: &[Part] = &[Part::ActionTable];

const EOF_TABLE: &[Part] = &[Part::EofTable];

const GOTO_FN: &[Part] = &[Part::GotoFn];

const TERMINAL_LIST: &[Part] = &[Part::TerminalList];

const EXPECTED: &[Part] = &[Part::Expected];

const EXPECTED_FROM_STATES: &[Part] = &[Part::ExpectedFromStates];

const MACHINE_STRUCT: &[Part] = &[Part::MachineStruct];

const MACHINE_IMPL: &[Part] = &[Part::MachineImpl];

const TOKEN_TO_INTEGER: &[Part] = &[Part::TokenToInteger];

const TOKEN_TO_SYMBOL: &[Part] = &[Part::TokenToSymbol];

const SIMULATE_REDUCE: &[Part] = &[Part::SimulateReduce];

const ACCEPTS: &[Part] = &[Part::Accepts];

const REDUCE: &[Part] = &[Part::Reduce];

const MISMATCH: &[Part] = &[Part::Mismatch];

const POP: &[Part] = &[Part::Pop];

const REDUCE_FN: &[Part] = &[Part::ReduceFn];

const RETURN_ENUM: &[Part] = &[Part::ReturnEnum];

const STATE_FN: &[Part] = &[Part::StateFn];

const ASCENT_SIMULATE: &[Part] = &[Part::AscentSimulate];

const ASCENT_ACCEPTS: &[Part] = &[Part::AscentAccepts];

const ASCENT_EXPECTED: &[Part] = &[Part::AscentExpected];

const TYPE_ROW: &[Part] = &[Part::TypeRow];

const PARAMETER_ROW: &[Part] = &[Part::ParameterRow];

const CLAUSES: &[Part] = &[Part::Clauses];

const CLAUSE_ROW: &[Part] = &[Part::ClauseRow];

const HEADER_PARSE: &[Part] = &[Part::HeaderParse];

const DRIVE: &[Part] = &[Part::Drive];

const START: &[Part] = &[Part::Start];

const WHERE_LINE: &[Part] = &[Part::WhereLine];

const VARIANT_ROW: &[Part] = &[Part::VariantRow];

const GOTO_RANGE: &[Part] = &[Part::GotoRange];

const TERMINAL_ROW: &[Part] = &[Part::TerminalRow];

const HEADER_EXPECTED_FROM_STATES: &[Part] = &[Part::HeaderExpectedFromStates];

const FIELD_ROW: &[Part] = &[Part::FieldRow];

const SELF_ROW: &[Part] = &[Part::SelfRow];

const HEADER_TOKEN_TO_INTEGER: &[Part] = &[Part::HeaderTokenToInteger];

const INTEGER_ROW: &[Part] = &[Part::IntegerRow];

const HEADER_TOKEN_TO_SYMBOL: &[Part] = &[Part::HeaderTokenToSymbol];

const HEADER_SIMULATE_REDUCE: &[Part] = &[Part::HeaderSimulateReduce];

const DRIVE_ROW: &[Part] = &[Part::DriveRow];

const HEADER_ACCEPTS: &[Part] = &[Part::HeaderAccepts];

const HEADER_REDUCE: &[Part] = &[Part::HeaderReduce];

const REDUCE_BODY: &[Part] = &[Part::ReduceBody];

const ASSERT_LINE: &[Part] = &[Part::AssertLine];

const POP_LINE: &[Part] = &[Part::PopLine];

const POP_ROW: &[Part] = &[Part::PopRow];

const HEADER_REDUCE_FN: &[Part] = &[Part::HeaderReduceFn];

const RETURN_ROW: &[Part] = &[Part::ReturnRow];

const HEADER_STATE: &[Part] = &[Part::HeaderState];

const NEXT_TOKEN: &[Part] = &[Part::NextToken];

const SLOT_LINE: &[Part] = &[Part::SlotLine];

const ERROR_ARM: &[Part] = &[Part::ErrorArm];

const TRANSITION: &[Part] = &[Part::Transition];

const TOKEN_ROW: &[Part] = &[Part::TokenRow];

const REDUCE_LINES: &[Part] = &[Part::ReduceLines];

const TAKE_LINE: &[Part] = &[Part::TakeLine];

const RETURN_LINE: &[Part] = &[Part::ReturnLine];

const LOCATION_ROW: &[Part] = &[Part::LocationRow];

const EMPTY_CHECK: &[Part] = &[Part::EmptyCheck];

const GOTO_ARM: &[Part] = &[Part::GotoArm];

const GOTO_OTHER: &[Part] = &[Part::GotoOther];

const HEADER_ACTION: &[Part] = &[Part::HeaderAction];

const INLINE_SPAN: &[Part] = &[Part::InlineSpan];

const ARGUMENT_ROW: &[Part] = &[Part::ArgumentRow];

const TYPE_ARGUMENT: &[Part] = &[Part::TypeArgument];

const WHITESPACE_ROW: &[Part] = &[Part::WhitespaceRow];
