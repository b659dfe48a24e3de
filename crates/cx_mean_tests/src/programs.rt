mod account;
mod assertions;
mod blocks;
pub mod chain;
mod classes;
mod depth;
mod exceptions;
mod expressions;
mod forms;
mod handlers;
mod lifetimes;
mod pointers;
mod spoken;

use crate::build::{Build, Made};
use cx_code::Semantic;
use cx_mean::Program;

/// A worked program; its function, of the same name, has its source.
#[derive(Clone, Copy)]
pub enum Worked {
    Account,
    BreakingAndContinuing,
    CalledBothWays,
    CalledWithTwo(Takes),
    Calling(By),
    CallingItself(i128),
    CallingNull,
    CallingNullLast,
    CallingNullWithAnObject,
    CallsRoundNull(u32),
    CatchingNothing,
    CheckedByBoth,
    CheckedCall(By),
    CheckedDestruction,
    ChoosingWhatIsCalled,
    ComparingPointers,
    ConstPair,
    CopyingNestedObjects,
    CopyingWhatIsUnset,
    CountingBytes,
    CountingCopies,
    DiscardingAnLvalue,
    DiscardingAValue,
    DividingByZero,
    EmptyMain,
    Failing(Semantic, u16),
    FlowingOffTheEnd,
    GivingUpTheResult,
    HandlerAsks,
    HandlerCalledByName,
    HandlerRethrows,
    HandlerThrowsToTheCaller,
    HandlerThrowsWithinNoexcept,
    HandlingWithinHandling,
    Holding,
    IncrementingAfter,
    InitialisedByItself,
    InlineMember,
    MakingThroughAPointer,
    MakingATemporaryBehindThePointer,
    MemberOfTheDead,
    NamingAMemberAlone,
    NumberingResults,
    OneVariable,
    Operating,
    Overflowing,
    ParametersBeforeTemporaries,
    PointingToTheDead,
    Putting(&'static [u8]),
    Referring,
    ReferringToItself,
    ResultIsCompared,
    Rethrowing,
    RethrowingNothing,
    ReturningNothing,
    ShiftingTooFar,
    Skipping,
    Speaking,
    Spinning,
    Stepping,
    SteppingAGlobal,
    ThrowingAChar,
    ThrowingAnObjectInAPredicate,
    ThrowingArgument,
    ThrowingConstructor,
    ThrowingCopy,
    ThrowingCopyOfAField,
    ThrowingDestructor,
    ThrowingPredicate(Semantic),
    ThrowingPredicateOfNoexcept,
    ThrowingThirdField,
    ThrowingThroughAPointer,
    ThrowingWithinNoexcept,
    UnsetField,
    UsingNull,
    Wrapping,
    ZeroedTemporary,
}

/// How a function is called.
#[derive(Clone, Copy)]
pub enum By {
    Name,
    Pointer,
}

/// How the parties of a call evaluate its two preconditions.
#[derive(Clone, Copy)]
pub enum Takes {
    /// The Caller ignores the first and enforces the second, the Definer enforces both.
    CallerPasses,
    /// The Definer alone enforces both, with one repetition.
    DefinerRepeats,
    /// The Caller observes both, the Definer enforces both.
    BothEvaluate,
}

impl Worked {
    /// The program as trees, on an allocator.
    pub fn program(self, b: Build) -> Made<Program> {
        match self {
            Worked::Account => account::account(b),
            Worked::BreakingAndContinuing => forms::breaking_and_continuing(b),
            Worked::CalledBothWays => pointers::called_both_ways(b),
            Worked::CalledWithTwo(takes) => blocks::called_with_two(b, takes),
            Worked::Calling(by) => pointers::calling(b, by),
            Worked::CallingItself(number) => depth::calling_itself(b, number),
            Worked::CallingNull => pointers::calling_null(b),
            Worked::CallingNullLast => pointers::calling_null_last(b),
            Worked::CallingNullWithAnObject => pointers::calling_null_with_an_object(b),
            Worked::CallsRoundNull(calls) => depth::calls_round_null(b, calls),
            Worked::CatchingNothing => exceptions::catching_nothing(b),
            Worked::CheckedByBoth => blocks::checked_by_both(b),
            Worked::CheckedCall(by) => pointers::checked_call(b, by),
            Worked::CheckedDestruction => lifetimes::checked_destruction(b),
            Worked::ChoosingWhatIsCalled => pointers::choosing_what_is_called(b),
            Worked::ComparingPointers => pointers::comparing_pointers(b),
            Worked::ConstPair => classes::const_pair(b),
            Worked::CopyingNestedObjects => lifetimes::copying_nested_objects(b),
            Worked::CopyingWhatIsUnset => lifetimes::copying_what_is_unset(b),
            Worked::CountingBytes => expressions::counting_bytes(b),
            Worked::CountingCopies => classes::counting_copies(b),
            Worked::DiscardingAnLvalue => classes::discarding_an_lvalue(b),
            Worked::DiscardingAValue => classes::discarding_a_value(b),
            Worked::DividingByZero => forms::dividing_by_zero(b),
            Worked::EmptyMain => forms::empty_main(b),
            Worked::Failing(semantic, times) => assertions::failing(b, semantic, times),
            Worked::FlowingOffTheEnd => expressions::flowing_off_the_end(b),
            Worked::GivingUpTheResult => spoken::giving_up_the_result(b),
            Worked::HandlerAsks => handlers::handler_asks(b),
            Worked::HandlerCalledByName => handlers::handler_called_by_name(b),
            Worked::HandlerRethrows => handlers::handler_rethrows(b),
            Worked::HandlerThrowsToTheCaller => handlers::handler_throws_to_the_caller(b),
            Worked::HandlerThrowsWithinNoexcept => handlers::handler_throws_within_noexcept(b),
            Worked::HandlingWithinHandling => depth::handling_within_handling(b),
            Worked::Holding => assertions::holding(b),
            Worked::IncrementingAfter => forms::incrementing_after(b),
            Worked::InitialisedByItself => forms::initialised_by_itself(b),
            Worked::InlineMember => classes::inline_member(b),
            Worked::MakingThroughAPointer => pointers::making_through_a_pointer(b),
            Worked::MakingATemporaryBehindThePointer =>
                pointers::making_a_temporary_behind_the_pointer(b),
            Worked::MemberOfTheDead => lifetimes::member_of_the_dead(b),
            Worked::NamingAMemberAlone => classes::naming_a_member_alone(b),
            Worked::NumberingResults => pointers::numbering_results(b),
            Worked::OneVariable => forms::one_variable(b),
            Worked::Operating => forms::operating(b),
            Worked::Overflowing => assertions::overflowing(b),
            Worked::ParametersBeforeTemporaries => lifetimes::parameters_before_temporaries(b),
            Worked::PointingToTheDead => expressions::pointing_to_the_dead(b),
            Worked::Putting(text) => forms::putting(b, text),
            Worked::Referring => forms::referring(b),
            Worked::ReferringToItself => forms::referring_to_itself(b),
            Worked::ResultIsCompared => blocks::result_is_compared(b),
            Worked::Rethrowing => exceptions::rethrowing(b),
            Worked::RethrowingNothing => exceptions::rethrowing_nothing(b),
            Worked::ReturningNothing => forms::returning_nothing(b),
            Worked::ShiftingTooFar => expressions::shifting_too_far(b),
            Worked::Skipping => forms::skipping(b),
            Worked::Speaking => spoken::speaking(b),
            Worked::Spinning => assertions::spinning(b),
            Worked::Stepping => blocks::stepping(b),
            Worked::SteppingAGlobal => expressions::stepping_a_global(b),
            Worked::ThrowingAChar => exceptions::throwing_a_char(b),
            Worked::ThrowingAnObjectInAPredicate => handlers::throwing_an_object_in_a_predicate(b),
            Worked::ThrowingArgument => lifetimes::throwing_argument(b),
            Worked::ThrowingConstructor => lifetimes::throwing_constructor(b),
            Worked::ThrowingCopy => exceptions::throwing_copy(b),
            Worked::ThrowingCopyOfAField => exceptions::throwing_copy_of_a_field(b),
            Worked::ThrowingDestructor => exceptions::throwing_destructor(b),
            Worked::ThrowingPredicate(semantic) => handlers::throwing_predicate(b, semantic),
            Worked::ThrowingPredicateOfNoexcept => handlers::throwing_predicate_of_noexcept(b),
            Worked::ThrowingThirdField => exceptions::throwing_third_field(b),
            Worked::ThrowingThroughAPointer => pointers::throwing_through_a_pointer(b),
            Worked::ThrowingWithinNoexcept => exceptions::throwing_within_noexcept(b),
            Worked::UnsetField => classes::unset_field(b),
            Worked::UsingNull => forms::using_null(b),
            Worked::Wrapping => expressions::wrapping(b),
            Worked::ZeroedTemporary => classes::zeroed_temporary(b),
        }
    }
}
