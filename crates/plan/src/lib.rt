// The vocabulary of document 01: kinds, join types, distributions, and the refusals with their numbers.
#![tactic(auto)]

ghost use Rattle.std.specs.Prelude.{◌≡◌};
ghost use Rattle.plan.specs.Numbers.{number_of, refusal_number};

#[derive(Clone, Copy)]
pub enum Kind {
    Source,
    Filter,
    Projection,
    Union,
    Repartition,
    Coalesce,
    Sort,
    Merge,
    GlobalLimit,
    LocalLimit,
    SortMergeJoin,
    HashJoin,
    OutputRequirement,
    PartialSort,
    Aggregate,
}

#[derive(Clone, Copy)]
pub enum JoinType {
    Inner,
    Left,
    Right,
    Full,
    LeftSemi,
    LeftAnti,
    RightSemi,
    RightAnti,
}

// What a node wants of its child's streams: nothing, one stream, or rows kept together by the columns of a 32-bit set.
#[derive(Clone, Copy)]
pub enum Distribution {
    Unspecified,
    Single,
    Keyed(u32),
}

// A fetch, how many rows each output stream of a node has at most ('Fetch and skip cut each output stream'), is an Option of a number.
// This is the number that stands for no fetch (Numbers, no_fetch).
pub const NO_FETCH: u32 = 4294967295;

// Why a call is refused.
#[derive(Clone, Copy)]
pub enum Refusal {
    Length,
    BlockSum,
    Header,
    KindOrChildren,
    RecordCount,
    Field,
    Column,
    Width,
    NoSuchNode,
    HasPartialSort,
    TooManyNodes,
    OutputTooShort,
    ConstantSort,
}

// The number that document 01 gives a call: 0 for an accepted one.
pub fn number_of(x: Result<(), Refusal>) -> u32
    ensures { result ≡ number_of x }
{
    match x {
        Ok(()) => 0,
        Err(r) => number(r),
    }
}

// The number that document 01 gives a refusal.
pub fn number(r: Refusal) -> u32
    ensures { result ≡ refusal_number r }
{
    match r {
        Refusal::Length => 1,
        Refusal::BlockSum => 2,
        Refusal::Header => 3,
        Refusal::KindOrChildren => 4,
        Refusal::RecordCount => 5,
        Refusal::Field => 6,
        Refusal::Column => 7,
        Refusal::Width => 8,
        Refusal::NoSuchNode => 20,
        Refusal::HasPartialSort => 21,
        Refusal::TooManyNodes => 23,
        Refusal::OutputTooShort => 24,
        Refusal::ConstantSort => 25,
    }
}
