// The fields of a record of 64 bytes, as the facts of a node ask for them.
#![tactic(auto)]

ghost use Rattle.std.specs.Prelude.{◌≡◌, length, get_or};
ghost use Rattle.row_order.specs.Packed.{bit};
ghost use Rattle.plan.specs.Numbers.{kind_of, join_type_of};
ghost use Rattle.plan_codec.specs.Decode.{fetch_of};
ghost use Rattle.record_fields.specs.Fields.{tail_columns};

use plan::{JoinType, Kind, NO_FETCH};

// Where the fields stand that are asked for by name (01, 'A plan file comes in').
pub const KIND: usize = 0;

pub const STREAMS: usize = 2;

pub const MARKS: usize = 3;

pub const FETCH: usize = 4;

pub const SKIP: usize = 8;

pub const KEY_COUNT: usize = 12;

pub const WIDTH: usize = 13;

// A join's type, a distribution or a met prefix.
pub const ROLE: usize = 14;

// A set of columns, a projection's columns or a join's right key columns.
pub const TAIL: usize = 32;

pub const RECORD: usize = 64;

// The fetch that a number stands for.
pub fn fetch_from(n: u32) -> Option<u32>
    ensures { result ≡ fetch_of n }
{
    if n == NO_FETCH { None } else { Some(n) }
}

pub fn kind_of(k: u8) -> Kind
    ensures { result ≡ kind_of k }
{
    match k {
        1 => Kind::Source,
        2 => Kind::Filter,
        3 => Kind::Projection,
        4 => Kind::Union,
        5 => Kind::Repartition,
        6 => Kind::Coalesce,
        7 => Kind::Sort,
        8 => Kind::Merge,
        9 => Kind::GlobalLimit,
        10 => Kind::LocalLimit,
        11 => Kind::SortMergeJoin,
        12 => Kind::HashJoin,
        13 => Kind::OutputRequirement,
        14 => Kind::PartialSort,
        15 => Kind::Aggregate,
        _ => Kind::PartialSort,
    }
}

pub fn join_type_of(k: u8) -> JoinType
    ensures { result ≡ join_type_of k }
{
    match k {
        0 => JoinType::Inner,
        1 => JoinType::Left,
        2 => JoinType::Right,
        3 => JoinType::Full,
        4 => JoinType::LeftSemi,
        5 => JoinType::LeftAnti,
        6 => JoinType::RightSemi,
        _ => JoinType::RightAnti,
    }
}

// The bytes from 32 on: a projection's columns, or a join's right key columns.
pub fn tail_columns(r: &[u8]) -> [usize; 32]
    requires { length r.now ≡ 64 }
    ensures { result ≡ tail_columns r.now }
{
    byte_rows::read32(&r[TAIL..RECORD])
}

// The mark in bit 0.
pub fn preserves(r: &[u8]) -> bool
    requires { length r.now ≡ 64 }
    ensures { result ≡ bit (get_or r.now 3 0) 0 }
{
    r[MARKS] & 1 == 1
}
