// What the walks ask of a node's record (semantics, Properties): its kind, its fields, its partitioning. Matches with an arm for each kind stand in
// row_facts, row_wants, wanted_inputs, maintained_orders, node_fetches, child_requirements and node_lines.
#![tactic(auto)]

ghost use Rattle.std.specs.Prelude.{◌≡◌, eqb, get_or};
ghost use Rattle.std.specs.Bool.{beq};
ghost use Rattle.plan.specs.Op.{sort_merge_join, hash_join};
ghost use Rattle.plan.specs.Numbers.{code, kind_of};
ghost use Rattle.plan.specs.declared.Kind.TheVariants as kinds;
ghost use Rattle.semantics.specs.Properties as node;
ghost use Rattle.key_lists.specs.Keys.{Keyed};
ghost use Rattle.plan_codec.specs.Decode.{decode, from_bytes};
ghost use Rattle.record_fields.specs.Proper.{pairs_of, Proper};
ghost use Rattle.walks.specs.ParallelizeSorts.{same_partitioning};

use byte_rows::wide;
use key_list_algebra::same_keys;
use key_lists::Keys;
use plan::{JoinType, Kind};
use record_fields::{
    FETCH, KIND, MARKS, ROLE, STREAMS, fetch_from, join_type_of, kind_of, preserves,
};
use record_keys::key_list;

// ---- kinds: is_sort, is_sort_preserving_merge, is_coalesce_partitions, is_repartition and is_limit of utils.rs

pub fn is_projection(r: &[u8]) -> bool
    requires { Proper r.now }
    ensures { result ≡ eqb (code (decode r.now)) 3 }
{
    matches!(kind_of(r[KIND]), Kind::Projection)
}

pub fn is_repartition(r: &[u8]) -> bool
    requires { Proper r.now }
    ensures { result ≡ eqb (code (decode r.now)) 5 }
{
    matches!(kind_of(r[KIND]), Kind::Repartition)
}

pub fn is_coalesce_partitions(r: &[u8]) -> bool
    requires { Proper r.now }
    ensures { result ≡ eqb (code (decode r.now)) 6 }
{
    matches!(kind_of(r[KIND]), Kind::Coalesce)
}

pub fn is_sort(r: &[u8]) -> bool
    requires { Proper r.now }
    ensures { result ≡ eqb (code (decode r.now)) 7 }
{
    matches!(kind_of(r[KIND]), Kind::Sort)
}

pub fn is_sort_preserving_merge(r: &[u8]) -> bool
    requires { Proper r.now }
    ensures { result ≡ eqb (code (decode r.now)) 8 }
{
    matches!(kind_of(r[KIND]), Kind::Merge)
}

pub fn is_limit(r: &[u8]) -> bool
    requires { Proper r.now }
    ensures { result ≡ node.is_limit (decode r.now) }
{
    matches!(kind_of(r[KIND]), Kind::GlobalLimit | Kind::LocalLimit)
}

// ---- fields: what the operator of a kind that has them keeps there (plan_codec, operator_of)

pub fn keys(r: &[u8]) -> Keys
    requires { Proper r.now }
    ensures { Keyed (from_bytes r.now).keys result }
{
    key_list(r)
}

pub fn fetch_field(r: &[u8]) -> Option<u32>
    requires { Proper r.now }
    ensures { result ≡ (from_bytes r.now).fetch }
{
    fetch_from(scan::get32(r, FETCH))
}

pub fn preserve_mark(r: &[u8]) -> bool
    requires { Proper r.now }
    ensures { result ≡ (from_bytes r.now).preserve }
{
    preserves(r)
}

pub fn hash_mark(r: &[u8]) -> bool
    requires { Proper r.now }
    ensures { result ≡ (from_bytes r.now).hash }
{
    (r[MARKS] >> 1) & 1 == 1
}

pub fn streams_field(r: &[u8]) -> usize
    requires { Proper r.now }
    ensures { result ≡ (from_bytes r.now).streams }
{
    wide(r[STREAMS])
}

// A join's type.
pub fn join_type(r: &[u8]) -> JoinType
    requires { Proper r.now }
    ensures merged { kind_of (get_or r.now 0 0) ≡ kinds.SortMergeJoin → decode r.now ≡ sort_merge_join result
        (pairs_of r.now) }
    ensures hashed { kind_of (get_or r.now 0 0) ≡ kinds.HashJoin → decode r.now ≡ hash_join result (pairs_of r.now) }
{
    join_type_of(r[ROLE])
}

// ---- partitionings

fn same_mark(a: bool, b: bool) -> bool
    ensures { result ≡ beq a b }
{
    if a { b } else { !b }
}

// Partitionings are equal only between two repartitions of equal streams, hash mark and key list.
pub fn same_partitioning(r: &[u8], s: &[u8]) -> bool
    requires { Proper r.now × Proper s.now }
    ensures { result ≡ same_partitioning (decode r.now) (decode s.now) }
{
    if !is_repartition(r) {
        return false;
    }
    if !is_repartition(s) {
        return false;
    }
    if streams_field(r) == streams_field(s) {
        return same_mark(hash_mark(r), hash_mark(s)) & same_keys(keys(r), keys(s));
    }
    false
}
