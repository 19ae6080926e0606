// What a node wants of its children (semantics, Properties): the order and the distribution, by its record.
#![tactic(auto)]

ghost use Rattle.std.specs.Prelude.{◌≡◌, [], ◌∷◌, ◌≤◌, get_or};
ghost use Rattle.plan.specs.Op.{kind};
ghost use Rattle.plan.specs.Numbers.{kind_of};
ghost use Rattle.plan.specs.declared.Kind.TheVariants as kinds;
ghost use Rattle.semantics.specs.Properties as node;
ghost use Rattle.key_lists.specs.Keys.{keys_of, Ordered};
ghost use Rattle.plan_codec.specs.Decode.{decode, distribution_of};
ghost use Rattle.record_fields.specs.Proper.{pairs_of, Proper};

use byte_rows::wide;
use key_list_algebra::column_set;
use key_lists::{Keys, front, order_of};
use plan::{Distribution, Kind};
use record_fields::{KIND, ROLE, TAIL, kind_of, preserves};
use record_keys::{key_list, right_key_list};

// ---- wanted orders

// The keys, of the first child.
fn of_first(keys: Keys, j: usize) -> Option<Keys>
    requires { keys.len ≤ 8 }
    ensures { Ordered (get_or (keys_of keys ∷ []) j []) result }
{
    if j == 0 {
        return order_of(keys);
    }
    None
}

// A sort-merge join's keys on both sides.
fn of_side(r: &[u8], j: usize) -> Option<Keys>
    requires { Proper r.now × (kind_of (get_or r.now 0 0) ≡ kinds.SortMergeJoin) }
    ensures { Ordered (get_or (node.join_keys (pairs_of r.now)) j []) result }
{
    if j == 0 {
        return order_of(key_list(r));
    }
    if j == 1 {
        return order_of(right_key_list(r));
    }
    None
}

// The order that the node wants of child j.
pub fn wanted_order(r: &[u8], j: usize) -> Option<Keys>
    requires { Proper r.now }
    ensures { Ordered (node.wanted (decode r.now) j) result }
{
    match kind_of(r[KIND]) {
        Kind::Source
        | Kind::Filter
        | Kind::Projection
        | Kind::Union
        | Kind::Repartition
        | Kind::Coalesce
        | Kind::Sort
        | Kind::GlobalLimit
        | Kind::LocalLimit
        | Kind::HashJoin
        | Kind::Aggregate => None,
        Kind::Merge | Kind::OutputRequirement => of_first(key_list(r), j),
        Kind::SortMergeJoin => of_side(r, j),
        Kind::PartialSort => of_first(front(key_list(r), wide(r[ROLE])), j),
    }
}

// ---- wanted distributions

// Whole sorts want one stream.
fn sort_distribution(preserve: bool) -> Distribution
    ensures { result ≡ node.sort_dist preserve }
{
    if preserve {
        Distribution::Unspecified
    } else {
        Distribution::Single
    }
}

// A hash join wants one stream of its left side.
fn left_single(j: usize) -> Distribution
    ensures { result ≡ node.left_single j }
{
    if j == 0 {
        return Distribution::Single;
    }
    Distribution::Unspecified
}

// A sort-merge join wants both sides keyed by their columns.
fn by_side(r: &[u8], j: usize) -> Distribution
    requires { Proper r.now × (kind_of (get_or r.now 0 0) ≡ kinds.SortMergeJoin) }
    ensures { result ≡ node.by_side (pairs_of r.now) j }
{
    if j == 0 {
        return Distribution::Keyed(column_set(key_list(r)));
    }
    Distribution::Keyed(column_set(right_key_list(r)))
}

// Kind 13: 0 none, 1 single, 2 keyed with the set's columns.
fn distribution_from(role: u8, set: u32) -> Distribution
    ensures { result ≡ distribution_of role set }
{
    if role == 0 {
        return Distribution::Unspecified;
    }
    if role == 1 {
        return Distribution::Single;
    }
    Distribution::Keyed(set)
}

// The distribution that the node wants of child j.
pub fn wanted_distribution(r: &[u8], j: usize) -> Distribution
    requires { Proper r.now }
    ensures { result ≡ node.dist_of (decode r.now) j }
{
    match kind_of(r[KIND]) {
        Kind::Source
        | Kind::Filter
        | Kind::Projection
        | Kind::Union
        | Kind::Repartition
        | Kind::Coalesce
        | Kind::Merge
        | Kind::LocalLimit
        | Kind::Aggregate => Distribution::Unspecified,
        Kind::Sort | Kind::PartialSort => sort_distribution(preserves(r)),
        Kind::GlobalLimit => Distribution::Single,
        Kind::SortMergeJoin => by_side(r, j),
        Kind::HashJoin => left_single(j),
        Kind::OutputRequirement => distribution_from(r[ROLE], scan::get32(r, TAIL)),
    }
}

pub fn is_single(d: Distribution) -> bool
    ensures { result ≡ node.is_single d }
{
    match d {
        Distribution::Unspecified => false,
        Distribution::Single => true,
        Distribution::Keyed(_) => false,
    }
}

// Whether the node wants one stream of child j.
pub fn wants_single(r: &[u8], j: usize) -> bool
    requires { Proper r.now }
    ensures { result ≡ node.singles (decode r.now) j }
{
    is_single(wanted_distribution(r, j))
}
