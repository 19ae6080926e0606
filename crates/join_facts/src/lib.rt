// A join's facts: constants and classes by its type, and the kept side's order (01, 'Facts of a node'). The key pairs are lent as two lists, the left keys
// and the right columns.
#![tactic(auto)]

ghost use Rattle.std.specs.Prelude.{◌≡◌, cond, ◌+◌, ◌<◌, ◌≤◌, length};
ghost use Rattle.row_order.specs.Lists.{All};
ghost use Rattle.semantics.specs.Facts as sem;
ghost use Rattle.facts.specs.Known.{known, Coherent, Says};
ghost use Rattle.join_orders.specs.KeptSides.{kept_of};
ghost use Rattle.join_facts.specs.Joining.{on_of, Linkable, Joinable};

use class_tables::{alone, beside_table, linked_set, linked_table, low};
use column_sets::{either, moved_up};
use facts::{Facts, sorted_facts, unknown};
use join_orders::{KeptSide, by_right, hash_kept, join_order, sort_merge_kept};
use plan::JoinType;
use row_order::column;

// The left side's facts, before n columns of which nothing is known.
pub fn placed(f: Facts, n: usize) -> Facts
    requires { Coherent f × (f.width + n ≤ 32) }
    ensures { Says (sem.placed (known f) n) result }
{
    let table = f.low;
    let order = f.order;
    let width = f.width + n;
    Facts {
        width: width,
        streams: f.streams,
        consts: f.consts,
        low: table,
        order: order,
    }
}

// The right side's facts, behind w columns of which nothing is known.
fn shifted(w: usize, f: Facts) -> Facts
    requires { Coherent f × (w + f.width ≤ 32) }
    ensures { Says (sem.shifted w (known f)) result }
{
    let left = alone();
    let right = f.low;
    let table = beside_table(left, &right, w, f.width);
    let consts = moved_up(f.consts, w);
    let order = f.order;
    let width = w + f.width;
    Facts {
        width: width,
        streams: f.streams,
        consts: consts,
        low: table,
        order: order,
    }
}

// Both sides' facts.
fn beside(a: Facts, b: Facts) -> Facts
    requires { Coherent a × Coherent b × (a.width + b.width ≤ 32) }
    ensures { Says (sem.beside (known a) (known b)) result }
{
    let left = a.low;
    let right = b.low;
    let table = beside_table(left, &right, a.width, b.width);
    let consts = either(a.consts, moved_up(b.consts, a.width));
    let order = a.order;
    let width = a.width + b.width;
    Facts {
        width: width,
        streams: a.streams,
        consts: consts,
        low: table,
        order: order,
    }
}

// Columns a and b are equal: their classes become one.
fn linked(f: Facts, a: usize, b: usize) -> Facts
    requires { Coherent f × (a < 32) × (b < 32) }
    ensures { Says (sem.linked (known f) a b) result }
{
    let old = f.low;
    let table = linked_table(&old, low(&old, a), low(&old, b), f.width);
    let consts = linked_set(&old, f.consts, a, b, f.width);
    let order = f.order;
    Facts {
        width: f.width,
        streams: f.streams,
        consts: consts,
        low: table,
        order: order,
    }
}

// The key pairs, behind w left columns.
fn link_all(f: Facts, lefts: &[usize], rights: &[usize], w: usize) -> Facts
    requires coherent { Coherent f }
    requires all { All (Linkable w) (on_of lefts.now rights.now) × (length lefts.now ≡ length rights.now) × (w ≤ 32) }
    ensures { Says (sem.link_all w (on_of lefts.now rights.now) (known f)) result }
{
    let mut g = f;
    for i in 0..lefts.len() {
        let a = column(lefts[i]);
        let b = w + rights[i];
        g = linked(g, a, b);
    }
    g
}

// Inner joins both sides and the key pairs; others have the preserved side's, Full none.
fn join_base(t: JoinType, a: Facts, b: Facts, lefts: &[usize], rights: &[usize]) -> Facts
    requires { Joinable t a b lefts.now rights.now }
    ensures { Says (sem.join_base t (on_of lefts.now rights.now) (known a) (known b)) result }
{
    match t {
        JoinType::Inner => link_all(beside(a, b), lefts, rights, a.width),
        JoinType::Left => placed(a, b.width),
        JoinType::Right => shifted(a.width, b),
        JoinType::Full => unknown(a.width + b.width),
        JoinType::LeftSemi => a,
        JoinType::LeftAnti => a,
        JoinType::RightSemi => b,
        JoinType::RightAnti => b,
    }
}

// A join of any type that keeps one side's order, or none.
pub fn join_facts(
    t: JoinType,
    kept: KeptSide,
    a: Facts,
    b: Facts,
    lefts: &[usize],
    rights: &[usize],
    streams: usize,
) -> Facts
    requires { Joinable t a b lefts.now rights.now }
    ensures { Says (sem.join_facts t (kept_of kept) (on_of lefts.now rights.now) (known a) (known b) streams) result }
{
    let base = join_base(t, a, b, lefts, rights);
    let left = a.order;
    let right = b.order;
    let order = join_order(t, kept, a.width, left, right);
    sorted_facts(base, streams, order)
}

// A sort-merge join has the left side's streams, for Right types the right side's.
pub fn sort_merge_join_facts(
    t: JoinType,
    a: Facts,
    b: Facts,
    lefts: &[usize],
    rights: &[usize],
) -> Facts
    requires { Joinable t a b lefts.now rights.now }
    ensures { Says (sem.join_facts t (sem.smj_kept t) (on_of lefts.now rights.now) (known a) (known b)
        (cond (sem.by_right t) b.streams a.streams)) result }
{
    let kept = sort_merge_kept(t);
    if by_right(t) {
        return join_facts(t, kept, a, b, lefts, rights, b.streams);
    }
    join_facts(t, kept, a, b, lefts, rights, a.streams)
}

// A hash join has the right side's streams.
pub fn hash_join_facts(t: JoinType, a: Facts, b: Facts, lefts: &[usize], rights: &[usize]) -> Facts
    requires { Joinable t a b lefts.now rights.now }
    ensures { Says (sem.join_facts t (sem.hash_kept t) (on_of lefts.now rights.now) (known a) (known b) b.streams) result }
{
    let kept = hash_kept(t);
    join_facts(t, kept, a, b, lefts, rights, b.streams)
}
