// The nodes of a plan that stands in the arena, as the stepper takes them (02, P3). Node order: parent first, then each child's subtree in order.
#![tactic(auto)]

ghost use Rattle.std.specs.Prelude.{◌≡◌, true, ◌*◌, ◌≤◌, ◌<◌, eqb, length};
ghost use Rattle.plan.specs.Numbers.{code};
ghost use Rattle.semantics.specs.Facts.{at0, facts_op, facts};
ghost use Rattle.semantics.specs.Properties.{cuts};
ghost use Rattle.key_lists.specs.Keys.{keys_of, order_of, Real};
ghost use Rattle.plan_codec.specs.Decode.{decode, from_bytes};
ghost use Rattle.record_fields.specs.Proper.{Proper};
ghost use Rattle.walks.specs.Marks.{size_t};
ghost use Rattle.plan_context.specs.View.{tree_of, Arena};
ghost use Rattle.plan_context.specs.Records.{plan_t};
ghost use Rattle.stepping.specs.Moves.{manner};
ghost use Rattle.step_tables.specs.Places.{total, node_of};
ghost use Rattle.step_tables.specs.Passes.{number_of};
ghost use Rattle.step_nodes.specs.Layout.{plan_in, TreeLaid, TreeLays, LaidOut};
ghost use Rattle.step_nodes.specs.Rows.{written};
ghost use Rattle.step_nodes.specs.Manners.{mark_counts, manner_number, straight_kind};
ghost use Rattle.step_nodes.specs.Laying.{op_in, below_in};
ghost use Rattle.step_nodes.specs.Moves.{keys_of_manner, KeysAre, own_keys, cut_in, Projects};

use arena::{child, child_count, kept_at, record_at};
use asked_facts::{counts, known_order, streams, width};
use byte_rows::wide;
use key_lists::Keys;
use node_fetches::fetch;
use node_properties::is_projection;
use plan::Kind;
use plan_context::kept::{nodes, row};
use record_fields::{KEY_COUNT, KIND, SKIP, WIDTH, kind_of, preserves, tail_columns};
use record_keys::packed_keys;
use step_tables::{StepManner, StepNode};

// What the walk answers: the number of the next node, and the next free place.
#[derive(Clone, Copy)]
struct Next {
    pub node: usize,
    pub place: usize,
}

// How many nodes a plan has, and how many places.
#[derive(Clone, Copy)]
pub struct Layout {
    pub nodes: usize,
    pub places: usize,
}

// Keys as row_order::compare_rows takes them: the first len of the items.
#[derive(Clone, Copy)]
pub struct KeyRow {
    pub items: [usize; 8],
    pub len: usize,
}

// What a node cuts off each of its output streams.
#[derive(Clone, Copy)]
pub struct Cut {
    pub skip: usize,
    pub fetch: Option<u32>,
}

// The child columns of a projection: the first len of the items.
#[derive(Clone, Copy)]
pub struct ColumnRow {
    pub items: [usize; 32],
    pub len: usize,
}

// ---- one node

// How a node of this kind takes rows; counts: its preserve mark does.
fn manner_of(kind: Kind, counts: bool) -> StepManner
    ensures { number_of result ≡ manner_number kind counts }
{
    match kind {
        Kind::Source => StepManner::Still,
        Kind::Filter => StepManner::Passing,
        Kind::Projection => StepManner::Passing,
        Kind::Union => StepManner::Passing,
        Kind::Repartition => if counts {
            StepManner::Merging
        } else {
            StepManner::Passing
        },
        Kind::Coalesce => StepManner::Passing,
        Kind::Sort => StepManner::Sorting,
        Kind::Merge => StepManner::Merging,
        Kind::GlobalLimit => StepManner::Passing,
        Kind::LocalLimit => StepManner::Passing,
        Kind::SortMergeJoin => StepManner::Still,
        Kind::HashJoin => StepManner::Still,
        Kind::OutputRequirement => StepManner::Passing,
        Kind::PartialSort => StepManner::Sorting,
        Kind::Aggregate => StepManner::Still,
    }
}

// Whether its rows go from input stream i to output stream i.
fn is_straight(kind: Kind, preserve: bool) -> bool
    ensures { result ≡ straight_kind kind preserve }
{
    match kind {
        Kind::Source => false,
        Kind::Filter => true,
        Kind::Projection => true,
        Kind::Union => true,
        Kind::Repartition => false,
        Kind::Coalesce => false,
        Kind::Sort => preserve,
        Kind::Merge => false,
        Kind::GlobalLimit => false,
        Kind::LocalLimit => true,
        Kind::SortMergeJoin => true,
        Kind::HashJoin => true,
        Kind::OutputRequirement => true,
        Kind::PartialSort => preserve,
        Kind::Aggregate => true,
    }
}

// Whether the node is a repartition whose preserve mark counts.
fn mark_counts(m: &[u8], u: usize, i: usize) -> bool
    requires { Arena m.now u × (i < u) }
    ensures { result ≡ mark_counts (op_in m.now i) (facts (below_in m.now i)) }
{
    let r = record_at(m, i);
    match kind_of(r[KIND]) {
        Kind::Repartition => {
            let c = child(m, i, 0);
            counts(preserves(r), row(m, c))
        }
        _ => false,
    }
}

// How many input streams it has.
fn inputs(m: &[u8], u: usize, i: usize) -> usize
    requires { Arena m.now u × (i < u) }
    ensures { result ≡ total (facts (below_in m.now i)) }
{
    let mut s = 0;
    for k in (0..child_count(m, i)).rev() {
        let c = child(m, i, k);
        s += streams(row(m, c));
    }
    s
}

// ---- what a move asks

// Whether it takes rows by the keys of its record.
fn by_own_keys(kind: Kind) -> bool
    ensures { result ≡ own_keys kind }
{
    match kind {
        Kind::Source => false,
        Kind::Filter => false,
        Kind::Projection => false,
        Kind::Union => false,
        Kind::Repartition => false,
        Kind::Coalesce => false,
        Kind::Sort => true,
        Kind::Merge => true,
        Kind::GlobalLimit => false,
        Kind::LocalLimit => false,
        Kind::SortMergeJoin => false,
        Kind::HashJoin => false,
        Kind::OutputRequirement => false,
        Kind::PartialSort => true,
        Kind::Aggregate => false,
    }
}

// The keys of a word, one number each.
fn unpacked(k: Keys) -> KeyRow
    requires { k.len ≤ 8 }
    ensures { KeysAre (keys_of k) result }
{
    let mut items = [0usize; 8];
    for (j, key) in k.iter().enumerate() {
        items[j] = key & 127;
    }
    KeyRow {
        items: items,
        len: k.len,
    }
}

fn order_row(o: Option<Keys>) -> KeyRow
    requires { Real o }
    ensures { KeysAre (order_of o) result }
{
    match o {
        None => KeyRow {
            items: [0usize; 8],
            len: 0,
        },
        Some(k) => unpacked(k),
    }
}

// The keys of a record.
fn record_row(r: &[u8]) -> KeyRow
    requires { Proper r.now }
    ensures { KeysAre (from_bytes r.now).keys result }
{
    let items = packed_keys(r);
    let n = wide(r[KEY_COUNT]);
    KeyRow {
        items: items,
        len: n,
    }
}

// The keys by which the node in slot i takes rows: "the first by keys or known order".
pub fn move_keys(m: &[u8], u: usize, i: usize) -> KeyRow
    requires { Arena m.now u × (i < u) }
    ensures { KeysAre (keys_of_manner (manner (op_in m.now i) (facts (below_in m.now i)))) result }
{
    let r = record_at(m, i);
    if by_own_keys(kind_of(r[KIND])) {
        return record_row(r);
    }
    if mark_counts(m, u, i) {
        let c = child(m, i, 0);
        return order_row(known_order(row(m, c)));
    }
    order_row(None)
}

fn skip_of(r: &[u8]) -> usize
    requires { Proper r.now }
    ensures { result ≡ (cuts (decode r.now)).skip }
{
    if let Kind::GlobalLimit = kind_of(r[KIND]) {
        return scan::get32(r, SKIP) as usize;
    }
    0
}

// What it cuts: "A row that fetch or skip cuts moves and vanishes."
pub fn cut_of(m: &[u8], u: usize, i: usize) -> Cut
    requires { Arena m.now u × (i < u) }
    ensures { cut_in result ≡ cuts (op_in m.now i) }
{
    let r = record_at(m, i);
    let skip = skip_of(r);
    let fetch = fetch(r);
    Cut {
        skip: skip,
        fetch: fetch,
    }
}

// The width of its own rows.
pub fn width_at(m: &[u8], u: usize, i: usize) -> usize
    requires { Arena m.now u × (i < u) }
    ensures { (result ≡ (facts_op (op_in m.now i) (facts (below_in m.now i))).width) × (result ≤ 32) }
{
    width(kept_at(m, i))
}

// The width of the rows that it takes.
pub fn width_below(m: &[u8], u: usize, i: usize) -> usize
    requires { Arena m.now u × (i < u) × (0 < length (facts (below_in m.now i))) }
    ensures { (result ≡ (at0 (facts (below_in m.now i))).width) × (result ≤ 32) }
{
    let c = child(m, i, 0);
    width(row(m, c))
}

// Whether it is a projection: no other kind changes a row (`shown_same`).
pub fn projects(m: &[u8], u: usize, i: usize) -> bool
    requires { Arena m.now u × (i < u) }
    ensures { result ≡ eqb (code (op_in m.now i)) 3 }
{
    is_projection(record_at(m, i))
}

// The columns that a projection picks (`shown-columns`).
pub fn picked_columns(m: &[u8], u: usize, i: usize) -> ColumnRow
    requires { Arena m.now u × (i < u) × (eqb (code (op_in m.now i)) 3 ≡ true) }
    ensures { Projects (op_in m.now i) result }
{
    let r = record_at(m, i);
    let items = tail_columns(r);
    let n = wide(r[WIDTH]);
    ColumnRow {
        items: items,
        len: n,
    }
}

// ---- the tables

// Row n for the node in slot i, with its first output at a and its first input at b. It answers how many inputs there are.
fn put_node(
    m: &[u8],
    u: usize,
    i: usize,
    table: &mut [StepNode],
    above: usize,
    n: usize,
    a: usize,
    b: usize,
) -> usize
    requires { Arena m.now u × (i < u) × (n < length table.old) }
    ensures { (result ≡ total (facts (below_in m.now i)))
        × (table.new ≡ written table.old n (node_of above a b (op_in m.now i) (below_in m.now i))) }
{
    let r = record_at(m, i);
    let kind = kind_of(r[KIND]);
    let straight = is_straight(kind, preserves(r));
    let manner = manner_of(kind, mark_counts(m, u, i));
    let outs = streams(kept_at(m, i));
    let inps = inputs(m, u, i);
    table[n] = StepNode {
        manner: manner,
        straight: straight,
        out: a,
        outs: outs,
        inp: b,
        inps: inps,
        above: above,
    };
    inps
}

// The tree in slot i, its root with the number n.
fn lay(
    m: &[u8],
    u: usize,
    i: usize,
    table: &mut [StepNode],
    slots: &mut [usize],
    above: usize,
    n: usize,
    a: usize,
    b: usize,
) -> Next
    requires { TreeLays m.now u table.old slots.old n b (plan_in m.now i) × (i < u) }
    ensures { TreeLaid m.now u table.old slots.old table.new slots.new above n a b
        (plan_in m.now i) result }
{
    let inps = put_node(m, u, i, table, above, n, a, b);
    slots[n] = i;
    let mut next = n + 1;
    let mut free = b + inps;
    let mut out = b;
    for k in 0..child_count(m, i) {
        let c = child(m, i, k);
        let r = lay(m, u, c / 2, table, slots, n, next, out, free);
        out += streams(row(m, c));
        next = r.node;
        free = r.place;
    }
    Next {
        node: next,
        place: free,
    }
}

// The tree at h: each node's entry and its slot, in node order.
pub fn lay_out(m: &[u8], u: usize, h: usize, table: &mut [StepNode], slots: &mut [usize]) -> Layout
    requires { Arena m.now u × (h < 2 * u) × (size_t (tree_of m.now h) ≤ 126) × (126 ≤ length table.old) × (126 ≤ length slots.old) }
    ensures { LaidOut m.now u (plan_t (tree_of m.now h)) table.new slots.new result }
{
    let n = nodes(m, h);
    let b = streams(row(m, h));
    let r = lay(m, u, h / 2, table, slots, n, 0, 0, b);
    Layout {
        nodes: n,
        places: r.place,
    }
}
