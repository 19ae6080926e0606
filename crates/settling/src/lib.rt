// What is kept of a node, from its record and from what is kept of its children: they stand in older slots.
#![tactic(auto)]

ghost use Rattle.std.specs.Prelude.{◌≡◌, ℕ, ◌<◌, length, get_or};
ghost use Rattle.plan.specs.Numbers.{kind_of};
ghost use Rattle.plan.specs.declared.Kind.TheVariants.{Source, Union};
ghost use Rattle.plan_codec.specs.Decode.{decode};
ghost use Rattle.semantics.specs.Facts as sem;
ghost use Rattle.facts.specs.Known.{known as told, Coherent, Says};
ghost use Rattle.fact_slots.specs.Slots.{loaded};
ghost use Rattle.node_facts.specs.Ready.{kids_of};
ghost use Rattle.row_facts.specs.Over.{OverRows as Rows};
ghost use Rattle.walks.specs.Marks.{known};
ghost use Rattle.arena.specs.Arena.{kept_size, slot, held};
ghost use Rattle.settling.specs.Reading.{Loaded};
ghost use Rattle.plan_context.specs.View.{tree_of, forest, summary_in, Sums, Arena, Settles, Settled};
ghost use Rattle.plan_context.specs.Facts.{Child};
ghost use Rattle.plan_context.specs.Summaries.{SumsEach};

use arena::{KEPT_FROM, KEPT_SIZE, SLOT, child, child_count, kept_at, read64, record_at};
use facts::{Facts, union_facts};
use node_facts::source_of;
use plan::{Kind, NO_FETCH};
use plan_context::kept::{load_summary, store_summary};
use record_fields::kind_of;
use row_facts::node_into;
use row_wants::wants_met;
use tree_summary::{Summary, summed};

// The facts of child j of node i.
fn child_facts(m: &[u8], i: usize, j: usize) -> Facts
    requires { Settles m.now i × (j < length (slot m.now i).kids) }
    ensures { Child (known (forest m.now (slot m.now i).kids)) j result }
{
    let k = child(m, i, j);
    fact_slots::load(kept_at(m, k / 2))
}

// The bytes that hold them, by value.
fn child_row(m: &[u8], i: usize, j: usize) -> [u8; 48]
    requires { Settles m.now i × (j < length (slot m.now i).kids) }
    ensures { (length result ≡ 48) × Child (known (forest m.now (slot m.now i).kids)) j (loaded result) }
{
    let k = child(m, i, j);
    row_facts::row(kept_at(m, k / 2))
}

// Those of the second child; where there is none, of the first.
fn second_row(m: &[u8], i: usize) -> [u8; 48]
    requires { Settles m.now i × (0 < length (slot m.now i).kids) }
    ensures { (length result ≡ 48) × Child (known (forest m.now (slot m.now i).kids)) 1 (loaded result) }
{
    if 1 < child_count(m, i) {
        child_row(m, i, 1)
    } else {
        child_row(m, i, 0)
    }
}

// A union's facts, folded from the last child to the first.
fn united(m: &[u8], i: usize) -> Facts
    requires { Settles m.now i × (0 < length (slot m.now i).kids) }
    ensures { Says (sem.union_facts (known (forest m.now (slot m.now i).kids))) result }
{
    let last = child_count(m, i) - 1;
    let mut f = child_facts(m, i, last);
    for j in (0..last).rev() {
        let a = child_facts(m, i, j);
        f = union_facts(a, f);
    }
    f
}

// The summary of child j.
fn child_summary(m: &[u8], i: usize, j: usize) -> Summary
    requires { Settles m.now i × (j < length (slot m.now i).kids) }
    ensures { Sums (tree_of m.now (get_or (slot m.now i).kids j 0)) result }
{
    let k = child(m, i, j);
    load_summary(kept_at(m, k / 2))
}

// The summary of a node's children, from the last to the first.
fn below(m: &[u8], i: usize) -> Summary
    requires { Settles m.now i }
    ensures { SumsEach (forest m.now (slot m.now i).kids) result }
{
    let mut s = Summary {
        passes: true,
        endless: false,
        nodes: 0,
        fetch: NO_FETCH,
    };
    for j in (0..child_count(m, i)).rev() {
        let x = child_summary(m, i, j);
        s = Summary {
            passes: x.passes & s.passes,
            endless: x.endless | s.endless,
            nodes: x.nodes + s.nodes,
            fetch: x.fetch,
        };
    }
    s
}

// The facts f and the summary s over the bytes of one slot.
fn keep(b: &mut [u8], f: Facts, s: Summary)
    requires { (length b.old ≡ kept_size) × Coherent f × (f.streams < 65536) × (s.nodes < 65536) }
    ensures { Says (told f) (loaded b.new) × (summary_in b.new ≡ s) }
{
    fact_slots::store(b, f);
    store_summary(b, s);
}

// The facts of a node with children, and the summary s.
fn keep_node(b: &mut [u8], r: &[u8], first: &[u8], second: &[u8], s: Summary)
    requires { Rows b.old r.now first.now second.now × (s.nodes < 65536) }
    ensures { Says (sem.facts_op (decode r.now) (kids_of r.now (loaded first.now) (loaded second.now)))
        (loaded b.new) × (summary_in b.new ≡ s) }
{
    node_into(b, r, first, second);
    store_summary(b, s);
}

// A source's slot.
fn settle_source(m: &mut [u8], i: usize, s: Summary)
    requires { Settles m.old i × (kind_of (get_or (slot m.old i).rec 0 0) ≡ Source) × SumsEach (forest m.old (slot m.old i).kids) s }
    ensures { Settled m.old i m.new }
{
    let r = read64(record_at(m, i));
    let f = source_of(&r);
    let x = summed(&r, true, s);
    let at = i * SLOT + KEPT_FROM;
    let e = at + KEPT_SIZE;
    keep(&mut m[at..e], f, x);
}

// A union's slot.
fn settle_union(m: &mut [u8], i: usize, s: Summary)
    requires { Settles m.old i × (kind_of (get_or (slot m.old i).rec 0 0) ≡ Union) × SumsEach (forest m.old (slot m.old i).kids) s }
    ensures { Settled m.old i m.new }
{
    let r = read64(record_at(m, i));
    let f = united(m, i);
    let x = summed(&r, true, s);
    let at = i * SLOT + KEPT_FROM;
    let e = at + KEPT_SIZE;
    keep(&mut m[at..e], f, x);
}

// The slot of any other node.
fn settle_inner(m: &mut [u8], i: usize, s: Summary)
    requires { Settles m.old i × (kind_of (get_or (slot m.old i).rec 0 0) ≡ Union → ⊥) × (kind_of (get_or (slot m.old i).rec 0 0) ≡ Source → ⊥)
        × SumsEach (forest m.old (slot m.old i).kids) s }
    ensures { Settled m.old i m.new }
{
    let r = read64(record_at(m, i));
    let first = child_row(m, i, 0);
    let second = second_row(m, i);
    let met = wants_met(&r, &first, &second);
    let x = summed(&r, met, s);
    let at = i * SLOT + KEPT_FROM;
    let e = at + KEPT_SIZE;
    keep_node(&mut m[at..e], &r, &first, &second, x);
}

// Slot i keeps what there is to know of its node; all other bytes stay.
pub fn settle(m: &mut [u8], i: usize)
    requires { Settles m.old i }
    ensures { Settled m.old i m.new }
{
    let s = below(m, i);
    let kind = kind_of(record_at(m, i)[0]);
    if let Kind::Union = kind {
        settle_union(m, i, s);
        return;
    }
    if let Kind::Source = kind {
        settle_source(m, i, s);
        return;
    }
    settle_inner(m, i, s);
}

// All u slots keep what there is to know of their nodes; the nodes stay.
pub fn settle_all(m: &mut [u8], u: usize)
    requires { Loaded m.old u }
    ensures { Arena m.new u × ((v : ℕ) → held m.new v ≡ held m.old v) }
{
    for i in 0..u {
        settle(m, i);
    }
}
