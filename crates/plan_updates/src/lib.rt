// Marked trees that change, in the arena: a node put into a slot over its children, or rebuilt as the Rust does (update_plan_from_children). Older slots
// stay, with all that they keep.
#![tactic(auto)]

ghost use Rattle.std.specs.Prelude.{◌≡◌, false, [], ◌∷◌, ◌+◌, ◌*◌, ◌≤◌, ◌<◌, length};
ghost use Rattle.plan_codec.specs.Decode.{decode};
ghost use Rattle.plan_codec.specs.Encode.{encode};
ghost use Rattle.semantics.specs.Facts as sem;
ghost use Rattle.semantics.specs.Properties.{rebuilt as rebuiltOp};
ghost use Rattle.facts.specs.Known.{Says};
ghost use Rattle.fact_slots.specs.Slots.{loaded};
ghost use Rattle.walks.specs.Marks.{node, known, rebuild};
ghost use Rattle.plan_format.specs.Record.{children};
ghost use Rattle.arena.specs.Arena.{slot_size, record_size, kept_size, slot};
ghost use Rattle.plan_context.specs.View.{forest, summary_in, Sums, Over, Puts, Grown};
ghost use Rattle.plan_updates.specs.Again.{same};
ghost use Rattle.plan_updates.specs.Rebuild.{losing};

use arena::{At, KEPT_FROM, KEPT_SIZE, RECORD, SLOT, append, child, read64, record_at};
use asked_facts::counts;
use plan::Kind;
use plan_context::kept::row;
use record_fields::{kind_of, preserves};
use settling::settle;

// A node more, unmarked: the record r over the children ks. Its handle is 2 * u.
pub fn put(m: &mut [u8], u: usize, r: &[u8], ks: &[usize])
    requires { Puts m.old u r.now ks.now }
    ensures { Grown m.old u m.new (record { used = u + 1; root = 2 * u })
        (node (decode r.now) false (forest m.old ks.now)) (u + 1) }
{
    append(m, u, r, ks);
    settle(m, u);
}

// The same where what is kept of the node is known: b.
pub fn put_known(m: &mut [u8], u: usize, r: &[u8], ks: &[usize], b: &[u8])
    requires { Puts m.old u r.now ks.now × (length b.now ≡ kept_size) × Says (sem.facts_op (decode r.now) (known (forest m.old ks.now)))
        (loaded b.now) × Sums (node (decode r.now) false (forest m.old ks.now)) (summary_in b.now) }
    ensures { Grown m.old u m.new (record { used = u + 1; root = 2 * u })
        (node (decode r.now) false (forest m.old ks.now)) (u + 1) }
{
    append(m, u, r, ks);
    let at = u * SLOT + KEPT_FROM;
    let e = at + KEPT_SIZE;
    scan::copy(&mut m[at..e], b);
}

// Whether slot i holds the record r.
fn same_record(m: &[u8], i: usize, r: &[u8]) -> bool
    requires { ((i + 1) * slot_size ≤ length m.now) × (length (slot m.now i).rec ≡ record_size) × (length r.now ≡ record_size) }
    ensures { result ≡ same r.now (slot m.now i).rec }
{
    let a = read64(r);
    let b = read64(record_at(m, i));
    let mut all = true;
    for j in 0..RECORD {
        all = all & (a[j] == b[j]);
    }
    all
}

// Whether the handles of its children are ks, as many as it has.
fn same_children(m: &[u8], i: usize, ks: &[usize]) -> bool
    requires { ((i + 1) * slot_size ≤ length m.now) × (length ks.now ≡ children (slot m.now i).rec) × (length ks.now ≤ 8) }
    ensures { result ≡ same ks.now (slot m.now i).kids }
{
    let mut all = true;
    for (j, k) in ks.iter().enumerate() {
        all = all & (*k == child(m, i, j));
    }
    all
}

// The record r over the children ks: the tree in slot i where it is just that, else a node more.
pub fn put_again(m: &mut [u8], u: usize, r: &[u8], ks: &[usize], i: usize) -> At
    requires { Puts m.old u r.now ks.now × (i < u) }
    ensures { Grown m.old u m.new result (node (decode r.now) false (forest m.old ks.now)) (u + 1) }
{
    if same_record(m, i, r) {
        if same_children(m, i, ks) {
            return At {
                used: u,
                root: 2 * i,
            };
        }
    }
    put(m, u, r, ks);
    At {
        used: u + 1,
        root: 2 * u,
    }
}

// Whether the node is a repartition whose preserve mark does not count over its children.
fn loses_mark(m: &[u8], r: &[u8], ks: &[usize]) -> bool
    requires { Over m.now r.now ks.now }
    ensures { result ≡ losing (decode r.now) (known (forest m.now ks.now)) }
{
    let kind = kind_of(r[0]);
    if let Kind::Repartition = kind {
        let p = preserves(r);
        return p & !counts(p, row(m, ks[0]));
    }
    false
}

// The record of the node put back over its children: a preserve mark stays where it counts.
pub fn rebuilt(m: &[u8], r: &[u8], ks: &[usize]) -> [u8; 64]
    requires { Over m.now r.now ks.now }
    ensures { result ≡ encode (length ks.now) (rebuiltOp (decode r.now) (known (forest m.now ks.now))) }
{
    let mut out = read64(r);
    if loses_mark(m, r, ks) {
        out[3] = r[3] - 1;
    }
    out
}

// The node with the record r put back over the children ks: the tree in slot i where it is just that, else a node more.
pub fn update_plan_from_children(m: &mut [u8], u: usize, r: &[u8], ks: &[usize], i: usize) -> At
    requires { Puts m.old u r.now ks.now × (i < u) }
    ensures { Grown m.old u m.new result (rebuild (decode r.now) false (forest m.old ks.now))
        (u + 1) }
{
    let x = rebuilt(m, r, ks);
    put_again(m, u, &x, ks, i)
}

// A node more, unmarked, over the tree at h.
pub fn put_over(m: &mut [u8], u: usize, r: &[u8], h: usize) -> At
    requires { Puts m.old u r.now (h ∷ []) }
    ensures { Grown m.old u m.new result (node (decode r.now) false (forest m.old (h ∷ []))) (u + 1) }
{
    let one = [h];
    put(m, u, r, &one);
    At {
        used: u + 1,
        root: 2 * u,
    }
}
