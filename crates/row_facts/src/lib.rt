// The facts of a node from its record and its children's stored facts, over the bytes that its own slot keeps. Kinds that keep
// constants and classes copy the child's bytes and change streams and order; no facts are taken apart for them.
#![tactic(auto)]

ghost use Rattle.std.specs.Prelude.{◌≡◌, true, cond, [], ◌++◌, map, ◌+◌, ◌-◌, ◌≤◌, ◌<◌, length, get_or, take, drop};
ghost use Rattle.row_order.specs.Packed.{key_of};
ghost use Rattle.semantics.specs.Facts as sem;
ghost use Rattle.facts.specs.Known.{known, Coherent, Says};
ghost use Rattle.fact_slots.specs.Slots.{loaded};
ghost use Rattle.plan.specs.WellFormed.{below};
ghost use Rattle.plan_codec.specs.Decode.{decode};
ghost use Rattle.join_facts.specs.Joining.{Joinable};
ghost use Rattle.node_facts.specs.Ready.{kids_of, count, groups_in, lent_keys, lent_columns, type_in, on_in};
ghost use Rattle.key_lists.specs.Keys.{keys_of};
ghost use Rattle.asked_facts.specs.Asked.{told, FactRow};
ghost use Rattle.row_facts.specs.Over.{OverRows};

use asked_facts::{keeps_order, one_stream};
use fact_slots::{CLASSES, ORDER, ORDER_LEN, ROW, STREAMS, WIDTH, load_row, store, word_row};
use key_lists::Keys;
use met_orders::normal_form;
use node_facts::{aggregated, hash_joined, projected, sort_merge_joined};
use plan::Kind;
use record_fields::{KIND, kind_of, preserves};
use record_keys::key_list;

// The first 48 bytes of s: by value, so that whoever stores them stores many at once.
pub fn row(s: &[u8]) -> [u8; 48]
    requires { 48 ≤ length s.now }
    ensures { result ≡ take 48 s.now }
{
    let mut out = [0u8; 48];
    out.copy_from_slice(&s[..ROW]);
    out
}

// The child's facts as they stand.
fn keep(own: &mut [u8], b: &[u8])
    requires { (length own.old ≡ 112) × (48 ≤ length b.now) }
    ensures { own.new ≡ take 48 b.now ++ drop 48 own.old }
{
    let kept = row(b);
    scan::copy(&mut own[WIDTH..ROW], &kept);
}

// The byte, or 0.
fn byte_if(test: bool, x: u8) -> u8
    ensures { result ≡ cond test x 0 }
{
    if test { x } else { 0 }
}

// Other streams, with the known order or without.
fn restream(own: &mut [u8], b: &[u8], streams: u8, keeps: bool)
    requires { (length own.old ≡ 112) × FactRow b.now }
    ensures { Says (sem.ordered (told b.now) streams (cond keeps (told b.now).order [])) (loaded own.new) }
{
    keep(own, b);
    let n = byte_if(keeps, b[ORDER_LEN]);
    own[STREAMS] = streams;
    own[STREAMS + 1] = 0;
    own[ORDER_LEN] = n;
}

// The normal form of the keys in the known order's place.
fn reorder(own: &mut [u8], b: &[u8], keys: Keys)
    requires { (length own.old ≡ 112) × FactRow b.now × (keys.len ≤ 8) }
    ensures { Says (sem.reorder (told b.now) (keys_of keys)) (loaded own.new) }
{
    let order = normal_form(b, keys);
    let word = word_row(order.word);
    keep(own, b);
    byte_rows::write_row(&mut own[ORDER..CLASSES], &word);
    own[ORDER_LEN] = (order.len % 256) as u8;
}

// Sorted by the keys of the record; a whole sort gives one stream.
fn sort(own: &mut [u8], r: &[u8], b: &[u8], preserve: bool)
    requires { (length own.old ≡ 112) × (length r.now ≡ 64) × (count r.now ≤ 8) × FactRow b.now }
    ensures { Says (sem.ordered (told b.now) (sem.sort_streams preserve (told b.now))
        (sem.nf (told b.now) [] (map key_of (lent_keys r.now (count r.now))))) (loaded own.new) }
{
    reorder(own, b, key_list(r));
    if preserve {
        return;
    }
    own[STREAMS] = 1;
    own[STREAMS + 1] = 0;
}

// A projection to the columns of the record.
fn project(own: &mut [u8], r: &[u8], b: &[u8])
    requires { (length own.old ≡ 112) × (length r.now ≡ 64) × (get_or r.now 13 0 ≤ 32) × (48 ≤ length b.now) × Coherent (loaded b.now)
        × (below (loaded b.now).width (lent_columns r.now (get_or r.now 13 0)) ≡ true) × ((loaded b.now).streams < 65536) }
    ensures { Says (sem.proj_facts (known (loaded b.now)) (lent_columns r.now (get_or r.now 13 0)))
        (loaded own.new) }
{
    let f = load_row(b);
    let g = projected(r, f);
    store(own, g);
}

// An aggregate by the group columns of the record.
fn aggregate(own: &mut [u8], r: &[u8], b: &[u8])
    requires { (length own.old ≡ 112) × (length r.now ≡ 64) × (count r.now ≤ 8) × (48 ≤ length b.now) × Coherent (loaded b.now)
        × (below (loaded b.now).width (groups_in r.now) ≡ true) × (count r.now + (get_or r.now 13 0 - count r.now) ≤ 32)
        × ((loaded b.now).streams < 65536) }
    ensures { Says (sem.placed (sem.proj_facts (known (loaded b.now)) (groups_in r.now))
        (get_or r.now 13 0 - count r.now)) (loaded own.new) }
{
    let f = load_row(b);
    let g = aggregated(r, f);
    store(own, g);
}

// A sort-merge join by the type and the key pairs of the record.
fn join_sorted(own: &mut [u8], r: &[u8], a: &[u8], b: &[u8])
    requires { (length own.old ≡ 112) × (length r.now ≡ 64) × (count r.now ≤ 8) × (48 ≤ length a.now) × (48 ≤ length b.now)
        × Joinable (type_in r.now) (loaded a.now) (loaded b.now) (lent_keys r.now (count r.now)) (lent_columns r.now (count r.now))
        × ((loaded a.now).streams < 65536) × ((loaded b.now).streams < 65536) }
    ensures { Says (sem.join_facts (type_in r.now) (sem.smj_kept (type_in r.now)) (on_in r.now)
        (known (loaded a.now)) (known (loaded b.now)) (cond (sem.by_right (type_in r.now)) (loaded b.now).streams
        (loaded a.now).streams)) (loaded own.new) }
{
    let f = load_row(a);
    let g = load_row(b);
    let h = sort_merge_joined(r, f, g);
    store(own, h);
}

// A hash join by the type and the key pairs of the record.
fn join_hashed(own: &mut [u8], r: &[u8], a: &[u8], b: &[u8])
    requires { (length own.old ≡ 112) × (length r.now ≡ 64) × (count r.now ≤ 8) × (48 ≤ length a.now) × (48 ≤ length b.now)
        × Joinable (type_in r.now) (loaded a.now) (loaded b.now) (lent_keys r.now (count r.now)) (lent_columns r.now (count r.now))
        × ((loaded b.now).streams < 65536) }
    ensures { Says (sem.join_facts (type_in r.now) (sem.hash_kept (type_in r.now)) (on_in r.now)
        (known (loaded a.now)) (known (loaded b.now)) (loaded b.now).streams) (loaded own.new) }
{
    let f = load_row(a);
    let g = load_row(b);
    let h = hash_joined(r, f, g);
    store(own, h);
}

// The facts of a node over its own bytes, from its record and its children's facts.
pub fn node_into(own: &mut [u8], r: &[u8], first: &[u8], second: &[u8])
    requires { OverRows own.old r.now first.now second.now }
    ensures { Says (sem.facts_op (decode r.now) (kids_of r.now (loaded first.now) (loaded second.now)))
        (loaded own.new) }
{
    let kind = kind_of(r[KIND]);
    match kind {
        Kind::Source => keep(own, first),
        Kind::Filter => keep(own, first),
        Kind::Projection => project(own, r, first),
        Kind::Union => keep(own, first),
        Kind::Repartition => restream(
            own,
            first,
            r[record_fields::STREAMS],
            keeps_order(preserves(r), first),
        ),
        Kind::Coalesce => restream(own, first, 1, false),
        Kind::Sort => sort(own, r, first, preserves(r)),
        Kind::Merge => sort(own, r, first, false),
        Kind::GlobalLimit => restream(own, first, 1, one_stream(first)),
        Kind::LocalLimit => keep(own, first),
        Kind::SortMergeJoin => join_sorted(own, r, first, second),
        Kind::HashJoin => join_hashed(own, r, first, second),
        Kind::OutputRequirement => keep(own, first),
        Kind::PartialSort => sort(own, r, first, preserves(r)),
        Kind::Aggregate => aggregate(own, r, first),
    }
}
