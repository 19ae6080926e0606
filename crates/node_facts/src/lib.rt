// The facts of sources, projections, aggregates and joins from their records and their children's facts.
#![tactic(auto)]

ghost use Rattle.std.specs.Prelude.{◌≡◌, true, cond, map, ◌+◌, ◌-◌, ◌≤◌, length, get_or};
ghost use Rattle.row_order.specs.Packed.{key_of};
ghost use Rattle.scan.specs.Bytes.{le32};
ghost use Rattle.plan.specs.WellFormed.{set_fits, below};
ghost use Rattle.semantics.specs.Facts as sem;
ghost use Rattle.facts.specs.Known.{known, Coherent, Says};
ghost use Rattle.join_facts.specs.Joining.{Joinable};
ghost use Rattle.record_fields.specs.Fields.{tail_columns};
ghost use Rattle.node_facts.specs.Ready.{count, groups_in, lent_keys, lent_columns, type_in, on_in};

use byte_rows::wide;
use facts::{Facts, projection_facts, source_facts};
use join_facts::{hash_join_facts, placed, sort_merge_join_facts};
use record_fields::{KEY_COUNT, ROLE, STREAMS, TAIL, WIDTH, join_type_of, tail_columns};
use record_keys::{key_columns, key_list, packed_keys};

// A source: width, streams, constants and keys of its record.
pub fn source_of(r: &[u8]) -> Facts
    requires { (length r.now ≡ 64) × (count r.now ≤ 8) × (get_or r.now 13 0 ≤ 32)
        × (set_fits (get_or r.now 13 0) (le32 (tail_columns r.now) 0) ≡ true) }
    ensures { Says (sem.reorder (sem.source_facts (get_or r.now 13 0) (get_or r.now 2 0) (le32 (tail_columns r.now) 0))
        (map key_of (lent_keys r.now (count r.now)))) result }
{
    source_facts(
        wide(r[WIDTH]),
        wide(r[STREAMS]),
        scan::get32(r, TAIL),
        key_list(r),
    )
}

// A projection to the columns of its record.
pub fn projected(r: &[u8], f: Facts) -> Facts
    requires { (length r.now ≡ 64) × (get_or r.now 13 0 ≤ 32) × Coherent f × (below f.width (lent_columns r.now (get_or r.now 13 0)) ≡ true) }
    ensures { Says (sem.proj_facts (known f) (lent_columns r.now (get_or r.now 13 0))) result }
{
    let cols = tail_columns(r);
    let n = wide(r[WIDTH]);
    projection_facts(f, &cols[..n])
}

// A projection to the group columns of an aggregate's record.
fn grouped(r: &[u8], f: Facts) -> Facts
    requires { (length r.now ≡ 64) × (count r.now ≤ 8) × Coherent f × (below f.width (groups_in r.now) ≡ true) }
    ensures { Says (sem.proj_facts (known f) (groups_in r.now)) result }
{
    let cols = key_columns(r);
    let n = wide(r[KEY_COUNT]);
    projection_facts(f, &cols[..n])
}

// An aggregate: its group columns before its aggregate columns, of which nothing is known.
pub fn aggregated(r: &[u8], f: Facts) -> Facts
    requires { (length r.now ≡ 64) × (count r.now ≤ 8) × Coherent f × (below f.width (groups_in r.now) ≡ true)
        × (count r.now + (get_or r.now 13 0 - count r.now) ≤ 32) }
    ensures { Says (sem.placed (sem.proj_facts (known f) (groups_in r.now)) (get_or r.now 13 0 - count r.now)) result }
{
    let more = wide(r[WIDTH]).saturating_sub(wide(r[KEY_COUNT]));
    placed(grouped(r, f), more)
}

// A sort-merge join by the type and the key pairs of the record.
pub fn sort_merge_joined(r: &[u8], a: Facts, b: Facts) -> Facts
    requires { (length r.now ≡ 64) × (count r.now ≤ 8) × Joinable (type_in r.now) a b (lent_keys r.now (count r.now))
        (lent_columns r.now (count r.now)) }
    ensures { Says (sem.join_facts (type_in r.now) (sem.smj_kept (type_in r.now)) (on_in r.now) (known a) (known b)
        (cond (sem.by_right (type_in r.now)) b.streams a.streams)) result }
{
    let keys = packed_keys(r);
    let cols = tail_columns(r);
    let n = wide(r[KEY_COUNT]);
    let t = join_type_of(r[ROLE]);
    sort_merge_join_facts(t, a, b, &keys[..n], &cols[..n])
}

// A hash join by the type and the key pairs of the record.
pub fn hash_joined(r: &[u8], a: Facts, b: Facts) -> Facts
    requires { (length r.now ≡ 64) × (count r.now ≤ 8) × Joinable (type_in r.now) a b (lent_keys r.now (count r.now))
        (lent_columns r.now (count r.now)) }
    ensures { Says (sem.join_facts (type_in r.now) (sem.hash_kept (type_in r.now)) (on_in r.now) (known a) (known b)
        b.streams) result }
{
    let keys = packed_keys(r);
    let cols = tail_columns(r);
    let n = wide(r[KEY_COUNT]);
    let t = join_type_of(r[ROLE]);
    hash_join_facts(t, a, b, &keys[..n], &cols[..n])
}
