// The facts of a node by value: width, streams, constants, classes of equal columns, known order (01, 'Facts of a node'). Each
// function's contract is an equation with the semantics' own definition; a join's facts stand in the crate join_facts.
#![tactic(auto)]

ghost use Rattle.std.specs.Prelude.{◌≡◌, true, [], ◌+◌, ◌<◌, ◌≤◌, ◌^◌, length};
ghost use Rattle.plan.specs.WellFormed.{below, set_fits};
ghost use Rattle.semantics.specs.Facts as sem;
ghost use Rattle.class_tables.specs.Tables.{Columns};
ghost use Rattle.key_lists.specs.Keys.{keys_of, Keyed};
ghost use Rattle.facts.specs.Known.{known, Coherent, Says, Agrees};

use class_tables::{Table, alone, carried, low, projection_set, projection_table, union_table};
use key_list_algebra::{common_keys, normal};
use key_lists::{Keys, appended, no_keys, with_column};
use row_order::column;

// specs/Known.antt says which facts these are. An empty order is no order.
#[derive(Clone, Copy)]
pub struct Facts {
    pub width: usize,
    pub streams: usize,
    pub consts: u32,
    pub low: Table,
    pub order: Keys,
}

// Other streams, and the normal form of the keys for an order.
pub fn sorted_facts(f: Facts, streams: usize, keys: Keys) -> Facts
    requires { Coherent f × (keys.len ≤ 8) }
    ensures { Says (sem.ordered (known f) streams (sem.nf (known f) [] (keys_of keys))) result }
{
    let table = f.low;
    let order = normal(&table, f.consts, keys);
    Facts {
        width: f.width,
        streams: streams,
        consts: f.consts,
        low: table,
        order: order,
    }
}

// To reorder: the list's normal form in the known order's place.
fn reordered(f: Facts, keys: Keys) -> Facts
    requires { Coherent f × (keys.len ≤ 8) }
    ensures { Says (sem.reorder (known f) (keys_of keys)) result }
{
    sorted_facts(f, f.streams, keys)
}

// Nothing is known of w columns.
pub fn unknown(w: usize) -> Facts
    requires { w ≤ 32 }
    ensures { Says (sem.unknown w) result }
{
    let table = alone();
    let order = no_keys();
    Facts {
        width: w,
        streams: 0,
        consts: 0,
        low: table,
        order: order,
    }
}

// A source: its declared constants and keys.
pub fn source_facts(width: usize, streams: usize, consts: u32, keys: Keys) -> Facts
    requires { (width ≤ 32) × (set_fits width consts ≡ true) × (keys.len ≤ 8) }
    ensures { Says (sem.reorder (sem.source_facts width streams consts) (keys_of keys)) result }
{
    let table = alone();
    let order = no_keys();
    let declared = Facts {
        width: width,
        streams: streams,
        consts: consts,
        low: table,
        order: order,
    };
    reordered(declared, keys)
}

// Union: streams added, the common prefix, common classes, no constants.
pub fn union_facts(a: Facts, b: Facts) -> Facts
    requires { Coherent a × Coherent b × (a.streams + b.streams < 2 ^ 64) }
    ensures { Says (sem.both (known a) (known b)) result }
{
    let x = a.low;
    let y = b.low;
    let table = union_table(&x, &y, a.width);
    let p = a.order;
    let q = b.order;
    let order = common_keys(p, q);
    let none: u32 = 0;
    let streams = a.streams + b.streams;
    Facts {
        width: a.width,
        streams: streams,
        consts: none,
        low: table,
        order: order,
    }
}

// The order as far as a class member is projected, lowest output column first.
fn projection_order(table: &Table, cols: &[usize], keys: Keys) -> Keys
    requires columns { Columns cols.now }
    requires cols_len_bound { (length cols.now ≤ 32) × (keys.len ≤ 8) }
    ensures { (F : sem.Facts) → Agrees F table.now → Keyed (sem.proj_order F cols.now (keys_of keys)) result }
{
    let mut out = no_keys();
    for key in keys.iter() {
        let c = carried(table, cols, low(table, column(key)), cols.len());
        if cols.len() <= c {
            return out;
        }
        out = appended(out, with_column(key, c));
    }
    out
}

// Projection carries what its columns carry.
pub fn projection_facts(f: Facts, cols: &[usize]) -> Facts
    requires { Coherent f × (below f.width cols.now ≡ true) × (length cols.now ≤ 32) }
    ensures { Says (sem.proj_facts (known f) cols.now) result }
{
    let x = f.low;
    let keys = f.order;
    let table = projection_table(&x, cols);
    let order = projection_order(&x, cols, keys);
    let consts = projection_set(f.consts, cols);
    Facts {
        width: cols.len(),
        streams: f.streams,
        consts: consts,
        low: table,
        order: order,
    }
}
