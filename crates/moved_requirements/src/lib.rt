// A requirement in the columns of a join's right side or of a projection's or an aggregate's child, and two requirements compared key by key
// (sort_pushdown.rs).
#![tactic(auto)]

ghost use Rattle.std.specs.Prelude.{◌≡◌, map, ◌<◌, ◌≤◌, leb, ltb, neg_ℤ, pos, get_or};
ghost use Rattle.row_order.specs.Lists.{All};
ghost use Rattle.plan.specs.WellFormed.{every};
ghost use Rattle.class_tables.specs.Tables.{Columns};
ghost use Rattle.key_lists.specs.Keys.{keys_of, Keyed};
ghost use Rattle.walks.specs.SortPushdown.{at_column, none_equal, add_offset_to_physical_sort_exprs, remap_requirement_through_projection};

use key_list_algebra::{drop_repeats, move_keys};
use key_lists::{Keys, appended, no_keys, same_key, with_column};
use row_order::column;

// ---- columns of a join's right side

// Whether every column stands at the offset or above.
pub fn all_from(off: usize, keys: Keys) -> bool
    ensures { result ≡ every (λ k. leb off k.col) (keys_of keys) }
{
    for key in keys.iter() {
        if column(key) < off {
            return false;
        }
    }
    true
}

// An offset to the left.
fn back(off: usize) -> isize
    requires { off ≤ 32 }
    ensures { result ≡ neg_ℤ (pos off) }
{
    0 - (off as isize)
}

// Each column moved back by the offset.
pub fn moved_back(off: usize, keys: Keys) -> Keys
    requires { (off ≤ 32) × All (λ k. off ≤ k.col) (keys_of keys) × (keys.len ≤ 8) }
    ensures { Keyed (add_offset_to_physical_sort_exprs off (keys_of keys)) result }
{
    move_keys(keys, back(off))
}

// ---- through a projection, or an aggregate: cols are the child columns of its columns, or of its group columns

// The column at place c; 0 past the columns.
fn column_at(cols: &[usize], c: usize) -> usize
    requires { Columns cols.now }
    ensures { (result ≡ get_or cols.now c 0) × (result < 32) }
{
    if c < cols.len() {
        return cols[c];
    }
    0
}

// Each key at the child column of its column.
fn at_child_columns(cols: &[usize], keys: Keys) -> Keys
    requires { Columns cols.now × (keys.len ≤ 8) }
    ensures { Keyed (map (at_column (λ c. get_or cols.now c 0)) (keys_of keys)) result }
{
    let mut out = no_keys();
    for key in keys.iter() {
        let c = column_at(cols, column(key));
        out = appended(out, with_column(key, c));
    }
    out
}

// remap_requirement_through_projection; handle_aggregate_pushdown maps a requirement in the same way
pub fn remap_requirement_through_projection(cols: &[usize], keys: Keys) -> Keys
    requires { Columns cols.now × (keys.len ≤ 8) }
    ensures { Keyed (remap_requirement_through_projection cols.now (keys_of keys)) result }
{
    let moved = at_child_columns(cols, keys);
    drop_repeats(moved)
}

// Whether every column stands below n.
pub fn all_below(n: usize, keys: Keys) -> bool
    ensures { result ≡ every (λ k. ltb k.col n) (keys_of keys) }
{
    for key in keys.iter() {
        if n <= column(key) {
            return false;
        }
    }
    true
}

// ---- keys compared

// Whether no key equals its counterpart.
pub fn none_equal(p: Keys, q: Keys) -> bool
    ensures { result ≡ none_equal (keys_of p) (keys_of q) }
{
    let mut others = q.iter();
    for a in p.iter() {
        let Some(b) = others.next() else {
            return true;
        };
        if same_key(a, b) {
            return false;
        }
    }
    true
}
