// Key lists compared and changed: prefix, normal form, repeats dropped, columns moved by an offset, the set of their columns.
#![tactic(auto)]

ghost use Rattle.std.specs.Prelude.{◌≡◌, ◌&&◌, [], map, ℕ, ◌*◌, ◌<◌, ◌≤◌, ◌^◌, eqb, length, pos, ◌+ℤ◌};
ghost use Rattle.std.specs.Int.Bits.{bit_or};
ghost use Rattle.row_order.specs.Packed.{bit};
ghost use Rattle.row_order.specs.Lists.{All};
ghost use Rattle.semantics.specs.Facts.{nf_by, prefixb, common, drop_repeats};
ghost use Rattle.semantics.specs.Properties.{column_set};
ghost use Rattle.class_tables.specs.Tables.{at, Small};
ghost use Rattle.key_lists.specs.Keys.{keys_of, Keyed, InRange, Movable, moved_by};

use class_tables::{Table, low};
use column_sets::{has, with};
use key_lists::{Keys, appended, front, no_keys, same_key, with_column};
use row_order::column;

// Whether the first list is a prefix of the second.
pub fn prefix(p: Keys, q: Keys) -> bool
    ensures { result ≡ prefixb (keys_of p) (keys_of q) }
{
    let mut others = q.iter();
    for a in p.iter() {
        let Some(b) = others.next() else {
            return false;
        };
        if !same_key(a, b) {
            return false;
        }
    }
    true
}

// Whether two lists have the same keys.
pub fn same_keys(p: Keys, q: Keys) -> bool
    ensures { result ≡ prefixb (keys_of p) (keys_of q) && eqb (length (keys_of p)) (length (keys_of q)) }
{
    if p.len == q.len { prefix(p, q) } else { false }
}

// The keys that two lists have in common in front.
pub fn common_keys(p: Keys, q: Keys) -> Keys
    requires { p.len ≤ 8 }
    ensures { Keyed (common (keys_of p) (keys_of q)) result }
{
    let mut n = 0;
    for (a, b) in p.iter().zip(q.iter()) {
        if !same_key(a, b) {
            break;
        }
        n += 1;
    }
    front(p, n)
}

// The normal form: each column replaced by the lowest equal one, constants dropped, later repeats dropped.
pub fn normal_by<L: Fn(usize) -> usize>(consts: u32, k: Keys, lowest: L) -> Keys
    requires callable { (c : ℕ) → c < 32 → L.pre lowest c }
    requires columns { (c r : ℕ) → c < 32 → L.post lowest c r → r < 32 }
    requires len_bound { k.len ≤ 8 }
    ensures { (low : ℕ → ℕ) → ((c r : ℕ) → c < 32 → L.post lowest c r → r ≡ low c) → Keyed (nf_by (bit consts) low [] (keys_of k)) result }
{
    let mut out = no_keys();
    let mut seen = consts;
    for key in k.iter() {
        let c = lowest(column(key));
        if !has(seen, c) {
            seen = with(seen, c);
            out = appended(out, with_column(key, c));
        }
    }
    out
}

// The normal form by a table of classes.
pub fn normal(table: &Table, consts: u32, k: Keys) -> Keys
    requires small { Small table.now }
    requires len_bound { k.len ≤ 8 }
    ensures { Keyed (nf_by (bit consts) (at table.now) [] (keys_of k)) result }
{
    normal_by(consts, k, |c| low(table, c))
}

// The list less its constants and a column's later repeats.
pub fn fresh_keys(consts: u32, k: Keys) -> Keys
    requires { k.len ≤ 8 }
    ensures { Keyed (nf_by (bit consts) (λ c. c) [] (keys_of k)) result }
{
    normal_by(consts, k, |c| c)
}

// The list less a column's later repeats.
pub fn drop_repeats(k: Keys) -> Keys
    requires { k.len ≤ 8 }
    ensures { Keyed (drop_repeats [] (keys_of k)) result }
{
    fresh_keys(0, k)
}

// A column moved by an offset, which may be negative.
pub fn move_column(c: usize, by: isize) -> usize
    requires { (c < 32) × InRange (pos c +ℤ by) }
    ensures { pos result ≡ pos c +ℤ by }
{
    (c as isize + by) as usize
}

// Each key's column moved by an offset.
pub fn move_keys(k: Keys, by: isize) -> Keys
    requires all { All (Movable by) (keys_of k) }
    requires len_bound { k.len ≤ 8 }
    ensures { Keyed (map (moved_by by) (keys_of k)) result }
{
    let mut out = no_keys();
    for key in k.iter() {
        let c = move_column(column(key), by);
        out = appended(out, with_column(key, c));
    }
    out
}

// The set with one more column.
fn joined(set: u32, c: usize) -> u32
    requires { c < 32 }
    ensures { result ≡ bit_or set (2 ^ c) }
{
    set | (1 << c)
}

// The set of the keys' columns.
pub fn column_set(k: Keys) -> u32
    requires { k.len ≤ 8 }
    ensures { result ≡ column_set (map (λ k. k.col) (keys_of k)) }
{
    let mut set: u32 = 0;
    for i in (0..k.len).rev() {
        set = joined(set, column(k.word >> (8 * i)));
    }
    set
}
