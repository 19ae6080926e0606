// Class tables: of each column the lowest column that is equal to it. A table has 32 entries; above a node's width each column is
// alone in its class.
#![tactic(auto)]

ghost use Rattle.std.specs.Prelude.{◌≡◌, cond, ◌&&◌, ◌||◌, ◌+◌, ◌-◌, min, ◌<◌, ◌≤◌, eqb, length, get_or};
ghost use Rattle.row_order.specs.Packed.{bit};
ghost use Rattle.semantics.specs.Facts.{lowest};
ghost use Rattle.column_sets.specs.Sets.{Holding, below};
ghost use Rattle.class_tables.specs.Tables.{at, Filled, Columns, Down, Alone, alike_at, union_low, carries, projection_low, beside_low, in_classes, linked_low};

use byte_rows::wide;
use column_sets::{either, has, with_if};

// Of each column a byte, its class's lowest column. Callers hold a table by this name, read it by `low`, and keep it in a row by
// `to_bytes` and `from_bytes`: what an entry is held in is seen here alone.
pub type Table = [u8; 32];

// A column's number as a table holds it.
fn entry(x: usize) -> u8
    requires { x < 256 }
    ensures { result ≡ x }
{
    x as u8
}

// Each column is alone in its class.
pub fn alone() -> Table
    ensures { Filled 0 (λ c. c) result }
{
    [
        0, 1, 2, 3, 4, 5, 6, 7, 8, 9, 10, 11, 12, 13, 14, 15, 16, 17, 18, 19, 20, 21, 22, 23, 24,
        25, 26, 27, 28, 29, 30, 31,
    ]
}

// The lowest column that is equal to column c.
pub fn low(table: &Table, c: usize) -> usize
    requires { c < 32 }
    ensures { result ≡ at table.now c }
{
    wide(table[c])
}

// The table that was kept in 32 bytes.
pub fn from_bytes(b: &[u8]) -> Table
    requires { length b.now ≡ 32 }
    ensures { result ≡ b.now }
{
    let mut table = [0u8; 32];
    scan::copy(&mut table, b);
    table
}

// The table over 32 bytes.
pub fn to_bytes(b: &mut [u8], table: &Table)
    requires { length b.old ≡ 32 }
    ensures { b.new ≡ table.now }
{
    scan::copy(b, table);
}

// Whether columns i and c are equal in both tables.
fn alike(a: &Table, b: &Table, c: usize, i: usize) -> bool
    requires { (c < 32) × (i < 32) }
    ensures { result ≡ alike_at a.now b.now c i }
{
    low(a, i) == low(a, c) && low(b, i) == low(b, c)
}

// The lowest column that is equal to column c in both tables.
fn union_low(a: &Table, b: &Table, c: usize) -> usize
    requires { c < 32 }
    ensures { result ≡ union_low a.now b.now c }
{
    for i in 0..c {
        if alike(a, b, c, i) {
            return i;
        }
    }
    c
}

// A union: columns that are equal in both tables.
pub fn union_table(a: &Table, b: &Table, width: usize) -> Table
    requires { width ≤ 32 }
    ensures { Filled width (union_low a.now b.now) result }
{
    let mut r = alone();
    for c in 0..width {
        r[c] = entry(union_low(a, b, c));
    }
    r
}

// The lowest of the first n output columns that carries the class; n if none does.
pub fn carried(table: &Table, cols: &[usize], class: usize, n: usize) -> usize
    requires { Columns cols.now × (n ≤ length cols.now) }
    ensures { result ≡ lowest (carries table.now cols.now class) n }
{
    for j in 0..n {
        if low(table, cols[j]) == class {
            return j;
        }
    }
    n
}

// A projection: outputs of one child class are one class.
pub fn projection_table(table: &Table, cols: &[usize]) -> Table
    requires { Columns cols.now × (length cols.now ≤ 32) }
    ensures { Filled (length cols.now) (projection_low table.now cols.now) result }
{
    let mut r = alone();
    for j in 0..cols.len() {
        r[j] = entry(carried(table, cols, low(table, cols[j]), j));
    }
    r
}

// A projection's constants: the outputs that carry one.
pub fn projection_set(set: u32, cols: &[usize]) -> u32
    requires { length cols.now ≤ 32 }
    ensures { Holding (below (length cols.now) (λ j. bit set (get_or cols.now j 0))) result }
{
    let mut r: u32 = 0;
    for j in 0..cols.len() {
        r = with_if(has(set, cols[j]), r, j);
    }
    r
}

// The left table's first w columns, then n columns of the right table.
pub fn beside_table(left: Table, right: &Table, w: usize, n: usize) -> Table
    requires { Alone w left × Down right.now × (w + n ≤ 32) }
    ensures { Filled (w + n) (beside_low left right.now w) result }
{
    let mut r = left;
    for c in w..w + n {
        r[c] = entry(w + low(right, c - w));
    }
    r
}

// Whether z is one of two classes.
fn one_of(z: usize, x: usize, y: usize) -> bool
    ensures { result ≡ eqb z x || eqb z y }
{
    z == x || z == y
}

// What the entry z becomes when the classes x and y are one.
fn joined(z: u8, x: usize, y: usize) -> u8
    ensures { result ≡ cond (eqb z x || eqb z y) (min x y) z }
{
    if one_of(z as usize, x, y) {
        entry(x.min(y))
    } else {
        z
    }
}

// Classes x and y become one.
pub fn linked_table(table: &Table, x: usize, y: usize, width: usize) -> Table
    requires { width ≤ 32 }
    ensures { Filled width (linked_low table.now x y) result }
{
    let mut r = alone();
    for c in 0..width {
        r[c] = joined(table[c], x, y);
    }
    r
}

// The columns of classes x and y.
pub fn class_set(table: &Table, x: usize, y: usize, width: usize) -> u32
    requires { width ≤ 32 }
    ensures { Holding (below width (in_classes table.now x y)) result }
{
    let mut r: u32 = 0;
    for c in 0..width {
        r = with_if(one_of(low(table, c), x, y), r, c);
    }
    r
}

// Whether one of two columns is in the set.
fn has_one(set: u32, a: usize, b: usize) -> bool
    ensures { result ≡ bit set a || bit set b }
{
    has(set, a) || has(set, b)
}

// The constants when columns a and b are equal: a class that holds a constant is all constant.
pub fn linked_set(table: &Table, set: u32, a: usize, b: usize, width: usize) -> u32
    requires { (a < 32) × (b < 32) × (width ≤ 32) }
    ensures { Holding (λ c. bit set c || (below width (in_classes table.now (at table.now a) (at table.now b)) c
        && (bit set a || bit set b))) result }
{
    if has_one(set, a, b) {
        let class = class_set(table, low(table, a), low(table, b), width);
        return either(set, class);
    }
    set
}
