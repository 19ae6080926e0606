// What refusal 7 asks of a record's columns: keys, constants and keyed columns, child columns and right key columns lie below a width, and key lists do not
// repeat.
#![tactic(auto)]

ghost use Rattle.std.specs.Prelude.{◌≡◌, ◌≤◌, ◌<◌, cond, not, ◌||◌, length, get_or, take};
ghost use Rattle.scan.specs.Bytes.{part, le32};
ghost use Rattle.plan_format.specs.LastPass.{below_ok, fresh_ok, column_ok, columns_ok, set_below, key_columns, column_limit, columns_rule};

use plan_format::Fields;

// The number at i, or 0 past the end.
pub fn at_or_zero(s: &[u8], i: usize) -> u8
    ensures { result ≡ get_or s.now i 0 }
{
    s.get(i).copied().unwrap_or(0)
}

fn below_ok(l: &[u8], limit: u8) -> bool
    ensures { result ≡ below_ok l.now limit }
{
    for x in l {
        if limit <= *x {
            return false;
        }
    }
    true
}

fn fresh_ok(l: &[u8], i: usize) -> bool
    requires { i < length l.now }
    ensures { result ≡ fresh_ok l.now i }
{
    let x = l[i];
    for j in 0..i {
        if l[j] == x {
            return false;
        }
    }
    true
}

fn column_ok(l: &[u8], limit: u8, i: usize) -> bool
    requires { i < length l.now }
    ensures { result ≡ column_ok l.now limit i }
{
    let x = l[i];
    (x < limit) & fresh_ok(l, i)
}

fn columns_ok(l: &[u8], limit: u8) -> bool
    ensures { result ≡ columns_ok l.now limit }
{
    for i in 0..l.len() {
        if !column_ok(l, limit, i) {
            return false;
        }
    }
    true
}

// A list of columns below the limit; without repeats where it is a key list.
fn list_ok(l: &[u8], limit: u8, repeats: bool) -> bool
    ensures { result ≡ cond repeats (below_ok l.now limit) (columns_ok l.now limit) }
{
    if repeats {
        return below_ok(l, limit);
    }
    columns_ok(l, limit)
}

fn set_below(x: u32, limit: u8) -> bool
    ensures { result ≡ set_below x limit }
{
    if 32 <= limit {
        return true;
    }
    x >> u32::from(limit) == 0
}

fn key_columns(r: &[u8]) -> [u8; 8]
    requires { length r.now ≡ 64 }
    ensures { result ≡ key_columns r.now }
{
    [r[16], r[18], r[20], r[22], r[24], r[26], r[28], r[30]]
}

pub fn column_limit(f: Fields, r: &[u8], ws: &[u8]) -> u8
    requires { length r.now ≡ 64 }
    ensures { result ≡ column_limit f r.now ws.now }
{
    if f.constants {
        return r[13];
    }
    at_or_zero(ws, 0)
}

fn keys_below(r: &[u8], limit: u8) -> bool
    requires { (length r.now ≡ 64) × (get_or r.now 12 0 ≤ 8) }
    ensures { result ≡ columns_ok (take (get_or r.now 12 0) (key_columns r.now)) limit }
{
    let n = r[12] as usize;
    if n == 0 {
        return true;
    }
    let ks = key_columns(r);
    list_ok(&ks[..n], limit, false)
}

// A source's constants, kind 13's keyed columns.
fn set_ok(f: Fields, r: &[u8], limit: u8) -> bool
    requires { length r.now ≡ 64 }
    ensures { result ≡ not (f.constants || f.distribution) || set_below (le32 r.now 32) limit }
{
    if f.constants | f.distribution {
        let x = scan::get32(r, 32);
        return set_below(x, limit);
    }
    true
}

// A projection's child columns, which may repeat.
fn child_columns_ok(f: Fields, r: &[u8], limit: u8) -> bool
    requires { (length r.now ≡ 64) × (get_or r.now 13 0 ≤ 32) }
    ensures { result ≡ not f.columns || below_ok (part 32 (get_or r.now 13 0) r.now) limit }
{
    if f.columns {
        let e = 32 + r[13] as usize;
        return list_ok(&r[32..e], limit, true);
    }
    true
}

// A join's right key columns.
fn right_columns_ok(f: Fields, r: &[u8], limit: u8) -> bool
    requires { (length r.now ≡ 64) × (get_or r.now 12 0 ≤ 8) }
    ensures { result ≡ not f.join || columns_ok (part 32 (get_or r.now 12 0) r.now) limit }
{
    if f.join {
        let e = 32 + r[12] as usize;
        return list_ok(&r[32..e], limit, false);
    }
    true
}

// limit: the width that a node's columns must lie below; limit1: the second child's, for a join's right key columns.
pub fn columns_rule(f: Fields, r: &[u8], limit: u8, limit1: u8) -> bool
    requires { (length r.now ≡ 64) × (get_or r.now 12 0 ≤ 8) × (get_or r.now 13 0 ≤ 32) }
    ensures { result ≡ columns_rule f r.now limit limit1 }
{
    (keys_below(r, limit) & set_ok(f, r, limit))
        & (child_columns_ok(f, r, limit) & right_columns_ok(f, r, limit1))
}
