// Bytes 2 to 11 of a record: streams, marks, fetch and skip, by the kinds that have them.
ghost use Rattle.std.specs.Prelude.{◌≡◌, length};
ghost use Rattle.plan_format.specs.Fields.{fields_of};
ghost use Rattle.plan_format.specs.Record.{head_ok};

use plan::NO_FETCH;

// Kinds with none of these fields: 2, 3, 4, 11 and 12.
pub fn none(r: &[u8]) -> bool
    requires { length r.now ≡ 64 }
    ensures { result ≡ head_ok (fields_of 2) r.now }
{
    (scan::get16(r, 2) == 0) & (scan::get64(r, 4) == 0)
}

// Streams 1 to 64 and the mark unbounded.
pub fn source(r: &[u8]) -> bool
    requires { length r.now ≡ 64 }
    ensures { result ≡ head_ok (fields_of 1) r.now }
{
    let s = r[2];
    let m = r[3];
    (((1 <= s) & (s <= 64)) & ((m == 0) | (m == 4))) & (scan::get64(r, 4) == 0)
}

// Streams 1 to 64 and the marks preserve and hash.
pub fn repartition(r: &[u8]) -> bool
    requires { length r.now ≡ 64 }
    ensures { result ≡ head_ok (fields_of 5) r.now }
{
    let s = r[2];
    let m = r[3];
    (((1 <= s) & (s <= 64)) & (m < 4)) & (scan::get64(r, 4) == 0)
}

// A fetch alone: kinds 6, 8 and 13.
pub fn fetching(r: &[u8]) -> bool
    requires { length r.now ≡ 64 }
    ensures { result ≡ head_ok (fields_of 6) r.now }
{
    (scan::get16(r, 2) == 0) & (scan::get32(r, 8) == 0)
}

// The mark preserve and a fetch: sort and partial sort.
pub fn sort(r: &[u8]) -> bool
    requires { length r.now ≡ 64 }
    ensures { result ≡ head_ok (fields_of 7) r.now }
{
    let s = r[2];
    let m = r[3];
    ((s == 0) & (m < 2)) & (scan::get32(r, 8) == 0)
}

// A fetch and a skip.
pub fn global_limit(r: &[u8]) -> bool
    requires { length r.now ≡ 64 }
    ensures { result ≡ head_ok (fields_of 9) r.now }
{
    scan::get16(r, 2) == 0
}

// 'local limit must have one': a fetch.
pub fn local_limit(r: &[u8]) -> bool
    requires { length r.now ≡ 64 }
    ensures { result ≡ head_ok (fields_of 10) r.now }
{
    (scan::get16(r, 2) == 0) & ((scan::get32(r, 4) != NO_FETCH) & (scan::get32(r, 8) == 0))
}
