// The records of the nodes that the walks add: sorts, merges, coalesces, limits; and a record with another mark. A new node has one
// child, and no streams, width or columns of its own.
#![tactic(auto)]

ghost use Rattle.std.specs.Prelude.{◌≡◌, ℕ, ◌≤◌, ◌<◌, length};
ghost use Rattle.plan.specs.Op.{sort_op, merge_op, coalesce, global_limit, local_limit, partial_sort};
ghost use Rattle.semantics.specs.Properties.{remark};
ghost use Rattle.key_lists.specs.Keys.{keys_of};
ghost use Rattle.plan_codec.specs.Decode.{decode};
ghost use Rattle.scan.specs.Bytes.{one_if};
ghost use Rattle.plan_codec.specs.Encode.{encode, fill, fetch_number, key_bytes};
ghost use Rattle.new_records.specs.Bytes.{head_of, new_bytes};

use key_lists::Keys;
use plan::NO_FETCH;
use record_fields::{KIND, MARKS};

// The keys as a record has them, two bytes each.
fn key_row(k: Keys) -> [u8; 16]
    requires { k.len ≤ 8 }
    ensures { result ≡ fill 16 (key_bytes (keys_of k)) }
{
    let mut row = [0u8; 16];
    for (i, key) in k.iter().enumerate() {
        row[2 * i] = (key % 32) as u8;
        row[2 * i + 1] = (key / 32 % 4) as u8;
    }
    row
}

// The mark in bit 0.
fn mark_byte(preserve: bool) -> u8
    ensures { (result ≡ one_if preserve) × (result ≤ 1) }
{
    if preserve { 1 } else { 0 }
}

// The number in a record's bytes.
fn fetch_number(f: Option<u32>) -> u32
    ensures { result ≡ fetch_number f }
{
    match f {
        None => NO_FETCH,
        Some(n) => n,
    }
}

// The first 16 bytes: one child, no streams, no width.
fn head_row(kind: u8, marks: u8, fetch: u32, skip: u32, count: u8, role: u8) -> [u8; 16]
    ensures { result ≡ head_of kind marks fetch skip count role }
{
    [
        kind,
        1,
        0,
        marks,
        (fetch % 256) as u8,
        (fetch / 256 % 256) as u8,
        (fetch / 65536 % 256) as u8,
        (fetch / 16777216 % 256) as u8,
        (skip % 256) as u8,
        (skip / 256 % 256) as u8,
        (skip / 65536 % 256) as u8,
        (skip / 16777216 % 256) as u8,
        count,
        0,
        role,
        0,
    ]
}

// The record of a new node.
fn new_record(kind: u8, marks: u8, fetch: Option<u32>, skip: u32, keys: Keys, role: u8) -> [u8; 64]
    requires { keys.len ≤ 8 }
    ensures { result ≡ new_bytes kind marks fetch skip (keys_of keys) role }
{
    let n = fetch_number(fetch);
    let head = head_row(kind, marks, n, skip, (keys.len % 256) as u8, role);
    let row = key_row(keys);
    let mut out = [0u8; 64];
    scan::copy(&mut out[0..16], &head);
    scan::copy(&mut out[16..32], &row);
    out
}

pub fn sort_record(preserve: bool, keys: Keys, fetch: Option<u32>) -> [u8; 64]
    requires { keys.len ≤ 8 }
    ensures { result ≡ encode 1 (sort_op preserve (keys_of keys) fetch) }
{
    new_record(7, mark_byte(preserve), fetch, 0, keys, 0)
}

pub fn merge_record(keys: Keys, fetch: Option<u32>) -> [u8; 64]
    requires { keys.len ≤ 8 }
    ensures { result ≡ encode 1 (merge_op (keys_of keys) fetch) }
{
    new_record(8, 0, fetch, 0, keys, 0)
}

pub fn coalesce_record(fetch: Option<u32>) -> [u8; 64]
    ensures { result ≡ encode 1 (coalesce fetch) }
{
    new_record(6, 0, fetch, 0, key_lists::no_keys(), 0)
}

pub fn global_limit_record(skip: u32, fetch: Option<u32>, note: Keys) -> [u8; 64]
    requires { note.len ≤ 8 }
    ensures { result ≡ encode 1 (global_limit skip fetch (keys_of note)) }
{
    new_record(9, 0, fetch, skip, note, 0)
}

pub fn local_limit_record(fetch: Option<u32>, note: Keys) -> [u8; 64]
    requires { note.len ≤ 8 }
    ensures { result ≡ encode 1 (local_limit fetch (keys_of note)) }
{
    new_record(10, 0, fetch, 0, note, 0)
}

pub fn partial_sort_record(preserve: bool, keys: Keys, prefix: u8, fetch: Option<u32>) -> [u8; 64]
    requires { keys.len ≤ 8 }
    ensures { result ≡ encode 1 (partial_sort preserve (keys_of keys) prefix fetch) }
{
    new_record(14, mark_byte(preserve), fetch, 0, keys, prefix)
}

// The record with another preserve mark, if it is a repartition's.
pub fn with_mark(r: &[u8], preserve: bool) -> [u8; 64]
    requires { length r.now ≡ 64 }
    ensures { (n : ℕ) → r.now ≡ encode n (decode r.now) → result ≡ encode n (remark (λ p. preserve) (decode r.now)) }
{
    let mut out = [0u8; 64];
    scan::copy(&mut out[0..64], r);
    if r[KIND] == 5 {
        out[MARKS] = r[MARKS] / 2 * 2 + mark_byte(preserve);
    }
    out
}
