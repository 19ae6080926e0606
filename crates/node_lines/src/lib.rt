// The line of one node in a listing, put into a lent buffer: number, depth, kind, streams, fetch, keys (01, 'Worked on paper').
#![tactic(auto)]

ghost use Rattle.std.specs.Prelude.{◌≡◌, cond, ◌++◌, ◌+◌, ◌≤◌, min, length};
ghost use Rattle.arena.specs.Arena.{slot_size};
ghost use Rattle.plan_codec.specs.Decode.{key_of_bytes, keys_of};
ghost use Rattle.node_lines.specs.Lines.{space, comma, decimal, kind_name, fetch_text, key_text, keys_text, fetch_in, slot_line, Put};
ghost use Rattle.node_lines.specs.Laws.{behind, place_text, shape_text};

use arena::{KEPT_FROM, SLOT};
use plan::Kind;
use record_fields::fetch_from;

// The text over the buffer from a place on. As all below do, it answers where the text ends.
pub fn put(out: &mut [u8], at: usize, text: &[u8]) -> usize
    requires { at + length text.now ≤ length out.old }
    ensures { Put (length text.now) text.now at out.old result out.new }
{
    let e = at + text.len();
    scan::copy(&mut out[at..e], text);
    e
}

pub fn put_number(out: &mut [u8], at: usize, n: u64) -> usize
    requires { at + 20 ≤ length out.old }
    ensures { Put 20 (decimal n) at out.old result out.new }
{
    let mut digits = [0u8; 20];
    let k = io::decimal(n, &mut digits);
    put(out, at, &digits[..k])
}

// A number, and a space.
fn put_count(out: &mut [u8], at: usize, n: u64) -> usize
    requires { at + 21 ≤ length out.old }
    ensures { Put 21 (decimal n ++ space) at out.old result out.new }
{
    let e = put_number(out, at, n);
    put(out, e, b" ")
}

// 01's name of a kind, with hyphens for spaces.
fn put_kind(out: &mut [u8], at: usize, kind: Kind) -> usize
    requires { at + 18 ≤ length out.old }
    ensures { Put 18 (kind_name kind) at out.old result out.new }
{
    match kind {
        Kind::Source => put(out, at, b"source"),
        Kind::Filter => put(out, at, b"filter"),
        Kind::Projection => put(out, at, b"projection"),
        Kind::Union => put(out, at, b"union"),
        Kind::Repartition => put(out, at, b"repartition"),
        Kind::Coalesce => put(out, at, b"coalesce"),
        Kind::Sort => put(out, at, b"sort"),
        Kind::Merge => put(out, at, b"merge"),
        Kind::GlobalLimit => put(out, at, b"global-limit"),
        Kind::LocalLimit => put(out, at, b"local-limit"),
        Kind::SortMergeJoin => put(out, at, b"sort-merge-join"),
        Kind::HashJoin => put(out, at, b"hash-join"),
        Kind::OutputRequirement => put(out, at, b"output-requirement"),
        Kind::PartialSort => put(out, at, b"partial-sort"),
        Kind::Aggregate => put(out, at, b"aggregate"),
    }
}

// The fetch of a record whose kind has the number k, from the bytes for it.
fn fetch_of(k: u8, bytes: u32) -> Option<u32>
    ensures { result ≡ fetch_in k bytes }
{
    let fields = plan_format::fields_of(k);
    if fields.fetch {
        fetch_from(bytes)
    } else {
        None
    }
}

fn put_fetch(out: &mut [u8], at: usize, fetch: Option<u32>) -> usize
    requires { at + 20 ≤ length out.old }
    ensures { Put 20 (fetch_text fetch) at out.old result out.new }
{
    let Some(n) = fetch else {
        return put(out, at, b"-");
    };
    put_number(out, at, n as u64)
}

// One letter or the other.
fn either(first: bool, yes: u8, no: u8) -> u8
    ensures { result ≡ cond first yes no }
{
    if first { yes } else { no }
}

// A key: its column, a or d for the direction, f or l for the nulls.
fn put_key(out: &mut [u8], at: usize, column: u8, options: u8) -> usize
    requires { at + 22 ≤ length out.old }
    ensures { Put 22 (key_text (key_of_bytes column options)) at out.old result out.new }
{
    let e = put_number(out, at, column as u64);
    let letters = [
        either(options & 1 == 1, b'd', b'a'),
        either((options >> 1) & 1 == 1, b'f', b'l'),
    ];
    put(out, e, &letters)
}

// A comma and a key.
fn put_next_key(out: &mut [u8], at: usize, column: u8, options: u8) -> usize
    requires { at + 23 ≤ length out.old }
    ensures { Put 23 (comma ++ key_text (key_of_bytes column options)) at out.old result out.new }
{
    let e = put(out, at, b",");
    put_key(out, e, column, options)
}

// The keys behind the first, of n in the bytes ks.
fn put_further_keys(out: &mut [u8], at: usize, n: usize, ks: &[u8]) -> usize
    requires { (length ks.now ≡ 16) × (1 ≤ n) × (n ≤ 8) × (at + 161 ≤ length out.old) }
    ensures { Put 161 (behind ks.now n) at out.old result out.new }
{
    let mut e = at;
    for i in 1..n {
        e = put_next_key(out, e, ks[2 * i], ks[2 * i + 1]);
    }
    e
}

// The keys of a record from its bytes for them, ks: it has room for eight.
fn put_keys(out: &mut [u8], at: usize, n: usize, ks: &[u8]) -> usize
    requires { (length ks.now ≡ 16) × (at + 183 ≤ length out.old) }
    ensures { Put 183 (keys_text (keys_of n ks.now)) at out.old result out.new }
{
    if n == 0 {
        return put(out, at, b"-");
    }
    let e = put_key(out, at, ks[0], ks[1]);
    put_further_keys(out, e, n.min(8), ks)
}

// The first words of a line: the node's number, its depth, its kind.
fn put_place(out: &mut [u8], at: usize, node: usize, depth: usize, kind: Kind) -> usize
    requires { at + 61 ≤ length out.old }
    ensures { Put 61 (place_text node depth kind) at out.old result out.new }
{
    let a = put_count(out, at, node as u64);
    let b = put_count(out, a, depth as u64);
    let c = put_kind(out, b, kind);
    put(out, c, b" ")
}

// The other words: streams, fetch, keys.
fn put_shape(
    out: &mut [u8],
    at: usize,
    streams: usize,
    fetch: Option<u32>,
    n: usize,
    ks: &[u8],
) -> usize
    requires { (length ks.now ≡ 16) × (at + 226 ≤ length out.old) }
    ensures { Put 226 (shape_text streams fetch (keys_of n ks.now)) at out.old result out.new }
{
    let a = put_count(out, at, streams as u64);
    let b = put_fetch(out, a, fetch);
    let c = put(out, b, b" ");
    let d = put_keys(out, c, n, ks);
    put(out, d, b"\n")
}

// The line of one node, from its slot in the arena: no line is longer than 287 bytes.
pub fn put_line(out: &mut [u8], at: usize, slot: &[u8], node: usize, depth: usize) -> usize
    requires { (length slot.now ≡ slot_size) × (at + 287 ≤ length out.old) }
    ensures { Put 287 (slot_line slot.now node depth) at out.old result out.new }
{
    let k = slot[0];
    let facts = fact_slots::load(&slot[KEPT_FROM..SLOT]);
    let fetch = fetch_of(k, scan::get32(slot, 4));
    let e = put_place(out, at, node, depth, record_fields::kind_of(k));
    put_shape(
        out,
        e,
        facts.streams,
        fetch,
        slot[12] as usize,
        &slot[16..32],
    )
}
