// The facts of a node in the first 48 of the 112 bytes that a slot of the arena keeps of it.
#![tactic(auto)]

ghost use Rattle.std.specs.Prelude.{◌≡◌, ◌+◌, ◌≤◌, ◌<◌, length};
ghost use Rattle.facts.specs.Known.{Coherent};
ghost use Rattle.fact_slots.specs.Slots.{le64, loaded, head, word_bytes, Stored};

use facts::Facts;
use key_lists::Keys;

// Where the facts stand in their row: one byte each for the width and the order's length, two for the streams, a set of four for the
// constants, a word for the order, a byte for each column's class.
pub const WIDTH: usize = 0;

pub const ORDER_LEN: usize = 1;

pub const STREAMS: usize = 2;

pub const CONSTANTS: usize = 4;

pub const ORDER: usize = 8;

pub const CLASSES: usize = 16;

pub const ROW: usize = 48;

// A word of eight bytes.
fn word_at(b: &[u8], at: usize) -> usize
    requires { at + 8 ≤ length b.now }
    ensures { result ≡ le64 b.now at }
{
    scan::get32(b, at) as usize + (scan::get32(b, at + 4) as usize) * 4294967296
}

// The keys of the known order.
pub fn order_keys(b: &[u8]) -> Keys
    requires { 48 ≤ length b.now }
    ensures { result ≡ (loaded b.now).order }
{
    Keys {
        word: word_at(b, ORDER),
        len: byte_rows::wide(b[ORDER_LEN]),
    }
}

// The facts that the bytes hold, of which the first 48 count.
pub fn load_row(b: &[u8]) -> Facts
    requires { 48 ≤ length b.now }
    ensures { result ≡ loaded b.now }
{
    let low = class_tables::from_bytes(&b[CLASSES..ROW]);
    let order = order_keys(b);
    Facts {
        width: byte_rows::wide(b[WIDTH]),
        streams: scan::get16(b, STREAMS) as usize,
        consts: scan::get32(b, CONSTANTS),
        low: low,
        order: order,
    }
}

// The facts that a slot's bytes hold.
pub fn load(b: &[u8]) -> Facts
    requires { length b.now ≡ 112 }
    ensures { result ≡ loaded b.now }
{
    load_row(b)
}

// What stands in the first eight bytes, each to be cut to its low byte.
fn head_row(f: Facts) -> [usize; 8]
    ensures { result ≡ head f }
{
    let order = f.order;
    let set = f.consts as usize;
    [
        f.width,
        order.len,
        f.streams,
        f.streams >> 8,
        set,
        set >> 8,
        set >> 16,
        set >> 24,
    ]
}

// The bytes of a word, each to be cut to its low byte.
pub fn word_row(w: usize) -> [usize; 8]
    ensures { result ≡ word_bytes w }
{
    [
        w,
        w >> 8,
        w >> 16,
        w >> 24,
        w >> 32,
        w >> 40,
        w >> 48,
        w >> 56,
    ]
}

// The facts over the first 48 bytes; the others stay.
pub fn store(b: &mut [u8], f: Facts)
    requires { (length b.old ≡ 112) × Coherent f × (f.streams < 65536) }
    ensures { Stored f b.old b.new }
{
    let head = head_row(f);
    let order = f.order;
    let keys = word_row(order.word);
    let low = f.low;
    byte_rows::write_row(&mut b[WIDTH..ORDER], &head);
    byte_rows::write_row(&mut b[ORDER..CLASSES], &keys);
    class_tables::to_bytes(&mut b[CLASSES..ROW], &low);
}
