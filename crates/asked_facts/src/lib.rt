// What the walks ask of a node's facts: of the row of bytes that holds them, and of nothing else.
#![tactic(auto)]

ghost use Rattle.std.specs.Prelude.{◌≡◌, not, ◌≤◌, ◌<◌, eqb, ltb, length};
ghost use Rattle.semantics.specs.Facts as sem;
ghost use Rattle.key_lists.specs.Keys.{Ordered};
ghost use Rattle.asked_facts.specs.Asked.{told, FactRow};

use byte_rows::wide;
use fact_slots::{CLASSES, ORDER_LEN, STREAMS, WIDTH, order_keys};
use key_lists::{Keys, order_of};

pub fn width(b: &[u8]) -> usize
    requires { FactRow b.now }
    ensures { (result ≡ (told b.now).width) × (result ≤ 32) }
{
    wide(b[WIDTH])
}

pub fn streams(b: &[u8]) -> usize
    requires { FactRow b.now }
    ensures { result ≡ (told b.now).streams }
{
    scan::get16(b, STREAMS) as usize
}

pub fn one_stream(b: &[u8]) -> bool
    requires { FactRow b.now }
    ensures { result ≡ eqb (told b.now).streams 1 }
{
    scan::get16(b, STREAMS) == 1
}

pub fn several_streams(b: &[u8]) -> bool
    requires { FactRow b.now }
    ensures { result ≡ ltb 1 (told b.now).streams }
{
    1 < scan::get16(b, STREAMS)
}

// The lowest column that is equal to column c.
pub fn lowest_equal(b: &[u8], c: usize) -> usize
    requires { FactRow b.now × (c < 32) }
    ensures { (result ≡ sem.cl (told b.now) c) × (result < 32) }
{
    wide(b[CLASSES + c])
}

// ---- the known order

pub fn is_ordered(b: &[u8]) -> bool
    requires { FactRow b.now }
    ensures { result ≡ not (sem.is_nil (sem.known_order (told b.now))) }
{
    0 < b[ORDER_LEN]
}

pub fn known_order(b: &[u8]) -> Option<Keys>
    requires { FactRow b.now }
    ensures { Ordered (sem.known_order (told b.now)) result }
{
    order_of(order_keys(b))
}

// Whether the known orders of two nodes are equally long.
pub fn equally_long(a: &[u8], b: &[u8]) -> bool
    requires fact_row { FactRow a.now }
    requires fact_row_2 { FactRow b.now }
    ensures { result ≡ eqb (length (sem.known_order (told a.now))) (length (sem.known_order (told b.now))) }
{
    a[ORDER_LEN] == b[ORDER_LEN]
}

// A preserve mark counts only over an ordered child of several streams.
pub fn counts(preserve: bool, b: &[u8]) -> bool
    requires { FactRow b.now }
    ensures { result ≡ sem.counts preserve (told b.now) }
{
    preserve & (is_ordered(b) & several_streams(b))
}

// Repartition maintains with one input stream or with preserve.
pub fn keeps_order(preserve: bool, b: &[u8]) -> bool
    requires { FactRow b.now }
    ensures { result ≡ sem.keeps_order preserve (told b.now) }
{
    one_stream(b) | counts(preserve, b)
}
