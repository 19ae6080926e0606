// The arena: plan nodes in lent bytes, a slot for each. Nodes are only ever appended, children before their parent.
#![tactic(auto)]

ghost use Rattle.std.specs.Prelude.{◌≡◌, ◌+◌, ◌*◌, ◌≤◌, ◌<◌, length, get_or, take, drop};
ghost use Rattle.plan_format.specs.Record.{children};
ghost use Rattle.arena.specs.Arena.{slot_size, record_size, numbers_in, slot, kept_part, Below};
ghost use Rattle.arena.specs.Held.{Appends, Appended};

// A slot: the node's record as in the file, two bytes for the handle of each of its children, and what is kept of the node.
pub const SLOT: usize = 192;

pub const RECORD: usize = 64;

pub const KEPT_FROM: usize = 80;

pub const KEPT_SIZE: usize = 112;

// What a function that adds nodes answers: how many slots are used, and the handle of the tree that it made.
#[derive(Clone, Copy)]
pub struct At {
    pub used: usize,
    pub root: usize,
}

// The record of node i.
pub fn record_at(m: &[u8], i: usize) -> &[u8]
    requires { (i + 1) * slot_size ≤ length m.now }
    ensures { result.now ≡ (slot m.now i).rec }
{
    let at = i * SLOT;
    let e = at + RECORD;
    &m[at..e]
}

// What is kept of node i.
pub fn kept_at(m: &[u8], i: usize) -> &[u8]
    requires { (i + 1) * slot_size ≤ length m.now }
    ensures { result.now ≡ kept_part m.now i }
{
    let at = i * SLOT + KEPT_FROM;
    let e = at + KEPT_SIZE;
    &m[at..e]
}

// How many children node i has.
pub fn child_count(m: &[u8], i: usize) -> usize
    requires { (i + 1) * slot_size ≤ length m.now }
    ensures { result ≡ children (slot m.now i).rec }
{
    m[i * SLOT + 1] as usize
}

// The handle of child j of node i.
pub fn child(m: &[u8], i: usize, j: usize) -> usize
    requires { ((i + 1) * slot_size ≤ length m.now) × (j < children (slot m.now i).rec) × (children (slot m.now i).rec ≤ 8) }
    ensures { result ≡ get_or (slot m.now i).kids j 0 }
{
    scan::get16(m, i * SLOT + RECORD + 2 * j) as usize
}

// The numbers ks, in two bytes each, over the start of d.
fn put_numbers(d: &mut [u8], ks: &[usize])
    requires { (2 * length ks.now ≤ length d.old) × Below 65536 ks.now }
    ensures { (numbers_in d.new (length ks.now) ≡ ks.now)
        × (drop (2 * length ks.now) d.new ≡ drop (2 * length ks.now) d.old) }
{
    for j in 0..ks.len() {
        let k = ks[j];
        let at = 2 * j;
        d[at] = (k % 256) as u8;
        d[at + 1] = (k / 256 % 256) as u8;
    }
}

// A record by value, so that whoever stores it stores many bytes at once.
pub fn read64(s: &[u8]) -> [u8; 64]
    requires { length s.now ≡ record_size }
    ensures { result ≡ s.now }
{
    let mut out = [0u8; 64];
    out.copy_from_slice(s);
    out
}

// A node more, with the number u: its record and its children's handles. All other bytes stay, also those for what is kept of it.
pub fn append(m: &mut [u8], u: usize, rec: &[u8], kids: &[usize])
    requires { Appends m.old u rec.now kids.now }
    ensures { Appended m.old u rec.now kids.now m.new }
{
    let row = read64(rec);
    let at = u * SLOT;
    let e = at + RECORD;
    scan::copy(&mut m[at..e], &row);
    let f = at + KEPT_FROM;
    put_numbers(&mut m[e..f], kids);
}
