// What the slot of a handle keeps of its node.
ghost use Rattle.std.specs.Prelude.{◌≡◌, ◌++◌, ◌<◌, length, take};
ghost use Rattle.arena.specs.Arena.{kept_size, kept_part, index};
ghost use Rattle.walks.specs.Marks.{fetch_t, size_t};
ghost use Rattle.plan_context.specs.View.{tree_of, summary_from, summary_in, Sums, Here};
ghost use Rattle.plan_context.specs.Facts.{Tells};
ghost use Rattle.semantics.specs.Check.{check};
ghost use Rattle.plan_context.specs.Records.{plan_t};
ghost use Rattle.plan_context.specs.Storing.{summary_bytes};

use record_fields::fetch_from;
use tree_summary::Summary;

// The facts of the tree at h.
pub fn row(m: &[u8], h: usize) -> &[u8]
    requires { Here m.now h }
    ensures { (result.now ≡ kept_part m.now (index h)) × Tells (tree_of m.now h) result.now }
{
    arena::kept_at(m, h / 2)
}

// The summary that the bytes hold.
pub fn load_summary(b: &[u8]) -> Summary
    requires { length b.now ≡ kept_size }
    ensures { result ≡ summary_in b.now }
{
    Summary {
        passes: b[104] == 1,
        endless: b[105] == 1,
        nodes: scan::get16(b, 106) as usize,
        fetch: scan::get32(b, 108),
    }
}

// The summary over the last bytes; the others stay.
pub fn store_summary(b: &mut [u8], s: Summary)
    requires { (length b.old ≡ kept_size) × (s.nodes < 65536) }
    ensures { b.new ≡ take summary_from b.old ++ summary_bytes s }
{
    let n = s.nodes;
    let f = s.fetch;
    b[104] = s.passes as u8;
    b[105] = s.endless as u8;
    b[106] = (n % 256) as u8;
    b[107] = (n / 256 % 256) as u8;
    b[108] = (f % 256) as u8;
    b[109] = (f / 256 % 256) as u8;
    b[110] = (f / 65536 % 256) as u8;
    b[111] = (f / 16777216 % 256) as u8;
}

// The summary of the tree at h.
pub fn summary(m: &[u8], h: usize) -> Summary
    requires { Here m.now h }
    ensures { Sums (tree_of m.now h) result }
{
    load_summary(row(m, h))
}

// Its fetch: for a projection its input's.
pub fn fetch_at(m: &[u8], h: usize) -> Option<u32>
    requires { Here m.now h }
    ensures { result ≡ fetch_t (tree_of m.now h) }
{
    let s: Summary = summary(m, h);
    fetch_from(s.fetch)
}

// How many nodes it has.
pub fn nodes(m: &[u8], h: usize) -> usize
    requires { Here m.now h }
    ensures { result ≡ size_t (tree_of m.now h) }
{
    let b = row(m, h);
    scan::get16(b, 106) as usize
}

// Whether the order check passes in it.
pub fn passes(m: &[u8], h: usize) -> bool
    requires { Here m.now h }
    ensures { result ≡ check (plan_t (tree_of m.now h)) }
{
    let b = row(m, h);
    b[104] == 1
}
