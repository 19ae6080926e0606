// Plans out of the arena: a tree in node order, and its file, block after block.
#![tactic(auto)]

ghost use Rattle.std.specs.Prelude.{◌≡◌, ◌+◌, ◌*◌, ◌≤◌, ◌++◌, length, drop};
ghost use Rattle.plan.specs.Forest.{nodes};
ghost use Rattle.plan_format.specs.Record.{children};
ghost use Rattle.plan_format.specs.Writing.{joined, write_refusal, written};
ghost use Rattle.arena.specs.Arena.{slot_size, slot, held, tree_at};
ghost use Rattle.arena_writer.specs.Flat.{Flattens, Stack, Took, rows_of};
ghost use Rattle.arena_writer.specs.Streams.{Lent};

use arena::{RECORD, read64};
use plan::Refusal;

// The children of node k onto the stack that starts at t of w, the first on top: where it starts then.
fn push_children(m: &[u8], k: usize, w: &mut [usize], t: usize) -> usize
    requires { ((k + 1) * slot_size ≤ length m.now) × (children (slot m.now k).rec ≤ 8) × (children (slot m.now k).rec ≤ t)
        × (t ≤ length w.old) }
    ensures { (result + length (slot m.now k).kids ≡ t) × (drop result w.new ≡ (slot m.now k).kids ++ drop t w.old) }
{
    let mut top = t;
    for j in (0..arena::child_count(m, k)).rev() {
        top -= 1;
        w[top] = arena::child(m, k, j);
    }
    top
}

// How many records were taken, and where the stack starts then.
#[derive(Clone, Copy)]
struct Taken {
    count: usize,
    top: usize,
}

// The next nodes of the stack that starts at t of w, at most seven: their records over the start of rs.
fn take_seven(m: &[u8], u: usize, rs: &mut [u8], w: &mut [usize], t: usize) -> Taken
    requires { Stack m.now u t w.old × (length rs.old ≡ 448) }
    ensures { Took m.now u (rows_of m.now u (drop t w.old)) result.count result.top w.new rs.new }
{
    let mut top = t;
    for c in 0..7 {
        if w.len() <= top {
            return Taken { count: c, top: top };
        }
        let k = w[top] / 2;
        let at = RECORD * c;
        let e = at + RECORD;
        let row = read64(arena::record_at(m, k));
        scan::copy(&mut rs[at..e], &row);
        top = push_children(m, k, w, top + 1);
    }
    Taken { count: 7, top: top }
}

// The file of the tree at the handle i over the start of out, which has room for its blocks; w is lent for the stack.
fn write_blocks(m: &[u8], u: usize, i: usize, blocks: usize, w: &mut [usize], out: &mut [u8])
    requires { Lent m.now u i blocks w.old out.old }
    ensures { out.new ≡ written (joined (nodes (tree_at (held m.now u) i))) out.old }
{
    let mut t = w.len() - 1;
    w[t] = i;
    let mut rs = [0u8; 448];
    for k in 0..blocks {
        let seven = take_seven(m, u, &mut rs, w, t);
        let e = RECORD * seven.count;
        let a = k * 512;
        let b = a + 512;
        plan_writer::put_block(&mut out[a..b], &rs[..e], blocks, k);
        t = seven.top;
    }
}

// The file of the tree at the handle i, of n nodes, over the start of out. Nothing is written where it does not fit.
pub fn write(m: &[u8], u: usize, i: usize, n: usize, out: &mut [u8]) -> Result<(), Refusal>
    requires { Flattens m.now u i n }
    ensures { (result ≡ write_refusal (joined (nodes (tree_at (held m.now u) i))) out.old)
        × (out.new ≡ written (joined (nodes (tree_at (held m.now u) i))) out.old) }
{
    let blocks = (n + 6) / 7;
    if out.len() < blocks * 512 {
        return Err(Refusal::OutputTooShort);
    }
    // The stack is cleared before it is used: a small plan gets a short one.
    if n <= 7 {
        let mut w = [0usize; 7];
        write_blocks(m, u, i, blocks, &mut w, out);
    } else {
        let mut w = [0usize; 126];
        write_blocks(m, u, i, blocks, &mut w, out);
    }
    Ok(())
}
