// Lists a plan, a line for each node in node order (01, 'Worked on paper'). A refusal prints only its number.
#![tactic(auto)]

ghost use Rattle.std.specs.Prelude.{◌≡◌, [], ◌+◌, ◌-◌, ◌*◌, ◌≤◌, ◌<◌, length};
ghost use Rattle.plan_format.specs.Blocks.{block_count};
ghost use Rattle.arena.specs.Arena.{slot_size};
ghost use Rattle.plan_arena.specs.ReadFile.{block_slots};
ghost use Rattle.node_lines.specs.Lines.{Put};
ghost use Rattle.plan_listing.specs.Listing.{up, after, lines, slots, listing, refusal_line, shown};
ghost use Rattle.plan_listing.specs.Laws.{pending};

use arena::SLOT;
use node_lines::{put, put_line, put_number};
use settling::settle_all;

// From a depth up to the first where nodes are still to come.
fn risen(left: &[u8], depth: usize) -> usize
    requires { depth < length left.now }
    ensures { (result ≤ depth) × (pending left.now result ≡ up (pending left.now depth)) }
{
    let mut d = depth;
    // A while, since how far it climbs no count says before.
    while 0 < d && left[d] == 0 {
        d -= 1;
    }
    d
}

// The depth of the node that comes after one with so many children; `left` has how many are to come at each depth.
fn next_depth(left: &mut [u8], depth: usize, children: u8) -> usize
    requires { depth + 1 < length left.old }
    ensures { (result ≤ depth + 1) × (pending left.new result ≡ after (pending left.old depth) children) }
{
    left[depth] = left[depth].saturating_sub(1);
    if 0 < children {
        left[depth + 1] = children;
        return depth + 1;
    }
    risen(left, depth)
}

// The lines of the u nodes of an arena that was read from a file: the last slot is node 0.
fn put_lines(out: &mut [u8], at: usize, m: &[u8], u: usize) -> usize
    requires { (u * slot_size ≤ length m.now) × (u ≤ 126) × (at + 287 * u ≤ length out.old) }
    ensures { Put (287 * u) (lines (slots m.now u) 0 []) at out.old result out.new }
{
    let mut left = [0u8; 128];
    let mut depth = 0;
    let mut e = at;
    for i in 0..u {
        let a = (u - 1 - i) * SLOT;
        let z = a + SLOT;
        e = put_line(out, e, &m[a..z], i, depth);
        depth = next_depth(&mut left, depth, m[a + 1]);
    }
    e
}

// The heading, and the lines.
fn list(out: &mut [u8], m: &[u8], u: usize) -> usize
    requires { (u * slot_size ≤ length m.now) × (u ≤ 126) × (36197 ≤ length out.old) }
    ensures { Put 36197 (listing m.now u) 0 out.old result out.new }
{
    let e = put(out, 0, b"node depth kind streams fetch keys\n");
    put_lines(out, e, m, u)
}

// A refusal's number.
fn refuse(out: &mut [u8], n: u32) -> usize
    requires { 21 ≤ length out.old }
    ensures { Put 21 (refusal_line n) 0 out.old result out.new }
{
    let e = put_number(out, 0, n as u64);
    put(out, e, b"\n")
}

// Reads the plan into the arena, with its facts, and lists it.
fn show_in(plan: &[u8], m: &mut [u8], out: &mut [u8]) -> usize
    requires { (block_slots * block_count plan.now ≤ length m.old) × (36197 ≤ length out.old) }
    ensures { Put 36197 (shown plan.now m.new) 0 out.old result out.new }
{
    match plan_arena::read(plan, m) {
        Ok(a) => {
            let u = a.used;
            settle_all(m, u);
            list(out, m, u)
        }
        Err(x) => refuse(out, plan::number(x)),
    }
}

// The longest file that may be lent: one block more than a plan file may have, so that one which is too long is seen to be.
pub const MOST: usize = 9728;

// The descriptor of the standard output.
const STDOUT: i32 = 1;

// Prints what `show_in` puts: no listing of 126 nodes is longer than 36,197 bytes.
pub fn show(plan: &[u8])
    requires { length plan.now ≤ 9728 }
{
    let mut m = [0u8; 25536];
    let mut out = [0u8; 36864];
    let e = show_in(plan, &mut m, &mut out);
    io::write_all(STDOUT, &out[..e]);
}

// Prints a refusal's number.
pub fn put_refusal(n: u32) {
    let mut out = [0u8; 64];
    let e = refuse(&mut out, n);
    io::write_all(STDOUT, &out[..e]);
}

// The plan file at the start of an output: its first block says how many there are.
pub fn show_written(out: &[u8]) {
    if out.len() < 4 {
        return;
    }
    let e = 512 * scan::get16(out, 2) as usize;
    if out.len() < e {
        return;
    }
    if e <= MOST {
        show(&out[..e]);
    }
}
