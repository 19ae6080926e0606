// Plan files into the arena.
#![tactic(auto)]

ghost use Rattle.std.specs.Prelude.{◌*◌, ◌≤◌, length};
ghost use Rattle.plan_format.specs.Blocks.{block_count};
ghost use Rattle.plan_arena.specs.ReadFile.{block_slots, ReadAs};
ghost use Rattle.plan_arena.specs.Fill.{Fillable, HoldsTree};

use arena::{At, RECORD};
use plan::Refusal;

// The c records of the accepted file s into the arena, from the last to the first: children come before their parent.
fn fill(s: &[u8], c: usize, m: &mut [u8]) -> At
    requires { Fillable s.now c (length m.old) }
    ensures { HoldsTree s.now m.new result.used result.root }
{
    let mut w = [0usize; 126];
    let mut t = 126;
    let mut u = 0;
    for j in (0..c).rev() {
        let at = plan_format::record_start(j);
        let e = at + RECORD;
        let f = t + s[at + 1] as usize;
        arena::append(m, u, &s[at..e], &w[t..f]);
        t = f - 1;
        w[t] = 2 * u;
        u += 1;
    }
    let root = w[t];
    At {
        used: u,
        root: root,
    }
}

// The plan file s into the memory m, which has room for a node of each record that its blocks can hold: how many slots are used, and the handle of the file's
// tree.
pub fn read(s: &[u8], m: &mut [u8]) -> Result<At, Refusal>
    requires { block_slots * block_count s.now ≤ length m.old }
    ensures { ReadAs s.now m.old m.new result }
{
    plan_reader::refusal_of(s)?;
    let n = s.len() / 512;
    let c = block_passes::record_count(s, n);
    Ok(fill(s, c, m))
}
