// The summary of a tree: what a slot keeps of its node's tree beside the facts, from the node's record and from the summary of its children.
#![tactic(auto)]

ghost use Rattle.std.specs.Prelude.{◌≡◌, cond, ◌<◌, eqb, length, get_or};
ghost use Rattle.tree_summary.specs.Own.{fetch_in, endless_in, own};

use plan::NO_FETCH;

// Whether the order check passes in the tree, whether it is unbounded, its nodes, and the plan's fetch, NO_FETCH for none.
#[derive(Clone, Copy)]
pub struct Summary {
    pub passes: bool,
    pub endless: bool,
    pub nodes: usize,
    pub fetch: u32,
}

// The node's own fetch, NO_FETCH for none. Kinds are asked by their numbers here, as the definitions (specs/Own.antt) are: they speak of any 64 bytes.
fn own_fetch(r: &[u8]) -> u32
    requires { length r.now ≡ 64 }
    ensures { result ≡ fetch_in r.now }
{
    let k = r[0];
    if ((5 < k) & (k < 11)) | ((12 < k) & (k < 15)) {
        return scan::get32(r, 4);
    }
    NO_FETCH
}

// Whether it is a source whose rows do not end.
fn is_endless(r: &[u8]) -> bool
    requires { length r.now ≡ 64 }
    ensures { result ≡ endless_in r.now }
{
    (r[0] == 1) & ((r[3] >> 2) & 1 == 1)
}

// The fetch of the plan: a projection's is its input's.
fn plan_fetch(r: &[u8], input: u32) -> u32
    requires { length r.now ≡ 64 }
    ensures { result ≡ cond (eqb (get_or r.now 0 0) 3) input (fetch_in r.now) }
{
    if r[0] == 3 {
        return input;
    }
    own_fetch(r)
}

// The summary of the node over children with the summary s; met: their orders are those that it wants.
pub fn summed(r: &[u8], met: bool, s: Summary) -> Summary
    requires { (length r.now ≡ 64) × (s.nodes < 65535) }
    ensures { result ≡ own r.now met s }
{
    let k = r[0];
    let endless = is_endless(r);
    let fetch = plan_fetch(r, s.fetch);
    Summary {
        passes: met & s.passes,
        endless: !((k == 9) | (k == 10)) & (endless | s.endless),
        nodes: s.nodes + 1,
        fetch: fetch,
    }
}
