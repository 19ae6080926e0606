// A node's mark says that it is connected with a coalesce below it that can be taken out.
ghost use Rattle.std.specs.Prelude.{◌≡◌, not, ◌&&◌, List, ℕ};
ghost use Rattle.semantics.specs.Properties.{singles};
ghost use Rattle.plan_codec.specs.Decode.{decode};
ghost use Rattle.record_fields.specs.Proper.{Proper};
ghost use Rattle.walks.specs.Marks.{head_mark};
ghost use Rattle.walks.specs.ParallelizeSorts.{any_mark_at, bottleneck, update_coalesce_ctx_children};
ghost use Rattle.arena.specs.Arena.{marked};
ghost use Rattle.plan_context.specs.View.{forest};

use node_fetches::fetch;
use node_properties::is_coalesce_partitions;
use plan_context::handles::is_marked;
use wanted_inputs::wants_single;

// A fetched coalesce selects rows before the sort: it is no bottleneck.
pub fn is_bottleneck(r: &[u8]) -> bool
    requires { Proper r.now }
    ensures { result ≡ bottleneck (decode r.now) }
{
    is_coalesce_partitions(r) & fetch(r).is_none()
}

// Whether child j, with the handle h, is connected and need not give one stream.
fn connects(r: &[u8], h: usize, j: usize) -> bool
    requires { Proper r.now }
    ensures { result ≡ marked h && not (singles (decode r.now) j) }
{
    if !is_marked(h) {
        return false;
    }
    !wants_single(r, j)
}

// Whether some child is so. The marks stand in the handles, whatever the memory.
fn any_connects(r: &[u8], ks: &[usize]) -> bool
    requires { Proper r.now }
    ensures { (m : List ℕ) → result ≡ any_mark_at (λ i. not (singles (decode r.now) i)) (forest m ks.now) }
{
    for j in 0..ks.len() {
        if connects(r, ks[j], j) {
            return true;
        }
    }
    false
}

// The mark of the node with the record r over the children ks.
pub fn update_coalesce_ctx_children(r: &[u8], ks: &[usize]) -> bool
    requires { Proper r.now }
    ensures { (m : List ℕ) → result ≡ update_coalesce_ctx_children (decode r.now) (forest m ks.now) }
{
    if ks.len() == 0 {
        return false;
    }
    if is_coalesce_partitions(r) {
        return is_bottleneck(r);
    }
    any_connects(r, ks)
}

// children[0].data
pub fn first_connected(ks: &[usize]) -> bool
    ensures { (m : List ℕ) → result ≡ head_mark (forest m ks.now) }
{
    if ks.len() == 0 {
        return false;
    }
    is_marked(ks[0])
}
