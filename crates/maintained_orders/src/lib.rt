// Which of its children's orders a node maintains (semantics, Properties).
#![tactic(auto)]

ghost use Rattle.std.specs.Prelude.{◌≡◌, List};
ghost use Rattle.semantics.specs.Facts as sem;
ghost use Rattle.semantics.specs.Properties as node;
ghost use Rattle.plan_codec.specs.Decode.{decode};
ghost use Rattle.join_orders.specs.KeptSides.{kept_of};
ghost use Rattle.record_fields.specs.Proper.{Proper};
ghost use Rattle.asked_facts.specs.Asked.{told, FactRow};
ghost use Rattle.maintained_orders.specs.Nodes.{Among};

use asked_facts::{equally_long, is_ordered, keeps_order};
use join_orders::{KeptSide, hash_kept, sort_merge_kept};
use plan::{JoinType, Kind};
use record_fields::{KIND, ROLE, join_type_of, kind_of, preserves};

// Whether side j is the kept one.
fn keeps(kept: KeptSide, j: usize) -> bool
    ensures { result ≡ node.kept_side (kept_of kept) j }
{
    match kept {
        KeptSide::Left => j == 0,
        KeptSide::Right => j == 1,
        KeptSide::Neither => false,
    }
}

// Whether a sort-merge join of this type keeps the order of side j.
fn sort_merge_keeps(t: JoinType, j: usize) -> bool
    ensures { result ≡ node.kept_side (sem.smj_kept t) j }
{
    keeps(sort_merge_kept(t), j)
}

// Whether a hash join of this type keeps the order of side j.
pub fn hash_keeps(t: JoinType, j: usize) -> bool
    ensures { result ≡ node.kept_side (sem.hash_kept t) j }
{
    keeps(hash_kept(t), j)
}

// Whether the node maintains the order of child j: own and child are the rows of the node and of that child.
pub fn maintains(r: &[u8], own: &[u8], child: &[u8], j: usize) -> bool
    requires { Proper r.now × FactRow own.now × FactRow child.now }
    ensures { (fs : List sem.Facts) → Among (decode r.now) fs j (told own.now) (told child.now)
        → result ≡ node.maintains (decode r.now) fs j }
{
    match kind_of(r[KIND]) {
        Kind::Source | Kind::Coalesce | Kind::Sort | Kind::PartialSort => false,
        Kind::Filter
        | Kind::Projection
        | Kind::Merge
        | Kind::GlobalLimit
        | Kind::LocalLimit
        | Kind::OutputRequirement => true,
        Kind::Union => is_ordered(own) & equally_long(child, own),
        Kind::Repartition => keeps_order(preserves(r), child),
        Kind::SortMergeJoin => sort_merge_keeps(join_type_of(r[ROLE]), j),
        Kind::HashJoin => hash_keeps(join_type_of(r[ROLE]), j),
        Kind::Aggregate => is_ordered(own),
    }
}
