// Whether the orders that a node wants are met, from its record and the stored facts of its children.
#![tactic(auto)]

ghost use Rattle.std.specs.Prelude.{◌≡◌, true, ◌≤◌, length};
ghost use Rattle.fact_slots.specs.Slots.{loaded};
ghost use Rattle.semantics.specs.Check.{wants_met};
ghost use Rattle.plan_codec.specs.Decode.{decode};
ghost use Rattle.node_facts.specs.Ready.{kids_of, Ready};

use byte_rows::wide;
use key_lists::front;
use met_orders::meets;
use plan::Kind;
use record_fields::{KIND, ROLE, kind_of};
use record_keys::{key_list, right_key_list};

// Whether the children's facts meet the orders that the node wants of them.
pub fn wants_met(r: &[u8], first: &[u8], second: &[u8]) -> bool
    requires { (48 ≤ length first.now) × (48 ≤ length second.now) × Ready r.now (loaded first.now) (loaded second.now) }
    ensures { result ≡ wants_met (decode r.now) (kids_of r.now (loaded first.now) (loaded second.now)) }
{
    match kind_of(r[KIND]) {
        Kind::Source
        | Kind::Filter
        | Kind::Projection
        | Kind::Union
        | Kind::Repartition
        | Kind::Coalesce
        | Kind::Sort
        | Kind::GlobalLimit
        | Kind::LocalLimit
        | Kind::HashJoin
        | Kind::Aggregate => true,
        Kind::Merge => meets(first, key_list(r)),
        Kind::SortMergeJoin => meets(first, key_list(r)) & meets(second, right_key_list(r)),
        Kind::OutputRequirement => meets(first, key_list(r)),
        Kind::PartialSort => meets(first, front(key_list(r), wide(r[ROLE]))),
    }
}
