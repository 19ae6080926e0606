// What the walks ask of a node's fetch (semantics, Properties): what it cuts to, whether a limit goes past it.
#![tactic(auto)]

ghost use Rattle.std.specs.Prelude.{◌≡◌};
ghost use Rattle.semantics.specs.Properties as node;
ghost use Rattle.plan_codec.specs.Decode.{decode};
ghost use Rattle.record_fields.specs.Proper.{Proper};
ghost use Rattle.walks.specs.OutputRequirements.{output_fetch};

use node_properties::fetch_field;
use plan::Kind;
use record_fields::{KIND, kind_of};

// What the node cuts its streams to.
pub fn fetch(r: &[u8]) -> Option<u32>
    requires { Proper r.now }
    ensures { result ≡ (node.cuts (decode r.now)).fetch }
{
    match kind_of(r[KIND]) {
        Kind::Coalesce
        | Kind::Sort
        | Kind::Merge
        | Kind::GlobalLimit
        | Kind::LocalLimit
        | Kind::OutputRequirement
        | Kind::PartialSort => fetch_field(r),
        Kind::Source
        | Kind::Filter
        | Kind::Projection
        | Kind::Union
        | Kind::Repartition
        | Kind::SortMergeJoin
        | Kind::HashJoin
        | Kind::Aggregate => None,
    }
}

// output_requirements.rs: the fetch of kind 13, of no other.
pub fn output_fetch(r: &[u8]) -> Option<u32>
    requires { Proper r.now }
    ensures { result ≡ output_fetch (decode r.now) }
{
    match kind_of(r[KIND]) {
        Kind::OutputRequirement => fetch(r),
        _ => None,
    }
}

// `supports_limit_pushdown` holds for kinds 3, 4, 6, 8, 9 and 10.
pub fn supports_limit_pushdown(r: &[u8]) -> bool
    requires { Proper r.now }
    ensures { result ≡ node.supports_limit_pushdown (decode r.now) }
{
    match kind_of(r[KIND]) {
        Kind::Projection
        | Kind::Coalesce
        | Kind::Merge
        | Kind::GlobalLimit
        | Kind::LocalLimit
        | Kind::Union => true,
        Kind::Source
        | Kind::Filter
        | Kind::Repartition
        | Kind::Sort
        | Kind::SortMergeJoin
        | Kind::HashJoin
        | Kind::OutputRequirement
        | Kind::PartialSort
        | Kind::Aggregate => false,
    }
}

// The cardinality is equal for projection, and for coalesce or merge without a fetch.
pub fn cardinality_equal(r: &[u8]) -> bool
    requires { Proper r.now }
    ensures { result ≡ node.cardinality_equal (decode r.now) }
{
    match kind_of(r[KIND]) {
        Kind::Projection => true,
        Kind::Coalesce | Kind::Merge => fetch_field(r).is_none(),
        Kind::Source
        | Kind::Filter
        | Kind::Union
        | Kind::Repartition
        | Kind::Sort
        | Kind::GlobalLimit
        | Kind::LocalLimit
        | Kind::SortMergeJoin
        | Kind::HashJoin
        | Kind::OutputRequirement
        | Kind::PartialSort
        | Kind::Aggregate => false,
    }
}
