// New nodes over a node with the facts own.
ghost use Rattle.std.specs.Prelude.{[], ◌++◌, ◌≤◌};
ghost use Rattle.plan.specs.declared.Distribution.TheVariants as distribution;
ghost use Rattle.key_lists.specs.Keys.{keys_of};
ghost use Rattle.asked_facts.specs.Asked.{told, FactRow};
ghost use Rattle.walks.specs.Utils.{new_merge, sort_above_with_distribution};
ghost use Rattle.sort_pushdown.specs.Decisions.{Adds};

use crate::NewNodes;
use asked_facts::several_streams;
use key_lists::{Keys, order_of};
use met_orders::fresh_keys;
use plan::Distribution;
use push_requirements::requirements::needs_merge;

pub fn no_nodes() -> NewNodes
    ensures { Adds [] result }
{
    let none = None;
    let all = None;
    NewNodes {
        merge: none,
        mfetch: all,
        sort: none,
        sfetch: all,
        preserve: false,
    }
}

// add_sort_above_with_distribution: a sort of the order, and a merge over it where the parent wants one stream and there are several.
pub fn sort_above_with_distribution(
    own: &[u8],
    order: Keys,
    fetch: Option<u32>,
    d: Distribution,
) -> NewNodes
    requires { FactRow own.now × (order.len ≤ 8) }
    ensures { Adds (sort_above_with_distribution (told own.now) (keys_of order) fetch d) result }
{
    let sort = order_of(fresh_keys(own, order));
    let preserve = several_streams(own);
    if needs_merge(own, d) {
        return NewNodes {
            merge: sort,
            mfetch: fetch,
            sort: sort,
            sfetch: fetch,
            preserve: preserve,
        };
    }
    let none = None;
    NewNodes {
        merge: none,
        mfetch: fetch,
        sort: sort,
        sfetch: fetch,
        preserve: preserve,
    }
}

// A merge of the keys.
pub fn merge_only(keys: Keys, fetch: Option<u32>) -> NewNodes
    requires { keys.len ≤ 8 }
    ensures { Adds (new_merge (keys_of keys) fetch) result }
{
    let merge = order_of(keys);
    let none = None;
    NewNodes {
        merge: merge,
        mfetch: fetch,
        sort: none,
        sfetch: fetch,
        preserve: false,
    }
}

// A merge of the keys over a sort of the order.
pub fn merge_and_sort(
    own: &[u8],
    keys: Keys,
    fetch: Option<u32>,
    order: Keys,
    sfetch: Option<u32>,
) -> NewNodes
    requires { FactRow own.now × (keys.len ≤ 8) × (order.len ≤ 8) }
    ensures { Adds (new_merge (keys_of keys) fetch ++ sort_above_with_distribution (told own.now)
        (keys_of order) sfetch distribution.Unspecified) result }
{
    let merge = order_of(keys);
    let sort = order_of(fresh_keys(own, order));
    NewNodes {
        merge: merge,
        mfetch: fetch,
        sort: sort,
        sfetch: sfetch,
        preserve: several_streams(own),
    }
}
