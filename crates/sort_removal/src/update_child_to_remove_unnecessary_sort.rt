// Sorts removed below one child of a node.
ghost use Rattle.std.specs.Prelude.{◌+◌, ◌*◌};
ghost use Rattle.walks.specs.Marks.{size_t};
ghost use Rattle.walks.specs.EnsureSorting.{update_child_to_remove_unnecessary_sort};
ghost use Rattle.plan_context.specs.View.{tree_of, Grown};
ghost use Rattle.sort_removal.specs.Recursion.{Removes};

use crate::remove_corresponding_sort_from_sub_plan::remove_corresponding_sort_from_sub_plan;
use arena::At;
use plan_context::handles::set_mark;

// The tree at h without the sorts that it is connected to. Single: the parent requires one stream of it.
pub fn update_child_to_remove_unnecessary_sort(m: &mut [u8], u: usize, h: usize, single: bool) -> At
    requires { Removes m.old u h }
    ensures { Grown m.old u m.new result (update_child_to_remove_unnecessary_sort single (tree_of m.old h))
        (u + 2 * size_t (tree_of m.old h)) }
{
    let a = remove_corresponding_sort_from_sub_plan(m, u, h, single);
    let k = set_mark(a.root, false);
    At {
        used: a.used,
        root: k,
    }
}
