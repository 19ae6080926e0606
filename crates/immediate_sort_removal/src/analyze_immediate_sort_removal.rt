// A sort whose child meets its order.
ghost use Rattle.std.specs.Prelude.{◌≡◌, cond, false, ◌+◌, ◌≤◌};
ghost use Rattle.plan.specs.Op.{global_limit, local_limit};
ghost use Rattle.plan_codec.specs.Encode.{encode};
ghost use Rattle.key_lists.specs.Keys.{keys_of};
ghost use Rattle.walks.specs.Marks.{node, op_t, unmark};
ghost use Rattle.plan_context.specs.View.{tree_of, Grown};
ghost use Rattle.immediate_sort_removal.specs.Immediate.{Unmarks, Immediates, immediate_at};

use arena::{At, child, child_count, read64, record_at};
use asked_facts::{one_stream, several_streams};
use key_lists::Keys;
use met_orders::normal_form;
use new_records::{global_limit_record, local_limit_record, merge_record};
use node_properties::{fetch_field, keys, preserve_mark};
use plan_context::handles::set_mark;
use plan_context::kept::row;
use plan_updates::{put_again, put_over};

// The tree at h without its mark and its children's.
fn unmark_children(m: &mut [u8], u: usize, h: usize) -> At
    requires { Unmarks m.old u h }
    ensures { Grown m.old u m.new result (node (op_t (tree_of m.old h)) false (unmark (tree_of m.old h).kids))
        (u + 1) }
{
    let i = h / 2;
    let r = read64(record_at(m, i));
    let n = child_count(m, i);
    let mut kids = [0usize; 8];
    for j in 0..n {
        kids[j] = set_mark(child(m, i, j), false);
    }
    put_again(m, u, &r, &kids[..n], i)
}

// A limit with a note of the order, global over one stream.
fn limit_record(single: bool, fetch: Option<u32>, note: Keys) -> [u8; 64]
    requires { note.len ≤ 8 }
    ensures { result ≡ encode 1 (cond single (global_limit 0 fetch (keys_of note)) (local_limit fetch (keys_of note))) }
{
    if single {
        return global_limit_record(0, fetch, note);
    }
    local_limit_record(fetch, note)
}

// The sort at h goes: a merge of its own keys comes in its place where it gathered streams, a limit where it has a fetch.
pub fn analyze_immediate_sort_removal(m: &mut [u8], u: usize, h: usize) -> At
    requires { Immediates m.old u h }
    ensures { Grown m.old u m.new result (immediate_at m.old h) (u + 1) }
{
    let r = read64(record_at(m, h / 2));
    let k = child(m, h / 2, 0);
    let own_keys = keys(&r);
    let fetch = fetch_field(&r);
    let preserve = preserve_mark(&r);
    let below = row(m, k);
    let several = several_streams(below);
    let note = normal_form(below, own_keys);
    let bare = set_mark(k, false);
    if !preserve & several {
        let x = merge_record(own_keys, fetch);
        return put_over(m, u, &x, bare);
    }
    if fetch.is_some() {
        let single = one_stream(row(m, h));
        let x = limit_record(single, fetch, note);
        return put_over(m, u, &x, bare);
    }
    unmark_children(m, u, k)
}
