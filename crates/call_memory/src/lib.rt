// Working memory: two ladders of arenas under all calls, one for pushing, which takes a second arena. A call that finds its arena too small goes a rung up; of
// the highest it is proved that this cannot be.
#![tactic(auto)]

ghost use Rattle.std.specs.Prelude.{◌*◌, ◌≤◌, ◌<◌};
ghost use Rattle.plan_codec.specs.Reading.{reading};
ghost use Rattle.plan_format.specs.Blocks.{block_count};
ghost use Rattle.walks.specs.Counted.{pushed};
ghost use Rattle.call_answers.specs.Answers.{after_reading, rewrites};
ghost use Rattle.plan_calls.specs.Results.{result_of};
ghost use Rattle.call_rungs.specs.Replies.{Answered};

use call_parts::Stop;
use call_rungs::*;
use plan_calls::Call;

// The slots to start with, for a file of so many blocks whose last says that it has so many records, of which seven fit: a walk takes some four for each node.
fn first_slots(k: Call, blocks: usize, last: u8) -> usize
    requires { (1 ≤ blocks) × (blocks ≤ 18) }
    ensures { 7 * blocks ≤ result }
{
    let last = if last <= 7 { last } else { 7 };
    let nodes = 7 * (blocks - 1) + last as usize;
    match k {
        Call::CheckOrder => 7 * blocks,
        Call::CopyPlan => 7 * blocks,
        Call::TransformUp(_) => 4 * nodes + 10,
        Call::PartialSort(_) => 7 * blocks + nodes,
    }
}

// The next rung up: the least number of slots that it is taken for. The rung of 148 slots, which tidies, is for small plans that climb from 126: no call starts
// with 127 to 129.
fn above(slots: usize) -> usize
    requires { slots ≤ 382 }
    ensures { slots < result }
{
    match slots {
        0..=7 => 8,
        8..=14 => 15,
        15..=42 => 43,
        43..=84 => 85,
        85..=126 => 127,
        127..=129 => 130,
        130..=254 => 255,
        _ => 383,
    }
}

// The call with at least so many slots, or more where they are too few; that with 148 has scratch for trees of up to 32 nodes, so that what steps leave behind
// is given back. It calls itself, and is no loop: into such a function the compiler takes no other that has large locals, so that each rung keeps a frame of its
// own (docs/DECISIONS.md, 'One frame for each rung').
fn climb(k: Call, plan: &[u8], out: &mut [u8], slots: usize) -> Reply
    requires { (1 ≤ block_count plan.now) × (block_count plan.now ≤ 18) × (7 * block_count plan.now ≤ slots) }
    ensures { Answered result (after_reading (result_of k) (reading plan.now)) out.old out.new }
{
    if 382 < slots {
        return call_in_largest(k, plan, out);
    }
    let r = match slots {
        0..=7 => call_in_arena::<SLOTS_7, 1>(k, plan, out),
        8..=14 => call_in_arena::<SLOTS_14, 1>(k, plan, out),
        15..=42 => call_in_arena::<SLOTS_42, 1>(k, plan, out),
        43..=84 => call_in_arena::<SLOTS_84, 1>(k, plan, out),
        85..=126 => call_in_arena::<SLOTS_126, 1>(k, plan, out),
        127..=129 => call_in_arena::<SLOTS_148, SLOTS_32>(k, plan, out),
        130..=254 => call_in_arena::<SLOTS_254, 1>(k, plan, out),
        _ => call_in_arena::<SLOTS_382, 1>(k, plan, out),
    };
    match r {
        Ok(passes) => as_reply(Ok(passes)),
        Err(Stop::Refused(x)) => as_reply(Err(x)),
        Err(Stop::NoRoom) => climb(k, plan, out, above(slots)),
    }
}

// The same for pushing; so many slots are for the plan that is read.
fn climb_pushing(plan: &[u8], out: &mut [u8], slots: usize) -> Reply
    requires { (1 ≤ block_count plan.now) × (block_count plan.now ≤ 18) × (7 * block_count plan.now ≤ slots) }
    ensures { Answered result (rewrites pushed plan.now) out.old out.new }
{
    if 63 < slots {
        return push_in_largest(plan, out);
    }
    let r = match slots {
        0..=7 => push_in_arenas::<SLOTS_7, SLOTS_21>(plan, out),
        8..=21 => push_in_arenas::<SLOTS_21, SLOTS_63>(plan, out),
        _ => push_in_arenas::<SLOTS_63, SLOTS_189>(plan, out),
    };
    match r {
        Ok(passes) => as_reply(Ok(passes)),
        Err(Stop::Refused(x)) => as_reply(Err(x)),
        Err(Stop::NoRoom) => climb_pushing(plan, out, 2 * slots),
    }
}

// The call on the plan file.
pub fn call(k: Call, plan: &[u8], out: &mut [u8]) -> Reply
    ensures { Answered result (after_reading (result_of k) (reading plan.now)) out.old out.new }
{
    let blocks = plan.len() / 512;
    if (blocks == 0) | (18 < blocks) {
        return Reply {
            number: plan::number_of(plan_reader::refusal_of(plan)),
            passes: false,
        };
    }
    let last = plan[512 * blocks - 508];
    climb(k, plan, out, first_slots(k, blocks, last))
}

// Pushing on the plan file.
pub fn push(plan: &[u8], out: &mut [u8]) -> Reply
    ensures { Answered result (rewrites pushed plan.now) out.old out.new }
{
    let blocks = plan.len() / 512;
    if (blocks == 0) | (18 < blocks) {
        return Reply {
            number: plan::number_of(plan_reader::refusal_of(plan)),
            passes: false,
        };
    }
    climb_pushing(plan, out, 7 * blocks)
}
