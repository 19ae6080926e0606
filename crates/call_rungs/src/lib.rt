// The rungs of the ladder: a call in arenas of so many bytes. Each pair of sizes is a function of its own, so that a call has the arenas of its own rung on
// the stack and no others.
#![tactic(auto)]

ghost use Rattle.std.specs.Prelude.{◌≡◌, ◌*◌, ◌-◌, ◌≤◌};
ghost use Rattle.plan_codec.specs.Reading.{reading};
ghost use Rattle.plan_format.specs.Blocks.{block_count};
ghost use Rattle.arena.specs.Arena.{slot_size};
ghost use Rattle.plan_arena.specs.ReadFile.{block_slots};
ghost use Rattle.walks.specs.Counted.{pushed};
ghost use Rattle.step_ends.specs.Tidying.{full_slots};
ghost use Rattle.call_answers.specs.Answers.{after_reading, rewrites};
ghost use Rattle.call_parts.specs.Calls.{CalledAs};
ghost use Rattle.plan_calls.specs.Results.{result_of};
ghost use Rattle.call_rungs.specs.Replies.{Answered, reply_of};

use arena::SLOT;
use call_parts::Stop;
use plan::Refusal;
use plan_calls::Call;
use plan_calls::calls::{call_in, push_plan};

// The bytes of so many slots: the sizes of the rungs.
pub const SLOTS_7: usize = 7 * SLOT;

pub const SLOTS_14: usize = 14 * SLOT;

pub const SLOTS_21: usize = 21 * SLOT;

pub const SLOTS_32: usize = 32 * SLOT;

pub const SLOTS_42: usize = 42 * SLOT;

pub const SLOTS_63: usize = 63 * SLOT;

pub const SLOTS_84: usize = 84 * SLOT;

pub const SLOTS_126: usize = 126 * SLOT;

pub const SLOTS_148: usize = 148 * SLOT;

pub const SLOTS_189: usize = 189 * SLOT;

pub const SLOTS_254: usize = 254 * SLOT;

pub const SLOTS_378: usize = 378 * SLOT;

pub const SLOTS_382: usize = 382 * SLOT;

pub const SLOTS_772: usize = 772 * SLOT;

// What a call answers in the end: the number of its refusal or 0, and whether the plan passes.
#[derive(Clone, Copy)]
pub struct Reply {
    pub number: u32,
    pub passes: bool,
}

// The reply of a call that was answered or refused.
pub fn as_reply(answer: Result<bool, Refusal>) -> Reply
    ensures { result ≡ reply_of answer }
{
    match answer {
        Ok(passes) => Reply {
            number: 0,
            passes: passes,
        },
        Err(x) => Reply {
            number: plan::number(x),
            passes: false,
        },
    }
}

// The call in an arena of so many bytes, a slot for each record that the file's blocks can hold, with scratch. Where the arena has slots for every walk of
// every plan, the scratch has them for a whole plan; and neither is larger than that.
#[inline(never)]
pub fn call_in_arena<const ARENA: usize, const SCRATCH: usize>(
    k: Call,
    plan: &[u8],
    out: &mut [u8],
) -> Result<bool, Stop>
    requires { (block_slots * block_count plan.now ≤ ARENA) × (full_slots * slot_size ≤ ARENA → 126 * slot_size ≤ SCRATCH)
        × (ARENA ≤ full_slots * slot_size) × (SCRATCH ≤ full_slots * slot_size) }
    ensures { CalledAs result (after_reading (result_of k) (reading plan.now)) out.old out.new
        (full_slots * slot_size - ARENA) }
{
    let mut m = [0u8; ARENA];
    let mut c = [0u8; SCRATCH];
    call_in(k, plan, out, &mut m, &mut c)
}

// The call in the largest arena: it has room for every walk of every plan.
pub fn call_in_largest(k: Call, plan: &[u8], out: &mut [u8]) -> Reply
    requires { block_count plan.now ≤ 18 }
    ensures { Answered result (after_reading (result_of k) (reading plan.now)) out.old out.new }
{
    match call_in_arena::<SLOTS_772, SLOTS_126>(k, plan, out) {
        Ok(passes) => as_reply(Ok(passes)),
        Err(Stop::Refused(x)) => as_reply(Err(x)),
        Err(Stop::NoRoom) => unreachable!(),
    }
}

// Pushing in an arena of so many bytes, a slot for each record that the file's blocks can hold; the plan that it makes stands in another.
#[inline(never)]
pub fn push_in_arenas<const ARENA: usize, const MADE: usize>(
    plan: &[u8],
    out: &mut [u8],
) -> Result<bool, Stop>
    requires { (block_slots * block_count plan.now ≤ ARENA) × (ARENA ≤ full_slots * slot_size) × (MADE ≤ full_slots * slot_size) }
    ensures { CalledAs result (rewrites pushed plan.now) out.old out.new (378 * slot_size - MADE) }
{
    let mut m = [0u8; ARENA];
    let mut b = [0u8; MADE];
    push_plan(plan, out, &mut m, &mut b)
}

// Pushing in the largest arenas: the second has three slots for each node of every plan.
pub fn push_in_largest(plan: &[u8], out: &mut [u8]) -> Reply
    requires { block_count plan.now ≤ 18 }
    ensures { Answered result (rewrites pushed plan.now) out.old out.new }
{
    match push_in_arenas::<SLOTS_126, SLOTS_378>(plan, out) {
        Ok(passes) => as_reply(Ok(passes)),
        Err(Stop::Refused(x)) => as_reply(Err(x)),
        Err(Stop::NoRoom) => unreachable!(),
    }
}
