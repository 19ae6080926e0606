// One step of a dry run (02, P3): "Each step moves one row through one operator", in the tables.
#![tactic(auto)]

ghost use Rattle.std.specs.Prelude.{length};
ghost use Rattle.step_moves.specs.Running.{Book};
ghost use Rattle.step_moves.specs.Stepping.{Ready, StepsOn};
ghost use Rattle.step_moves.specs.Runs.{Begun, RunsOn};

use row_moves::{carry, pick_row};
use step_choices::{has_waiter, next_operator, output_stream};
use step_tables::{StepNode, requeue};

// One step, by the caller's bytes from number b on: how many bytes are taken then; None where nothing can move. waiter: whether open streams matter to one of the n nodes; gone: the place of rows that were cut.
pub fn step(
    m: &[u8],
    u: usize,
    slots: &[usize],
    nodes: &[StepNode],
    n: usize,
    gone: usize,
    waiter: bool,
    bytes: &[u8],
    b: usize,
    cells: &mut [i64],
    nulls: &mut [u32],
    widths: &mut [usize],
    places: &mut [usize],
    order: &mut [usize],
    counts: &mut [u16],
    held: &mut [u16],
    queued: &mut [usize],
    flags: &mut [bool],
) -> Option<usize>
    requires { Ready m.now u slots.now nodes.now n gone waiter b (length flags.old)
        (record { cells = cells.old; nulls = nulls.old; widths = widths.old; places = places.old; order = order.old; counts = counts.old; held = held.old; queued = queued.old }) }
    ensures { StepsOn m.now u slots.now nodes.now n gone (length flags.old)
        (record { cells = cells.old; nulls = nulls.old; widths = widths.old; places = places.old; order = order.old; counts = counts.old; held = held.old; queued = queued.old })
        (record { cells = cells.new; nulls = nulls.new; widths = widths.new; places = places.new; order = order.new; counts = counts.new; held = held.new; queued = queued.new })
        bytes.now b result }
{
    let o = next_operator(flags, held, queued, nodes, n, waiter, bytes, b);
    if o.movers == 0 {
        return None;
    }
    let j = o.node;
    let slot = slots[j];
    let s = &nodes[j];
    let t = pick_row(
        m, u, slot, s.manner, s.straight, s.inp, s.inps, bytes, o.next, cells, nulls, widths,
        places, order, held,
    );
    let c = output_stream(s.straight, t.stream, s.outs, bytes, t.next);
    let kept = carry(
        m,
        u,
        slot,
        t.at,
        s.out + c.value,
        gone,
        cells,
        nulls,
        widths,
        places,
        order,
        counts,
        held,
    );
    requeue(queued, j, s.above, kept);
    Some(c.next)
}

// More steps than any dry run has: 256 rows through 126 nodes.
const MOST_STEPS: usize = 32256;

// All steps: until nothing can move.
pub fn run(
    m: &[u8],
    u: usize,
    slots: &[usize],
    nodes: &[StepNode],
    n: usize,
    gone: usize,
    bytes: &[u8],
    cells: &mut [i64],
    nulls: &mut [u32],
    widths: &mut [usize],
    places: &mut [usize],
    order: &mut [usize],
    counts: &mut [u16],
    held: &mut [u16],
    queued: &mut [usize],
    flags: &mut [bool],
)
    requires { Begun m.now u slots.now nodes.now n gone (length flags.old)
        (record { cells = cells.old; nulls = nulls.old; widths = widths.old; places = places.old; order = order.old; counts = counts.old; held = held.old; queued = queued.old }) }
    ensures { RunsOn m.now u slots.now nodes.now n gone (length flags.old)
        (record {
          cells = cells.old;
          nulls = nulls.old;
          widths = widths.old;
          places = places.old;
          order = order.old;
          counts = counts.old;
          held = held.old;
          queued = queued.old;
        })
        (record {
          cells = cells.new;
          nulls = nulls.new;
          widths = widths.new;
          places = places.new;
          order = order.new;
          counts = counts.new;
          held = held.new;
          queued = queued.new;
        }) bytes.now }
{
    let waiter = has_waiter(nodes, n);
    let mut b = 0;
    for _done in 0..MOST_STEPS {
        match step(
            m, u, slots, nodes, n, gone, waiter, bytes, b, cells, nulls, widths, places, order,
            counts, held, queued, flags,
        ) {
            Some(next) => b = next,
            None => return,
        }
    }
}
