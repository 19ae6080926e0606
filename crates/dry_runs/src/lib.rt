// Dry runs (02, P3): a plan file, rows and a caller's list of bytes, stepped to the end.
#![tactic(auto)]

ghost use Rattle.std.specs.Prelude.{◌≡◌, true, List, ℕ, ◌+◌, ◌*◌, ◌≤◌, ◌<◌, length};
ghost use Rattle.plan.specs.Numbers.{number_of};
ghost use Rattle.plan_format.specs.Blocks.{record_count};
ghost use Rattle.plan_format.specs.Reading.{refusal_of};
ghost use Rattle.plan_codec.specs.Reading.{plan_of};
ghost use Rattle.stepping.specs.Answers.{number, output, fitted};
ghost use Rattle.stepping.specs.RowBytes.{rows_in, streams_bytes};
ghost use Rattle.stepping.specs.Stepping.{start, work};
ghost use Rattle.step_answers.specs.Answers.{returned, output_after};
ghost use Rattle.step_tables.specs.Found.{Known};
ghost use Rattle.step_tables.specs.Rows.{row_in, Room};
ghost use Rattle.step_moves.specs.Running.{Running};
ghost use Rattle.row_reader.specs.Plans.{NodesOf};
ghost use Rattle.row_writer.specs.Streams.{put_out};
ghost use Rattle.dry_runs.specs.Begun.{book, Begins};
ghost use Rattle.dry_runs.specs.Tables.{rows_refusal, last_answer, Given, Stands, Stored, ByRow, ByPlace, AsLong, Counters, places_of};

use arena::SLOT;
use step_tables::{NO_NODE, StepNode};

// "256 plus the first such node's number, ahead of 26 and 27"; 26 "checked first", 27 "checked after 26"; 0 where none of them comes.
fn refusal_of_rows(plan: &[u8], n: usize, rows: &[u8]) -> u32
    requires { (number_of (refusal_of plan.now) ≡ 0) × (n ≡ record_count plan.now) }
    ensures { result ≡ rows_refusal (plan_of plan.now) rows.now }
{
    let first = source_rows::first_unstepped(plan, n);
    if first < n {
        return 256 + first as u32;
    }
    if !source_rows::form_fits(plan, n, rows) {
        return 26;
    }
    if !source_rows::declared_fits(plan, n, rows) {
        return 26;
    }
    if 256 < source_rows::rows_given(plan, n, rows) {
        return 27;
    }
    0
}

// The first state: the rows in the tables, and how many wait where.
fn load(
    plan: &[u8],
    n: usize,
    rows: &[u8],
    nodes: &[StepNode],
    gone: usize,
    cells: &mut [i64],
    nulls: &mut [u32],
    widths: &mut [usize],
    places: &mut [usize],
    order: &mut [usize],
    held: &mut [u16],
    queued: &mut [usize],
)
    requires { Given plan.now n rows.now (length places.old) × NodesOf (plan_of plan.now) nodes.now
        × ByRow (length places.old) cells.old nulls.old widths.old places.old order.old
        × ByPlace n gone held.old queued.old × (gone ≡ places_of (plan_of plan.now)) }
    ensures { Begins (plan_of plan.now) rows.now nodes.now (length held.old)
        cells.new nulls.new widths.new places.new order.new held.new queued.new }
{
    row_reader::read_rows(plan, n, rows, nodes, cells, nulls, widths, places, order);
    row_reader::counts::hold_all(places, held);
    row_reader::counts::queue_all(nodes, n, held, queued);
}

// The streams at the first s places as bytes, where there is room for them: "24 last".
fn deliver(
    out: &mut [u8],
    cells: &[i64],
    nulls: &[u32],
    widths: &[usize],
    places: &[usize],
    order: &[usize],
    s: usize,
) -> u32
    requires { Known order.now (length places.now) × Room (length places.now) cells.now nulls.now widths.now
        × (length order.now ≤ 256) × (s ≤ 100000) }
    ensures { (result ≡ number (fitted (length out.old) (streams_bytes
        (put_out (row_in cells.now nulls.now widths.now) places.now order.now s))))
        × (out.new ≡ output (fitted (length out.old) (streams_bytes
        (put_out (row_in cells.now nulls.now widths.now) places.now order.now s)))
        out.old) }
{
    let size = row_writer::written_size(widths, places, order, s);
    if out.len() < size {
        return 24;
    }
    row_writer::put_streams(out, cells, nulls, widths, places, order, s);
    0
}

// The stepping in tables that are lent.
fn step_in(
    plan: &[u8],
    n: usize,
    rows: &[u8],
    choices: &[u8],
    m: &[u8],
    u: usize,
    slots: &[usize],
    nodes: &[StepNode],
    gone: usize,
    cells: &mut [i64],
    nulls: &mut [u32],
    widths: &mut [usize],
    places: &mut [usize],
    order: &mut [usize],
    queued: &mut [usize],
    counts: &mut [u16],
    held: &mut [u16],
    flags: &mut [bool],
    out: &mut [u8],
) -> u32
    requires { Given plan.now n rows.now (length places.old) × Stands m.now u slots.now nodes.now gone (plan_of plan.now)
        × ByRow (length places.old) cells.old nulls.old widths.old places.old order.old
        × ByPlace n gone held.old queued.old × AsLong counts.old (length held.old) (length flags.old) }
    ensures { (result ≡ number (last_answer (plan_of plan.now) rows.now choices.now (length out.old)))
        × (out.new ≡ output (last_answer (plan_of plan.now) rows.now choices.now (length out.old))
        out.old) }
{
    load(
        plan, n, rows, nodes, gone, cells, nulls, widths, places, order, held, queued,
    );
    step_moves::run(
        m, u, slots, nodes, n, gone, choices, cells, nulls, widths, places, order, counts, held,
        queued, flags,
    );
    let s = nodes[0].outs;
    deliver(out, cells, nulls, widths, places, order, s)
}

// The tables by row and by node: as much of them as there are rows.
fn step_with_rows(
    plan: &[u8],
    n: usize,
    rows: &[u8],
    k: usize,
    choices: &[u8],
    m: &[u8],
    u: usize,
    slots: &[usize],
    nodes: &[StepNode],
    gone: usize,
    counts: &mut [u16],
    held: &mut [u16],
    flags: &mut [bool],
    out: &mut [u8],
) -> u32
    requires { Given plan.now n rows.now k × Stands m.now u slots.now nodes.now gone (plan_of plan.now)
        × Counters gone counts.old held.old (length flags.old) }
    ensures { (result ≡ number (last_answer (plan_of plan.now) rows.now choices.now (length out.old)))
        × (out.new ≡ output (last_answer (plan_of plan.now) rows.now choices.now (length out.old))
        out.old) }
{
    let mut cells = [0i64; 8192];
    let mut nulls = [0u32; 256];
    let mut widths = [0usize; 256];
    let mut places = [0usize; 256];
    let mut order = [0usize; 256];
    let mut queued = [0usize; 127];
    step_in(
        plan,
        n,
        rows,
        choices,
        m,
        u,
        slots,
        nodes,
        gone,
        &mut cells,
        &mut nulls,
        &mut widths[..k],
        &mut places[..k],
        &mut order[..k],
        &mut queued,
        counts,
        held,
        flags,
        out,
    )
}

// The tables by place, for fewer than PLACES of them.
fn in_places<const PLACES: usize>(
    plan: &[u8],
    n: usize,
    rows: &[u8],
    k: usize,
    choices: &[u8],
    m: &[u8],
    u: usize,
    slots: &[usize],
    nodes: &[StepNode],
    gone: usize,
    out: &mut [u8],
) -> u32
    requires { Given plan.now n rows.now k × Stands m.now u slots.now nodes.now gone (plan_of plan.now) × (gone < PLACES)
        × (PLACES < 1000000000) }
    ensures { (result ≡ number (last_answer (plan_of plan.now) rows.now choices.now (length out.old)))
        × (out.new ≡ output (last_answer (plan_of plan.now) rows.now choices.now (length out.old))
        out.old) }
{
    let mut counts = [0u16; PLACES];
    let mut held = [0u16; PLACES];
    let mut flags = [false; PLACES];
    step_with_rows(
        plan,
        n,
        rows,
        k,
        choices,
        m,
        u,
        slots,
        nodes,
        gone,
        &mut counts,
        &mut held,
        &mut flags,
        out,
    )
}

// The stepping with tables of so many places. The last are for all that there can be: a plan of 126 nodes has at most 258,048.
fn with_places(
    plan: &[u8],
    n: usize,
    rows: &[u8],
    k: usize,
    choices: &[u8],
    m: &[u8],
    u: usize,
    slots: &[usize],
    nodes: &[StepNode],
    gone: usize,
    out: &mut [u8],
) -> u32
    requires { Given plan.now n rows.now k × Stands m.now u slots.now nodes.now gone (plan_of plan.now) × (gone < 258049) }
    ensures { (result ≡ number (last_answer (plan_of plan.now) rows.now choices.now (length out.old)))
        × (out.new ≡ output (last_answer (plan_of plan.now) rows.now choices.now (length out.old))
        out.old) }
{
    if gone < 512 {
        return in_places::<512>(plan, n, rows, k, choices, m, u, slots, nodes, gone, out);
    }
    if gone < 16384 {
        return in_places::<16384>(plan, n, rows, k, choices, m, u, slots, nodes, gone, out);
    }
    in_places::<258049>(plan, n, rows, k, choices, m, u, slots, nodes, gone, out)
}

// The stepping of the plan that was read, the tree at h, with k rows.
fn stepped_answer(
    plan: &[u8],
    n: usize,
    rows: &[u8],
    k: usize,
    choices: &[u8],
    m: &mut [u8],
    u: usize,
    h: usize,
    out: &mut [u8],
) -> u32
    requires { Given plan.now n rows.now k × Stored plan.now m.old u h }
    ensures { (result ≡ number (last_answer (plan_of plan.now) rows.now choices.now (length out.old)))
        × (out.new ≡ output (last_answer (plan_of plan.now) rows.now choices.now (length out.old))
        out.old) }
{
    settling::settle_all(m, u);
    let mut nodes = [NO_NODE; 126];
    let mut slots = [0usize; 126];
    let l = step_nodes::lay_out(m, u, h, &mut nodes, &mut slots);
    with_places(
        plan, n, rows, k, choices, m, u, &slots, &nodes, l.places, out,
    )
}

const SLOTS_126: usize = 126 * SLOT;

// A dry run of the plan file: the refusals 1 to 8 of the file first.
pub fn dry_run(plan: &[u8], rows: &[u8], choices: &[u8], out: &mut [u8]) -> u32
    ensures { (result ≡ returned plan.now rows.now choices.now out.old)
        × (out.new ≡ output_after plan.now rows.now choices.now out.old) }
{
    let blocks = plan.len() / 512;
    if (blocks == 0) | (18 < blocks) {
        return plan::number_of(plan_reader::refusal_of(plan));
    }
    let mut m = [0u8; SLOTS_126];
    let a = match plan_arena::read(plan, &mut m) {
        Ok(a) => a,
        Err(x) => return plan::number(x),
    };
    let n = a.used;
    let refused = refusal_of_rows(plan, n, rows);
    if refused != 0 {
        return refused;
    }
    let k = source_rows::rows_given(plan, n, rows);
    stepped_answer(plan, n, rows, k, choices, &mut m, n, a.root, out)
}
