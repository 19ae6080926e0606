// The rows of a dry run (02, P3), read into the stepper's tables: "bytes in .. per stream, in node and stream order".
#![tactic(auto)]

pub mod counts;

ghost use Rattle.std.specs.Prelude.{◌≡◌, true, ◌++◌, map, ℕ, ◌+◌, ◌*◌, ◌<◌, ◌≤◌, length, take, set};
ghost use Rattle.row_order.specs.Lists.{tab};
ghost use Rattle.plan.specs.Numbers.{number_of};
ghost use Rattle.plan_format.specs.Blocks.{record_count};
ghost use Rattle.plan_format.specs.Reading.{refusal_of};
ghost use Rattle.plan_codec.specs.Reading.{plan_of};
ghost use Rattle.scan.specs.Bytes.{le32};
ghost use Rattle.stepping.specs.Outlets.{place};
ghost use Rattle.stepping.specs.RowBytes.{row_size, numbers_at, stream_at, stream_ok, rows_together, form_ok};
ghost use Rattle.step_tables.specs.Passes.{node_in};
ghost use Rattle.row_bytes.specs.Streams.{alike, streams_fit};
ghost use Rattle.row_reader.specs.Reading.{tables, Space, Adds};
ghost use Rattle.row_reader.specs.Streams.{source_rows};
ghost use Rattle.row_reader.specs.Plans.{row_count, plan_rows, NodesOf, AllRead};

use step_tables::StepNode;

// The numbers of row r: those of the row at `at`, w columns wide.
fn read_cells(rows: &[u8], at: usize, w: usize, r: usize, cells: &mut [i64])
    requires { (w ≤ 32) × (at + row_size w ≤ length rows.now) × (r * 32 + 32 ≤ length cells.old) }
    ensures { take (r * 32 + w) cells.new ≡ take (r * 32) cells.old ++ numbers_at rows.now at w }
{
    let b = r * 32;
    for c in 0..w {
        let x = scan::get64(rows, at + 4 + 8 * c);
        cells[b + c] = row_bytes::signed_number(x);
    }
}

// Row r: that of the bytes at `at`, w columns wide. It waits at place g.
fn read_row(
    rows: &[u8],
    at: usize,
    w: usize,
    g: usize,
    r: usize,
    cells: &mut [i64],
    nulls: &mut [u32],
    widths: &mut [usize],
    places: &mut [usize],
)
    requires { (w ≤ 32) × (at + row_size w ≤ length rows.now) × Space (r + 1) (tables cells.old nulls.old widths.old places.old) }
    ensures { (take (r * 32 + w) cells.new ≡ take (r * 32) cells.old ++ numbers_at rows.now at w)
        × (nulls.new ≡ set nulls.old r (le32 rows.now at)) × (widths.new ≡ set widths.old r w)
        × (places.new ≡ set places.old r g) }
{
    read_cells(rows, at, w, r, cells);
    nulls[r] = scan::get32(rows, at);
    widths[r] = w;
    places[r] = g;
}

// From row r on the rows of the stream at `at`, w columns wide: they wait at place g. The next row's number.
fn read_stream(
    rows: &[u8],
    at: usize,
    w: usize,
    g: usize,
    r: usize,
    cells: &mut [i64],
    nulls: &mut [u32],
    widths: &mut [usize],
    places: &mut [usize],
) -> usize
    requires { (w ≤ 32) × (stream_ok rows.now at w ≡ true)
        × Space (r + le32 rows.now at) (tables cells.old nulls.old widths.old places.old) }
    ensures { (result ≡ r + le32 rows.now at)
        × Adds (map (place g) (stream_at rows.now at w)) r result
        (tables cells.old nulls.old widths.old places.old)
        (tables cells.new nulls.new widths.new places.new) }
{
    let n = scan::get32(rows, at) as usize;
    let size = 4 + 8 * w;
    for i in 0..n {
        let b = at + 4 + i * size;
        read_row(rows, b, w, g, r + i, cells, nulls, widths, places);
    }
    r + n
}

// From row r on the rows of a source's k streams, which stand from `at` on: its stream j waits at place out + j. The next row's number.
fn read_source(
    rows: &[u8],
    at: usize,
    w: usize,
    k: usize,
    out: usize,
    r: usize,
    cells: &mut [i64],
    nulls: &mut [u32],
    widths: &mut [usize],
    places: &mut [usize],
) -> usize
    requires { (w ≤ 32) × (out + k < 2000000000) × (streams_fit rows.now at (alike k w) ≡ true)
        × Space (r + rows_together rows.now at (alike k w)) (tables cells.old nulls.old widths.old places.old) }
    ensures { (result ≡ r + rows_together rows.now at (alike k w))
        × Adds (source_rows rows.now at w k out 0) r result
        (tables cells.old nulls.old widths.old places.old)
        (tables cells.new nulls.new widths.new places.new) }
{
    let mut q = r;
    let mut a = at;
    for j in 0..k {
        q = read_stream(rows, a, w, out + j, q, cells, nulls, widths, places);
        a = row_bytes::stream_end(rows, a, w);
    }
    q
}

// "Source rows in stream order": the first row came first.
fn number_rows(order: &mut [usize])
    ensures { order.new ≡ tab (length order.old) (λ i. i) }
{
    for (i, x) in order.iter_mut().enumerate() {
        *x = i;
    }
}

// The rows of all sources, in node order: those of record j's source from its first output's place on.
pub fn read_rows(
    plan: &[u8],
    n: usize,
    rows: &[u8],
    nodes: &[StepNode],
    cells: &mut [i64],
    nulls: &mut [u32],
    widths: &mut [usize],
    places: &mut [usize],
    order: &mut [usize],
)
    requires { (number_of (refusal_of plan.now) ≡ 0) × (n ≡ record_count plan.now) × (form_ok (plan_of plan.now) rows.now ≡ true)
        × NodesOf (plan_of plan.now) nodes.now × ((j : ℕ) → j < n → (node_in nodes.now j).out < 1000000000)
        × Space (row_count (plan_of plan.now) rows.now) (tables cells.old nulls.old widths.old places.old)
        × (length order.old ≡ row_count (plan_of plan.now) rows.now) }
    ensures { AllRead (plan_rows (plan_of plan.now) rows.now) (row_count (plan_of plan.now) rows.now)
        (tables cells.new nulls.new widths.new places.new) order.new }
{
    let mut r = 0;
    let mut at = 0;
    for j in 0..n {
        let k = source_rows::streams_of(plan, j);
        let w = source_rows::byte_of(plan, j, 13);
        let out = nodes[j].out;
        r = read_source(rows, at, w, k, out, r, cells, nulls, widths, places);
        at = row_bytes::source_end(rows, at, w, k);
    }
    number_rows(order);
}
