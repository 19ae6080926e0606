// The rows of a dry run written as bytes (02, P3): "per stream, in node and stream order, a row count in four, then by row the null set in four
// and each cell in eight, 0 for a null".
#![tactic(auto)]

ghost use Rattle.std.specs.Prelude.{◌≡◌, List, ◌++◌, ℕ, ◌+◌, ◌≤◌, ◌<◌, eqb, ℤ, length, get_or, drop};
ghost use Rattle.row_order.specs.Packed.{bit, cell_of, row_of};
ghost use Rattle.stepping.specs.RowBytes.{unsigned, little_endian, row_size, cell_bytes, null_set, row_bytes, stream_bytes, streams_bytes};
ghost use Rattle.step_tables.specs.Counting.{how_many};
ghost use Rattle.step_tables.specs.Found.{Known};
ghost use Rattle.step_tables.specs.Places.{on_place};
ghost use Rattle.step_tables.specs.Rows.{row_in, Room, Inside};
ghost use Rattle.row_writer.specs.Streams.{put_out, over};

// A signed number as two's complement.
pub fn unsigned_number(z: i64) -> u64
    ensures { result ≡ unsigned z }
{
    if z < 0 {
        let y = -1 - z;
        return 18446744073709551615 - y as u64;
    }
    z as u64
}

// The lowest bytes of x over all of d, the lowest first.
pub fn put_number(d: &mut [u8], x: u64)
    ensures { d.new ≡ little_endian (length d.old) x }
{
    let mut y = x;
    for b in d.iter_mut() {
        *b = (y % 256) as u8;
        y = y / 256;
    }
}

// A cell over all of d: eight bytes, 0 for a null.
pub fn put_cell(d: &mut [u8], is_null: bool, z: i64)
    requires { length d.old ≡ 8 }
    ensures { d.new ≡ cell_bytes (cell_of is_null z) }
{
    if is_null {
        put_number(d, 0);
    } else {
        put_number(d, unsigned_number(z));
    }
}

// Column c is in the set.
fn has(set: u32, c: usize) -> bool
    requires { c < 32 }
    ensures { result ≡ bit set c }
{
    (set >> c) & 1 == 1
}

// The null set of the row of these numbers: columns past its width left out.
fn null_set(set: u32, cells: &[i64]) -> u64
    requires { length cells.now ≤ 32 }
    ensures { result ≡ null_set (row_of set cells.now) }
{
    let mut s = 0u64;
    for c in (0..cells.len()).rev() {
        s = 2 * s + has(set, c) as u64;
    }
    s
}

// The row over all of d.
pub fn put_row(d: &mut [u8], set: u32, cells: &[i64])
    requires { (length cells.now ≤ 32) × (length d.old ≡ row_size (length cells.now)) }
    ensures { d.new ≡ row_bytes (row_of set cells.now) }
{
    let s = null_set(set, cells);
    put_number(&mut d[..4], s);
    for (c, z) in cells.iter().enumerate() {
        let a = 4 + 8 * c;
        let e = a + 8;
        put_cell(&mut d[a..e], has(set, c), *z);
    }
}

// Row r of the tables over out from place `at` on: where it ends.
fn put_row_at(
    out: &mut [u8],
    at: usize,
    cells: &[i64],
    nulls: &[u32],
    widths: &[usize],
    r: usize,
) -> usize
    requires { Inside r cells.now nulls.now widths.now × (at + row_size (get_or widths.now r 0) ≤ length out.old) }
    ensures { (result ≡ at + length (row_bytes (row_in cells.now nulls.now widths.now r)))
        × (out.new ≡ over at (row_bytes (row_in cells.now nulls.now widths.now r)) out.old) }
{
    let w = widths[r];
    let e = at + 4 + 8 * w;
    let a = r * 32;
    let b = a + w;
    let set = nulls[r];
    put_row(&mut out[at..e], set, &cells[a..b]);
    e
}

// How many rows of the order are at place k.
fn count_at(places: &[usize], order: &[usize], k: usize) -> usize
    requires { Known order.now (length places.now) }
    ensures { result ≡ how_many (λ r. eqb (get_or places.now r 0) k) order.now }
{
    let mut count = 0;
    for row in order {
        if places[*row] == k {
            count += 1;
        }
    }
    count
}

// The rows at place k, in the order of arrival, as a stream over out from place `at` on: where it ends. The count stands before the rows, so the
// order is gone through twice.
fn put_stream(
    out: &mut [u8],
    at: usize,
    cells: &[i64],
    nulls: &[u32],
    widths: &[usize],
    places: &[usize],
    order: &[usize],
    k: usize,
) -> usize
    requires { Known order.now (length places.now) × Room (length places.now) cells.now nulls.now widths.now
        × (at + length (stream_bytes (on_place (row_in cells.now nulls.now widths.now) places.now k order.now)) ≤ length out.old) }
    ensures { (result ≡ at + length (stream_bytes
        (on_place (row_in cells.now nulls.now widths.now) places.now k order.now)))
        × (out.new ≡ over at (stream_bytes
        (on_place (row_in cells.now nulls.now widths.now) places.now k order.now)) out.old) }
{
    let count = count_at(places, order, k) as u64;
    let mut to = at + 4;
    put_number(&mut out[at..to], count);
    for r in order {
        if places[*r] == k {
            to = put_row_at(out, to, cells, nulls, widths, *r);
        }
    }
    to
}

// How many bytes the streams at the places 0 to n - 1 take, whatever the cells and the null sets of their rows are: what 02's 24 is decided by,
// before a byte is written. No dry run reaches the bounds (256 rows, 7,040 streams), which keep the sum from wrapping.
pub fn written_size(widths: &[usize], places: &[usize], order: &[usize], n: usize) -> usize
    requires { Known order.now (length places.now) × ((r : ℕ) → r < length places.now → get_or widths.now r 0 ≤ 32)
        × (length places.now ≤ length widths.now) × (length order.now ≤ 256) × (n ≤ 100000) }
    ensures { (cells : List ℤ) (nulls : List ℕ) → Room (length places.now) cells nulls widths.now →
        result ≡ length (streams_bytes (put_out (row_in cells nulls widths.now) places.now order.now n)) }
{
    let mut size = 4 * n;
    for row in order {
        if places[*row] < n {
            size += 4 + 8 * widths[*row];
        }
    }
    size
}

// The streams at the places 0 to n - 1 over the start of out, one after another: these are what the root puts out. The bytes after them stay.
pub fn put_streams(
    out: &mut [u8],
    cells: &[i64],
    nulls: &[u32],
    widths: &[usize],
    places: &[usize],
    order: &[usize],
    n: usize,
)
    requires { Known order.now (length places.now) × Room (length places.now) cells.now nulls.now widths.now
        × (length (streams_bytes (put_out (row_in cells.now nulls.now widths.now) places.now order.now n)) ≤ length out.old) }
    ensures { out.new ≡ streams_bytes
        (put_out (row_in cells.now nulls.now widths.now) places.now order.now n)
        ++ drop (length (streams_bytes
        (put_out (row_in cells.now nulls.now widths.now) places.now order.now n))) out.old }
{
    let mut at = 0;
    for k in 0..n {
        at = put_stream(out, at, cells, nulls, widths, places, order, k);
    }
}
