// The rows of a dry run as bytes: whether they have 02's form (refusal 26), and a cell's number.
#![tactic(auto)]

ghost use Rattle.std.specs.Prelude.{◌≡◌, true, not, ◌||◌, ℕ, ◌+◌, ◌*◌, ◌≤◌, ◌<◌, map, length, get_or, take};
ghost use Rattle.row_order.specs.Iso.{equal};
ghost use Rattle.row_order.specs.Lists.{concat};
ghost use Rattle.row_order.specs.Packed.{bit, key_of};
ghost use Rattle.row_order.specs.Compared.{compared};
ghost use Rattle.plan.specs.WellFormed.{set_fits, every};
ghost use Rattle.scan.specs.Bytes.{zeros, all_below};
ghost use Rattle.stepping.specs.RowBytes.{signed, row_size, cell_bytes_at, numbers_at, row_at, row_ok, stream_end, stream_at, stream_ok, streams_at, streams_ok, rows_together};
ghost use Rattle.stepping.specs.Answers.{in_order, one_cell};
ghost use Rattle.row_bytes.specs.Ordered.{is_after};
ghost use Rattle.row_bytes.specs.Streams.{alike, streams_fit, streams_end};
ghost use Rattle.row_bytes.specs.Constants.{cell_at, agrees};

use row_order::Comparison;

// A null set has no column at or above the width.
fn set_fits(nulls: u32, w: usize) -> bool
    requires { w ≤ 32 }
    ensures { result ≡ set_fits w nulls }
{
    if w < 32 { nulls >> w == 0 } else { true }
}

// Column c of the row at `at` is no null, or its eight bytes are zero.
fn cell_fits(s: &[u8], at: usize, nulls: u32, c: usize) -> bool
    requires { (c < 32) × (at + 12 + 8 * c ≤ length s.now) }
    ensures { result ≡ (not (bit nulls c) || zeros (cell_bytes_at s.now at c)) }
{
    if (nulls >> c) & 1 == 1 {
        let a = at + 4 + 8 * c;
        let e = a + 8;
        return scan::all_zero(&s[a..e]);
    }
    true
}

// The row at `at`, w columns wide, has the form.
pub fn row_fits(s: &[u8], at: usize, w: usize) -> bool
    requires { (w ≤ 32) × (at + row_size w ≤ length s.now) }
    ensures { result ≡ row_ok s.now at w }
{
    let nulls = scan::get32(s, at);
    if !set_fits(nulls, w) {
        return false;
    }
    for c in 0..w {
        if !cell_fits(s, at, nulls, c) {
            return false;
        }
    }
    true
}

// The stream at `at`, w columns wide, is all there, and its rows have the form.
pub fn stream_fits(s: &[u8], at: usize, w: usize) -> bool
    requires { (w ≤ 32) × (at ≤ length s.now) }
    ensures { result ≡ stream_ok s.now at w }
{
    if s.len() - at < 4 {
        return false;
    }
    let n = scan::get32(s, at) as usize;
    let size = 4 + 8 * w;
    let end = at + 4 + n * size;
    if s.len() < end {
        return false;
    }
    for i in 0..n {
        if !row_fits(s, at + 4 + i * size, w) {
            return false;
        }
    }
    true
}

// All streams, of these widths, one after another: no byte is missing or left over.
pub fn streams_fit(s: &[u8], widths: &[usize]) -> bool
    requires { (j : ℕ) → j < length widths.now → get_or widths.now j 0 ≤ 32 }
    ensures { result ≡ streams_ok s.now 0 widths.now }
{
    let mut at = 0;
    for j in 0..widths.len() {
        let w = widths[j];
        if !stream_fits(s, at, w) {
            return false;
        }
        let n = scan::get32(s, at) as usize;
        at = at + 4 + n * (4 + 8 * w);
    }
    at == s.len()
}

// How many rows they hold together: 27 comes above 256.
pub fn rows_in_all(s: &[u8], widths: &[usize]) -> usize
    requires { (((j : ℕ) → j < length widths.now → get_or widths.now j 0 ≤ 32)) × (streams_ok s.now 0 widths.now ≡ true) }
    ensures { result ≡ rows_together s.now 0 widths.now }
{
    let mut at = 0;
    let mut rows = 0;
    for j in 0..widths.len() {
        let w = widths[j];
        let n = scan::get32(s, at) as usize;
        rows += n;
        at = at + 4 + n * (4 + 8 * w);
    }
    rows
}

// Eight bytes' number as a signed one.
pub fn signed_number(x: u64) -> i64
    ensures { result ≡ signed x }
{
    if x < 9223372036854775808 {
        return x as i64;
    }
    let below = (18446744073709551615 - x) as i64;
    -1 - below
}

// The cells of the row at `at`, w columns wide, and zeros behind them.
fn cells_at(s: &[u8], at: usize, w: usize) -> [i64; 32]
    requires { (w ≤ 32) × (at + row_size w ≤ length s.now) }
    ensures { take w result ≡ numbers_at s.now at w }
{
    let mut cells = [0i64; 32];
    for c in 0..w {
        let x = scan::get64(s, at + 4 + 8 * c);
        cells[c] = signed_number(x);
    }
    cells
}

// Compares the rows at a and at b by a list of keys.
pub fn compare_at(keys: &[usize], s: &[u8], a: usize, b: usize, w: usize) -> Comparison
    requires { (w ≤ 32) × (a + row_size w ≤ length s.now) × (b + row_size w ≤ length s.now) }
    ensures { result ≡ compared (map key_of keys.now) (row_at s.now a w) (row_at s.now b w) }
{
    let x = cells_at(s, a, w);
    let y = cells_at(s, b, w);
    let x_nulls = scan::get32(s, a);
    let y_nulls = scan::get32(s, b);
    row_order::compare_rows(keys, x_nulls, &x[..w], y_nulls, &y[..w])
}

fn is_after(c: Comparison) -> bool
    ensures { result ≡ is_after c }
{
    match c {
        Comparison::Before => false,
        Comparison::Peers => false,
        Comparison::After => true,
    }
}

// The stream at `at`, w columns wide, stands in the order of the keys.
pub fn in_order(keys: &[usize], s: &[u8], at: usize, w: usize) -> bool
    requires { (w ≤ 32) × (stream_ok s.now at w ≡ true) }
    ensures { result ≡ in_order (map key_of keys.now) (stream_at s.now at w) }
{
    let n = scan::get32(s, at) as usize;
    let size = 4 + 8 * w;
    for i in 0..n.saturating_sub(1) {
        let c = compare_at(keys, s, at + 4 + i * size, at + 4 + (i + 1) * size, w);
        if is_after(c) {
            return false;
        }
    }
    true
}

// ---- the streams of one source: k of them, one after another, all w columns wide

// Where the stream at `at` ends.
pub fn stream_end(s: &[u8], at: usize, w: usize) -> usize
    requires { (w ≤ 32) × (stream_ok s.now at w ≡ true) }
    ensures { result ≡ stream_end s.now at w }
{
    let n = scan::get32(s, at) as usize;
    at + 4 + n * (4 + 8 * w)
}

// The source's streams are all there, and their rows have the form.
pub fn source_fits(s: &[u8], at: usize, w: usize, k: usize) -> bool
    requires { (w ≤ 32) × (at ≤ length s.now) }
    ensures { result ≡ streams_fit s.now at (alike k w) }
{
    let mut a = at;
    for _ in 0..k {
        if !stream_fits(s, a, w) {
            return false;
        }
        a = stream_end(s, a, w);
    }
    true
}

// Where the source's streams end.
pub fn source_end(s: &[u8], at: usize, w: usize, k: usize) -> usize
    requires { (w ≤ 32) × (streams_fit s.now at (alike k w) ≡ true) }
    ensures { result ≡ streams_end s.now at (alike k w) }
{
    let mut a = at;
    for _ in 0..k {
        a = stream_end(s, a, w);
    }
    a
}

// How many rows the source has.
pub fn source_count(s: &[u8], at: usize, w: usize, k: usize) -> usize
    requires { (w ≤ 32) × (streams_fit s.now at (alike k w) ≡ true) }
    ensures { result ≡ rows_together s.now at (alike k w) }
{
    let mut rows = 0;
    let mut a = at;
    for _ in 0..k {
        rows += scan::get32(s, a) as usize;
        a = stream_end(s, a, w);
    }
    rows
}

// Each of the source's streams stands in the order of the keys.
pub fn source_in_order(keys: &[usize], s: &[u8], at: usize, w: usize, k: usize) -> bool
    requires { (w ≤ 32) × (streams_fit s.now at (alike k w) ≡ true) }
    ensures { result ≡ every (in_order (map key_of keys.now)) (streams_at s.now at (alike k w)) }
{
    let mut a = at;
    for _ in 0..k {
        if !in_order(keys, s, a, w) {
            return false;
        }
        a = stream_end(s, a, w);
    }
    true
}

// ---- constant columns: "null is a value"

// Column c is in the set.
fn has(set: u32, c: usize) -> bool
    requires { c < 32 }
    ensures { result ≡ bit set c }
{
    (set >> c) & 1 == 1
}

// The rows at a and b have one cell in column c: two nulls, or two numbers that are equal.
fn same_cell(s: &[u8], a: usize, b: usize, c: usize) -> bool
    requires { (c < 32) × (a + 12 + 8 * c ≤ length s.now) × (b + 12 + 8 * c ≤ length s.now) }
    ensures { result ≡ equal (cell_at s.now a c) (cell_at s.now b c) }
{
    let p = has(scan::get32(s, a), c);
    let q = has(scan::get32(s, b), c);
    if p {
        return q;
    }
    if q {
        return false;
    }
    let x = scan::get64(s, a + 4 + 8 * c);
    let y = scan::get64(s, b + 4 + 8 * c);
    x == y
}

// Each row of the stream at `at` has the cell of the row at `first` in column c.
fn stream_agrees(s: &[u8], first: usize, at: usize, w: usize, c: usize) -> bool
    requires { (w ≤ 32) × (c < w) × (first + row_size w ≤ length s.now) × (stream_ok s.now at w ≡ true) }
    ensures { result ≡ every (agrees (row_at s.now first w) c) (stream_at s.now at w) }
{
    let n = scan::get32(s, at) as usize;
    let size = 4 + 8 * w;
    for i in 0..n {
        if !same_cell(s, first, at + 4 + i * size, c) {
            return false;
        }
    }
    true
}

// Each row of all streams does.
fn source_agrees(s: &[u8], first: usize, at: usize, w: usize, k: usize, c: usize) -> bool
    requires { (w ≤ 32) × (c < w) × (first + row_size w ≤ length s.now) × (streams_fit s.now at (alike k w) ≡ true) }
    ensures { result ≡ every (every (agrees (row_at s.now first w) c)) (streams_at s.now at (alike k w)) }
{
    let mut a = at;
    for _ in 0..k {
        if !stream_agrees(s, first, a, w, c) {
            return false;
        }
        a = stream_end(s, a, w);
    }
    true
}

// Column c has one cell over all rows of the source, whose first row is that of the first stream that has one.
fn one_cell(s: &[u8], at: usize, w: usize, k: usize, c: usize) -> bool
    requires { (w ≤ 32) × (c < w) × (streams_fit s.now at (alike k w) ≡ true) }
    ensures { result ≡ one_cell c (concat (streams_at s.now at (alike k w))) }
{
    let mut a = at;
    for j in 0..k {
        if 0 < scan::get32(s, a) {
            return source_agrees(s, a + 4, a, w, k - j, c);
        }
        a = stream_end(s, a, w);
    }
    true
}

fn constant_fits(set: u32, s: &[u8], at: usize, w: usize, k: usize, c: usize) -> bool
    requires { (w ≤ 32) × (c < w) × (streams_fit s.now at (alike k w) ≡ true) }
    ensures { result ≡ (not (bit set c) || one_cell c (concat (streams_at s.now at (alike k w)))) }
{
    if has(set, c) {
        return one_cell(s, at, w, k, c);
    }
    true
}

// Each column of the set has one cell over all rows of the source.
pub fn constants_fit(set: u32, s: &[u8], at: usize, w: usize, k: usize) -> bool
    requires { (w ≤ 32) × (streams_fit s.now at (alike k w) ≡ true) }
    ensures { result ≡ all_below (λ c. not (bit set c) || one_cell c (concat (streams_at s.now at (alike k w)))) w }
{
    for c in 0..w {
        if !constant_fits(set, s, at, w, k, c) {
            return false;
        }
    }
    true
}
