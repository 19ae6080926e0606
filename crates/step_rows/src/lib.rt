// Rows of a dry run: which one a merge takes, and what a projection makes of one.
#![tactic(auto)]

ghost use Rattle.std.specs.Prelude.{◌&&◌, ◌||◌, map, ◌+◌, ◌<◌, ◌≤◌, ltb, leb, length};
ghost use Rattle.row_order.specs.Packed.{bit, key_of};
ghost use Rattle.column_sets.specs.Sets.{Holding};
ghost use Rattle.step_tables.specs.Found.{Known};
ghost use Rattle.step_tables.specs.Rows.{row_in, Room, Inside};
ghost use Rattle.step_rows.specs.Heads.{Tells, Turned, Leading};
ghost use Rattle.step_rows.specs.Projecting.{Columns, Picks, Projected};

// An input stream, and its first row's number in the order of arrival.
#[derive(Clone, Copy)]
pub struct Head {
    pub stream: usize,
    pub at: usize,
}

// Of the first row on stream i and the best of the later streams' first rows, which goes first: the lower stream's among peers.
fn turn_back(
    keys: &[usize],
    cells: &[i64],
    nulls: &[u32],
    widths: &[usize],
    places: &[usize],
    order: &[usize],
    held: &[u16],
    g: usize,
    i: usize,
    best: Head,
) -> Head
    requires known { Known order.now (length places.now) × Room (length places.now) cells.now nulls.now widths.now }
    requires tells { Tells held.now places.now order.now × (g + i < length held.now) }
    ensures { Turned (map key_of keys.now) (row_in cells.now nulls.now widths.now)
        places.now order.now g i best.stream best.at result.stream result.at }
{
    if held[g + i] == 0 {
        return best;
    }
    let a = step_tables::earliest(places, order, g + i, 1);
    let at = best.at;
    if at < order.len() {
        let r = order[a];
        let q = order[at];
        if !step_tables::row_le(keys, cells, nulls, widths, r, q) {
            return best;
        }
    }
    Head { stream: i, at: a }
}

// A merge's choice, of n streams at the places from g on: the one whose first row is first by keys, the lowest among peers ("from the lowest stream"),
// and that row's number in the order. Where no row waits: n and the order's length. held: how many rows wait at each place.
pub fn least_head(
    keys: &[usize],
    cells: &[i64],
    nulls: &[u32],
    widths: &[usize],
    places: &[usize],
    order: &[usize],
    held: &[u16],
    g: usize,
    n: usize,
) -> Head
    requires known { Known order.now (length places.now) × Room (length places.now) cells.now nulls.now widths.now }
    requires tells { Tells held.now places.now order.now × (g + n ≤ length held.now) }
    ensures { Leading (map key_of keys.now) (row_in cells.now nulls.now widths.now)
        places.now order.now g n result.stream result.at }
{
    let mut best = Head {
        stream: n,
        at: order.len(),
    };
    for i in (0..n).rev() {
        best = turn_back(keys, cells, nulls, widths, places, order, held, g, i, best);
    }
    best
}

// The numbers in these columns of the row that starts at a, and zeros behind them.
fn picked_cells(cells: &[i64], a: usize, cols: &[usize]) -> [i64; 32]
    requires { (length cols.now ≤ 32) × (a + 32 ≤ length cells.now) × Columns cols.now 32 }
    ensures { Picks cells.now a cols.now (length cols.now) result }
{
    let mut picked = [0i64; 32];
    for (j, c) in cols.iter().enumerate() {
        picked[j] = cells[a + *c];
    }
    picked
}

// The set with every column from w on.
fn with_past(set: u32, w: usize) -> u32
    ensures { Holding (λ c. bit set c || (ltb c 32 && leb w c)) result }
{
    let past = column_sets::moved_up(0xFFFF_FFFF, w);
    column_sets::either(set, past)
}

// Row r becomes the row of its columns cols ("projection picks columns"); a column that it does not have is null. A column may be picked twice or before
// a lower one, so all numbers are read before the first is stored.
pub fn project_row(
    cells: &mut [i64],
    nulls: &mut [u32],
    widths: &mut [usize],
    r: usize,
    cols: &[usize],
)
    requires { (length cols.now ≤ 32) × Columns cols.now 32 × Inside r cells.old nulls.old widths.old }
    ensures { Projected cells.old nulls.old widths.old r cols.now
        cells.new nulls.new widths.new }
{
    let a = r * 32;
    let picked = picked_cells(cells, a, cols);
    cells[a..a + cols.len()].copy_from_slice(&picked[..cols.len()]);
    let old = with_past(nulls[r], widths[r]);
    nulls[r] = class_tables::projection_set(old, cols);
    widths[r] = cols.len();
}
