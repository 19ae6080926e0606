// Runs compare_rows on the corner cases of the ISO order, and writes for each group whether it holds. The answers that it wants
// are written here from the rules of the standard; each case is also run with its two rows exchanged, and must then turn.
#![tactic(auto)]

use row_order::{Comparison, compare_rows};

const LEAST: i64 = -9223372036854775808;

const GREATEST: i64 = 9223372036854775807;

// Options, at their place above a key's column. Without them a key is ascending with nulls last.
const DESC: usize = 32;

const FIRST: usize = 64;

fn code(c: Comparison) -> u8 {
    match c {
        Comparison::Before => 0,
        Comparison::Peers => 1,
        Comparison::After => 2,
    }
}

fn turned(c: Comparison) -> Comparison {
    match c {
        Comparison::Before => Comparison::After,
        Comparison::Peers => Comparison::Peers,
        Comparison::After => Comparison::Before,
    }
}

fn says(
    keys: &[usize],
    x_nulls: u32,
    x: &[i64],
    y_nulls: u32,
    y: &[i64],
    want: Comparison,
) -> bool {
    let there = compare_rows(keys, x_nulls, x, y_nulls, y);
    let back = compare_rows(keys, y_nulls, y, x_nulls, x);
    code(there) == code(want) && code(back) == code(turned(want))
}

// Rows of one column, by a key of the options on it; a null set is 0, or 1 for a null.
fn by_one(options: usize, x_nulls: u32, x: i64, y_nulls: u32, y: i64, want: Comparison) -> bool {
    let keys = [options];
    let xs = [x];
    let ys = [y];
    says(&keys, x_nulls, &xs, y_nulls, &ys, want)
}

fn no_key() -> bool {
    let keys = [0];
    let none = 0;
    let xs = [LEAST, 1];
    let ys = [GREATEST, 2];
    says(&keys[..none], 0, &xs, 0, &ys, Comparison::Peers)
        & says(&keys[..none], 3, &xs, 0, &ys, Comparison::Peers)
}

// `less`: how a lesser number stands to a greater one.
fn numbers(options: usize, less: Comparison) -> bool {
    by_one(options, 0, LEAST, 0, GREATEST, less)
        & by_one(options, 0, LEAST, 0, LEAST + 1, less)
        & by_one(options, 0, GREATEST - 1, 0, GREATEST, less)
        & by_one(options, 0, LEAST, 0, 0, less)
        & by_one(options, 0, -1, 0, 0, less)
        & by_one(options, 0, 0, 0, 1, less)
        & by_one(options, 0, -1, 0, GREATEST, less)
        & by_one(options, 0, LEAST, 0, LEAST, Comparison::Peers)
        & by_one(options, 0, -1, 0, -1, Comparison::Peers)
        & by_one(options, 0, GREATEST, 0, GREATEST, Comparison::Peers)
}

// `null`: how a null stands to a number. The number under a null counts for nothing.
fn nulls(options: usize, null: Comparison) -> bool {
    by_one(options, 1, 0, 0, LEAST, null)
        & by_one(options, 1, 0, 0, GREATEST, null)
        & by_one(options, 1, LEAST, 0, 0, null)
        & by_one(options, 1, GREATEST, 0, 0, null)
        & by_one(options, 1, 0, 1, 0, Comparison::Peers)
        & by_one(options, 1, LEAST, 1, GREATEST, Comparison::Peers)
}

// Rows of two columns, by column 1 ascending, then column 0 descending.
fn by_two(x_nulls: u32, x: [i64; 2], y_nulls: u32, y: [i64; 2], want: Comparison) -> bool {
    let keys = [1, DESC];
    says(&keys, x_nulls, &x, y_nulls, &y, want)
}

fn prefixes() -> bool {
    let a = [5, 7];
    let b = [6, 7];
    let c = [4, 8];
    by_two(0, a, 0, b, Comparison::After)
        & by_two(0, a, 0, a, Comparison::Peers)
        & by_two(0, b, 0, c, Comparison::Before)
        & by_two(2, b, 2, c, Comparison::Before)
        & by_two(2, a, 2, b, Comparison::After)
        & by_two(2, a, 0, b, Comparison::After)
        & by_two(3, a, 2, b, Comparison::After)
        & by_two(3, a, 3, b, Comparison::Peers)
}

// Rows of eight columns, by all four pairs of options.
fn by_eight(x_nulls: u32, x: [i64; 8], y_nulls: u32, y: [i64; 8], want: Comparison) -> bool {
    let keys = [
        0,
        1 + DESC,
        2 + FIRST,
        3 + DESC + FIRST,
        4,
        5 + DESC,
        6 + FIRST,
        7 + DESC + FIRST,
    ];
    says(&keys, x_nulls, &x, y_nulls, &y, want)
}

// The rows of `b` and `c` differ from `a` in the last column and in column 3.
fn eight_keys() -> bool {
    let a = [1, 2, 3, 4, 5, 6, 7, 8];
    let b = [1, 2, 3, 4, 5, 6, 7, 9];
    let c = [1, 2, 3, 5, 5, 6, 7, 7];
    by_eight(0, a, 0, a, Comparison::Peers)
        & by_eight(0, a, 0, b, Comparison::After)
        & by_eight(0, a, 0, c, Comparison::After)
        & by_eight(0, b, 0, c, Comparison::After)
        & by_eight(127, a, 127, b, Comparison::After)
        & by_eight(128, a, 0, b, Comparison::Before)
        & by_eight(255, a, 255, c, Comparison::Peers)
}

// A row of one cell and one of 32, the last of them 9, by the key.
fn short_and_long(key: usize, nulls: u32, want: Comparison) -> bool {
    let keys = [key];
    let short = [1];
    let mut long = [0; 32];
    long[31] = 9;
    says(&keys, 0, &short, nulls, &long, want)
}

// Two rows of one cell, by column 31.
fn both_short(nulls: u32) -> bool {
    let keys = [31];
    let short = [1];
    says(&keys, nulls, &short, 0, &short, Comparison::Peers)
}

// A column past the cells is null, whatever the null set says of it.
fn past_the_cells() -> bool {
    short_and_long(31, 0, Comparison::After)
        & short_and_long(31 + FIRST, 0, Comparison::Before)
        & short_and_long(31, 2147483648, Comparison::Peers)
        & both_short(0)
        & both_short(2147483648)
}

// A key that is repeated decides nothing, with other options neither.
fn repeated_key() -> bool {
    let keys = [0, DESC + FIRST, 1];
    let a = [3, 1];
    let b = [3, 2];
    let c = [4, 0];
    says(&keys, 0, &a, 0, &b, Comparison::Before)
        & says(&keys, 0, &b, 0, &c, Comparison::Before)
        & says(&keys, 1, &a, 1, &b, Comparison::Before)
}

fn line(name: &[u8], held: bool) {
    io::write_all(1, name);
    if held {
        io::write_all(1, b": holds\n");
    } else {
        io::write_all(1, b": FAILS\n");
    }
}

fn main() {
    line(b"no key", no_key());
    line(
        b"least and greatest, ascending, nulls last",
        numbers(0, Comparison::Before),
    );
    line(
        b"least and greatest, descending, nulls last",
        numbers(DESC, Comparison::After),
    );
    line(
        b"least and greatest, ascending, nulls first",
        numbers(FIRST, Comparison::Before),
    );
    line(
        b"least and greatest, descending, nulls first",
        numbers(DESC + FIRST, Comparison::After),
    );
    line(b"nulls, ascending, nulls last", nulls(0, Comparison::After));
    line(
        b"nulls, descending, nulls last",
        nulls(DESC, Comparison::After),
    );
    line(
        b"nulls, ascending, nulls first",
        nulls(FIRST, Comparison::Before),
    );
    line(
        b"nulls, descending, nulls first",
        nulls(DESC + FIRST, Comparison::Before),
    );
    line(b"equal prefixes", prefixes());
    line(b"eight keys", eight_keys());
    line(b"a column past the cells", past_the_cells());
    line(b"a repeated key", repeated_key());
}
