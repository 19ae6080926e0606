// expr_source_side: on which side of a join the columns of an order stand (sort_pushdown.rs).
#![tactic(auto)]

ghost use Rattle.std.specs.Prelude.{◌≡◌, ◌+◌, ◌<◌, ◌≤◌};
ghost use Rattle.semantics.specs.Facts as sem;
ghost use Rattle.key_lists.specs.Keys.{keys_of};
ghost use Rattle.asked_facts.specs.Asked.{told, FactRow};
ghost use Rattle.walks.specs.SortPushdown.{on_side, either_side, expr_source_side};
ghost use Rattle.join_sides.specs.Sides.{side_column, lowest_from, Valids, SideIs, Roomy};

use asked_facts::{lowest_equal, width};
use key_lists::{Keys, appended, no_keys, with_column};
use plan::JoinType;
use row_order::column;

// The lowest of n columns from lo on whose class is the given one.
fn lowest_on_side(own: &[u8], lo: usize, n: usize, class: usize) -> Option<usize>
    requires { FactRow own.now × (lo + n ≤ 32) }
    ensures { result ≡ lowest_from (sem.cl (told own.now)) lo n class }
{
    for j in 0..n {
        if lowest_equal(own, lo + j) == class {
            return Some(lo + j);
        }
    }
    None
}

// Column c if it stands on the side, else the lowest column there that is equal to it.
fn side_column(own: &[u8], lo: usize, n: usize, c: usize) -> Option<usize>
    requires { FactRow own.now × (lo + n ≤ 32) × (c < 32) }
    ensures { result ≡ side_column (sem.cl (told own.now)) lo n c }
{
    if c < lo {
        return lowest_on_side(own, lo, n, lowest_equal(own, c));
    }
    if c < lo + n {
        return Some(c);
    }
    lowest_on_side(own, lo, n, lowest_equal(own, c))
}

// The order in the columns of the side that has n columns from lo on, if all its columns have one there.
fn on_side(own: &[u8], lo: usize, n: usize, keys: Keys) -> Option<Keys>
    requires { FactRow own.now × (lo + n ≤ 32) × (keys.len ≤ 8) }
    ensures { Valids (on_side (told own.now) lo n (keys_of keys)) result }
{
    let mut out = no_keys();
    for key in keys.iter() {
        let c = side_column(own, lo, n, column(key))?;
        out = appended(out, with_column(key, c));
    }
    Some(out)
}

// The side on which an order stands, with its columns there.
#[derive(Clone, Copy)]
pub enum JoinSide {
    Left(Keys),
    Right(Keys),
    Neither,
}

// The left side first; left: how many columns it has.
fn either_side(own: &[u8], keys: Keys, left: usize) -> JoinSide
    requires { FactRow own.now × (keys.len ≤ 8) × (left ≤ (told own.now).width) }
    ensures { SideIs (either_side (told own.now) (keys_of keys) left) result }
{
    let on_left = on_side(own, 0, left, keys);
    if let Some(k) = on_left {
        return JoinSide::Left(k);
    }
    let on_right = on_side(own, left, width(own) - left, keys);
    let Some(k) = on_right else {
        return JoinSide::Neither;
    };
    JoinSide::Right(k)
}

pub fn expr_source_side(own: &[u8], keys: Keys, t: JoinType, left: usize) -> JoinSide
    requires { FactRow own.now × (keys.len ≤ 8) × Roomy t left (told own.now).width }
    ensures { SideIs (expr_source_side (told own.now) (keys_of keys) t left) result }
{
    match t {
        JoinType::Inner => either_side(own, keys, left),
        JoinType::Left => either_side(own, keys, left),
        JoinType::Right => either_side(own, keys, left),
        JoinType::Full => either_side(own, keys, left),
        JoinType::LeftSemi => JoinSide::Left(keys),
        JoinType::LeftAnti => JoinSide::Left(keys),
        JoinType::RightSemi => JoinSide::Right(keys),
        JoinType::RightAnti => JoinSide::Right(keys),
    }
}
