// The order that a join keeps: which side's, and that order moved to its place (01, 'Facts of a node').
#![tactic(auto)]

ghost use Rattle.std.specs.Prelude.{◌≡◌, map, ℕ, ◌+◌, ◌<◌, ◌≤◌, pos};
ghost use Rattle.row_order.specs.Lists.{All};
ghost use Rattle.plan.specs.WellFormed.{join_width};
ghost use Rattle.semantics.specs.Facts as sem;
ghost use Rattle.key_lists.specs.Keys.{keys_of, Keyed};
ghost use Rattle.join_orders.specs.KeptSides.{kept_of, Placeable};

use key_list_algebra::move_keys;
use key_lists::{Keys, no_keys};
use plan::JoinType;

// The side whose order a join keeps.
#[derive(Clone, Copy)]
pub enum KeptSide {
    Left,
    Right,
    Neither,
}

// Sort-merge keeps left, for Right types right, for Full none.
pub fn sort_merge_kept(t: JoinType) -> KeptSide
    ensures { kept_of result ≡ sem.smj_kept t }
{
    match t {
        JoinType::Inner => KeptSide::Left,
        JoinType::Left => KeptSide::Left,
        JoinType::Right => KeptSide::Right,
        JoinType::Full => KeptSide::Neither,
        JoinType::LeftSemi => KeptSide::Left,
        JoinType::LeftAnti => KeptSide::Left,
        JoinType::RightSemi => KeptSide::Right,
        JoinType::RightAnti => KeptSide::Right,
    }
}

// Hash keeps right for Inner, Right, RightSemi, RightAnti.
pub fn hash_kept(t: JoinType) -> KeptSide
    ensures { kept_of result ≡ sem.hash_kept t }
{
    match t {
        JoinType::Inner => KeptSide::Right,
        JoinType::Left => KeptSide::Neither,
        JoinType::Right => KeptSide::Right,
        JoinType::Full => KeptSide::Neither,
        JoinType::LeftSemi => KeptSide::Neither,
        JoinType::LeftAnti => KeptSide::Neither,
        JoinType::RightSemi => KeptSide::Right,
        JoinType::RightAnti => KeptSide::Right,
    }
}

// Right types have the right side's streams.
pub fn by_right(t: JoinType) -> bool
    ensures { result ≡ sem.by_right t }
{
    match t {
        JoinType::Inner => false,
        JoinType::Left => false,
        JoinType::Right => true,
        JoinType::Full => false,
        JoinType::LeftSemi => false,
        JoinType::LeftAnti => false,
        JoinType::RightSemi => true,
        JoinType::RightAnti => true,
    }
}

// The left side's order, in its place.
fn left_order(t: JoinType, keys: Keys) -> Keys
    requires { keys.len ≤ 8 }
    ensures { (w : ℕ) → All (λ k. k.col < w) (keys_of keys) → Keyed (sem.left_order t w (keys_of keys)) result }
{
    match t {
        JoinType::Inner => keys,
        JoinType::Left => keys,
        JoinType::Right => no_keys(),
        JoinType::Full => no_keys(),
        JoinType::LeftSemi => keys,
        JoinType::LeftAnti => keys,
        JoinType::RightSemi => no_keys(),
        JoinType::RightAnti => no_keys(),
    }
}

// A width as an offset.
fn offset(w: usize) -> isize
    requires { w ≤ 32 }
    ensures { result ≡ pos w }
{
    w as isize
}

// The order behind w columns.
fn moved_order(w: usize, keys: Keys) -> Keys
    requires { (w ≤ 32) × All (λ k. w + k.col < 32) (keys_of keys) × (keys.len ≤ 8) }
    ensures { Keyed (map (sem.moved w) (keys_of keys)) result }
{
    move_keys(keys, offset(w))
}

// The right side's order, moved to its place.
fn right_order(t: JoinType, w: usize, keys: Keys) -> Keys
    requires { (w ≤ 32) × All (λ k. join_width t w (k.col + 1) ≤ 32) (keys_of keys) × (keys.len ≤ 8) }
    ensures { Keyed (sem.right_order t w (keys_of keys)) result }
{
    match t {
        JoinType::Inner => moved_order(w, keys),
        JoinType::Left => no_keys(),
        JoinType::Right => moved_order(w, keys),
        JoinType::Full => no_keys(),
        JoinType::LeftSemi => no_keys(),
        JoinType::LeftAnti => no_keys(),
        JoinType::RightSemi => keys,
        JoinType::RightAnti => keys,
    }
}

// The kept side's order, moved to its place; w: the left columns.
pub fn join_order(t: JoinType, kept: KeptSide, w: usize, left: Keys, right: Keys) -> Keys
    requires { Placeable t w left right }
    ensures { (F G : sem.Facts) → F.width ≡ w → keys_of left ≡ F.order → keys_of right ≡ G.order → Keyed (sem.join_order t (kept_of kept) F G) result }
{
    match kept {
        KeptSide::Left => left_order(t, left),
        KeptSide::Right => right_order(t, w, right),
        KeptSide::Neither => no_keys(),
    }
}
