// Sets of columns as 32 bits, read and written by masks and shifts (01: a column set by bits).
#![tactic(auto)]

ghost use Rattle.std.specs.Prelude.{◌≡◌, ◌&&◌, ◌||◌, ◌-◌, ◌<◌, eqb, leb, ltb};
ghost use Rattle.row_order.specs.Packed.{bit};
ghost use Rattle.column_sets.specs.Sets.{Holding};

// Whether column c is in the set.
pub fn has(set: u32, c: usize) -> bool
    ensures { result ≡ bit set c }
{
    if c < 32 { (set >> c) & 1 == 1 } else { false }
}

// The set with column c.
pub fn with(set: u32, c: usize) -> u32
    requires { c < 32 }
    ensures { Holding (λ d. eqb d c || bit set d) result }
{
    set | (1 << c)
}

// The set with column c where the test holds, else the set as it is.
pub fn with_if(test: bool, set: u32, c: usize) -> u32
    requires { c < 32 }
    ensures { Holding (λ d. (test && eqb d c) || bit set d) result }
{
    if test { with(set, c) } else { set }
}

// The columns of either set.
pub fn either(a: u32, b: u32) -> u32
    ensures { Holding (λ d. bit a d || bit b d) result }
{
    a | b
}

// Each column moved up by w; those that come to stand at 32 or above are lost.
pub fn moved_up(set: u32, w: usize) -> u32
    ensures { Holding (λ d. ltb d 32 && (leb w d && bit set (d - w))) result }
{
    if w < 32 { set << w } else { 0 }
}
