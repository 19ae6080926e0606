// Rows of small numbers, a byte each, in lent bytes.
#![tactic(auto)]

ghost use Rattle.std.specs.Prelude.{◌≡◌, length};
ghost use Rattle.byte_rows.specs.Rows.{low_bytes};

// A byte as a wider number.
pub fn wide(x: u8) -> usize
    ensures { result ≡ x }
{
    usize::from(x)
}

pub fn read32(s: &[u8]) -> [usize; 32]
    requires { length s.now ≡ 32 }
    ensures { result ≡ s.now }
{
    let mut out = [0usize; 32];
    for i in 0..32 {
        out[i] = usize::from(s[i]);
    }
    out
}

// The low byte of each number of s, over the whole of d, which is as long.
pub fn write_row(d: &mut [u8], s: &[usize])
    requires { length d.old ≡ length s.now }
    ensures { d.new ≡ low_bytes s.now }
{
    for (i, x) in s.iter().enumerate() {
        d[i] = (*x & 255) as u8;
    }
}
