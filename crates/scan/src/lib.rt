// Lent slices of bytes: sums, zeros, little-endian numbers, copies.
#![tactic(auto)]

ghost use Rattle.std.specs.Prelude.{◌≡◌, ◌+◌, ◌≤◌, ◌<◌, length, get_or, replicate};
ghost use Rattle.scan.specs.Bytes.{total, zeros, le16, le32, part};
ghost use Rattle.scan.specs.Words.{value};

// The sum of at most 256 bytes: it fits 16 bits, so that eight are added at once.
fn sum16(s: &[u8]) -> u16
    requires { length s.now ≤ 256 }
    ensures { result ≡ total s.now }
{
    let mut a: u16 = 0;
    for x in s {
        a += *x as u16;
    }
    a
}

// The sum of the bytes of s.
pub fn sum(s: &[u8]) -> u32
    requires { length s.now ≤ 512 }
    ensures { result ≡ total s.now }
{
    let h = s.len() / 2;
    let a = sum16(&s[..h]);
    let b = sum16(&s[h..]);
    a as u32 + b as u32
}

// Whether each byte of s is zero. With no way out of the loop, many bytes are tested at once.
pub fn all_zero(s: &[u8]) -> bool
    ensures { result ≡ zeros s.now }
{
    let mut all = true;
    for x in s {
        all = all & (*x == 0);
    }
    all
}

// The byte at i, as a wider number.
pub fn byte(s: &[u8], i: usize) -> u32
    requires { i < length s.now }
    ensures { (result ≡ get_or s.now i 0) × (result < 256) }
{
    s[i] as u32
}

// Little-endian numbers, put together by shifts: 01 asks so for the 32-bit sets, and the compiler makes one load of each.
pub fn get16(s: &[u8], at: usize) -> u32
    requires { at + 2 ≤ length s.now }
    ensures { result ≡ le16 s.now at }
{
    byte(s, at) | (byte(s, at + 1) << 8)
}

pub fn get32(s: &[u8], at: usize) -> u32
    requires { at + 4 ≤ length s.now }
    ensures { result ≡ le32 s.now at }
{
    ((byte(s, at) | (byte(s, at + 1) << 8)) | (byte(s, at + 2) << 16)) | (byte(s, at + 3) << 24)
}

pub fn get64(s: &[u8], at: usize) -> u64
    requires { at + 8 ≤ length s.now }
    ensures { result ≡ value (part at 8 s.now) }
{
    let low = get32(s, at);
    let high = get32(s, at + 4);
    low as u64 | ((high as u64) << 32)
}

// Zero over the whole of d.
pub fn zero(d: &mut [u8])
    ensures { d.new ≡ replicate (length d.old) 0 }
{
    d.fill(0);
}

// s over the whole of d, which is as long.
pub fn copy(d: &mut [u8], s: &[u8])
    requires { length d.old ≡ length s.now }
    ensures { d.new ≡ s.now }
{
    d.copy_from_slice(s);
}
