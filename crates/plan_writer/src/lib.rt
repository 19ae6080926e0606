// The blocks of a file: a header, at most seven records, zeros and the sum.
#![tactic(auto)]

ghost use Rattle.std.specs.Prelude.{◌≡◌, ◌≤◌, ◌<◌, length};
ghost use Rattle.plan_format.specs.Writing.{header, four_bytes, block_of};

fn put_header(d: &mut [u8], k: usize, n: usize, c: usize)
    requires { (length d.old ≡ 8) × (c < 256) }
    ensures { d.new ≡ header k n c }
{
    d[0] = (k % 256) as u8;
    d[1] = (k / 256 % 256) as u8;
    d[2] = (n % 256) as u8;
    d[3] = (n / 256 % 256) as u8;
    d[4] = c as u8;
    d[5] = 0;
    d[6] = 0;
    d[7] = 0;
}

fn put32(d: &mut [u8], x: u32)
    requires { length d.old ≡ 4 }
    ensures { d.new ≡ four_bytes x }
{
    d[0] = (x % 256) as u8;
    d[1] = (x / 256 % 256) as u8;
    d[2] = (x / 65536 % 256) as u8;
    d[3] = (x / 16777216 % 256) as u8;
}

// Block k of n, with the records rs, over the 512 bytes of b.
pub fn put_block(b: &mut [u8], rs: &[u8], n: usize, k: usize)
    requires { (length b.old ≡ 512) × (length rs.now ≤ 448) }
    ensures { b.new ≡ block_of n k rs.now }
{
    put_header(&mut b[0..8], k, n, rs.len() / 64);
    let e = 8 + rs.len();
    scan::copy(&mut b[8..e], rs);
    scan::zero(&mut b[e..508]);
    let x = scan::sum(&b[..508]);
    put32(&mut b[508..512], x);
}
