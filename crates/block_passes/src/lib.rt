// What is asked of a lent file's blocks: their count by the length, their sums, their headers with padding (refusals 1 to 3). And the count of records that
// the headers give.
#![tactic(auto)]

ghost use Rattle.std.specs.Prelude.{◌≡◌, ◌≤◌, ◌<◌, length};
ghost use Rattle.plan_format.specs.Blocks.{length_ok, block_count, record_count, sum_ok, count_ok, padding_ok, header_ok};
ghost use Rattle.plan_format.specs.Reading.{sums_ok, headers_ok};

pub fn length_ok(n: usize) -> bool
    ensures { result ≡ length_ok n }
{
    ((1 <= n) & (n <= 9216)) & (n % 512 == 0)
}

fn sum_ok(b: &[u8]) -> bool
    requires { length b.now ≡ 512 }
    ensures { result ≡ sum_ok b.now }
{
    let sum = scan::sum(&b[..508]);
    let said = scan::get32(b, 508);
    sum == said
}

pub fn sums_ok(s: &[u8], n: usize) -> bool
    requires { n ≡ block_count s.now }
    ensures { result ≡ sums_ok s.now }
{
    for k in 0..n {
        let at = k * 512;
        let e = at + 512;
        if !sum_ok(&s[at..e]) {
            return false;
        }
    }
    true
}

fn count_ok(last: bool, c: u8) -> bool
    ensures { result ≡ count_ok last c }
{
    (last & ((1 <= c) & (c <= 7))) | (!last & (c == 7))
}

fn padding_ok(b: &[u8]) -> bool
    requires { length b.now ≡ 512 }
    ensures { result ≡ padding_ok b.now }
{
    let c = b[4] as usize;
    let at = 8 + 64 * c;
    let z = scan::all_zero(&b[5..8]);
    if 508 <= at {
        return z;
    }
    let y = scan::all_zero(&b[at..508]);
    z & y
}

fn header_ok(b: &[u8], n: usize, k: usize) -> bool
    requires { (length b.now ≡ 512) × (k < n) }
    ensures { result ≡ header_ok n k b.now }
{
    let number = scan::get16(b, 0) as usize;
    let total = scan::get16(b, 2) as usize;
    let c = b[4];
    let counted = count_ok(k + 1 == n, c);
    (((number == k) & (total == n)) & counted) & padding_ok(b)
}

pub fn headers_ok(s: &[u8], n: usize) -> bool
    requires { n ≡ block_count s.now }
    ensures { result ≡ headers_ok s.now }
{
    for k in 0..n {
        let at = k * 512;
        let e = at + 512;
        if !header_ok(&s[at..e], n, k) {
            return false;
        }
    }
    true
}

pub fn record_count(s: &[u8], n: usize) -> usize
    requires { (n ≡ block_count s.now) × (1 ≤ n) × (n ≤ 18) }
    ensures { result ≡ record_count s.now }
{
    7 * (n - 1) + s[(n - 1) * 512 + 4] as usize
}
