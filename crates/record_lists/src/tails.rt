// Bytes 32 to 63 of a record: a column set, child columns or right key columns, and zeros.
ghost use Rattle.std.specs.Prelude.{◌≡◌, ◌+◌, length, drop};
ghost use Rattle.scan.specs.Bytes.{zeros};
ghost use Rattle.plan_format.specs.Fields.{fields_of};
ghost use Rattle.plan_format.specs.Record.{tail_ok};

fn last_zero(r: &[u8]) -> bool
    requires { length r.now ≡ 64 }
    ensures { result ≡ zeros (drop 40 r.now) }
{
    (scan::get64(r, 40) == 0) & ((scan::get64(r, 48) == 0) & (scan::get64(r, 56) == 0))
}

// All zero.
pub fn none(r: &[u8]) -> bool
    requires { length r.now ≡ 64 }
    ensures { result ≡ zeros (drop 32 r.now) }
{
    (scan::get64(r, 32) == 0) & last_zero(r)
}

// Zero after the first u bytes.
pub fn zero_from(r: &[u8], u: u8) -> bool
    requires { length r.now ≡ 64 }
    ensures { result ≡ zeros (drop (32 + u) r.now) }
{
    if u < 8 {
        return (scan::get64(r, 32) >> (8 * u) == 0) & last_zero(r);
    }
    let at = 32 + u as usize;
    if r.len() <= at {
        return true;
    }
    scan::all_zero(&r[at..])
}

// 'a keyed set has 1 to 8 ones': their count decides.
pub fn output_requirement(r: &[u8]) -> bool
    requires { length r.now ≡ 64 }
    ensures { result ≡ tail_ok (fields_of 13) r.now }
{
    let d = r[14];
    if d == 2 {
        let n = u32::count_ones(scan::get32(r, 32));
        return ((1 <= n) & (n <= 8)) & zero_from(r, 4);
    }
    none(r)
}
