// Bytes 12 to 15 of a record: key count, width and byte 14, by the kinds that have them; byte 15 is zero.
// Two or four bytes at most 8, read as one number, say that the first is at most 8 and the others are zero.
ghost use Rattle.std.specs.Prelude.{◌≡◌, length};
ghost use Rattle.plan_format.specs.Fields.{fields_of};
ghost use Rattle.plan_format.specs.Record.{body_ok};

// Kinds without keys, width and byte 14: 2, 4 and 6.
pub fn none(r: &[u8]) -> bool
    requires { length r.now ≡ 64 }
    ensures { result ≡ body_ok (fields_of 2) r.now }
{
    scan::get32(r, 12) == 0
}

// Up to eight keys, and a width of 1 to 32.
pub fn source(r: &[u8]) -> bool
    requires { length r.now ≡ 64 }
    ensures { result ≡ body_ok (fields_of 1) r.now }
{
    let n = r[12];
    let w = r[13];
    ((n <= 8) & ((1 <= w) & (w <= 32))) & (scan::get16(r, 14) == 0)
}

// A width of 1 to 32.
pub fn projection(r: &[u8]) -> bool
    requires { length r.now ≡ 64 }
    ensures { result ≡ body_ok (fields_of 3) r.now }
{
    let n = r[12];
    let w = r[13];
    ((n == 0) & ((1 <= w) & (w <= 32))) & (scan::get16(r, 14) == 0)
}

// One to eight keys with the mark hash, none without.
pub fn repartition(r: &[u8]) -> bool
    requires { length r.now ≡ 64 }
    ensures { result ≡ body_ok (fields_of 5) r.now }
{
    let hash = (r[3] >> 1) & 1 == 1;
    let n = scan::get32(r, 12);
    (hash & ((n <= 8) & (1 <= n))) | (!hash & (n == 0))
}

// One to eight keys: sort and merge.
pub fn some_keys(r: &[u8]) -> bool
    requires { length r.now ≡ 64 }
    ensures { result ≡ body_ok (fields_of 7) r.now }
{
    let n = scan::get32(r, 12);
    (n <= 8) & (1 <= n)
}

// Up to eight keys: the limits' order note.
pub fn noted(r: &[u8]) -> bool
    requires { length r.now ≡ 64 }
    ensures { result ≡ body_ok (fields_of 9) r.now }
{
    scan::get32(r, 12) <= 8
}

// One to eight keys, and a join type.
pub fn join(r: &[u8]) -> bool
    requires { length r.now ≡ 64 }
    ensures { result ≡ body_ok (fields_of 11) r.now }
{
    let n = scan::get16(r, 12);
    let t = scan::get16(r, 14);
    ((n <= 8) & (1 <= n)) & (t <= 7)
}

// Up to eight keys, and a distribution.
pub fn output_requirement(r: &[u8]) -> bool
    requires { length r.now ≡ 64 }
    ensures { result ≡ body_ok (fields_of 13) r.now }
{
    let n = scan::get16(r, 12);
    let d = scan::get16(r, 14);
    (n <= 8) & (d <= 2)
}

// One to eight keys, and a met prefix of 1 to key count minus 1.
pub fn partial_sort(r: &[u8]) -> bool
    requires { length r.now ≡ 64 }
    ensures { result ≡ body_ok (fields_of 14) r.now }
{
    let keys = scan::byte(r, 12);
    let n = scan::get16(r, 12);
    let p = scan::get16(r, 14);
    ((n <= 8) & (1 <= n)) & ((1 <= p) & (p < keys))
}

// One to eight group columns, and a width of the key count to 32.
pub fn aggregate(r: &[u8]) -> bool
    requires { length r.now ≡ 64 }
    ensures { result ≡ body_ok (fields_of 15) r.now }
{
    let n = r[12];
    let w = r[13];
    (((n <= 8) & (1 <= n)) & ((n <= w) & (w <= 32))) & (scan::get16(r, 14) == 0)
}
