// Bytes 16 to 31 of a record: the keys' columns and options, four keys in one number. Masks test the options, a shift tests that what follows the keys is
// zero.
ghost use Rattle.std.specs.Prelude.{◌≡◌, ◌&&◌, ◌*◌, ◌/◌, ◌^◌, eqb, length};
ghost use Rattle.std.specs.Int.Bits.{bit_and};
ghost use Rattle.scan.specs.Bytes.{zeros, part};
ghost use Rattle.scan.specs.Words.{value};
ghost use Rattle.plan_format.specs.Record.{key_slots_ok};
ghost use Rattle.record_lists.specs.Slots.{forbidden};

// The bits that the options of four keys may not have: all in a plain key, else all but bit 0 descending and bit 1 nulls first.
fn no_options(plain: bool) -> u64
    ensures { result ≡ value (forbidden plain 4) }
{
    if plain {
        return 0xFF00FF00FF00FF00;
    }
    0xFC00FC00FC00FC00
}

// Of the four keys of x, n are there: no bit of `options` is set in them, and nothing stands past them.
fn four(x: u64, n: u8, options: u64) -> bool
    ensures { result ≡ eqb (bit_and x options) 0 && eqb (x / 2 ^ (16 * n)) 0 }
{
    if n < 4 {
        return (x & options == 0) & (x >> (16 * n) == 0);
    }
    x & options == 0
}

pub fn ok(plain: bool, r: &[u8]) -> bool
    requires { length r.now ≡ 64 }
    ensures { result ≡ key_slots_ok plain r.now }
{
    let n = r[12];
    let x = scan::get64(r, 16);
    let y = scan::get64(r, 24);
    let options = no_options(plain);
    if n < 4 {
        return four(x, n, options) & (y == 0);
    }
    (x & options == 0) & four(y, n - 4, options)
}

// No key.
pub fn none(r: &[u8]) -> bool
    requires { length r.now ≡ 64 }
    ensures { result ≡ zeros (part 16 8 r.now) && zeros (part 24 8 r.now) }
{
    (scan::get64(r, 16) == 0) & (scan::get64(r, 24) == 0)
}
