// The key lists of a record: the keys with their options, their columns alone, and a join's right columns with the same options.
#![tactic(auto)]

ghost use Rattle.std.specs.Prelude.{◌≡◌, map, ◌+◌, ◌*◌, ◌%◌, ◌≤◌, length, get_or, take};
ghost use Rattle.row_order.specs.Packed.{key_of};
ghost use Rattle.key_lists.specs.Keys.{Keyed};
ghost use Rattle.plan_format.specs.LastPass.{key_columns};
ghost use Rattle.record_fields.specs.Fields.{packed_keys, packed_right_keys};

use byte_rows::wide;
use key_lists::{Keys, keys_of};
use record_fields::KEY_COUNT;

// Column and options of a key as one number: the options stand above the column's five bits.
fn packed(column: u8, options: u8) -> usize
    ensures { result ≡ 32 * options + column % 32 }
{
    ((options as usize) << 5) | ((column as usize) & 31)
}

// All eight places of a record's keys; those past its key count are zero.
pub fn packed_keys(r: &[u8]) -> [usize; 8]
    requires { length r.now ≡ 64 }
    ensures { result ≡ packed_keys r.now }
{
    [
        packed(r[16], r[17]),
        packed(r[18], r[19]),
        packed(r[20], r[21]),
        packed(r[22], r[23]),
        packed(r[24], r[25]),
        packed(r[26], r[27]),
        packed(r[28], r[29]),
        packed(r[30], r[31]),
    ]
}

// The columns of all eight places of a record's keys: an aggregate's group columns.
pub fn key_columns(r: &[u8]) -> [usize; 8]
    requires { length r.now ≡ 64 }
    ensures { result ≡ key_columns r.now }
{
    [
        wide(r[16]),
        wide(r[18]),
        wide(r[20]),
        wide(r[22]),
        wide(r[24]),
        wide(r[26]),
        wide(r[28]),
        wide(r[30]),
    ]
}

// The keys of a record.
pub fn key_list(r: &[u8]) -> Keys
    requires { (length r.now ≡ 64) × (get_or r.now 12 0 ≤ 8) }
    ensures { Keyed (map key_of (take (get_or r.now 12 0) (packed_keys r.now))) result }
{
    let row = packed_keys(r);
    keys_of(&row, wide(r[KEY_COUNT]))
}

// The right key columns of a join beside the left keys' options, packed.
fn packed_right_keys(r: &[u8]) -> [usize; 8]
    requires { length r.now ≡ 64 }
    ensures { result ≡ packed_right_keys r.now }
{
    [
        packed(r[32], r[17]),
        packed(r[33], r[19]),
        packed(r[34], r[21]),
        packed(r[35], r[23]),
        packed(r[36], r[25]),
        packed(r[37], r[27]),
        packed(r[38], r[29]),
        packed(r[39], r[31]),
    ]
}

// The right keys of a join, with the left keys' options.
pub fn right_key_list(r: &[u8]) -> Keys
    requires { (length r.now ≡ 64) × (get_or r.now 12 0 ≤ 8) }
    ensures { Keyed (map key_of (take (get_or r.now 12 0) (packed_right_keys r.now))) result }
{
    let row = packed_right_keys(r);
    keys_of(&row, wide(r[KEY_COUNT]))
}
