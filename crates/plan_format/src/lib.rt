// Which fields a record of each kind has, and where a record starts in its file.
#![tactic(auto)]

ghost use Rattle.std.specs.Prelude.{◌≡◌, ◌<◌, ◌^◌};
ghost use Rattle.plan_format.specs.Blocks.{record_start};
ghost use Rattle.plan_format.specs.Fields.{fields_of};

// The fields of a record of some kind, as document 01 lists them, and 02 for aggregates; a field that is not there is zero.
#[derive(Clone, Copy)]
pub struct Fields {
    // one of the joins, which have two children
    pub join: bool,
    pub streams: bool,
    // the marks
    pub preserve: bool,
    pub hash: bool,
    pub unbounded: bool,
    // a fetch; one that must be there; a skip
    pub fetch: bool,
    pub limit: bool,
    pub skip: bool,
    // keys that must be there; keys that may be; keys without options
    pub needs_key: bool,
    pub noted: bool,
    pub plain: bool,
    pub width: bool,
    // a width of the key count at least
    pub groups: bool,
    // byte 14 of kind 13, and of a partial sort
    pub distribution: bool,
    pub prefix: bool,
    // from byte 32 on
    pub constants: bool,
    pub columns: bool,
}

// The fields of a record whose kind has the number k. By the number, as the definition is: a record is read before refusal 4 has said that it has a kind.
pub fn fields_of(k: u8) -> Fields
    ensures { result ≡ fields_of k }
{
    Fields {
        join: (k == 11) | (k == 12),
        streams: (k == 1) | (k == 5),
        preserve: (k == 7) | ((k == 5) | (k == 14)),
        hash: k == 5,
        unbounded: k == 1,
        fetch: ((6 <= k) & (k <= 10)) | ((k == 13) | (k == 14)),
        limit: k == 10,
        skip: k == 9,
        needs_key: ((k == 7) | (k == 8)) | ((k == 14) | ((k == 11) | ((k == 12) | (k == 15)))),
        noted: (k == 1) | (((k == 9) | (k == 10)) | (k == 13)),
        plain: (k == 12) | (k == 15),
        width: (k == 1) | ((k == 3) | (k == 15)),
        groups: k == 15,
        distribution: k == 13,
        prefix: k == 14,
        constants: k == 1,
        columns: k == 3,
    }
}

// Where record i starts: seven records to a block of 512 bytes, behind its header of 8.
pub fn record_start(i: usize) -> usize
    requires { record_start i < 2 ^ 64 }
    ensures { result ≡ record_start i }
{
    512 * (i / 7) + (8 + 64 * (i % 7))
}
