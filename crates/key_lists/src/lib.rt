// Key lists by value. A key is one number, column + 32 * options (row_order), and only its seven bits count. A list is one word of up to eight keys, a
// byte for each, the first in the lowest byte. An order is an Option of a list of one key at least.
#![tactic(auto)]

ghost use Rattle.std.specs.Prelude.{◌≡◌, [], map, ◌*◌, ◌%◌, ◌<◌, ◌≤◌, ◌^◌, length, take};
ghost use Rattle.row_order.specs.Packed.{key_of};
ghost use Rattle.semantics.specs.Facts.{with_column, eq_key};
ghost use Rattle.key_lists.specs.Keys.{keys_of, keys_left, Keyed, Ordered, Tight, Longer};

// The first len keys of the word.
#[derive(Clone, Copy)]
pub struct Keys {
    pub word: usize,
    pub len: usize,
}

impl Keys {
    // The keys in order.
    pub fn iter(self) -> Iter
        ensures { keys_left result ≡ keys_of self }
    {
        Iter {
            word: self.word,
            left: self.len,
        }
    }
}

// The keys of a list that are still to come: the first left keys of the word.
#[derive(Clone, Copy)]
pub struct Iter {
    word: usize,
    left: usize,
}

impl Iterator for Iter {
    ghost use Rattle.std.specs.Iterator.{YieldsFirstBy, item_count};
    ghost use Rattle.row_order.specs.Packed.{key_of};
    ghost use Rattle.key_lists.specs.Keys.{keys_left};

    // A number of which only the low seven bits count; the keys behind it stand above them.
    type Item = usize;

    ghost next_gives = { YieldsFirstBy key_of keys_left };

    ghost remaining = { item_count keys_left };

    #[inline]
    fn next(&mut self) -> Option<usize> {
        if self.left == 0 {
            return None;
        }
        let key = self.word;
        self.word = key >> 8;
        self.left -= 1;
        Some(key)
    }
}

pub fn no_keys() -> Keys
    ensures { Keyed [] result × Tight result }
{
    Keys { word: 0, len: 0 }
}

// The order by the keys: of no keys none.
pub fn order_of(k: Keys) -> Option<Keys>
    requires { k.len ≤ 8 }
    ensures { Ordered (keys_of k) result }
{
    if k.len == 0 { None } else { Some(k) }
}

// The first n keys.
pub fn front(k: Keys, n: usize) -> Keys
    requires { (n ≤ k.len) × (k.len ≤ 8) }
    ensures { Keyed (take n (keys_of k)) result }
{
    Keys {
        word: k.word,
        len: n,
    }
}

// The list with one more key behind.
pub fn appended(k: Keys, key: usize) -> Keys
    requires { Tight k × (k.len < 8) }
    ensures { Longer k key result }
{
    Keys {
        word: k.word + placed(key, k.len),
        len: k.len + 1,
    }
}

// A key's seven bits, n bytes up.
fn placed(key: usize, n: usize) -> usize
    requires { n < 8 }
    ensures { result ≡ (key % 128) * 2 ^ (8 * n) }
{
    (key & 127) << (8 * n)
}

// The first len keys of a row of numbers.
pub fn keys_of(row: &[usize; 8], len: usize) -> Keys
    requires { (length row.now ≡ 8) × (len ≤ 8) }
    ensures { Keyed (map key_of (take len row.now)) result }
{
    let low = placed(row[0], 0) + placed(row[1], 1) + placed(row[2], 2) + placed(row[3], 3);
    let high = placed(row[4], 4) + placed(row[5], 5) + placed(row[6], 6) + placed(row[7], 7);
    Keys {
        word: low + high,
        len: len,
    }
}

// The key at another column, with its own options.
pub fn with_column(key: usize, c: usize) -> usize
    requires { c < 32 }
    ensures { key_of result ≡ with_column c (key_of key) }
{
    ((key >> 5) << 5) | c
}

pub fn same_key(a: usize, b: usize) -> bool
    ensures { result ≡ eq_key (key_of a) (key_of b) }
{
    (a & 127) == (b & 127)
}
