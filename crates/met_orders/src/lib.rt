// Key lists against a node's facts, kept as a row of bytes: their normal form, whether the known order meets a list, whether two are compatible.
#![tactic(auto)]

ghost use Rattle.std.specs.Prelude.{◌≡◌, [], ◌≤◌, ◌<◌};
ghost use Rattle.semantics.specs.Facts as sem;
ghost use Rattle.semantics.specs.Properties.{fresh_keys};
ghost use Rattle.key_lists.specs.Keys.{keys_of, order_of, Keyed};
ghost use Rattle.asked_facts.specs.Asked.{told, FactRow, MetKeys, Fronts};

use asked_facts::lowest_equal;
use column_sets::{has, with};
use fact_slots::{CONSTANTS, order_keys};
use key_lists::{Keys, same_key, with_column};
use row_order::column;

// The normal form: each column replaced by its class's lowest, constants dropped, later repeats dropped.
pub fn normal_form(b: &[u8], k: Keys) -> Keys
    requires fact_row { FactRow b.now }
    requires len_bound { k.len ≤ 8 }
    ensures { Keyed (sem.nf (told b.now) [] (keys_of k)) result }
{
    key_list_algebra::normal_by(scan::get32(b, CONSTANTS), k, |c| lowest_equal(b, c))
}

// A new sort's keys: the list less the constants and a column's later repeats.
pub fn fresh_keys(b: &[u8], k: Keys) -> Keys
    requires fact_row { FactRow b.now }
    requires len_bound { k.len ≤ 8 }
    ensures { Keyed (fresh_keys (told b.now) [] (keys_of k)) result }
{
    key_list_algebra::fresh_keys(scan::get32(b, CONSTANTS), k)
}

// How many leading keys of the list have a normal form that is a prefix of the order.
fn fronts(b: &[u8], order: Keys, k: Keys) -> usize
    requires { FactRow b.now }
    ensures { Fronts (told b.now) (keys_of order) (keys_of k) result }
{
    let mut seen = scan::get32(b, CONSTANTS);
    let mut known = order.iter();
    let mut i = 0;
    for key in k.iter() {
        let c = lowest_equal(b, column(key));
        if !has(seen, c) {
            let Some(front) = known.next() else {
                return i;
            };
            if !same_key(with_column(key, c), front) {
                return i;
            }
            seen = with(seen, c);
        }
        i += 1;
    }
    i
}

// How many leading keys of the list the known order meets.
pub fn met_keys(b: &[u8], k: Keys) -> usize
    requires { FactRow b.now }
    ensures { MetKeys (told b.now) (keys_of k) result }
{
    fronts(b, order_keys(b), k)
}

// A wanted order is met when its normal form is a prefix of the known order.
pub fn meets(b: &[u8], k: Keys) -> bool
    requires { FactRow b.now }
    ensures { result ≡ sem.met (told b.now) (keys_of k) }
{
    met_keys(b, k) == k.len
}

// No order is always met.
pub fn meets_order(b: &[u8], o: Option<Keys>) -> bool
    requires { FactRow b.now }
    ensures { result ≡ sem.met (told b.now) (order_of o) }
{
    let Some(k) = o else {
        return true;
    };
    meets(b, k)
}

// The first list is compatible with the second when the second's normal form is a prefix of the first's.
pub fn compatible(b: &[u8], first: Keys, second: Keys) -> bool
    requires fact_row { FactRow b.now }
    requires len_bound { first.len ≤ 8 }
    ensures { result ≡ sem.compatible (told b.now) (keys_of first) (keys_of second) }
{
    fronts(b, normal_form(b, first), second) == second.len
}
