// The rules of one record of 64 bytes: refusals 4 and 6. What refusal 6 asks stands for each kind apart, as the parts of its record (record_parts,
// record_lists): so a record is tested for the few fields that its kind has, and for zeros, eight bytes at once.
#![tactic(auto)]

ghost use Rattle.std.specs.Prelude.{◌≡◌, length};
ghost use Rattle.plan_format.specs.Fields.{fields_of};
ghost use Rattle.plan_format.specs.Record.{children_ok, kind_ok, rules_ok, record_ok};

use record_lists::{keys, tails};
use record_parts::{bodies, heads};

// By the number, as the definition is: k may be no kind's.
fn children_ok(k: u8, n: u8) -> bool
    ensures { result ≡ children_ok k n }
{
    let union = k == 4;
    let join = (k == 11) | (k == 12);
    let source = k == 1;
    let rest = (source & (n == 0)) | (!source & (n == 1));
    (union & ((2 <= n) & (n <= 8))) | (!union & ((join & (n == 2)) | (!join & rest)))
}

// Whether record r has a known kind and a child count that the kind can have: else refusal 4.
pub fn kind_ok(r: &[u8]) -> bool
    requires { length r.now ≡ 64 }
    ensures { result ≡ kind_ok r.now }
{
    let k = r[0];
    let n = r[1];
    ((1 <= k) & (k <= 15)) & children_ok(k, n)
}

fn source_ok(r: &[u8]) -> bool
    requires { length r.now ≡ 64 }
    ensures { result ≡ rules_ok (fields_of 1) r.now }
{
    heads::source(r) & (bodies::source(r) & (keys::ok(false, r) & tails::zero_from(r, 4)))
}

// A filter, a union, or an unknown kind.
fn bare_ok(r: &[u8]) -> bool
    requires { length r.now ≡ 64 }
    ensures { result ≡ rules_ok (fields_of 2) r.now }
{
    heads::none(r) & (bodies::none(r) & (keys::none(r) & tails::none(r)))
}

fn projection_ok(r: &[u8]) -> bool
    requires { length r.now ≡ 64 }
    ensures { result ≡ rules_ok (fields_of 3) r.now }
{
    let w = r[13];
    heads::none(r) & (bodies::projection(r) & (keys::none(r) & tails::zero_from(r, w)))
}

fn repartition_ok(r: &[u8]) -> bool
    requires { length r.now ≡ 64 }
    ensures { result ≡ rules_ok (fields_of 5) r.now }
{
    heads::repartition(r) & (bodies::repartition(r) & (keys::ok(true, r) & tails::none(r)))
}

fn coalesce_ok(r: &[u8]) -> bool
    requires { length r.now ≡ 64 }
    ensures { result ≡ rules_ok (fields_of 6) r.now }
{
    heads::fetching(r) & (bodies::none(r) & (keys::none(r) & tails::none(r)))
}

fn sort_ok(r: &[u8]) -> bool
    requires { length r.now ≡ 64 }
    ensures { result ≡ rules_ok (fields_of 7) r.now }
{
    heads::sort(r) & (bodies::some_keys(r) & (keys::ok(false, r) & tails::none(r)))
}

fn merge_ok(r: &[u8]) -> bool
    requires { length r.now ≡ 64 }
    ensures { result ≡ rules_ok (fields_of 8) r.now }
{
    heads::fetching(r) & (bodies::some_keys(r) & (keys::ok(false, r) & tails::none(r)))
}

fn global_limit_ok(r: &[u8]) -> bool
    requires { length r.now ≡ 64 }
    ensures { result ≡ rules_ok (fields_of 9) r.now }
{
    heads::global_limit(r) & (bodies::noted(r) & (keys::ok(false, r) & tails::none(r)))
}

fn local_limit_ok(r: &[u8]) -> bool
    requires { length r.now ≡ 64 }
    ensures { result ≡ rules_ok (fields_of 10) r.now }
{
    heads::local_limit(r) & (bodies::noted(r) & (keys::ok(false, r) & tails::none(r)))
}

fn sort_merge_join_ok(r: &[u8]) -> bool
    requires { length r.now ≡ 64 }
    ensures { result ≡ rules_ok (fields_of 11) r.now }
{
    let n = r[12];
    heads::none(r) & (bodies::join(r) & (keys::ok(false, r) & tails::zero_from(r, n)))
}

fn hash_join_ok(r: &[u8]) -> bool
    requires { length r.now ≡ 64 }
    ensures { result ≡ rules_ok (fields_of 12) r.now }
{
    let n = r[12];
    heads::none(r) & (bodies::join(r) & (keys::ok(true, r) & tails::zero_from(r, n)))
}

fn output_requirement_ok(r: &[u8]) -> bool
    requires { length r.now ≡ 64 }
    ensures { result ≡ rules_ok (fields_of 13) r.now }
{
    heads::fetching(r)
        & (bodies::output_requirement(r) & (keys::ok(false, r) & tails::output_requirement(r)))
}

fn partial_sort_ok(r: &[u8]) -> bool
    requires { length r.now ≡ 64 }
    ensures { result ≡ rules_ok (fields_of 14) r.now }
{
    heads::sort(r) & (bodies::partial_sort(r) & (keys::ok(false, r) & tails::none(r)))
}

fn aggregate_ok(r: &[u8]) -> bool
    requires { length r.now ≡ 64 }
    ensures { result ≡ rules_ok (fields_of 15) r.now }
{
    heads::none(r) & (bodies::aggregate(r) & (keys::ok(true, r) & tails::none(r)))
}

// Whether each field of record r keeps its kind's rule: else refusal 6.
pub fn record_ok(r: &[u8]) -> bool
    requires { length r.now ≡ 64 }
    ensures { result ≡ record_ok r.now }
{
    let k = r[0];
    match k {
        1 => source_ok(r),
        3 => projection_ok(r),
        5 => repartition_ok(r),
        6 => coalesce_ok(r),
        7 => sort_ok(r),
        8 => merge_ok(r),
        9 => global_limit_ok(r),
        10 => local_limit_ok(r),
        11 => sort_merge_join_ok(r),
        12 => hash_join_ok(r),
        13 => output_requirement_ok(r),
        14 => partial_sort_ok(r),
        15 => aggregate_ok(r),
        _ => bare_ok(r),
    }
}
