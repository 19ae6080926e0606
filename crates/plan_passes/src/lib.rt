// The passes of the reader over a lent file before the last one: refusals 1 to 6, each over all blocks (block_passes) or all records. Here are the pass over
// the records and the order of the refusals.
#![tactic(auto)]

ghost use Rattle.std.specs.Prelude.{◌≡◌, ◌*◌, ◌-◌, ◌≤◌};
ghost use Rattle.plan_format.specs.Blocks.{block_count, record_count};
ghost use Rattle.plan_format.specs.Reading.{early_refusal};
ghost use Rattle.plan_passes.specs.Laws.{Found};

use block_passes::{headers_ok, length_ok, record_count, sums_ok};
use plan::Refusal;

// What one pass over the records finds: known kinds and child counts, one tree, 6's single-record rules.
#[derive(Clone, Copy)]
pub struct Records {
    pub kinds: bool,
    pub tree: bool,
    pub rules: bool,
}

// From the last record to the first: each takes its children from the finished trees and leaves one. No answer ends the pass, so that one loop gives all
// three.
fn records_of(s: &[u8], m: usize) -> Records
    requires { (m ≡ record_count s.now) × (m ≤ 7 * block_count s.now) }
    ensures { Found s.now result }
{
    let mut kinds = true;
    let mut enough = true;
    let mut rules = true;
    let mut have = 0;
    for j in (0..m).rev() {
        let at = plan_format::record_start(j);
        let e = at + 64;
        let k = s[at + 1] as usize;
        kinds = kinds & plan_rules::kind_ok(&s[at..e]);
        rules = rules & plan_rules::record_ok(&s[at..e]);
        enough = (k <= have) & enough;
        have = have.saturating_sub(k) + 1;
    }
    Records {
        kinds: kinds,
        tree: enough & (have == 1),
        rules: rules,
    }
}

// The first refusal of these passes, in document 01's order.
pub fn early_refusal(s: &[u8]) -> Result<(), Refusal>
    ensures { result ≡ early_refusal s.now }
{
    if !length_ok(s.len()) {
        return Err(Refusal::Length);
    }
    let n = s.len() / 512;
    if !sums_ok(s, n) {
        return Err(Refusal::BlockSum);
    }
    if !headers_ok(s, n) {
        return Err(Refusal::Header);
    }
    let m = record_count(s, n);
    let x = records_of(s, m);
    let kinds = x.kinds;
    let tree = x.tree;
    let rules = x.rules;
    if !kinds {
        return Err(Refusal::KindOrChildren);
    }
    if !tree {
        return Err(Refusal::RecordCount);
    }
    if !rules {
        return Err(Refusal::Field);
    }
    Ok(())
}
