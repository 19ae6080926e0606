// The last pass of the reader: from the last node to the first, unequal union, columns (column_rules), width. And the whole reader's refusal.
#![tactic(auto)]

ghost use Rattle.std.specs.Prelude.{◌≡◌, ◌*◌, ◌≤◌, ◌<◌, true, length, get_or};
ghost use Rattle.plan_format.specs.Blocks.{record_count, block_count, records};
ghost use Rattle.plan_format.specs.Record.{fields};
ghost use Rattle.plan_format.specs.Reading.{tree_ok, records_ok, refusal_of};
ghost use Rattle.plan_format.specs.LastPass.{same_widths, union_ok, join_width, width_of, node_refusal, last_pass};
ghost use Rattle.plan_reader.specs.Laws.{Saw};

use column_rules::{at_or_zero, column_limit, columns_rule};
use plan::Refusal;
use plan_format::Fields;

fn same_widths(ws: &[u8]) -> bool
    ensures { result ≡ same_widths ws.now }
{
    let x = at_or_zero(ws, 0);
    for w in ws {
        if *w != x {
            return false;
        }
    }
    true
}

fn join_width(t: u8, a: usize, b: usize) -> usize
    requires { (a < 256) × (b < 256) }
    ensures { result ≡ join_width t a b }
{
    if t < 4 {
        return a + b;
    }
    if t < 6 {
        return a;
    }
    b
}

fn width_of(f: Fields, r: &[u8], ws: &[u8]) -> usize
    requires { length r.now ≡ 64 }
    ensures { result ≡ width_of f r.now ws.now }
{
    let a = at_or_zero(ws, 0);
    let b = at_or_zero(ws, 1);
    if f.width {
        return r[13] as usize;
    }
    if f.join {
        let t = r[14];
        return join_width(t, a as usize, b as usize);
    }
    a as usize
}

// By the number, as the definition is: it speaks of any record.
fn union_ok(r: &[u8], ws: &[u8]) -> bool
    requires { length r.now ≡ 64 }
    ensures { result ≡ union_ok r.now ws.now }
{
    let k = r[0];
    !(k == 4) | same_widths(ws)
}

// What the last pass finds at a node: its refusal and its width. The width stands there for a refused node too, and may then be more than 32.
#[derive(Clone, Copy)]
pub struct Seen {
    pub refusal: Result<(), Refusal>,
    pub width: usize,
}

// f: the fields of the kind of r; width: its own.
fn node_refusal(f: Fields, width: usize, r: &[u8], ws: &[u8]) -> Result<(), Refusal>
    requires { ((length r.now ≡ 64) × (get_or r.now 12 0 ≤ 8) × (get_or r.now 13 0 ≤ 32)) × (f ≡ fields r.now)
        × (width ≡ width_of f r.now ws.now) }
    ensures { result ≡ node_refusal r.now ws.now }
{
    if !union_ok(r, ws) {
        return Err(Refusal::Field);
    }
    let limit = column_limit(f, r, ws);
    let limit1 = at_or_zero(ws, 1);
    if !columns_rule(f, r, limit, limit1) {
        return Err(Refusal::Column);
    }
    if 32 < width {
        return Err(Refusal::Width);
    }
    Ok(())
}

fn visit(r: &[u8], ws: &[u8]) -> Seen
    requires { (length r.now ≡ 64) × (get_or r.now 12 0 ≤ 8) × (get_or r.now 13 0 ≤ 32) }
    ensures { Saw r.now ws.now result }
{
    let k = r[0];
    let f = plan_format::fields_of(k);
    let width = width_of(f, r, ws);
    let x = node_refusal(f, width, r, ws);
    Seen {
        refusal: x,
        width: width,
    }
}

// The widths of the finished trees are a stack, its top at t: each record takes its children's and leaves its own.
fn last_pass(s: &[u8], m: usize) -> Result<(), Refusal>
    requires { ((m ≡ record_count s.now) × (m ≤ 7 * block_count s.now) × (m ≤ 126)) × (tree_ok s.now ≡ true) × (records_ok s.now ≡ true) }
    ensures { result ≡ last_pass (records s.now) }
{
    let mut widths = [0u8; 126];
    let mut t = 126;
    for j in (0..m).rev() {
        let at = plan_format::record_start(j);
        let e = at + 64;
        let u = t + s[at + 1] as usize;
        let y = visit(&s[at..e], &widths[t..u]);
        y.refusal?;
        t = u - 1;
        widths[t] = y.width as u8;
    }
    Ok(())
}

// The first refusal of a file, 1 to 8, in document 01's order.
pub fn refusal_of(s: &[u8]) -> Result<(), Refusal>
    ensures { result ≡ refusal_of s.now }
{
    plan_passes::early_refusal(s)?;
    let n = s.len() / 512;
    let m = block_passes::record_count(s, n);
    last_pass(s, m)
}
