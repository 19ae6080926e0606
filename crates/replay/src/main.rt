// Replays the cases of data/cases (made by tools/replay_cases.py) and compares each answer with the one that the case gives: the number, and every byte of
// the output that was lent. A case is a header of 20 bytes, then the plan file, then the file that the call is to write.
#![tactic(auto)]

ghost use Rattle.std.specs.Prelude.{◌≤◌, length};

use std::{fs, io};

// Longer than the longest file that a case holds.
const MOST: usize = 10240;

// More cases than a file has.
const MOST_CASES: usize = 1000000;

// The length of a case's header.
const HEADER: usize = 20;

// The calls, by the number that a case has for them.
const ENSURE: u32 = 0;

const PARALLELIZE: u32 = 1;

const PRESERVE: u32 = 2;

const PUSH: u32 = 3;

const PARTIAL: u32 = 4;

// Where a refusal is to leave the lent number of the order check alone, it is this afterwards: it is this before each call.
const NONE: u32 = 255;

// What each byte of the output is before a call.
const FRESH: u8 = 165;

#[derive(Clone, Copy)]
pub struct Tally {
    pub cases: u64,
    pub refused: u64,
    pub checks: u64,
    pub rewrites: u64,
    pub wrong: u64,
}

// The call with its settings and its node, the lengths of the plan file, of the output and of the file that is to be written, and what is to be answered.
#[derive(Clone, Copy)]
pub struct Case {
    pub call: u32,
    pub number: u32,
    pub passes: u32,
    pub length: usize,
    pub answer: usize,
    pub room: usize,
    pub spr: u8,
    pub spm: u8,
    pub prefer: u8,
    pub node: u32,
}

// The next case's header, which the rest of the cases begins with, if there is one.
fn header(rest: &[u8]) -> Option<Case> {
    if rest.len() < HEADER {
        return None;
    }
    let head = &rest[..HEADER];
    let length = scan::get16(head, 4) as usize;
    let answer = scan::get16(head, 6) as usize;
    let room = scan::get16(head, 8) as usize;
    if (MOST < length) | (MOST < answer) | (MOST < room) {
        return None;
    }
    Some(Case {
        call: scan::byte(head, 0),
        number: scan::byte(head, 1),
        passes: scan::byte(head, 2),
        length: length,
        answer: answer,
        room: room,
        spr: head[10],
        spm: head[11],
        prefer: head[12],
        node: scan::get32(head, 16),
    })
}

fn check_is_right(case: Case, plan: &[u8]) -> bool {
    let mut passes = NONE;
    let number = sort_placement::check_order(plan, &mut passes);
    (number == case.number) & (passes == case.passes)
}

fn rewrite(case: Case, plan: &[u8], out: &mut [u8]) -> u32 {
    if case.call == ENSURE {
        return sort_placement::ensure_sorting(plan, out);
    }
    if case.call == PARALLELIZE {
        return sort_placement::parallelize_sorts(plan, out);
    }
    if case.call == PRESERVE {
        return sort_placement::replace_with_order_preserving_variants(
            plan,
            case.spr,
            case.spm,
            case.prefer,
            out,
        );
    }
    if case.call == PUSH {
        return sort_placement::pushdown_sorts(plan, out);
    }
    sort_placement::replace_with_partial_sort(plan, case.node, out)
}

// Whether the output is the wanted file, and fresh behind it.
fn is_written(out: &[u8], want: &[u8]) -> bool {
    let mut all = want.len() <= out.len();
    for (i, x) in out.iter().enumerate() {
        let w = if i < want.len() { want[i] } else { FRESH };
        all = all & (*x == w);
    }
    all
}

fn rewrites_to(case: Case, plan: &[u8], want: &[u8], out: &mut [u8]) -> bool {
    let number = rewrite(case, plan, out);
    (want.len() == case.answer) & (number == case.number) & is_written(out, want)
}

fn rewrite_is_right(case: Case, plan: &[u8], want: &[u8]) -> bool {
    let mut out = [165u8; 10240];
    let room = case.room;
    if MOST < room {
        return false;
    }
    rewrites_to(case, plan, want, &mut out[0..room])
}

// Of a case that is cut off something is missing, so it is not right.
fn is_right(case: Case, plan: &[u8], want: &[u8]) -> bool {
    if plan.len() < case.length {
        return false;
    }
    if case.call <= PARTIAL {
        return rewrite_is_right(case, plan, want);
    }
    check_is_right(case, plan)
}

fn more(n: u64) -> u64 {
    if n < u64::MAX { n + 1 } else { n }
}

fn more_if(n: u64, counts: bool) -> u64 {
    if counts { more(n) } else { n }
}

fn counted(tally: Tally, case: Case, right: bool) -> Tally {
    let rewrites = case.call <= PARTIAL;
    Tally {
        cases: more(tally.cases),
        refused: more_if(tally.refused, case.number != 0),
        checks: more_if(tally.checks, !rewrites & (case.number == 0)),
        rewrites: more_if(tally.rewrites, rewrites & (case.number == 0)),
        wrong: more_if(tally.wrong, !right),
    }
}

// The length of the file that stands behind the plan file: only a rewrite has one.
fn answer_length(case: Case) -> usize {
    if case.call <= PARTIAL { case.answer } else { 0 }
}

// So many of the bytes, or all of them.
fn front(bytes: &[u8], n: usize) -> usize
    ensures { result ≤ length bytes.now }
{
    if n < bytes.len() { n } else { bytes.len() }
}

// A case takes up at least its header, but nothing says how many cases there are: the turns are counted.
fn replay(cases: &[u8]) -> Tally {
    let mut tally = Tally {
        cases: 0,
        refused: 0,
        checks: 0,
        rewrites: 0,
        wrong: 0,
    };
    let mut rest = cases;
    for _ in 0..MOST_CASES {
        let Some(case) = header(rest) else {
            return tally;
        };
        let files = &rest[front(rest, HEADER)..];
        let plan = front(files, case.length);
        let answers = &files[plan..];
        let want = front(answers, answer_length(case));
        let right = is_right(case, &files[..plan], &answers[..want]);
        tally = counted(tally, case, right);
        rest = &answers[want..];
    }
    tally
}

fn main(rt: HostRuntime) -> io::Result<()> {
    let cases = fs::read(&rt, "cases")?;
    let tally = replay(cases.as_slice());
    let Tally {
        cases,
        refused,
        checks,
        rewrites,
        wrong,
    } = tally;
    println!(rt; "{cases} cases")?;
    println!(rt; "{refused} refused")?;
    println!(rt; "{checks} order checks")?;
    println!(rt; "{rewrites} rewrites")?;
    println!(rt; "{wrong} wrong")
}
