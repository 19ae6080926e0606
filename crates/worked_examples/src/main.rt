// Runs worked examples of document 01 ('Worked on paper'), one of docs/DECISIONS.md and one of document 02 (P1) on the plan files of data/, which
// tools/worked_examples.py makes. Of a check it writes a line: a refusal's number or that the plan is accepted, and whether a wanted order is met; of a
// rewrite the listing of the plan that comes of it, or the refusal's number.
#![tactic(auto)]

use std::{fs, io};

// What the export answers, and what it leaves in the lent number.
#[derive(Clone, Copy)]
struct Checked {
    number: u32,
    passes: u32,
}

fn check(plan: &[u8]) -> Checked {
    let mut passes = 0;
    let number = sort_placement::check_order(plan, &mut passes);
    Checked {
        number: number,
        passes: passes,
    }
}

fn put_refusal(rt: &impl Print, answer: Checked) -> io::Result<()> {
    let number = answer.number;
    if number == 0 {
        print!(rt; "accepted")
    } else {
        print!(rt; "{number}")
    }
}

fn put_met(rt: &impl Print, answer: Checked) -> io::Result<()> {
    if answer.passes == 1 {
        print!(rt; ", met")
    } else {
        print!(rt; ", not met")
    }
}

// The line of one example; `order` where it asks whether a wanted order is met. The file is read whole, also one that is too long for a plan.
fn example(rt: &HostRuntime, text: &str, file: &str, order: bool) -> io::Result<()> {
    let plan = fs::read(rt, file)?;
    let answer = check(plan.as_slice());
    print!(rt; "{text}")?;
    put_refusal(rt, answer)?;
    if order {
        put_met(rt, answer)?;
    }
    println!(rt; "")
}

// The listing of the plan that was written, or the number of the refusal.
fn list_answer(number: u32, out: &[u8]) {
    if number == 0 {
        plan_listing::show_written(out);
    } else {
        plan_listing::put_refusal(number);
    }
}

fn ensure_file(plan: &[u8]) {
    let mut out = [0u8; 9216];
    let number = sort_placement::ensure_sorting(plan, &mut out);
    list_answer(number, &out);
}

// With 'spm better' on.
fn preserve_file(plan: &[u8]) {
    let mut out = [0u8; 9216];
    let number = sort_placement::replace_with_order_preserving_variants(plan, 0, 1, 0, &mut out);
    list_answer(number, &out);
}

// A rewrite of one plan: ensuring, or the order-preserving walk.
fn rewrite(rt: &HostRuntime, text: &str, file: &str, ensuring: bool) -> io::Result<()> {
    let plan = fs::read(rt, file)?;
    print!(rt; "{text}")?;
    if ensuring {
        ensure_file(plan.as_slice());
    } else {
        preserve_file(plan.as_slice());
    }
    Ok(())
}

fn examples_of_orders(rt: &HostRuntime) -> io::Result<()> {
    example(rt, "0 bytes: ", "bytes_0", false)?;
    example(rt, "511 bytes: ", "bytes_511", false)?;
    example(rt, "126 nodes: ", "nodes_126", false)?;
    example(rt, "19 blocks: ", "blocks_19", false)?;
    example(rt, "known [2,0] ascending, wanted [2]: ", "wants_2", true)?;
    example(rt, "known [2,0] ascending, wanted [0]: ", "wants_0", true)?;
    example(
        rt,
        "known [2,0] ascending, wanted [2 descending]: ",
        "wants_2_descending",
        true,
    )
}

fn examples_of_rewrites(rt: &HostRuntime) -> io::Result<()> {
    rewrite(
        rt,
        "ensure, sort [2] over one stream known [2,0]:\n",
        "sorted_already",
        true,
    )?;
    rewrite(
        rt,
        "the same with fetch 5:\n",
        "sorted_already_fetch_5",
        true,
    )?;
    rewrite(
        rt,
        "order-preserving, spm better, sort [2] fetch 5, filter, coalesce, two streams known [2]:\n",
        "sort_over_coalesce",
        false,
    )?;
    rewrite(
        rt,
        "ensure, reading 4's 125 nodes, 188 after the root's step: ",
        "growing_125",
        true,
    )?;
    rewrite(
        rt,
        "ensure, projection [2], sort [1], aggregate [0,1] and one column more, one stream:\n",
        "surveyor",
        true,
    )?;
    rewrite(
        rt,
        "the same over two streams known [1]:\n",
        "surveyor_known",
        true,
    )
}

fn main(rt: HostRuntime) -> io::Result<()> {
    examples_of_orders(&rt)?;
    examples_of_rewrites(&rt)
}
