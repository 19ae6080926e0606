// The stepper's counts before the first step: how many rows wait at each place, and at each node's inputs.
ghost use Rattle.std.specs.Prelude.{◌≡◌, List, ℕ, ◌+◌, ◌<◌, ◌≤◌, length, get_or};
ghost use Rattle.step_tables.specs.Passes.{Laid};
ghost use Rattle.step_tables.specs.Holding.{HeldAre};
ghost use Rattle.step_tables.specs.Queueing.{QueuedAre};
ghost use Rattle.row_reader.specs.Counts.{Zeros, held_in};

use step_tables::StepNode;

// Each row is counted at its place.
pub fn hold_all(places: &[usize], held: &mut [u16])
    requires { (length places.now ≤ 256) × ((r : ℕ) → r < length places.now → get_or places.now r 0 < length held.old) × Zeros held.old }
    ensures { HeldAre held.new places.now }
{
    for g in places {
        let n = held[*g];
        held[*g] = n + 1;
    }
}

fn wide(x: u16) -> usize
    ensures { result ≡ x }
{
    x as usize
}

// How many rows wait at the m places from g on.
fn held_in(held: &[u16], g: usize, m: usize) -> usize
    requires { (g + m ≤ length held.now) × (m < 1000000000) }
    ensures { result ≡ held_in held.now g m }
{
    let mut n = 0;
    for i in 0..m {
        n += wide(held[g + i]);
    }
    n
}

// The rows at each node's inputs are counted for that node; past the nodes none is.
pub fn queue_all(nodes: &[StepNode], n: usize, held: &[u16], queued: &mut [usize])
    requires { Laid nodes.now n (length held.now) × (n < length queued.old) × Zeros queued.old }
    ensures { ((places : List ℕ) → HeldAre held.now places → QueuedAre nodes.now n queued.new places)
        × (get_or queued.new n 0 ≡ 0) }
{
    for j in 0..n {
        let g = nodes[j].inp;
        let m = nodes[j].inps;
        queued[j] = held_in(held, g, m);
    }
}
