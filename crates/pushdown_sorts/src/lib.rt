// pushdown_sorts (sort_pushdown.rs): the walk that goes parents before children, from the arena a, whose slots keep facts, into the arena b.
#![tactic(auto)]

pub mod walking;

// Where the walked tree stands: how many slots are used, its handle, and how many nodes the whole plan has.
#[derive(Clone, Copy)]
pub struct Walked {
    pub used: usize,
    pub root: usize,
    pub count: usize,
}
