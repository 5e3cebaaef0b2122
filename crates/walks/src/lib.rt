// Graphs, walks and least lengths: definitions and laws, and the marks and sizes that every crate above shares. The routines are in the crate `lengths`.
#![tactic(auto)]

pub mod arc;
pub mod mark;

// The most nodes.
pub const NODES: usize = 64;

// The most arcs.
pub const ARCS: usize = 512;

// The most items: nodes and arcs together.
pub const ITEMS: usize = NODES + ARCS;

// The most numbers that the arcs take: tail, head and weight of each.
pub const ARC_NUMBERS: usize = ARCS * 3;

// The most goals that a walk is asked to meet.
pub const GOALS: usize = 8;
