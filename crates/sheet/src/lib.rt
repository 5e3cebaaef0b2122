// The definitions of sheets and slips, in specs/, the header of a sheet, and the bounds that its reader and its writer share. The code is in the crates
// above.
#![tactic(auto)]

// The five numbers in front of a sheet: n, m, start, finish and K of document 01.
#[derive(Clone, Copy, Debug, PartialEq, Eq)]
pub struct Header {
    pub nodes: usize,
    pub arcs: usize,
    pub source: usize,
    pub target: usize,
    pub limit: u32,
}

// One over the greatest limit.
pub const LIMIT_END: u32 = 1000001;

// One over an arc's most minutes.
pub const MINUTES_END: u32 = 65536;

// One over a node's most service minutes.
pub const SERVICE_END: u32 = 601;

// The byte before the content of a sheet with service minutes: the number 1.
pub const LEAD: u8 = 1;
