// From the node `tail` to the node `head`, `weight` long.
#[derive(Clone, Copy, Debug, PartialEq, Eq)]
pub struct Arc {
    pub tail: u32,
    pub head: u32,
    pub weight: u32,
}

impl Arc {
    // An arc of zeros, to begin an array with.
    pub const ZERO: Arc = Arc {
        tail: 0,
        head: 0,
        weight: 0,
    };
}
