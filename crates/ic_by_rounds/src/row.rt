//! What a round did.

/// What a round did: its number, counted from 1, how many equations it fired, and how many nodes, equations
/// and names there are after it. Names are counted as nodes are, each as often as it occurs.
#[derive(Clone, Copy, PartialEq, Eq)]
pub struct Row {
    pub round: u64,
    pub pairs: u64,
    pub nodes: u64,
    pub equations: u64,
    pub names: u64,
}
