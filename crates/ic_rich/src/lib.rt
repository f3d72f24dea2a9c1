//! Forms of rich texts that stand for others: rules by arrows and with patterns, numbers, lists, pairs, and terms that `let` names.
//!
//! `unfold` writes a text without comments as one without these forms, which `ic_expand` expands, and `join` puts into it the
//! rules of the files that it uses. `told_line` writes a net in the words of a text, and `Joined::remarks` tells what is mostly a
//! mistake. What they write is tried, not proved: it is proved that they return.
#![tactic(auto)]

mod arrows;
mod fault;
mod foreign;
mod fresh;
mod holes;
mod joined;
mod lets;
mod nests;
mod nodes;
mod patterns;
mod reader;
mod remarks;
mod restoring;
mod retelling;
mod segments;
mod sentences;
mod shorthands;
mod signs;
mod spans;
mod splitting;
mod telling;
mod tokens;
mod unfolding;
mod uses;
mod whence;
mod wires;
mod wording;
mod written;

pub use fault::{Reason, RichFault};
pub use joined::{JoinFault, JoinRefusal, Joined, join};
pub use remarks::{Borrowed, Pair, Remark, Remarks};
pub use retelling::Origin;
pub use telling::{told_graph, told_line};
pub use unfolding::{Places, Unfolded, unfold};
pub use uses::{Files, Found};
pub use wording::Wording;
