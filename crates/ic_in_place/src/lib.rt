//! A system reduced by the machine, in place: steps in any order, answered with the net of every order.
//!
//! `reduce_in_place` reduces a system, and `reduce_in_place_stream` that which a reader gives. `laws` says what a machine
//! holds, and that a quiet end is that of every order. `run_in_pieces` and `stopped_line` are parts of a reduction, for
//! those who run machines themselves.
#![tactic(auto)]

mod circle;
mod counting;
mod gauge;
pub mod laws;
mod reducing;
mod rounded;
mod rounds;
mod running;
mod stream;
mod stuck;
mod writing;

pub use circle::circle_text;
pub use counting::{no_counts, sum_by_rule};
pub use gauge::{Gauge, Look};
pub use reducing::{Reduced, Stopped, read_stopped, reduce_in_place};
pub use rounded::{Rounded, reduce_by_rounds, reduce_by_rounds_stream, round_in_place};
pub use rounds::{NoRows, RoundBounds, Rows, run_by_rounds};
pub use running::{Bounds, End, PIECE, Watch, names_until_sweep, run_in_pieces, sweep_if_due};
pub use stream::{Asked, Outcome, is_written, reduce_in_place_stream, stopped_line};
pub use stuck::stuck_text;
