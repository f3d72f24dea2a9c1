//! What is told of long work on standard error: a line of progress, and the figures of a reduction in place.
#![tactic(auto)]

mod figures;
mod line;
mod progress;
mod shares;

pub use figures::{figures_lines, figures_object};
pub use progress::{Progress, Watching, WipedFirst};
pub use shares::Shares;
