//! What rounds of a net do, told as they come.
//!
//! `trace_stream` makes rounds of the system that a reader gives, in place, and writes how many equations each of them fires
//! and what there is after it, as a table, a picture or objects of JSON. `summary_line` and `summary_object` tell what all of
//! them did. `profile_table` and `profile_picture` tell of rounds that aren't made. `stuck_text` tells the pair that is stuck where no step is possible, and `circle_text` the circle.
#![tactic(auto)]

mod amounts;
mod columns;
pub mod laws;
mod picture;
mod profile;
mod row;
mod rows;
mod stream;
mod stuck;
mod summary;
mod tracing;

pub use profile::{profile_picture, profile_table};
pub use row::Row;
pub use stream::{Traced, trace_stream};
pub use stuck::{circle_text, stuck_text};
pub use summary::{Summary, summary_line, summary_object};
pub use tracing::Format;
