//! A system reduced in place by several threads, each with parts of the net.
//!
//! Each part has a machine of its own, which is kept from step to step. In a step threads run parts by themselves. Between
//! steps equations are handed on from part to part, and at the end all are put together in the first one.
#![tactic(auto)]

mod desk;
mod gain;
mod kept;
mod laws;
pub mod parts;
mod policy;
mod sharing;
mod stream;

pub use desk::run_by_workers;
pub use policy::Policy;
pub use stream::{line_by_workers, reduce_by_workers, reduce_by_workers_stream};
