//! A machine that reduces a net in place, by steps in any order.
//!
//! The net is held in pieces: equations between words, and what each place holds. A step takes time by the size of a
//! rule, and not by that of the net, and places that are used up are used again.
#![tactic(auto)]

mod borders;
mod building;
mod equation;
mod firing;
mod generation;
pub mod laws;
mod linking;
mod machine;
mod moving;
mod pairs;
mod places;
mod plan;
mod queue;
mod stamps;
mod sweeping;
mod tables;
mod telling;
mod unpacking;

pub use borders::Borders;
pub use building::Builder;
pub use equation::Equation;
pub use generation::Generation;
pub use machine::{Ended, Machine, MachineFault};
pub use moving::Parcel;
pub use places::{Parts, Places};
pub use plan::{Link, Make, Plan, Program};
pub use telling::Told;
