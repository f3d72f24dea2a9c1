//! Configurations as nets, and nets as graphs in Graphviz's DOT.
//!
//! `net_of` makes the net of a configuration: agents with their ports, and wires between ports. `dot` writes a net as a
//! graph, `draw` does both, and `draw_stream` does so of the system or the configuration that a reader gives.
#![tactic(auto)]

mod drawing;
pub mod laws;
mod links;
mod net;
mod port;
mod sketch;
mod stream;
mod wiring;

pub use drawing::dot;
pub use net::{Agent, Net, Wire, net_of};
pub use port::Port;
pub use stream::{draw, draw_stream};
