//! The byte form: a table of jobs as bytes, and back.
//!
//! `encode_into` appends the form into room that its caller made. `decode` answers the table exactly
//! where the bytes are the form of one, or the old form of one without budgets. The form is `ICT2` and
//! the old one `ICT1`: `docs/byte-form.md` has them field by field, and `specs/` as definitions. Each
//! module writes and reads one type; what one form says otherwise than another is in `form`.
#![tactic(auto)]

mod fault;
mod fields;
mod flats;
mod form;
mod jobs;
pub mod laws;
mod rules;
mod symbols;
mod tables;
mod terms;
mod words;

pub use fault::CodecFault;
pub use form::MAX_BYTES;
pub use tables::{decode, encode_into};
