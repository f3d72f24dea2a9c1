//! Wrong bodies of the calls of `promises`, each with clauses of the call that it keeps, or with what it answers
//! instead.

pub mod firing;
pub mod reading;
pub mod settling;
