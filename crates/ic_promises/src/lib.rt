//! The promises of public calls that wrong bodies with names break.
//!
//! Each function of `promises` has the clauses of a public call of a crate below, word for word, and keeps them by that
//! call. Each function of `wrong` is a body that breaks one of them, and has the clauses that it keeps. An edit of
//! `must-fail/` puts it in the place of the call, and the prover has to refuse it.
#![tactic(auto)]

pub mod promises;
pub mod wrong;
