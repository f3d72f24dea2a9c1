//! Laws over the lives of a server: what its open book and its disk have after any list of moves,
//! stopped at any moment. No program calls them; they say what the calls of a book come to.
//!
//! `reached` says that there are such runs, `words` what the words of the laws come to, and `calls`
//! what those of clauses on calls come to. `pages` says it of lives that follow one another, from
//! stop to stop. What an entry leaves of a job, and of its life, is in `laws` too. `ic_serving_laws`
//! says it of servings.
#![tactic(auto)]

pub mod calls;
pub mod laws;
pub mod pages;
pub mod reached;
pub mod words;
