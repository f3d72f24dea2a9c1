//! Names of jobs.

ghost use Rattle.std.specs.Prelude.{◌≡◌, ◌↔◌, ◌==◌, ◌||◌, IsTrue, IsSome, IfSome};
ghost use Rattle.std.specs.Char.{is_ascii_lowercase, is_ascii_digit};
ghost use Rattle.std.specs.List.{list_all};
ghost use Rattle.ic_rules.specs.JobName.{is_job_word, is_job_name};

use std::marker::Model;

/// The greatest length of a job's name, in bytes.
pub const MAX_JOB_NAME: usize = 16;

/// A job's name. It is kept inside the value, so it is copied without memory.
#[derive(Clone, Copy, PartialEq, Eq)]
pub struct JobName {
    bytes: [u8; MAX_JOB_NAME],
    len: usize,
}

impl Model for JobName {
    ghost use Rattle.std.specs.Prelude.{List, ℕ, take, length};
    ghost use Rattle.std.proofs.Common.{sym};
    ghost use Rattle.ic_rules.specs.inner.JobName.{IsKept, padded};

    ghost Value = { List ℕ };

    ghost view = { λ n. take n.len n.bytes };

    ghost invariant = { λ n. IsKept n.bytes n.len };

    ghost inverse = { λ text. record { bytes = padded text; len = length text } };

    ghost inverse_ok = { λ n kept i. record { bytes = sym kept.zeros i; len = kept.length i } };
}

impl JobName {
    /// The name with this text, if it is one: 1 to 16 bytes of `a..z`, `0..9` and `-`, a letter first.
    pub fn new(text: &[u8]) -> Option<JobName>
        ensures name { IsSome result ↔ IsTrue (is_job_name text.now) }
        ensures text { IfSome result (λ name. name ≡ text.now) }
    {
        if !is_name(text) {
            return None;
        }
        let mut bytes = [0; MAX_JOB_NAME];
        bytes[..text.len()].copy_from_slice(text);
        Some(JobName {
            bytes,
            len: text.len(),
        })
    }

    pub fn as_bytes(&self) -> &[u8]
        ensures text { result.now ≡ self.now }
        ensures name { IsTrue (is_job_name self.now) }
    {
        &self.bytes[..self.len]
    }
}

/// Whether a text is a job's name.
fn is_name(text: &[u8]) -> bool
    ensures { result ≡ is_job_name text.now }
{
    is_job_word(text) && text.len() <= MAX_JOB_NAME
}

/// Whether a text is a job's name, whatever its length is.
pub fn is_job_word(text: &[u8]) -> bool
    ensures { result ≡ is_job_word text.now }
{
    match text.split_first() {
        None => false,
        Some((first, rest)) => first.is_ascii_lowercase() && are_name_bytes(rest),
    }
}

fn are_name_bytes(text: &[u8]) -> bool
    ensures { result
        ≡ list_all (λ b. is_ascii_lowercase b || is_ascii_digit b || b == 45) text.now }
{
    text.iter().all(|byte| byte.is_ascii_lowercase() || byte.is_ascii_digit() || *byte == b'-')
}
