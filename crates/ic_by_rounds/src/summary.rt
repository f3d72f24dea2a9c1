//! What rounds did all together.

use crate::row::Row;
use ic_in_place::End;
use std::alloc::{AllocError, Global};

/// What rounds did all together. A number above 2^64 - 1 is told as 2^64 - 1.
#[derive(Clone, Copy, PartialEq, Eq)]
pub struct Summary {
    /// How many rounds there were: the span.
    pub rounds: u64,
    /// How many pairs all of them fired: the work.
    pub interactions: u64,
    /// How many pairs one of them fired at most.
    pub greatest: u64,
    /// How many nodes there were at most, before the first round and after each.
    pub nodes: u64,
    /// Whether they were cut: a pair may be left that could fire, so that there may be more rounds.
    pub is_partial: bool,
}

impl Summary {
    /// Of no round yet, where there are so many nodes.
    pub(crate) fn new(nodes: u64) -> Summary {
        Summary {
            rounds: 0,
            interactions: 0,
            greatest: 0,
            nodes,
            is_partial: false,
        }
    }

    /// The same with one round more.
    pub(crate) fn with(self, row: Row) -> Summary {
        Summary {
            rounds: self.rounds.max(row.round),
            interactions: self.interactions.saturating_add(row.pairs),
            greatest: self.greatest.max(row.pairs),
            nodes: self.nodes.max(row.nodes),
            is_partial: self.is_partial,
        }
    }

    /// The same of rounds that ended so.
    pub fn ended(self, end: End) -> Summary {
        Summary {
            is_partial: !matches!(end, End::Quiet),
            ..self
        }
    }

    /// Of rounds that fired so many pairs each, the last of them some. Nothing is known of nodes.
    pub fn of_pairs(pairs: &[u64]) -> Summary {
        let mut summary = Summary::new(0);
        for fired in pairs {
            summary.rounds = summary.rounds.saturating_add(1);
            summary.interactions = summary.interactions.saturating_add(*fired);
            summary.greatest = summary.greatest.max(*fired);
        }
        summary
    }

    /// How many pairs a round fired on average, and the tenths of it.
    pub fn average(self) -> (u64, u64) {
        let tenths = u128::from(self.interactions) * 10 / u128::from(self.rounds.max(1));
        ((tenths / 10) as u64, (tenths % 10) as u64)
    }
}

/// The line that tells work, span, and how many pairs could fire at once.
pub fn summary_line(alloc: Global, summary: Summary) -> Result<Vec<u8>, AllocError> {
    let (work, span) = (summary.interactions, summary.rounds);
    let (greatest, (whole, tenth)) = (summary.greatest, summary.average());
    let partial = if summary.is_partial { "partial " } else { "" };
    let line = format!(in alloc;
        "icserve: work {work}, {partial}span {span}, pairs at once {whole}.{tenth} on average, \
{greatest} at most\n"
    )?;
    Ok(line.into_bytes())
}

/// The same as an object of JSON on a line.
pub fn summary_object(alloc: Global, summary: Summary) -> Result<Vec<u8>, AllocError> {
    let (work, span) = (summary.interactions, summary.rounds);
    let (greatest, (whole, tenth)) = (summary.greatest, summary.average());
    let partial = summary.is_partial;
    let line = format!(in alloc;
        "{{\"work\":{work},\"span\":{span},\"average\":{whole}.{tenth},\"greatest\":{greatest},\
\"partial\":{partial}}}\n"
    )?;
    Ok(line.into_bytes())
}
