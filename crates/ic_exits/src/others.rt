//! What is told after the line of a failure where the file is known to be another than it was taken for: what it is, alone.

use crate::Failure;
use crate::after::said_of;
use ic_causes::Cause;
use ic_keeping::KeepingFault;
use ic_scripts::ScriptsFault;
use ic_slots::OpenCause;
use std::alloc::{AllocError, Global};

/// What a file is that was taken for a disk, or for the first file of a reduction.
#[derive(Clone, Copy, PartialEq, Eq)]
pub enum Other {
    /// One of the two files in which a reduction is kept.
    Reduction,
    /// A text.
    Text,
    /// A file that was taken for the first one of a reduction, and that no `--keep` made.
    Stranger,
    /// The second file of a reduction, which was taken for the first one.
    Second,
}

impl Other {
    /// The line that says of the file of a path that it is this, with its line feed.
    pub fn line(self, alloc: Global, path: &[u8]) -> Result<Vec<u8>, AllocError> {
        said_of(alloc, path, self.words())
    }

    /// What is said of a file that is this.
    fn words(self) -> &'static str {
        match self {
            Other::Reduction => {
                "it is one of the two files of a reduction, and no disk: \
`icserve reduce --resume F` goes on with F, without .2"
            }
            Other::Text => {
                "the file is a text, and no disk; `icserve create --disk F` makes a new file F one"
            }
            Other::Stranger => {
                "it keeps no reduction: `--resume F` takes a file F that `--keep F` made"
            }
            Other::Second => {
                "it is the second file of a reduction: name the first one, without .2"
            }
        }
    }
}

impl Failure {
    /// What standard error is told after the line of the failure, where it may be known what the file of
    /// this path is, if it is another than it was taken for. If that is why the failure came, it alone is
    /// told. The cause is that of the last call to the file, to standard input or to standard output, that has failed.
    pub fn lines_or_other(
        &self,
        alloc: Global,
        path: &[u8],
        cause: Option<Cause>,
        other: Option<Other>,
    ) -> Result<Vec<u8>, AllocError> {
        match other {
            Some(Other::Text) if self.is_of_making() => said_of(
                alloc,
                path,
                "the file is a text, and no disk; `--overwrite` makes it an empty disk all the same",
            ),
            Some(other) if self.comes_of(other) => other.line(alloc, path),
            _ => self.lines_after(alloc, path, cause),
        }
    }

    /// Whether no empty disk is made, since the file holds something.
    fn is_of_making(&self) -> bool {
        matches!(self, Failure::NotEmpty)
    }

    /// Whether the failure comes where the file is this. A text has no slot.
    fn comes_of(&self, other: Other) -> bool {
        match self {
            Failure::NotEmpty => other == Other::Reduction,
            Failure::Open(cause) => may_be(*cause, other),
            Failure::Attend(ScriptsFault::Open(cause)) => may_be(*cause, other),
            Failure::Disk(_) => other == Other::Stranger || other == Other::Second,
            Failure::Kept(KeepingFault::Open(cause)) => {
                other == Other::Stranger && is_of_contents(*cause)
            }
            _ => false,
        }
    }
}

/// Whether a disk that isn't opened for this cause may be this.
fn may_be(cause: OpenCause, other: Other) -> bool {
    match other {
        Other::Reduction => is_of_contents(cause),
        Other::Text => matches!(cause, OpenCause::NoSlot),
        Other::Stranger | Other::Second => false,
    }
}

/// Whether a refusal to open is of what files hold.
fn is_of_contents(cause: OpenCause) -> bool {
    matches!(
        cause,
        OpenCause::NoSlot | OpenCause::TwoAlike | OpenCause::Damaged
    )
}
