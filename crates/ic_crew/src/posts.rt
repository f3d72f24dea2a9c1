//! The two ends between a crew and a worker.

use crate::parcels::{Parcel, Returned};
use crossbeam_channel::{Receiver, Sender, bounded};
use std::alloc::{AllocError, Global};

/// A worker's end: parcels come to it, and what becomes of them goes back.
#[derive(Drop)]
pub struct Post {
    pub(crate) parcels: Receiver<Parcel>,
    pub(crate) returned: Sender<Returned>,
}

/// The crew's end of a post.
#[derive(Drop)]
pub(crate) struct Line {
    pub parcels: Sender<Parcel>,
    pub returned: Receiver<Returned>,
}

/// A post and the crew's end of it. Each way holds one message.
pub(crate) fn line_and_post(alloc: Global) -> Result<(Line, Post), AllocError> {
    let (to_worker, parcels) = bounded(alloc, 1)?;
    let (to_crew, returned) = bounded(alloc, 1)?;
    let line = Line {
        parcels: to_worker,
        returned,
    };
    let post = Post {
        parcels,
        returned: to_crew,
    };
    Ok((line, post))
}
