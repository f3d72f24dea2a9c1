//! A worker at its post.

use crate::parcels::Returned;
use crate::posts::Post;
use ic_pool::Gate;
use std::alloc::Global;
use std::sync::Wait;

/// A worker's loop: it takes a parcel, fires each work once its place has passed the gate, and sends
/// back the answers, or that memory ran out. It ends when the crew is gone.
pub fn stand<R: Wait, G: Gate>(rt: &R, alloc: Global, post: Post, gate: &G) {
    for _ in rt.forever() {
        let Ok(parcel) = post.parcels.recv(rt) else {
            return;
        };
        let returned = match parcel.answered(alloc, gate) {
            Ok(answers) => Returned::Answers(answers),
            Err(_) => Returned::NoMemory,
        };
        if post.returned.send(rt, returned).is_err() {
            return;
        }
    }
}
