//! Why a row has no answer.

use ic_term::ConfigFault;
use std::alloc::{AllocError, AllocFailed};

/// What went wrong.
#[derive(Drop)]
pub struct Trouble(pub &'static str);

impl From<AllocError> for Trouble {
    fn from(_error: AllocError) -> Trouble {
        Trouble("no memory")
    }
}

impl From<ConfigFault> for Trouble {
    fn from(_fault: ConfigFault) -> Trouble {
        Trouble("no configuration")
    }
}

impl<T: Drop> From<AllocFailed<T>> for Trouble {
    fn from(_failed: AllocFailed<T>) -> Trouble {
        Trouble("no memory")
    }
}
