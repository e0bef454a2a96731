//! Why a row is named.

use crate::words::Unreadable;
use encoding_rs::OneShotError;
use encoding_rs::run::RunError;
use std::alloc::{AllocError, AllocFailed};
use std::test::Fail;

/// Why a row is named.
pub enum RowFault {
    /// It can't be read.
    Unreadable(Unreadable),
    /// It can be read, and does not hold.
    Fails(Fail),
}

impl RowFault {
    /// A row that does not hold.
    pub(crate) fn fails(why: &'static str) -> RowFault {
        RowFault::Fails(Fail::new(why))
    }
}

impl From<Unreadable> for RowFault {
    fn from(reason: Unreadable) -> RowFault {
        RowFault::Unreadable(reason)
    }
}

impl From<AllocError> for RowFault {
    fn from(_error: AllocError) -> RowFault {
        RowFault::Unreadable(Unreadable::Memory)
    }
}

impl<T: Drop> From<AllocFailed<T>> for RowFault {
    fn from(_failed: AllocFailed<T>) -> RowFault {
        RowFault::Unreadable(Unreadable::Memory)
    }
}

impl From<Fail> for RowFault {
    fn from(fail: Fail) -> RowFault {
        RowFault::Fails(fail)
    }
}

impl From<OneShotError> for RowFault {
    fn from(error: OneShotError) -> RowFault {
        RowFault::Fails(Fail::new(format_args!("{error}")))
    }
}

impl From<RunError> for RowFault {
    fn from(error: RunError) -> RowFault {
        RowFault::Fails(Fail::new(format_args!("{error}")))
    }
}
