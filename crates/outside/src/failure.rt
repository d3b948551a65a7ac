//! A device's failure.

use thiserror::Error;

/// A read or a write that failed. The device has counted it.
#[derive(Clone, Copy, Debug, PartialEq, Eq, Error)]
#[error("the device failed")]
pub struct Failed;
