//! A failed call on the outside.

/// A read or a write failed. The object that was called has counted the fault.
#[derive(Clone, Copy, Debug, PartialEq, Eq)]
pub struct Failed;
