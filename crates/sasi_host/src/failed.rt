// The error of a call on the outside.

/// An I/O error of a source or a host. The fitting count of errors has risen.
#[derive(Clone, Copy, Debug, PartialEq, Eq)]
pub struct Failed;
