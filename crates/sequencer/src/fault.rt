use crate::BackFault;

/// Why a request wasn't issued.
#[derive(Clone, Copy)]
pub enum IssueFault {
    /// The line has an outstanding request.
    Outstanding,
    /// There was no memory for it.
    NoMemory,
}

/// Why a callback of a scan wasn't done.
#[derive(Clone, Copy)]
pub enum CallbackFault {
    /// The request wasn't finished.
    Refused(BackFault),
    /// There was no memory for it.
    NoMemory,
}
