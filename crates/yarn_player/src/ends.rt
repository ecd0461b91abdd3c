//! How a run ends, and why it is cut short.
use yarn_store::Store;
use yarn_walker::FaultAt;

/// Where a run stands.
#[derive(Debug, Drop)]
pub enum PlayEnd<'p> {
    /// The last event was the end.
    Ended,
    /// The limit of events is reached, and the last one wasn't the end.
    Limit,
    /// A group of options waits, and no bytes of the input are left.
    Waits,
    Faults(FaultAt<'p>),
}

/// A run that was played.
#[derive(Debug, Drop)]
pub struct Played<'p> {
    pub end: PlayEnd<'p>,
    /// The variables, as they are there.
    pub store: Store,
}

/// Why a run wasn't played to where it stands.
#[derive(Clone, Copy, Debug, PartialEq, Eq)]
pub enum PlayFault {
    /// A read of the input failed.
    InputFailed,
    /// A write failed.
    OutputFailed,
    Memory,
}
