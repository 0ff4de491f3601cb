//! The numbers of a replica.

/// The numbers of a replica, whether or not anything was dropped.
#[derive(Clone, Copy, Debug, PartialEq, Eq)]
pub struct Counts {
    /// The characters of the text.
    pub total: u64,
    /// The maximal runs of its identifiers.
    pub runs: u64,
    /// The operations that wait.
    pub held: u64,
    /// The accepted operations that some member that hasn't left isn't known to have accepted.
    pub unstable: u64,
    /// The epochs that are retained.
    pub epochs: u64,
    /// The former identifiers of the retained epochs but the topmost of them.
    pub former: u64,
}
