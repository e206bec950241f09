//! What is seen under the lock of a pool.

/// What the server of a pool sees in one moment under the lock.
#[derive(Clone, Copy, Drop)]
pub enum Look {
    /// A row was taken of what comes next.
    Row,
    /// Nothing is left.
    Done,
    /// Nothing can be handed out yet.
    Waiting,
    /// The board is not the server's own, or is not where the server is.
    Foreign,
}
