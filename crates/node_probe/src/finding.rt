//! What is found at a key.
use ntfe_model::{Heights, Nogood};

/// What is found at a key.
#[derive(Drop)]
pub enum Finding {
    /// Some item of the head does not exist.
    End,
    /// All items exist, and the last is out of reach, at this two-face.
    Far { face: u32 },
    /// The certificate at this place of the set blocks the key.
    Blocked(usize),
    /// The head's folds cancel: a new certificate that blocks the key.
    Refuted(Nogood),
    /// The key is a choice, and the solver's numbers were too wide at this step.
    Wide { step: u64, number: i128 },
    /// The key is a choice, which these heights extend.
    Class(Heights),
    /// A two-face is left, so the key is to be gone into.
    Descend,
}
