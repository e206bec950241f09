//! How a list of classes ends.

use ntfe_model::Choice;

/// How a list of classes ends. `last` is the choice of the last block after the start, or the start
/// where there is no such block, whatever the sink tells of its bytes.
#[derive(Drop)]
pub enum Served {
    /// All classes after the start are written, fewer than the limit asks for. `count` is the number
    /// of blocks, the kept ones counted too, up to 2^63.
    End {
        count: u64,
        last: Option<Choice>,
    },
    /// As many classes are written as the limit asks for, the kept ones counted too. `count` is the
    /// greater of the limit and the number of kept blocks.
    Limit {
        count: u64,
        last: Option<Choice>,
    },
    /// The solver's numbers are too wide on this choice: at this step it comes to this number. All
    /// classes below the choice are written.
    Wide {
        choice: Choice,
        step: u64,
        number: i128,
    },
    /// The two-face, from 0, has an item whose number is the item limit. All classes below a key that
    /// ends there are written.
    Far {
        face: u32,
    },
    /// The sink failed.
    WriteFault,
    /// There was no memory.
    Memory,
}
