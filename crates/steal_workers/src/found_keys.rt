//! What a worker found, and its settling on the board of its pool.
ghost use Rattle.std.specs.Prelude.{◌≡◌, ◌<◌};
ghost use Rattle.steal_workers.specs.Shared.{IsSameListing};
ghost use Rattle.steal_workers.specs.Tallies.{IsSameTally};
ghost use Rattle.steal_workers.specs.Workers.{AreFound};

use crate::shared_board::SharedBoard;
use crate::tally::Tally;
use choice_board::Verdict;
use ntfe_model::Key;
use std::alloc::AllocError;
use std::collections::VecDeque;
use std::sync::ledger::Ledger;

/// A key with what was found out about it.
#[derive(Drop)]
pub struct FoundKey {
    pub key: Key,
    pub verdict: Verdict,
}

/// Settles what was found, from the first on. False where a key was not open any more.
///
/// # Errors
/// `AllocError` where memory is short. What was settled until then stays so.
pub fn settle_all<L: Ledger>(
    board: &mut SharedBoard<L>,
    found: &mut VecDeque<FoundKey>,
    mine: &mut Tally<L>,
) -> Result<bool, AllocError>
    requires found { AreFound board.old.board.geometry board.old.width found.old.items }
    requires part { 0 < mine.old.parts }
    ensures listing { IsSameListing board.old board.new }
    ensures found { AreFound board.old.board.geometry board.old.width found.new.items }
    ensures tally { IsSameTally mine.old mine.new }
{
    let mut all = true;
    while let Some(FoundKey { key, verdict }) = found.pop_front() {
        all &= board.settle(&key, verdict, mine)?;
    }
    Ok(all)
}
