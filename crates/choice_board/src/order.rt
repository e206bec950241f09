//! Whether the least recorded outcome comes before all open keys.
ghost use Rattle.std.specs.Prelude.{◌≡◌, true, false};
ghost use Rattle.choice_board.specs.Order.{ComesFirst};
ghost use Rattle.choice_board.specs.Rows.{IsFalling};

use crate::record::Record;
use crate::rows::Keyed;
use ntfe_model::Key;
use std::collections::VecDeque;

/// Whether there is a recorded outcome, and the least is below all open keys.
pub fn comes_first(recorded: &VecDeque<Record>, keys: &VecDeque<Key>) -> bool
    requires { IsFalling (λ k. k) keys.now.items }
    ensures when_true { result ≡ true → ComesFirst recorded.now.items keys.now.items }
    ensures when_false { result ≡ false → ¬ (ComesFirst recorded.now.items keys.now.items) }
{
    let Some(record) = recorded.back() else {
        return false;
    };
    let Some(key) = keys.back() else {
        return true;
    };
    record.numbers().cmp(key.numbers()).is_lt()
}
