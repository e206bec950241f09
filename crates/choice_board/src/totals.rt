//! What the board has counted.
ghost use Rattle.std.specs.Prelude.{◌≡◌};
ghost use Rattle.choice_board.specs.Settling as settling;
ghost use Rattle.choice_board.specs.Telling as telling;

use crate::verdict::Verdict;

/// Where a total stays.
const MOST: u64 = 1 << 63;

/// How often each thing happened. A total that has come to 2^63 stays there.
#[derive(Clone, Copy, Drop)]
pub struct Totals {
    /// Keys that were closed.
    pub settled: u64,
    /// Verdicts on keys that were not open.
    pub stale: u64,
    /// Classes that were recorded.
    pub classes: u64,
    /// Keys that a certificate blocked.
    pub pruned: u64,
    /// Classes that were handed out.
    pub written: u64,
}

/// One more, up to where a total stays.
fn counted(n: u64) -> u64
    ensures { result ≡ settling.counted n }
{
    if n < MOST { n + 1 } else { n }
}

impl Totals {
    /// With one more verdict that came too late.
    pub(crate) fn with_stale(self) -> Totals
        ensures { result ≡ settling.totals_stale self }
    {
        Totals {
            stale: counted(self.stale),
            ..self
        }
    }

    /// With one more key that is closed with the verdict.
    pub(crate) fn with_taken(self, verdict: &Verdict) -> Totals
        ensures { result ≡ settling.totals_taken self verdict.now }
    {
        let settled = counted(self.settled);
        match verdict {
            Verdict::Class(_) => Totals {
                settled,
                classes: counted(self.classes),
                ..self
            },
            Verdict::Pruned(_) => Totals {
                settled,
                pruned: counted(self.pruned),
                ..self
            },
            Verdict::End | Verdict::Wide { .. } | Verdict::Far | Verdict::Descend => {
                Totals { settled, ..self }
            }
        }
    }

    /// With one more class that is handed out.
    pub(crate) fn with_written(self) -> Totals
        ensures { result ≡ telling.totals_written self }
    {
        Totals {
            written: counted(self.written),
            ..self
        }
    }
}
