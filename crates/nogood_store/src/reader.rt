//! How far a store was read.
ghost use Rattle.std.specs.Prelude.{◌≡◌, []};

use boxcar::Pushed;
use ntfe_model::Nogood;
use std::alloc::Global;
use std::marker::Model;

/// The places of a store that were read, in rising order. Contracts see them with the entries that stand there.
#[derive(Drop)]
pub struct Reader {
    pub(crate) seen: Vec<Pushed<Nogood>>,
    /// The place that is read next, behind all that were read.
    pub(crate) next: usize,
    /// Whether that place was found empty before, while a later one was not.
    pub(crate) passed: bool,
}

impl Model for Reader {
    ghost use Rattle.std.specs.Prelude.{List, All, ◌<◌};
    ghost use Rattle.std.specs.Coded.{coded_list};
    ghost use Rattle.boxcar.specs.Table.{Where, where_coded};
    ghost use Rattle.ntfe_model.specs.declared.nogood.Nogood.{Nogood};
    ghost use Rattle.ntfe_model.specs.contracts.nogood.Nogood.{the_row};
    ghost use Rattle.nogood_store.specs.Receipts.{AreRising};

    ghost Value = { List (Where Nogood) };

    ghost coded = { coded_list (where_coded the_row.coded) };

    ghost view = { λ r. r.seen.items };

    ghost invariant = { λ r. AreRising r.seen.items × All (λ w. w.index < r.next) r.seen.items };
}

impl Reader {
    /// A reader that has seen no place yet. Takes no memory yet.
    pub fn new(alloc: Global) -> Reader
        ensures { result ≡ [] }
    {
        Reader {
            seen: Vec::new(alloc),
            next: 0,
            passed: false,
        }
    }
}
