//! The store of certificates.
ghost use Rattle.std.specs.Prelude.{◌≡◌, IfOk, IfErr};
ghost use Rattle.nogood_store.specs.Receipts.{IsReceiptOf};

use boxcar::{Pushed, Vec as Shared};
use ntfe_model::Nogood;
use std::alloc::{AllocError, Global};
use std::marker::Model;
use std::sync::Wait;

/// Nogoods that threads push through a shared borrow. Each stays in its place, and is lent, as long as the store
/// lasts. What was pushed need be no certificate: a reader checks what it takes.
#[derive(Drop)]
pub struct Store {
    pub(crate) entries: Shared<Nogood>,
}

impl Model for Store {
    ghost use Rattle.boxcar.specs.Table.{Shelves, shelves_coded};

    ghost Value = { Shelves };

    ghost coded = { shelves_coded };

    ghost view = { λ s. s.entries };
}

/// Shows where a nogood was pushed, and which.
#[derive(Drop)]
pub struct Receipt {
    pushed: Pushed<Nogood>,
}

impl Model for Receipt {
    ghost use Rattle.boxcar.specs.Table.{Where, where_coded};
    ghost use Rattle.ntfe_model.specs.declared.nogood.Nogood.{Nogood};
    ghost use Rattle.ntfe_model.specs.contracts.nogood.Nogood.{the_row};

    ghost Value = { Where Nogood };

    ghost coded = { where_coded the_row.coded };

    ghost view = { λ r. r.pushed };
}

impl Store {
    /// A store without entries.
    ///
    /// # Errors
    /// `AllocError` where memory is short.
    pub fn new(alloc: Global) -> Result<Store, AllocError> {
        Ok(Store {
            entries: Shared::new(alloc)?,
        })
    }

    /// Adds an entry at a place of its own. May wait while another thread makes room.
    ///
    /// # Errors
    /// The nogood comes back where memory is short.
    pub fn push<R: Wait>(&self, rt: &R, nogood: Nogood) -> Result<Receipt, (Nogood, AllocError)>
        ensures ok { IfOk result (λ r. IsReceiptOf self.now r × (r.value ≡ nogood)) }
        ensures err { IfErr result (λ e. e.0 ≡ nogood) }
    {
        match self.entries.push_shown(rt, nogood) {
            Ok(pushed) => Ok(Receipt { pushed }),
            Err(back) => Err((back, AllocError)),
        }
    }

    /// The entry that was pushed, at any time. Takes no memory, and waits for no other thread.
    pub fn read_own<'s>(&'s self, receipt: &Receipt) -> &'s Nogood
        requires { IsReceiptOf self.now receipt.now }
        ensures { result.now ≡ receipt.now.value }
    {
        self.entries.value(&receipt.pushed)
    }
}
