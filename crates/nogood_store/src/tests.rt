//! What was pushed is lent, at any time.
ghost use Rattle.std.specs.Prelude.{IfOk};
ghost use Rattle.nogood_store.specs.Receipts.{IsReceiptOf};

use crate::{Receipt, Store};
use ntfe_model::{List, Nogood, Part};
use std::alloc::{AllocError, Global};
use std::sync::Wait;

/// Pushes a nogood of one part with this item.
fn push<R: Wait>(rt: &R, alloc: Global, store: &Store, item: u32) -> Result<Receipt, AllocError>
    ensures { IfOk result (λ r. IsReceiptOf store.now r) }
{
    let nogood = Nogood {
        parts: List::from_vec(vec![in alloc; Part { face: 0, item }]?),
        terms: List::from_vec(Vec::new(alloc)),
    };
    match store.push(rt, nogood) {
        Ok(receipt) => Ok(receipt),
        Err((_, error)) => Err(error),
    }
}

/// The item of the first part of what was pushed.
fn item(store: &Store, receipt: &Receipt) -> Option<u32>
    requires { IsReceiptOf store.now receipt.now }
{
    match store.read_own(receipt).parts.as_slice() {
        [part, ..] => Some(part.item),
        [] => None,
    }
}

#[test]
fn both_receipts_give_what_was_pushed(rt: HostRuntime) -> Result<(), AllocError> {
    let alloc = rt.alloc();
    let store = Store::new(alloc)?;
    let one = push(&rt, alloc, &store, 7)?;
    let two = push(&rt, alloc, &store, 8)?;
    assert!(rt; item(&store, &one) == Some(7));
    assert!(rt; item(&store, &two) == Some(8));
    Ok(())
}
