//! Which entry blocks which key.

use crate::NogoodSet;
use ntfe_model::{Key, List, Nogood, Part};
use std::alloc::{AllocError, Global};

fn nogood(alloc: Global, first: Part, second: Part) -> Result<Nogood, AllocError> {
    Ok(Nogood {
        parts: List::from_vec(vec![in alloc; first, second]?),
        terms: List::from_vec(Vec::new(alloc)),
    })
}

#[test]
fn the_first_entry_blocks_whose_parts_are_all_in_the_head(
    rt: HostRuntime,
) -> Result<(), AllocError> {
    let alloc = rt.alloc();
    let one = nogood(alloc, Part { face: 0, item: 1 }, Part { face: 4, item: 1 })?;
    let other = nogood(alloc, Part { face: 2, item: 0 }, Part { face: 4, item: 1 })?;
    let mut set = NogoodSet::new(alloc);
    set.add(&one)?;
    set.add(&other)?;
    let blocked = Key(List::from_vec(vec![in alloc; 0u32, 0, 0, 0, 1]?));
    let open = Key(List::from_vec(vec![in alloc; 0u32, 0, 0, 0, 0]?));
    assert!(rt; set.blocks(&blocked) == Some(1) && set.blocks(&open) == None);
    Ok(())
}

#[test]
fn an_entry_is_what_was_added(rt: HostRuntime) -> Result<(), AllocError> {
    let alloc = rt.alloc();
    let one = nogood(alloc, Part { face: 0, item: 1 }, Part { face: 4, item: 1 })?;
    let mut set = NogoodSet::new(alloc);
    set.add(&one)?;
    assert!(rt; set.entry(0).parts.as_slice().len() == 2);
    Ok(())
}
