//! What can be tried without a two-face.

use crate::meeting::do_meet_inside;
use crate::waiting::take_side;
use ntfe_model::Vec4;
use std::alloc::AllocError;

#[test]
fn the_diagonals_of_a_square_meet_inside(rt: HostRuntime) {
    let a = Vec4::new([0, 0, 0, 0]);
    let b = Vec4::new([1, 0, 0, 0]);
    let c = Vec4::new([1, 1, 0, 0]);
    let d = Vec4::new([0, 1, 0, 0]);
    assert!(rt; do_meet_inside(&a, &c, &b, &d));
    assert!(rt; !do_meet_inside(&a, &b, &b, &c));
}

#[test]
fn a_side_takes_its_reverse_away(rt: HostRuntime) -> Result<(), AllocError> {
    let alloc = rt.alloc();
    let mut waiting = vec![in alloc; (1u32, 2u32), (2, 3)]?;
    take_side(&mut waiting, (2, 3))?;
    take_side(&mut waiting, (3, 1))?;
    assert!(rt; waiting.as_slice() == [(1, 2), (1, 3)].as_slice());
    Ok(())
}
