//! Worked pairs.

use crate::faces;
use lattice_points::points;
use ntfe_model::{Face, List, Pair};
use std::alloc::Global;
use std::test::Fail;

fn faces_of(alloc: Global, vertices: &[[i64; 4]], dual: &[[i64; 4]]) -> Result<List<Face>, Fail> {
    let Ok(pair) = Pair::try_new(alloc, vertices, dual) else {
        return Err(Fail::new("a pair"));
    };
    let list = points(alloc, &pair)?;
    Ok(faces(alloc, &pair, list.as_slice())?)
}

const SIMPLEX: [[i64; 4]; 5] = [
    [1, 0, 0, 0],
    [0, 1, 0, 0],
    [0, 0, 1, 0],
    [0, 0, 0, 1],
    [-1, -1, -1, -1],
];

const SIMPLEX_DUAL: [[i64; 4]; 5] = [
    [-1, -1, -1, -1],
    [4, -1, -1, -1],
    [-1, 4, -1, -1],
    [-1, -1, 4, -1],
    [-1, -1, -1, 4],
];

const PYRAMID: [[i64; 4]; 7] = [
    [1, 0, 0, 0],
    [0, 1, 0, 0],
    [1, 0, 1, 0],
    [0, 1, 1, 0],
    [-1, -1, -1, 0],
    [0, 0, 0, 1],
    [0, 0, 0, -1],
];

const PYRAMID_DUAL: [[i64; 4]; 10] = [
    [-1, -1, 0, 1],
    [-1, -1, 0, -1],
    [-1, -1, 3, 1],
    [-1, -1, 3, -1],
    [2, 2, -3, 1],
    [2, 2, -3, -1],
    [-1, 2, 0, 1],
    [-1, 2, 0, -1],
    [2, -1, 0, 1],
    [2, -1, 0, -1],
];

#[test]
fn faces_of_the_simplex(rt: HostRuntime) -> Result<(), Fail> {
    let list = faces_of(rt.alloc(), &SIMPLEX, &SIMPLEX_DUAL)?;
    let want = [
        (1, 2, [2, 3, 4]),
        (1, 3, [2, 3, 5]),
        (1, 4, [2, 4, 5]),
        (1, 5, [3, 4, 5]),
        (2, 3, [1, 2, 3]),
        (2, 4, [1, 2, 4]),
        (2, 5, [1, 3, 4]),
        (3, 4, [1, 2, 5]),
        (3, 5, [1, 3, 5]),
        (4, 5, [1, 4, 5]),
    ];
    assert_eq!(rt; list.as_slice().len(), want.len());
    for (face, (first, second, points)) in list.as_slice().iter().zip(&want) {
        assert_eq!(rt; face.first, *first);
        assert_eq!(rt; face.second, *second);
        assert_eq!(rt; face.points.as_slice(), points.as_slice());
    }
    Ok(())
}

#[test]
fn counts(rt: HostRuntime) -> Result<(), Fail> {
    let quintic_dual = faces_of(rt.alloc(), &SIMPLEX_DUAL, &SIMPLEX)?;
    assert_eq!(rt; quintic_dual.as_slice().len(), 10);
    for face in quintic_dual.as_slice() {
        assert_eq!(rt; face.points.as_slice().len(), 21);
    }
    let pyramid = faces_of(rt.alloc(), &PYRAMID, &PYRAMID_DUAL)?;
    assert_eq!(rt; pyramid.as_slice().len(), 21);
    Ok(())
}
