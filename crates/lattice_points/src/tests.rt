//! Worked pairs.

use crate::{PointFault, points};
use ntfe_model::Pair;
use std::alloc::Global;
use std::test::Fail;

/// The number of points, or the fault.
fn count_of(
    alloc: Global,
    vertices: &[[i64; 4]],
    dual: &[[i64; 4]],
) -> Result<Result<usize, PointFault>, Fail> {
    let Ok(pair) = Pair::try_new(alloc, vertices, dual) else {
        return Err(Fail::new("a pair"));
    };
    match points(alloc, &pair) {
        Ok(list) => Ok(Ok(list.as_slice().len())),
        Err(fault) => Ok(Err(fault)),
    }
}

const SIMPLEX: [[i64; 4]; 5] = [
    [1, 0, 0, 0],
    [0, 1, 0, 0],
    [0, 0, 1, 0],
    [0, 0, 0, 1],
    [-1, -1, -1, -1],
];

const SIMPLEX_DUAL: [[i64; 4]; 5] = [
    [-1, -1, -1, -1],
    [4, -1, -1, -1],
    [-1, 4, -1, -1],
    [-1, -1, 4, -1],
    [-1, -1, -1, 4],
];

const SHEARED: [[i64; 4]; 5] = [
    [1, 0, 0, 0],
    [0, 1, 0, 0],
    [0, 0, 1, 0],
    [300, 300, 300, 1],
    [-301, -301, -301, -1],
];

const SHEARED_DUAL: [[i64; 4]; 5] = [
    [-1, -1, -1, 899],
    [4, -1, -1, -601],
    [-1, 4, -1, -601],
    [-1, -1, 4, -601],
    [-1, -1, -1, 904],
];

/// An image of `SIMPLEX_DUAL`, wide in two coordinates and thin in the third.
const THIN: [[i64; 4]; 5] = [
    [-10, 13, -1, -7],
    [-5, -72, -1, 43],
    [-10, 18, -1, -12],
    [35, 13, 4, -7],
    [-10, 28, -1, -17],
];

const THIN_DUAL: [[i64; 4]; 5] = [
    [1, 0, -9, 0],
    [-4, -2, 36, -3],
    [0, 0, 1, 0],
    [7, 1, -63, 1],
    [-4, 1, 35, 2],
];

const LARGE: [[i64; 4]; 5] = [
    [-1, -1, -1, -1],
    [83, -1, -1, -1],
    [-1, 6, -1, -1],
    [-1, -1, 2, -1],
    [-1, -1, -1, 1],
];

const LARGE_DUAL: [[i64; 4]; 5] = [
    [-1, -12, -28, -42],
    [1, 0, 0, 0],
    [0, 1, 0, 0],
    [0, 0, 1, 0],
    [0, 0, 0, 1],
];

#[test]
fn counts(rt: HostRuntime) -> Result<(), Fail> {
    let alloc = rt.alloc();
    assert_eq!(rt; count_of(alloc, &SIMPLEX, &SIMPLEX_DUAL)?, Ok(5));
    assert_eq!(rt; count_of(alloc, &SIMPLEX_DUAL, &SIMPLEX)?, Ok(105));
    assert_eq!(rt; count_of(alloc, &THIN, &THIN_DUAL)?, Ok(105));
    let wide = PointFault::TooWide {
        columns: 218_167_208,
    };
    assert_eq!(rt; count_of(alloc, &SHEARED, &SHEARED_DUAL)?, Err(wide));
    let many = PointFault::TooMany { count: 495 };
    assert_eq!(rt; count_of(alloc, &LARGE, &LARGE_DUAL)?, Err(many));
    Ok(())
}

#[test]
fn points_of_the_simplex(rt: HostRuntime) -> Result<(), Fail> {
    let Ok(pair) = Pair::try_new(rt.alloc(), &SIMPLEX, &SIMPLEX_DUAL) else {
        return Err(Fail::new("a pair"));
    };
    let list = points(rt.alloc(), &pair)?;
    let want = [
        ([-1, -1, -1, -1], [2, 3, 4, 5]),
        ([0, 0, 0, 1], [1, 2, 3, 4]),
        ([0, 0, 1, 0], [1, 2, 3, 5]),
        ([0, 1, 0, 0], [1, 2, 4, 5]),
        ([1, 0, 0, 0], [1, 3, 4, 5]),
    ];
    assert_eq!(rt; list.as_slice().len(), want.len());
    for (point, (place, facets)) in list.as_slice().iter().zip(&want) {
        assert_eq!(rt; point.place.coordinates(), place);
        assert_eq!(rt; point.facets.as_slice(), facets.as_slice());
    }
    Ok(())
}
