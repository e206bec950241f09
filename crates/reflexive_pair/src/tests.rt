//! The causes on small pairs.

use crate::{PairFault, check};
use ntfe_model::Pair;
use std::alloc::Global;
use std::test::Fail;

type Row = [i64; 4];

const SIMPLEX: [Row; 5] = [
    [1, 0, 0, 0],
    [0, 1, 0, 0],
    [0, 0, 1, 0],
    [0, 0, 0, 1],
    [-1, -1, -1, -1],
];

const SIMPLEX_DUAL: [Row; 5] = [
    [-1, -1, -1, -1],
    [4, -1, -1, -1],
    [-1, 4, -1, -1],
    [-1, -1, 4, -1],
    [-1, -1, -1, 4],
];

const CROSS: [Row; 8] = [
    [1, 0, 0, 0],
    [-1, 0, 0, 0],
    [0, 1, 0, 0],
    [0, -1, 0, 0],
    [0, 0, 1, 0],
    [0, 0, -1, 0],
    [0, 0, 0, 1],
    [0, 0, 0, -1],
];

const CUBE: [Row; 16] = [
    [-1, -1, -1, -1],
    [-1, -1, -1, 1],
    [-1, -1, 1, -1],
    [-1, -1, 1, 1],
    [-1, 1, -1, -1],
    [-1, 1, -1, 1],
    [-1, 1, 1, -1],
    [-1, 1, 1, 1],
    [1, -1, -1, -1],
    [1, -1, -1, 1],
    [1, -1, 1, -1],
    [1, -1, 1, 1],
    [1, 1, -1, -1],
    [1, 1, -1, 1],
    [1, 1, 1, -1],
    [1, 1, 1, 1],
];

fn answer(alloc: Global, vertices: &[Row], dual: &[Row]) -> Result<Result<(), PairFault>, Fail> {
    let Ok(pair) = Pair::try_new(alloc, vertices, dual) else {
        return Err(Fail::new("a pair"));
    };
    Ok(check(&pair))
}

#[test]
fn names_the_first_cause(rt: HostRuntime) -> Result<(), Fail> {
    let alloc = rt.alloc();
    assert_eq!(rt; answer(alloc, &SIMPLEX, &SIMPLEX_DUAL)?, Ok(()));
    assert_eq!(rt; answer(alloc, &CROSS, &CUBE)?, Ok(()));
    let other = PairFault::OtherFacet {
        i: 1,
        j: 3,
        k: 5,
        l: 7,
    };
    assert_eq!(rt; answer(alloc, &CROSS, &CUBE[1..])?, Err(other));
    let mut vertices = SIMPLEX;
    vertices[0] = [2, 0, 0, 0];
    let below = PairFault::Below {
        vertex: 1,
        facet: 1,
        product: -2,
    };
    assert_eq!(rt; answer(alloc, &vertices, &SIMPLEX_DUAL)?, Err(below));
    let mut vertices = SIMPLEX;
    vertices[1] = [1, 0, 0, 0];
    let repeated = PairFault::Repeated {
        dual: false,
        i: 1,
        j: 2,
    };
    assert_eq!(rt; answer(alloc, &vertices, &SIMPLEX_DUAL)?, Err(repeated));
    let mut dual = SIMPLEX_DUAL;
    dual[4] = [0, 0, 0, 0];
    assert_eq!(rt;
        answer(alloc, &SIMPLEX, &dual)?,
        Err(PairFault::NotFacet { facet: 5 })
    );
    let mut vertices = [[0, 0, 0, 0]; 6];
    vertices[..5].copy_from_slice(&SIMPLEX);
    assert_eq!(rt;
        answer(alloc, &vertices, &SIMPLEX_DUAL)?,
        Err(PairFault::NotVertex { vertex: 6 })
    );
    Ok(())
}
