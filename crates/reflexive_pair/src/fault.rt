//! Why a pair is not reflexive.

use thiserror::Error;

/// The first cause for which a pair is not reflexive. All numbers are counted from 1, and are the lexicographically least with this cause.
#[derive(Debug, Drop, Clone, Copy, PartialEq, Eq, Error)]
pub enum PairFault {
    /// Entries i < j of one list are equal: of the dual vertices where `dual` is true, else of the vertices.
    #[error("entries {i} and {j} of a list are equal")]
    Repeated {
        dual: bool,
        i: u32,
        j: u32,
    },
    /// The scalar product of a vertex and a dual vertex is below -1.
    #[error("vertex {vertex} and dual vertex {facet} have the scalar product {product}")]
    Below {
        vertex: u32,
        facet: u32,
        product: i64,
    },
    /// The dual vertex has scalar product -1 with no four linearly independent vertices.
    #[error("dual vertex {facet} describes no facet")]
    NotFacet {
        facet: u32,
    },
    /// The vertex has scalar product -1 with no four linearly independent dual vertices.
    #[error("vertex {vertex} is no vertex of the polytope")]
    NotVertex {
        vertex: u32,
    },
    /// Vertices i < j < k < l span a facet that no dual vertex describes.
    #[error("vertices {i}, {j}, {k} and {l} span a facet that no dual vertex describes")]
    OtherFacet {
        i: u32,
        j: u32,
        k: u32,
        l: u32,
    },
}
