//! Whether a pair is reflexive.
ghost use Rattle.std.specs.Prelude.{◌≡◌, ◌<◌, ◌+◌, ◌↔◌, IsOk, IfErr, IsErrOf, MatchResult};
ghost use Rattle.ntfe_model.specs.Pairs.{IsBounded, VertexLists};
ghost use Rattle.ntfe_model.specs.Reflexive.{IsReflexive};
ghost use Rattle.reflexive_pair.specs.Causes.{HasFault};
ghost use Rattle.reflexive_pair.specs.declared.fault.PairFault.{PairFault};

use crate::facets::first_other_facet;
use crate::fault::PairFault;
use crate::products::first_low;
use crate::repeats::first_repeat;
use crate::tight::{first_tight_on_no_four, product};
use ntfe_model::{Pair, Vec4};

/// The number, counted from 1, of a place that is counted from 0.
fn number(place: usize) -> u32
    requires { place < 64 }
    ensures { result ≡ place + 1 }
{
    place as u32 + 1
}

/// Decides for two lists what `check` decides for a pair of them.
fn decide(vertices: &[Vec4], dual: &[Vec4]) -> Result<(), PairFault>
    requires { IsBounded (record { vertices = vertices.now; dual = dual.now }) }
    ensures { let p : VertexLists = record { vertices = vertices.now; dual = dual.now } in MatchResult result (λ u. IsReflexive p) (HasFault p) }
{
    if let Some((i, j)) = first_repeat(vertices) {
        return Err(PairFault::Repeated {
            dual: false,
            i: number(i),
            j: number(j),
        });
    }
    if let Some((i, j)) = first_repeat(dual) {
        return Err(PairFault::Repeated {
            dual: true,
            i: number(i),
            j: number(j),
        });
    }
    if let Some((i, j)) = first_low(vertices, dual) {
        return Err(PairFault::Below {
            vertex: number(i),
            facet: number(j),
            product: product(&dual[j], &vertices[i]),
        });
    }
    if let Some(i) = first_tight_on_no_four(dual, vertices) {
        return Err(PairFault::NotFacet { facet: number(i) });
    }
    if let Some(i) = first_tight_on_no_four(vertices, dual) {
        return Err(PairFault::NotVertex { vertex: number(i) });
    }
    if let Some((i, j, k, l)) = first_other_facet(vertices, dual) {
        return Err(PairFault::OtherFacet {
            i: number(i),
            j: number(j),
            k: number(k),
            l: number(l),
        });
    }
    Ok(())
}

/// Whether the pair is reflexive. Where it is not, answers the first of the causes of `PairFault`, in their order, with the lexicographically least numbers; of `Repeated` the vertices come before the dual vertices.
pub fn check(pair: &Pair) -> Result<(), PairFault>
    ensures ok { IsOk result ↔ IsReflexive pair.now }
    ensures fault { IfErr result (HasFault pair.now) }
    ensures each { (f : PairFault) → HasFault pair.now f → IsErrOf result f }
{
    decide(pair.vertices(), pair.dual())
}
