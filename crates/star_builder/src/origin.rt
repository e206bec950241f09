//! A height for the origin.
ghost use Rattle.std.specs.Prelude.{◌≡◌, ◌<◌, ◌^◌, ℕ, ℤ, List, [], ◌∷◌, All, unsigned_abs};
ghost use Rattle.ntfe_model.specs.Lists.{IsNumberOf};
ghost use Rattle.ntfe_model.specs.Pairs.{entry};
ghost use Rattle.ntfe_model.specs.Reflexive.{IsTight};
ghost use Rattle.ntfe_model.specs.Points.{place_of_point};
ghost use Rattle.ntfe_model.specs.Shapes.{Shape, IsShape};
ghost use Rattle.ntfe_model.specs.Stars.{IsMember, AreIn, IsAboveOriginPlane, greatest_size, origin_height as height_of_origin};

use ntfe_model::Heights;

/// The greatest size of a height, 0 for none.
fn greatest(heights: &[i64]) -> u64
    requires { All (λ h. unsigned_abs h < 2 ^ 62) heights.now }
    ensures value { result ≡ greatest_size heights.now }
    ensures small { result < 2 ^ 62 }
{
    let mut most = 0u64;
    for h in heights {
        most = most.max(h.unsigned_abs());
    }
    most
}

/// A height at the origin that is low enough for a star: `-(1 + W (2^47 + 1))`, where W is the greatest size of a height.
pub fn origin_height(heights: &Heights) -> i128
    requires { All (λ h. unsigned_abs h < 2 ^ 62) heights.now }
    ensures { result ≡ height_of_origin heights.now }
{
    let most = greatest(heights.0.as_slice());
    -(1 + most as i128 * ((1 << 47) + 1))
}

/// A law: with `origin_height` at the origin, the plane through the origin and a member of the star lies
/// strictly below every point outside the member's facet. Within the facet the star's own heights and order
/// decide. So the star, joined to the origin, is the regular triangulation by these heights, with ties broken
/// by the order of pushing. The function does nothing: its contract is the law.
///
/// Regular and star triangulations: De Loera, Rambau and Santos, "Triangulations".
pub fn origin_lies_low()
    ensures { (g : Shape) (w : List ℤ) (order : List ℕ) (a b c d p facet : ℕ) → IsShape g → IsMember g.pair.dual g.points w order (a ∷ b ∷ c ∷ d ∷ [])
        → AreIn g.pair.dual g.points facet (a ∷ b ∷ c ∷ d ∷ []) → IsNumberOf g.points p → ¬ (IsTight (entry g.pair.dual facet) (place_of_point g.points p))
        → IsAboveOriginPlane g.points w (height_of_origin w) a b c d p }
{}

#[cfg(test)]
mod tests {
    use super::*;
    use ntfe_model::List;
    use std::alloc::AllocError;

    #[test]
    fn heights_of_the_origin(rt: HostRuntime) -> Result<(), AllocError> {
        let none = Heights(List::from_vec(vec![in rt.alloc(); 0i64; 5]?));
        assert_eq!(rt; origin_height(&none), -1);
        let pyramid = Heights(List::from_vec(vec![in rt.alloc(); 0, 0, 0, 1, 0, 0, 0]?));
        assert_eq!(rt; origin_height(&pyramid), -140737488355330);
        Ok(())
    }
}
