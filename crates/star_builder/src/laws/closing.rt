//! How the members of a star by heights and an order of pushing fit together within each facet.
ghost use Rattle.std.specs.Prelude.{◌⊎◌, ℕ, ℤ, List, length, Contains};
ghost use Rattle.ntfe_model.specs.Lists.{IsNumberOf};
ghost use Rattle.ntfe_model.specs.Shapes.{Shape, IsShape};
ghost use Rattle.ntfe_model.specs.Stars.{IsOrder, IsStar, AreIn, IsOuterRidge, IsBeyond};

/// A law: the members of a star cover each facet without a gap. Each facet has a member. Of any
/// three points of a member, either all lie in a second facet too, or exactly one other member of
/// the facet has them, whose fourth point lies on the other side of them. The function does
/// nothing: its contract is the law.
///
/// Regular triangulations by pushing: De Loera, Rambau and Santos, "Triangulations".
pub fn star_closes()
    ensures facets { (g : Shape) (w : List ℤ) (order : List ℕ) (star : List (List ℕ)) → IsShape g → IsOrder (length g.points) order → IsStar g.pair.dual g.points w order star
        → (facet : ℕ) → IsNumberOf g.pair.dual facet → (members : List ℕ) × Contains star members × AreIn g.pair.dual g.points facet members }
    ensures ridges { (g : Shape) (w : List ℤ) (order : List ℕ) (star : List (List ℕ)) → IsShape g → IsOrder (length g.points) order → IsStar g.pair.dual g.points w order star
        → (members : List ℕ) → Contains star members → (without : ℕ) → Contains members without
        → IsOuterRidge g.pair.dual g.points members without ⊎ ((other : List ℕ) × IsBeyond g.pair.dual g.points w order members without other) }
{}
