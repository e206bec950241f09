//! What fine regular star triangulations leave on the two-faces.
ghost use Rattle.std.specs.Prelude.{◌<◌, ℕ, List, length};
ghost use Rattle.ntfe_model.specs.Shapes.{Shape, IsShape};
ghost use Rattle.ntfe_model.specs.Charts.{patch_at};
ghost use Rattle.ntfe_model.specs.Triangulations.{IsFine};
ghost use Rattle.ntfe_model.specs.Stars.{IsFrst, IsRestriction};
ghost use Rattle.ntfe_model.specs.declared.triangle.Triangle.{Triangle};

/// A law: the triples that a fine regular star triangulation leaves on a two-face are a fine
/// triangulation of the two-face. Heights that agree with those of the star, and with its order of
/// pushing, make them the regular triangulation of the two-face (De Loera, Rambau and Santos,
/// "Triangulations", chapters 2 and 4; the restriction to two-faces is after MacFadden, arXiv
/// 2309.10855). The function does nothing: its contract is the law.
pub fn restriction_is_fine()
    ensures { (g : Shape) (star : List (List ℕ)) (f : ℕ) (ts : List Triangle) → IsShape g → IsFrst g.pair.dual g.points star → f < length g.faces → IsRestriction (patch_at g f) star ts → IsFine (patch_at g f) ts }
{}
