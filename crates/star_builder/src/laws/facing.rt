//! That a geometry has two-faces.
ghost use Rattle.std.specs.Prelude.{◌≡◌, ◌<◌, ◌⊎◌, ℕ, length};
ghost use Rattle.ntfe_model.specs.Lists.{IsNumberOf};
ghost use Rattle.ntfe_model.specs.Pairs.{VertexLists};
ghost use Rattle.ntfe_model.specs.Reflexive.{IsReflexive};
ghost use Rattle.ntfe_model.specs.Points.{MeetInTwoFace};
ghost use Rattle.ntfe_model.specs.Shapes.{Shape, IsShape, face_at};

/// A law: each facet of a reflexive pair meets another in a two-face. So each facet of a geometry is
/// one of a two-face, and a geometry has at least one two-face. The function does nothing: its
/// contract is the law.
pub fn facets_meet()
    ensures meet { (p : VertexLists) → IsReflexive p → (i : ℕ) → IsNumberOf p.dual i → (j : ℕ) × (MeetInTwoFace p i j ⊎ MeetInTwoFace p j i) }
    ensures faces { (g : Shape) → IsShape g → (i : ℕ) → IsNumberOf g.pair.dual i → (f : ℕ) × (f < length g.faces) × (((face_at g f).first ≡ i) ⊎ ((face_at g f).second ≡ i)) }
    ensures some { (g : Shape) → IsShape g → 0 < length g.faces }
{}
