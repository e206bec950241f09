//! What the stars of heights that extend a choice are, and what they leave on the two-faces.
ghost use Rattle.std.specs.Prelude.{ℕ, ◌<◌, ◌↔◌, ℤ, List, length, slice_index};
ghost use Rattle.ntfe_model.specs.Shapes.{Shape, IsShape};
ghost use Rattle.ntfe_model.specs.Charts.{patch_at};
ghost use Rattle.ntfe_model.specs.Triangulations.{IsTripleOf};
ghost use Rattle.ntfe_model.specs.Words.{IsItem};
ghost use Rattle.ntfe_model.specs.Choices.{IsChoice, Extends, IsExtendable};
ghost use Rattle.ntfe_model.specs.Stars.{order_of, IsOrder, IsStar, IsFrst, Induces, IsInduced, IsRestriction};
ghost use Rattle.ntfe_model.specs.declared.nogood.Push.{Push};
ghost use Rattle.ntfe_model.specs.declared.triangle.Triangle.{Triangle};
ghost use Rattle.ntfe_model.specs.declared.triangulation.Triangulation.{Triangulation};

/// A law: the star of heights that extend a choice, with ties broken along any order of the points,
/// is a fine regular star triangulation and induces the choice; so each extendable choice is induced.
/// The restriction of a star that induces a choice has the triples of the chosen item, and no others.
/// Both ways of pushing are orders of the points. (De Loera, Rambau and Santos, "Triangulations", section 4.3;
/// the restriction to two-faces is after MacFadden, arXiv 2309.10855.) The function does nothing: its
/// contract is the law.
pub fn extendable_is_induced()
    ensures star { (g : Shape) (choice : List ℕ) (w : List ℤ) (order : List ℕ) (star : List (List ℕ)) → IsShape g → IsChoice g choice → Extends g w choice → IsOrder (length g.points) order → IsStar g.pair.dual g.points w order star → IsFrst g.pair.dual g.points star × Induces g star choice }
    ensures restriction { (g : Shape) (choice : List ℕ) (star : List (List ℕ)) → Induces g star choice → (f : ℕ) → f < length g.faces → (x : Triangulation) → IsItem (patch_at g f) (slice_index choice f) x → (ts : List Triangle) → IsRestriction (patch_at g f) star ts → (t : Triangle) → IsTripleOf ts t ↔ IsTripleOf x.triangles t }
    ensures order { (push : Push) (n : ℕ) → IsOrder n (order_of push n) }
    ensures induced { (g : Shape) (choice : List ℕ) → IsShape g → IsExtendable g choice → IsInduced g choice }
{}
