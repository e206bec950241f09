//! What the stars of heights and an order of pushing leave on two-faces.
ghost use Rattle.std.specs.Prelude.{ℕ, List};
ghost use Rattle.ntfe_model.specs.Shapes.{Shape, IsShape};
ghost use Rattle.ntfe_model.specs.Choices.{IsExtendable};
ghost use Rattle.ntfe_model.specs.Stars.{IsInduced};

/// A law: a choice that some fine regular star triangulation induces is extendable. So ties of
/// heights, which the star breaks along its order of pushing, give no choice that heights alone do
/// not give. The function does nothing: its contract is the law.
///
/// Regular triangulations by pushing: De Loera, Rambau and Santos, "Triangulations".
pub fn induced_is_extendable()
    ensures { (g : Shape) (choice : List ℕ) → IsShape g → IsInduced g choice → IsExtendable g choice }
{}
