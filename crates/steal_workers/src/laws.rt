//! What the blocks of a list are: each extendable choice has one.
ghost use Rattle.std.specs.Prelude.{◌≡◌, ◌⊎◌, ℕ, ℤ, List, Option};
ghost use Rattle.ntfe_model.specs.Shapes.{Shape, IsShape};
ghost use Rattle.ntfe_model.specs.Choices.{IsChoice, Extends, IsExtendable};
ghost use Rattle.ntfe_model.specs.Keys.{IsAfter, AreHeightsOf};
ghost use Rattle.ntfe_model.specs.RunText.{Form, Block, IsBlockOf};

/// A law: the stated solver without a width comes to an end on the folds of every choice, with heights
/// exactly where the choice is extendable. So each extendable choice after the start has its block, and
/// two blocks of one choice are one. The function does nothing: its contract is the law.
pub fn extendable_has_block()
    ensures decided { (g : Shape) (choice : List ℕ) → IsShape g → IsChoice g choice → ((heights : List ℤ) × AreHeightsOf g choice heights × Extends g heights choice) ⊎ ¬ (IsExtendable g choice) }
    ensures heights { (g : Shape) (choice : List ℕ) → IsShape g → IsExtendable g choice → (heights : List ℤ) × AreHeightsOf g choice heights × Extends g heights choice }
    ensures block { (g : Shape) (form : Form) (start : Option (List ℕ)) (choice : List ℕ) → IsShape g → IsExtendable g choice → IsAfter start choice → (b : Block) × (b.choice ≡ choice) × IsBlockOf g form start b }
    ensures only { (g : Shape) (form : Form) (start : Option (List ℕ)) (a b : Block) → IsBlockOf g form start a → IsBlockOf g form start b → a.choice ≡ b.choice → a ≡ b }
{}
