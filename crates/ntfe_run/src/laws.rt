//! Laws: what fine regular star triangulations leave on two-faces, and what the texts of runs show.
ghost use Rattle.std.specs.Prelude.{◌<◌, ℕ, List, length};
ghost use Rattle.ntfe_model.specs.Shapes.{Shape, IsShape};
ghost use Rattle.ntfe_model.specs.Charts.{patch_at};
ghost use Rattle.ntfe_model.specs.Words.{IsItem};
ghost use Rattle.ntfe_model.specs.Stars.{IsFrst, Leaves};
ghost use Rattle.ntfe_model.specs.declared.triangulation.Triangulation.{Triangulation};

mod texts;

pub use texts::{
    done_shows_each_class, resumed_text_is_whole, run_text_exists, stopped_texts_begin_whole_ones,
    texts_show_each_choice,
};

/// A law: a fine regular star triangulation leaves an item on each two-face, so it induces a choice.
/// The triples that it leaves are a fine triangulation of the two-face (De Loera, Rambau and Santos,
/// "Triangulations"; the restriction to two-faces is after MacFadden, arXiv 2309.10855), and every
/// fine triangulation of a two-face has a word and a number. The function does nothing: its contract
/// is the law.
pub fn restriction_is_item()
    ensures { (g : Shape) (star : List (List ℕ)) (f : ℕ) → IsShape g → IsFrst g.pair.dual g.points star → f < length g.faces → (n : ℕ) × (x : Triangulation) × IsItem (patch_at g f) n x × Leaves (patch_at g f) star x }
{}
