//! That the text of each run exists, what it shows, and how a text that was cut goes on.
ghost use Rattle.std.specs.Prelude.{◌≡◌, ◌≤◌, ℕ, List, ◌++◌, Option, Some, None, take};
ghost use Rattle.ntfe_model.specs.Lists.{IsBelow};
ghost use Rattle.ntfe_model.specs.Shapes.{Shape, IsShape};
ghost use Rattle.ntfe_model.specs.Choices.{IsExtendable};
ghost use Rattle.ntfe_model.specs.Keys.{IsAfter};
ghost use Rattle.ntfe_model.specs.Stars.{IsInduced};
ghost use Rattle.ntfe_model.specs.Earlier.{IsKeptOf};
ghost use Rattle.ntfe_model.specs.RunText.{Form, Block, Kept, nothing_kept, AreBlocks, IsRunText, IsStoppedText};
ghost use Rattle.ntfe_words.specs.CommandLine.{IsMeaning};
ghost use Rattle.ntfe_words.specs.declared.command.Command.TheVariants.{Classes, Resume};
ghost use Rattle.ntfe_words.specs.declared.command.Options.{Options};
ghost use Rattle.steal_workers.specs.Listings.{Listed, IsUpTo};
ghost use Rattle.ntfe_run.specs.Answers.{IsRun};
ghost use Rattle.ntfe_run.specs.Commands.{form_of_options, listed_with, classes_room, resume_room, IsDueText, IsListText};
ghost use Rattle.ntfe_run.specs.Earlier.{layout};
ghost use Rattle.ntfe_run.specs.Edges.{Edges};
ghost use Rattle.ntfe_run.specs.Rooms.{TakesAll};
ghost use Rattle.ntfe_run.specs.Shown.{ShowsChoice};
ghost use Rattle.ntfe_run.specs.declared.status.Status.TheVariants.{Done};

/// A law: for every geometry, form and start the list of the blocks of exactly the extendable choices
/// after the start exists; so for all that may be kept and every limit the text of a run exists, and
/// there is only one. The function does nothing: its contract is the law.
pub fn run_text_exists()
    ensures blocks { (g : Shape) (form : Form) (start : Option (List ℕ)) → IsShape g → (blocks : List Block) × AreBlocks g form start blocks }
    ensures text { (g : Shape) (form : Form) (kept : Kept) (limit : Option ℕ) → IsShape g → (text : List ℕ) × IsRunText g form kept limit text }
    ensures only { (g : Shape) (form : Form) (kept : Kept) (limit : Option ℕ) (text other : List ℕ) → IsRunText g form kept limit text → IsRunText g form kept limit other → text ≡ other }
{}

/// A law: in the text of a run without a limit stands the block of each extendable choice after the
/// start, so of each that some fine regular star triangulation induces; in a text that stops below a
/// choice or key, the block of each below it; in a text that comes to its limit, the block of each up to
/// the last one. The function does nothing: its contract is the law.
pub fn texts_show_each_choice()
    ensures extendable { (g : Shape) (form : Form) (kept : Kept) (text choice : List ℕ) → IsShape g → IsRunText g form kept None text → IsExtendable g choice → IsAfter kept.last choice → ShowsChoice g form choice text }
    ensures induced { (g : Shape) (form : Form) (kept : Kept) (text choice : List ℕ) → IsShape g → IsRunText g form kept None text → IsInduced g choice → IsAfter kept.last choice → ShowsChoice g form choice text }
    ensures stopped { (g : Shape) (form : Form) (kept : Kept) (limit : Option ℕ) (bound text choice : List ℕ) → IsShape g → IsStoppedText g form kept limit bound text → IsExtendable g choice → IsAfter kept.last choice → IsBelow choice bound → ShowsChoice g form choice text }
    ensures due { (l : Listed) (kept : Kept) (text choice : List ℕ) → IsShape l.geometry → (h : IsDueText l kept text) → IsExtendable l.geometry choice → IsAfter l.start choice → IsUpTo h.last choice → ShowsChoice l.geometry l.form choice text }
{}

/// A law: where a run of `classes` without a limit ends with `Done`, `out` took a text in which stands
/// the block of each choice that some fine regular star triangulation induces; of `resume`, of each after
/// the last kept one. The function does nothing: its contract is the law.
pub fn done_shows_each_class()
    ensures classes { (words : List (List ℕ)) (e : Edges) (o : Options) → IsRun words e Done → IsMeaning words (Classes o) → o.limit ≡ None → TakesAll (classes_room o) (λ g text. (choice : List ℕ) → IsInduced g choice → ShowsChoice g (form_of_options o) choice text) e }
    ensures resume { (words : List (List ℕ)) (e : Edges) (o : Options) → IsRun words e Done → IsMeaning words (Resume o) → o.limit ≡ None
        → TakesAll (resume_room o) (λ i text. (choice : List ℕ) → IsInduced i.geometry choice → IsAfter i.kept.last choice → ShowsChoice i.geometry (form_of_options o) choice text) e }
{}

/// A law: what a run writes that comes to its limit is the text of a run with this limit, and what it
/// writes that stops at a choice or key is a beginning of one. The function does nothing: its contract is the law.
pub fn stopped_texts_begin_whole_ones()
    ensures due { (o : Options) (g : Shape) (kept : Kept) (text : List ℕ) → IsShape g → IsListText (listed_with o g kept) kept text → IsRunText g (form_of_options o) kept o.limit text }
    ensures stopped { (g : Shape) (form : Form) (kept : Kept) (limit : Option ℕ) (bound text : List ℕ) → IsShape g → IsStoppedText g form kept limit bound text → (cut : List ℕ) × IsRunText g form kept None (text ++ cut) }
{}

/// A law: what is kept of a beginning of the text of a run, and the text that goes on after it, are
/// together the whole text, to the byte. The beginning may be cut anywhere, and the two may have other
/// limits, as long as no more blocks are kept than the second asks for. So it is with each beginning of
/// what `classes` wrote, and what `resume` writes in the same form. The function does nothing: its
/// contract is the law.
pub fn resumed_text_is_whole()
    ensures whole { (g : Shape) (form : Form) (text earlier cut rest : List ℕ) (kept : Kept) → IsRunText g form nothing_kept None text → text ≡ earlier ++ cut → IsKeptOf (layout form g) earlier kept → IsRunText g form kept None rest → take kept.bytes earlier ++ rest ≡ text }
    ensures limits { (g : Shape) (form : Form) (limit other : Option ℕ) (text earlier cut rest : List ℕ) (kept : Kept) → IsRunText g form nothing_kept limit text → text ≡ earlier ++ cut → IsKeptOf (layout form g) earlier kept
        → ((n : ℕ) → other ≡ Some n → kept.blocks ≤ n) → IsRunText g form kept other rest → IsRunText g form nothing_kept other (take kept.bytes earlier ++ rest) }
    ensures written { (o p : Options) (g : Shape) (text earlier cut rest : List ℕ) (kept : Kept) → IsShape g → form_of_options p ≡ form_of_options o → IsListText (listed_with o g nothing_kept) nothing_kept text → text ≡ earlier ++ cut
        → IsKeptOf (layout (form_of_options o) g) earlier kept → ((n : ℕ) → p.limit ≡ Some n → kept.blocks ≤ n) → IsListText (listed_with p g kept) kept rest → IsRunText g (form_of_options p) nothing_kept p.limit (take kept.bytes earlier ++ rest) }
{}
