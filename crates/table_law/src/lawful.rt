//! A plain acquisition is refused nothing exactly where its tree is lawful.
ghost use Rattle.std.specs.Prelude.{◌≡◌, ◌↔◌, ℕ, ◌≤◌, None};
ghost use Rattle.xp_words.specs.Machine.{Machine};
ghost use Rattle.xp_board.specs.Lawful.{Lawful};
ghost use Rattle.step_maker.specs.Plain.{Words};
ghost use Rattle.partial_state.specs.Levels.{level_type};
ghost use Rattle.table_law.specs.Alone.{alone};
ghost use Rattle.table_law.specs.Lawful.{PlainLawful, IsRested, IsAtRest};
ghost use Rattle.table_law.specs.Plain.{Plain, Describes, plain_of};

/// Where nothing is unfinished, the acquisition of a frame with the type of level l (0 is ordinary memory) is refused nothing
/// exactly where its tree is lawful.
pub fn a_plain_acquisition_is_fine_where_lawful()
    ensures { (n : Machine) (owner l f : ℕ) (p : Plain) → l ≤ 4 → IsRested n p → PlainLawful n owner p f (level_type l) ↔ ((alone n owner l f p).refusal ≡ None) }
{}

/// All words are described by some plain value.
pub fn words_are_described()
    ensures { (n : Machine) (m : Words) → Describes n m (plain_of m) }
{}

/// So the words of a machine at rest tell by themselves whether an acquisition would be fine: their tree of tables is lawful,
/// whichever plain value describes them.
pub fn an_acquisition_is_fine_where_the_words_are_lawful()
    ensures { (n : Machine) (owner l f : ℕ) (m : Words) (p : Plain) → l ≤ 4 → IsAtRest n m → Describes n m p →
        Lawful n owner m f (level_type l) ↔ ((alone n owner l f p).refusal ≡ None) }
{}
