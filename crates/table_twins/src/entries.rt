//! The next entry of a table in work.
ghost use Rattle.std.specs.Prelude.{◌≡◌, ◌<◌, ◌≤◌, ℕ, suc, true, Result};
ghost use Rattle.xp_words.specs.Entries.{demand_at};
ghost use Rattle.xp_words.specs.Machine.{IsMachine};
ghost use Rattle.xp_words.specs.declared.place.Place.TheVariants.{Cell};
ghost use Rattle.xp_words.specs.declared.reply.Stop.{Stop};
ghost use Rattle.xp_board.specs.Told.{PortValue, is_telling, told_word};
ghost use Rattle.table_entries.specs.Plain.{TwinEntry};
ghost use Rattle.table_entries.specs.declared.entries.Entered.{Entered};
ghost use Rattle.partial_state.specs.Levels.{level_type};
ghost use Rattle.table_law.specs.Alone.{meet, take_at};
ghost use Rattle.table_law.specs.Levels.{entry_of};
ghost use Rattle.table_law.specs.Plain.{Describes, Plain};
ghost use Rattle.table_twins.specs.Entries.{EntersAsPlain};

/// Where the words are described by a plain value, the next entry of a table of level l + 1 is recorded as that value meets it, is
/// refused for the same cause, or opens a table that is dead there. What is taken is said of a frame that is nobody's work, and
/// unfinished in nothing. Else the words say what is waited for: a flush, or the holder of a busy frame.
#[tactic(auto, using(crate::proofs::Entering::enters_plain))]
pub fn an_entry_is_met_as_by_the_plain_value()
    ensures { (v w : PortValue) (p : Plain) (f i l owner : ℕ) (answer : Result Entered Stop) → IsMachine v.post.machine → Describes v.post.machine (told_word v) p → f < v.post.machine.frames → i < 512 → l ≤ 3 → is_telling v ≡ true →
        TwinEntry v w f (level_type (suc l)) i owner answer →
        EntersAsPlain v.post.machine l owner p (meet v.post.machine owner (take_at l v.post.machine owner) f i p (entry_of p (level_type (suc l)) f i)) (told_word v) (told_word w) (demand_at (level_type (suc l)) i (told_word v (Cell f i))) answer }
{}
