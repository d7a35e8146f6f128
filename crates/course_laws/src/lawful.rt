//! Which trees of page tables are had.
ghost use Rattle.std.specs.Prelude.{◌≡◌, ◌↔◌, ◌≤◌, ℕ, true, Bool, List, Result};
ghost use Rattle.xp_words.specs.Machine.{IsMachine};
ghost use Rattle.xp_words.specs.declared.reply.Stop.{Stop};
ghost use Rattle.xp_board.specs.Lawful.{Lawful};
ghost use Rattle.xp_board.specs.Told.{PortValue, is_telling, told_word};
ghost use Rattle.partial_state.specs.Levels.{level_type};
ghost use Rattle.table_law.specs.Lawful.{IsAtRest};
ghost use Rattle.table_entries.specs.Acquiring.{Acquired};
ghost use Rattle.course_laws.specs.Courses.{IsDecided, IsHad, IsOrderly};

/// On a board that tells all words, which are at rest, a frame is had as a table exactly where its tree is lawful, unless the
/// acquisition pauses or finds the clock at its last value.
pub fn a_decided_acquisition_is_had_exactly_where_lawful()
    ensures { (v w : PortValue) (f owner level : ℕ) (answers : List Bool) (answer : Result ℕ Stop) → IsMachine v.post.machine → is_telling v ≡ true → IsAtRest v.post.machine (told_word v) → IsOrderly v.post.machine (told_word v) → 1 ≤ level → level ≤ 4 →
        Acquired v f owner level w answers answer → IsDecided answer → (Lawful v.post.machine owner (told_word v) f (level_type level) ↔ IsHad answer) }
{}
