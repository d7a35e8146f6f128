//! The lock of a table, taken off for a pause and taken again.
ghost use Rattle.std.specs.Prelude.{◌≡◌, ◌≤◌, ℕ, true};
ghost use Rattle.xp_words.specs.Machine.{IsMachine};
ghost use Rattle.xp_board.specs.Told.{PortValue, is_telling, told_word};
ghost use Rattle.table_law.specs.Plain.{Describes, Plain};
ghost use Rattle.entry_exchange.specs.Course.{LeftLock};
ghost use Rattle.exchange_laws.specs.Locks.{LocksAgain};

/// On a board that tells all words a table that is locked again is as it was under the lock before.
pub fn a_table_that_is_locked_again_is_as_before()
    ensures { (v u w : PortValue) (f owner level : ℕ) (p : Plain) → IsMachine v.post.machine → is_telling v ≡ true → 1 ≤ level → Describes v.post.machine (told_word v) p → LeftLock v f level u → LocksAgain u w f owner level → Describes v.post.machine (told_word w) p }
{}
