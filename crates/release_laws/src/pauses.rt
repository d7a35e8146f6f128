//! Releases under every gate.
ghost use Rattle.std.specs.Prelude.{◌≡◌, ◌<◌, ◌≤◌, ℕ, true, Bool, List, Option, Ok, Err};
ghost use Rattle.xp_words.specs.Machine.{IsMachine, Machine};
ghost use Rattle.xp_words.specs.declared.reply.Pause.TheVariants.{Due};
ghost use Rattle.xp_words.specs.declared.reply.Stop.TheVariants.{Paused};
ghost use Rattle.xp_board.specs.Told.{PortValue, is_telling, told_word};
ghost use Rattle.partial_state.specs.Levels.{level_type};
ghost use Rattle.table_law.specs.Plain.{Describes, Plain};
ghost use Rattle.table_law.specs.Release.{let_go};
ghost use Rattle.level_release.specs.Course.{Settled, WasReleased};
ghost use Rattle.release_laws.specs.Pauses.{IsLeft, SecondIsNone, ReleasedAtLast, SettledAtLast};

/// A release that the gate pauses leaves as much to give back as there was.
pub fn a_paused_release_leaves_the_rest()
    ensures { (v w : PortValue) (f level : ℕ) (answers : List Bool) (p : Plain) → is_telling v ≡ true → f < v.post.machine.frames → level ≤ 4 →
        Describes v.post.machine (told_word v) p → WasReleased v f (level_type level) w answers (Err (Paused Due)) → IsLeft v.post.machine w f level (let_go level f p) }
{}

/// What is settled behind it leaves what the whole release leaves, or, where the gate pauses it again, again the rest.
pub fn what_is_settled_goes_on_with_the_rest()
    ensures done { (below : Option ℕ) (n : Machine) (v w : PortValue) (f level : ℕ) (answers : List Bool) (q : Plain) → IsLeft n v f level q → (a : Settled below v w answers (Ok tt)) → SecondIsNone a → Describes n (told_word w) q }
    ensures paused { (below : Option ℕ) (n : Machine) (v w : PortValue) (f level : ℕ) (answers : List Bool) (q : Plain) → IsLeft n v f level q → (a : Settled below v w answers (Err (Paused Due))) → SecondIsNone a → IsLeft n w f level q }
{}

/// So it does not matter how often and where the gate pauses a release.
pub fn preemption_is_invisible_to_releases()
    ensures settled { (n : Machine) (v w : PortValue) (f level : ℕ) (q : Plain) → IsLeft n v f level q → SettledAtLast v w → Describes n (told_word w) q }
    ensures released { (v w : PortValue) (f level : ℕ) (p : Plain) → is_telling v ≡ true → f < v.post.machine.frames → level ≤ 4 →
        Describes v.post.machine (told_word v) p → ReleasedAtLast v f level w → Describes v.post.machine (told_word w) (let_go level f p) }
{}
