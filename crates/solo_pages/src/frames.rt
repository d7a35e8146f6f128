//! Frames as ordinary memory.
ghost use Rattle.std.specs.Prelude.{◌≡◌, ◌<◌, ℕ, true, None, Result, Ok};
ghost use Rattle.xp_words.specs.Machine.{IsMachine, Machine};
ghost use Rattle.xp_words.specs.declared.kind.PageType.TheVariants.{Writable};
ghost use Rattle.xp_words.specs.declared.reply.Stop.{Stop};
ghost use Rattle.xp_board.specs.Told.{PortValue, is_telling, told_word};
ghost use Rattle.table_entries.specs.Acquiring.{GaveType};
ghost use Rattle.writable_pages.specs.Pages.{GotPage};
ghost use Rattle.course_laws.specs.Courses.{IsOrderly};
ghost use Rattle.table_law.specs.Alone.{alone};
ghost use Rattle.table_law.specs.Plain.{Describes, Plain};
ghost use Rattle.table_law.specs.Release.{let_go};
ghost use Rattle.solo_pages.specs.Shown.{AreWhole, SameBeside};
ghost use Rattle.solo_pages.specs.Ends.{EndsAs, IsEnded};

/// On a board that tells all words, of which no frame is unfinished, a frame of any owner is taken as ordinary memory, or refused, as the plain value is; and a frame that is held
/// so is given back as on the plain value, whatever was stored there meanwhile. All words beside those of frames stay.
pub fn memory_is_taken_and_given_back()
    ensures taken { (n : Machine) (v w : PortValue) (f owner : ℕ) (p : Plain) (answer : Result ℕ Stop) → IsMachine n → v.post.machine ≡ n → is_telling v ≡ true → Describes n (told_word v) p → AreWhole n p → IsOrderly n (told_word v) →
        IsEnded answer → GotPage v f owner w answer → EndsAs n (told_word w) (alone n owner 0 f p) answer × SameBeside (told_word v) (told_word w) }
    ensures given { (n : Machine) (v w : PortValue) (f : ℕ) (p : Plain) → v.post.machine ≡ n → is_telling v ≡ true → Describes n (told_word v) p → GaveType v w f Writable → Describes n (told_word w) (let_go 0 f p) × SameBeside (told_word v) (told_word w) }
    ensures whole { (n : Machine) (owner f : ℕ) (p : Plain) → AreWhole n p → AreWhole n (alone n owner 0 f p).left × (f < n.frames → AreWhole n (let_go 0 f p)) }
{}
