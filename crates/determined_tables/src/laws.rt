ghost use Rattle.std.specs.Prelude.{◌≡◌, ℕ, Bool, List, Option, Result, Ok};
ghost use Rattle.xp_words.specs.declared.kind.KindWord.{KindWord};
ghost use Rattle.xp_words.specs.declared.kind.PageType.{PageType};
ghost use Rattle.xp_words.specs.declared.reply.Stop.{Stop};
ghost use Rattle.xp_preempt.specs.Gates.{GivesAnswers};
ghost use Rattle.xp_board.specs.Told.{PortValue};
ghost use Rattle.partial_state.specs.declared.stack.TableWork.{TableWork};
ghost use Rattle.kept_marks.specs.Marks.{KeptFor};
ghost use Rattle.table_entries.specs.Acquiring.{Acquired, Advanced, ResumedEntry, TookEntry, Unwound};
ghost use Rattle.table_entries.specs.declared.entries.Entered.{Entered};
ghost use Rattle.table_entries.specs.declared.resuming.Resumed.{Resumed};
ghost use Rattle.writable_pages.specs.Pages.{GotPage, TookPage};
ghost use Rattle.whole_pages.specs.Whole.{ClearsPage, CopiesPage};
ghost use Rattle.desc_pages.specs.Descriptors.{UpdatesDescriptor};
ghost use Rattle.desc_pages.specs.Gdt.{SetsGdt};
ghost use Rattle.desc_pages.specs.Ldt.{SetsLdt};
ghost use Rattle.desc_pages.specs.Names.{NamesPage};
ghost use Rattle.desc_pages.specs.Pages.{GotDesc, TookDesc};
ghost use Rattle.ldt_pages.specs.Touching.{TouchesLdt};
ghost use Rattle.determined_laws.specs.Courses.{Alike};

/// The next entry of a table in work (table_entries `take_entry`).
pub fn a_table_entry_is_determined()
    ensures { (v w x : PortValue) (owner : ℕ) (t : TableWork) (a b : Result Entered Stop) → TookEntry v w owner t a → TookEntry v x owner t b → Alike v w x (a ≡ b) }
{}

/// The last recorded entry of a table, looked at again (table_entries `resume_entry`).
pub fn an_entry_looked_at_again_is_determined()
    ensures { (v w x : PortValue) (owner : ℕ) (t : TableWork) (a b : Result Resumed Stop) → ResumedEntry v w owner t a → ResumedEntry v x owner t b → Alike v w x (a ≡ b) }
{}

/// A frame that is left with its own mark (kept_marks `leave_kept`).
pub fn a_kept_mark_is_determined()
    ensures { (v w x : PortValue) (f : ℕ) (k : KindWord) (owner : ℕ) → KeptFor v w f k owner → KeptFor v x f k owner → Alike v w x (Unit {0}) }
{}

/// Tables in work that are left, the innermost first (level_validate).
pub fn tables_left_are_determined()
    ensures { (v w x : PortValue) (owner : ℕ) (ts : List TableWork) (kept : Bool) → Unwound v owner ts kept w → Unwound v owner ts kept x → Alike v w x (Unit {0}) }
{}

/// One entry of the innermost table in work, with the way down to one that was left; or that table itself, where it is full (level_validate).
pub fn a_round_of_tables_is_determined()
    ensures { (v w x : PortValue) (owner : ℕ) (ts us xs : List TableWork) (a b : Result Bool Stop) → Advanced owner v ts w us a → Advanced owner v ts x xs b → Alike v w x ((us ≡ xs) × (a ≡ b)) }
{}

/// A whole table that is taken, with the answers of one gate (level_validate `acquire`).
pub fn an_acquisition_is_determined()
    ensures { (v w x : PortValue) (f owner level : ℕ) (answers others : List Bool) (a b : Result ℕ Stop) (says : ℕ → Bool) (n : ℕ) → GivesAnswers says n answers → GivesAnswers says n others →
        Acquired v f owner level w answers a → Acquired v f owner level x others b → Alike v w x ((answers ≡ others) × (a ≡ b)) }
{}

/// A frame that is taken as ordinary memory (writable_pages `get_page`).
pub fn a_page_is_determined()
    ensures { (v w x : PortValue) (f owner : ℕ) (a b : Result ℕ Stop) → GotPage v f owner w a → GotPage v f owner x b → Alike v w x (a ≡ b) }
{}

/// The same under a reference that is in hand (writable_pages `take_page`).
pub fn a_page_taken_is_determined()
    ensures { (v w x : PortValue) (f owner : ℕ) (a b : Result (Unit {0}) Stop) → TookPage v f owner w a → TookPage v f owner x b → Alike v w x (a ≡ b) }
{}

/// A frame that is cleared (whole_pages `clear_page`).
pub fn a_cleared_page_is_determined()
    ensures { (v w x : PortValue) (d f : ℕ) (a b : Result (Unit {0}) Stop) → ClearsPage v d f w a → ClearsPage v d f x b → Alike v w x (a ≡ b) }
{}

/// A frame that is copied into another one; and the words, where it is (whole_pages `copy_page`).
pub fn a_copied_page_is_determined()
    ensures { (v w x : PortValue) (d to from : ℕ) (words others : List ℕ) (a b : Result (Unit {0}) Stop) → CopiesPage v d to from words w a → CopiesPage v d to from others x b →
        Alike v w x ((a ≡ b) × (a ≡ Ok tt → words ≡ others)) }
{}

/// A frame that is taken as a descriptor page, word by word where it is read first (desc_pages `get_desc`).
pub fn a_descriptor_page_is_determined()
    ensures { (v w x : PortValue) (f owner : ℕ) (a b : Result ℕ Stop) → GotDesc v f owner w a → GotDesc v f owner x b → Alike v w x (a ≡ b) }
{}

/// The same under a reference that is in hand (desc_pages `take_desc`).
pub fn a_descriptor_page_taken_is_determined()
    ensures { (v w x : PortValue) (f owner : ℕ) (a b : Result (Unit {0}) Stop) → TookDesc v f owner w a → TookDesc v f owner x b → Alike v w x (a ≡ b) }
{}

/// A word of a vCPU that names a descriptor page, and what it named before, which is given back (desc_pages `put_page`).
pub fn a_named_page_is_determined()
    ensures { (v w x : PortValue) (k : ℕ) (new : Option ℕ) → NamesPage v w k new → NamesPage v x k new → Alike v w x (Unit {0}) }
{}

/// A descriptor that is written for the guest, and the type for which its frame is taken (desc_pages `update_descriptor`).
pub fn a_descriptor_update_is_determined()
    ensures { (v w x : PortValue) (address word : ℕ) (want other : PageType) (a b : Result (Unit {0}) Stop) → UpdatesDescriptor v address word want w a → UpdatesDescriptor v address word other x b → Alike v w x ((want ≡ other) × (a ≡ b)) }
{}

/// The GDT of a vCPU that is set (desc_pages `set_gdt`).
pub fn a_gdt_is_determined()
    ensures { (v w x : PortValue) (entries : ℕ) (fs : List ℕ) (a b : Result (Unit {0}) Stop) → SetsGdt v entries fs w a → SetsGdt v entries fs x b → Alike v w x (a ≡ b) }
{}

/// Its LDT that is set (desc_pages `set_ldt`).
pub fn an_ldt_is_determined()
    ensures { (v w x : PortValue) (address entries : ℕ) (a b : Result (Unit {0}) Stop) → SetsLdt v address entries w a → SetsLdt v address entries x b → Alike v w x (a ≡ b) }
{}

/// A page of the own LDT that is touched; where the LDT was found to be, and the frame that its word names then (ldt_pages `touch_ldt`).
pub fn a_touch_is_determined()
    ensures { (v w x : PortValue) (page base other : ℕ) (frame second : Option ℕ) (a b : Result (Unit {0}) Stop) → TouchesLdt v page base frame w a → TouchesLdt v page other second x b → Alike v w x ((base ≡ other) × (frame ≡ second) × (a ≡ b)) }
{}
