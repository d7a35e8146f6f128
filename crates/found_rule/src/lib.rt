//! Each legal step, of any vCPU, keeps true what all vCPUs have found, and keeps their holdings well formed: its mark
//! does, and its act does. These functions do nothing: their contracts are laws.
#![tactic(auto)]

ghost use Rattle.std.specs.Prelude.{◌≡◌, ℕ, ◌<◌, IsTrue};
ghost use Rattle.xp_words.specs.Machine.{Machine};
ghost use Rattle.xp_words.specs.declared.place.Place.{Place};
ghost use Rattle.xp_words.specs.declared.place.Place.TheVariants.{Refs};
ghost use Rattle.xp_words.specs.Places.{sizes_of};
ghost use Rattle.xp_words.specs.declared.entry.Demand.TheVariants.{Typed};
ghost use Rattle.xp_words.specs.declared.kind.PageType.{PageType};
ghost use Rattle.xp_board.specs.Keeping.{KeepsMark, KeepsAct};
ghost use Rattle.xp_board.specs.Found.{Found};
ghost use Rattle.xp_board.specs.Marks.{MayShed, demand_seen};
ghost use Rattle.xp_board.specs.Readings.{is_live, kind_at, owner_of};
ghost use Rattle.xp_board.specs.Settling.{is_settled};
ghost use Rattle.xp_board.specs.Sound.{Sound};
ghost use Rattle.xp_board.specs.Valid.{EntryPermitted};
ghost use Rattle.xp_board.specs.WellFormed.{WellFormed};
ghost use Rattle.xp_board.specs.declared.holdings.Holdings.{Holdings};
ghost use Rattle.xp_board.specs.declared.holdings.Work.{Work};

/// What a vCPU has found, and on which the legality of its next steps rests, is so still: clock values and stamps, flushes, run, life
/// and privilege words, owners and types of frames of which it has references, and the words of frames that are in its hand alone.
pub fn what_was_found_stays_true()
    ensures marks { KeepsMark (λ n m h. (s : ℕ) → s < (sizes_of n).vcpus → Found n m h s) }
    ensures acts { KeepsAct (λ n m h. (s : ℕ) → s < (sizes_of n).vcpus → Found n m h s) }
{}

/// The parts of a vCPU's holdings fit one another, and what is noted in them is what its steps found last.
pub fn holdings_stay_well_formed()
    ensures marks { KeepsMark (λ n m h. (s : ℕ) → s < (sizes_of n).vcpus → WellFormed n s (h s)) }
    ensures acts { KeepsAct (λ n m h. (s : ℕ) → s < (sizes_of n).vcpus → WellFormed n s (h s)) }
{}

/// The entry that a table in the own work would shed leads where that table may: a table below it has the same owner. Where the entry is
/// settled its frame is live with the type that the entry asks. So what comes back by Shed can be given back, or recorded again.
pub fn a_shed_entry_leads_where_its_table_may()
    ensures permitted { (n : Machine) (m : Place → ℕ) (h : ℕ → Holdings) (s f upto g : ℕ) (e : Work) (t : PageType) → s < (sizes_of n).vcpus → Sound n m h → MayShed f upto (h s) e →
        demand_seen upto e ≡ Typed g t → EntryPermitted m (kind_at m f).kind (owner_of (m (Refs f))) g }
    ensures live { (n : Machine) (m : Place → ℕ) (h : ℕ → Holdings) (s f upto g : ℕ) (e : Work) (t : PageType) → s < (sizes_of n).vcpus → Sound n m h → MayShed f upto (h s) e →
        demand_seen upto e ≡ Typed g t → IsTrue (is_settled (sizes_of n) (h s) e) → IsTrue (is_live (kind_at m g)) × ((kind_at m g).kind ≡ t) }
{}
