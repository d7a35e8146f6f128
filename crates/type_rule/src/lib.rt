//! Each legal step keeps what entries and words of vCPUs lead to, whom they are permitted, and what holds of dead
//! and dying domains. These functions do nothing: their contracts are laws.
#![tactic(auto)]

ghost use Rattle.std.specs.Prelude.{ℕ};
ghost use Rattle.xp_words.specs.Places.{sizes_of};
ghost use Rattle.xp_board.specs.Valid.{Valid, Permitted};
ghost use Rattle.xp_board.specs.Sound.{Domains};
ghost use Rattle.xp_board.specs.Keeping.{KeepsMark, KeepsAct};

/// A recorded entry asks nothing that is refused, and leads to a live frame; but the last one of a partial table, or one that is not
/// settled, may lead to a frame that is partial or in work. Descriptor pages hold fixed words, and the words of vCPUs name live frames.
pub fn entries_still_lead_well()
    ensures marks { KeepsMark (λ n m h. Valid (sizes_of n) m h) }
    ensures acts { KeepsAct (λ n m h. Valid (sizes_of n) m h) }
{}

/// A recorded entry leads to a frame of the table's owner; at the lowest level also to a free one, or to one of a domain over which
/// the owner has or had privilege. A word of a vCPU leads to a frame of its own domain.
pub fn entries_stay_permitted()
    ensures marks { KeepsMark (λ n m h. Permitted n m h) }
    ensures acts { KeepsAct (λ n m h. Permitted n m h) }
{}

/// A dead domain has no frame that is allocated or pinned, and none that is kept but where a vCPU has still to look whether the domain
/// lives; its vCPUs are stopped and name no frame. While a domain is dying, what its destroying vCPU has found so is so.
pub fn the_dead_stay_dead()
    ensures marks { KeepsMark (λ n m h. Domains n m h) }
    ensures acts { KeepsAct (λ n m h. Domains n m h) }
{}
