//! Each legal step keeps the counts of the machine, its spellings, who has a frame in its hand alone, its
//! stamps and its free map: its mark does, and its act does. These functions do nothing: their contracts are laws.
#![tactic(auto)]

ghost use Rattle.std.specs.Prelude.{ℕ, ◌<◌};
ghost use Rattle.xp_words.specs.Places.{sizes_of};
ghost use Rattle.xp_board.specs.Lists.{EachOf};
ghost use Rattle.xp_board.specs.Recorded.{CountsAgree};
ghost use Rattle.xp_board.specs.Sound.{Spelled, HeldAlone, WorkAgrees, Stamped, Idle, FreeMap};
ghost use Rattle.xp_board.specs.Keeping.{KeepsMark, KeepsAct};

/// Each word stays a spelling, and below 2^64.
pub fn words_stay_spelled()
    ensures marks { KeepsMark (λ n m h. Spelled n m) }
    ensures acts { KeepsAct (λ n m h. Spelled n m) }
{}

/// The two counts of each frame stay the numbers of references that name it, each typed one of the type of
/// its frame, and the page counts of domains the numbers of their frames and credits.
pub fn counts_stay_right()
    ensures marks { KeepsMark (λ n m h. CountsAgree (sizes_of n) m h) }
    ensures acts { KeepsAct (λ n m h. CountsAgree (sizes_of n) m h) }
{}

/// A frame in work, closing, locked or dying stays in one hand.
pub fn frames_stay_held_alone()
    ensures marks { KeepsMark (λ n m h. HeldAlone n m h) }
    ensures acts { KeepsAct (λ n m h. HeldAlone n m h) }
{}

/// Nothing is recorded of a marked frame in work, and a closing one keeps an untyped reference.
pub fn works_stay_right()
    ensures marks { KeepsMark (λ n m h. (s : ℕ) → s < (sizes_of n).vcpus → EachOf (WorkAgrees (h s)) (h s).works) }
    ensures acts { KeepsAct (λ n m h. (s : ℕ) → s < (sizes_of n).vcpus → EachOf (WorkAgrees (h s)) (h s).works) }
{}

/// No stamp is past the clock.
pub fn stamps_stay_below_the_clock()
    ensures marks { KeepsMark (λ n m h. Stamped n m) }
    ensures acts { KeepsAct (λ n m h. Stamped n m) }
{}

/// A vCPU that does not run has nothing in its hand, and no translations.
pub fn idle_hands_stay_empty()
    ensures marks { KeepsMark (λ n m h. (v : ℕ) → v < (sizes_of n).vcpus → Idle n m h v) }
    ensures acts { KeepsAct (λ n m h. (v : ℕ) → v < (sizes_of n).vcpus → Idle n m h v) }
{}

/// The free map has the bits of the free frames and of the raised ones.
pub fn the_map_stays_right()
    ensures marks { KeepsMark (λ n m h. FreeMap n m h) }
    ensures acts { KeepsAct (λ n m h. FreeMap n m h) }
{}
