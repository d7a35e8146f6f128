//! How one phase of a destruction opens the next, and the last what a dead domain leaves. These functions do nothing: their contracts are laws.
ghost use Rattle.std.specs.Prelude.{ℕ, ◌≤◌, List, length};
ghost use Rattle.xp_words.specs.Machine.{Machine};
ghost use Rattle.xp_words.specs.declared.reply.LogLine.{LogLine};
ghost use Rattle.xp_board.specs.LifeSteps.{MayBury};
ghost use Rattle.xp_board.specs.declared.holdings.Holdings.{Holdings};
ghost use Rattle.dead_domains.specs.Listing.{HasListed};
ghost use Rattle.domain_destroy.specs.Coming.{FoundCleared, FoundEmpty, FoundListed, FoundStopped, FoundUnused};

/// All vCPUs were found stopped, and no word of theirs has to be empty yet; all words were, and no frame has to be without marks yet; none is in use, and none has to be listed yet;
/// all are listed, and the domain may be dead, and has been listed.
pub fn each_phase_opens_the_next()
    ensures empties { (n : Machine) (s d k : ℕ) (h : Holdings) → FoundStopped n s d k h → length n.vcpu_domain ≤ k → FoundEmpty n s d 0 h }
    ensures clears { (n : Machine) (s d k : ℕ) (h : Holdings) → FoundEmpty n s d k h → length n.vcpu_domain ≤ k → FoundCleared n s d 0 (length h.steps) h }
    ensures lists { (n : Machine) (s d since : ℕ) (h : Holdings) (op : ℕ) (log : List LogLine) → FoundUnused n s d since h → FoundListed n s d 0 since h op log }
    ensures buries { (n : Machine) (s d since : ℕ) (h : Holdings) (op : ℕ) (log : List LogLine) → FoundListed n s d n.frames since h op log → MayBury n s d 255 h }
    ensures listed { (n : Machine) (s d since : ℕ) (h : Holdings) (op : ℕ) (log : List LogLine) → FoundListed n s d n.frames since h op log → HasListed n s d h op log }
{}
