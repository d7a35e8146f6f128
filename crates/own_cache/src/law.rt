//! What the calls of this crate keep is a part of the hand. This function does nothing: its contract is the law.
ghost use Rattle.std.specs.Prelude.{◌≡◌, ℕ};
ghost use Rattle.xp_words.specs.Machine.{Machine};
ghost use Rattle.xp_board.specs.After.{after};
ghost use Rattle.xp_board.specs.declared.holdings.Holdings.{Holdings};
ghost use Rattle.xp_board.specs.declared.step.Step.{Step};
ghost use Rattle.own_cache.specs.Translating.{translated, translating};

/// Of each step, of every kind and mark, what it makes of the translations and of the walk in flight is what it leaves of them in the hand.
pub fn what_is_kept_is_of_the_hand()
    ensures { (n : Machine) (vcpu : ℕ) (h : Holdings) (x : Step) (found : ℕ) → translating (after n vcpu h x found) ≡ translated n x found (translating h) }
{}
