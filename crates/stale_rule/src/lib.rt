//! What old translations lead to: a sound machine is safe, and legal steps leave no
//! translation that leads where it may not. These functions do nothing: their contracts are laws.
#![tactic(auto)]

ghost use Rattle.std.specs.Prelude.{ℕ};
ghost use Rattle.xp_words.specs.Machine.{Machine};
ghost use Rattle.xp_words.specs.declared.place.Place.{Place};
ghost use Rattle.xp_board.specs.declared.holdings.Holdings.{Holdings};
ghost use Rattle.xp_board.specs.Fresh.{Fresh};
ghost use Rattle.xp_board.specs.Safe.{Safe};
ghost use Rattle.xp_board.specs.Sound.{Sound};
ghost use Rattle.xp_board.specs.Keeping.{KeepsMark, KeepsAct};

/// A sound machine is safe.
pub fn a_sound_machine_is_safe()
    ensures { (n : Machine) (m : Place → ℕ) (h : ℕ → Holdings) → Sound n m h → Safe n m h }
{}

/// A legal step leaves no translation of any vCPU that leads where it may not: neither its mark nor its act does.
pub fn a_legal_step_keeps_translations_fresh()
    ensures marks { KeepsMark Fresh }
    ensures acts { KeepsAct Fresh }
{}
