//! Where a board tells all words and the other vCPUs hold nothing, no call waits for what another has in hand.
ghost use Rattle.std.specs.Prelude.{◌≡◌, ℕ, true, None};
ghost use Rattle.xp_words.specs.declared.reply.Pause.{Pause};
ghost use Rattle.xp_words.specs.declared.reply.Pause.TheVariants.{Lost, Busy};
ghost use Rattle.xp_words.specs.declared.reply.Stop.TheVariants.{Paused};
ghost use Rattle.xp_board.specs.Told.{PortValue, is_telling};
ghost use Rattle.step_maker.specs.Moves.{Came};
ghost use Rattle.step_maker.specs.Answers.{Stops};
ghost use Rattle.step_maker.specs.Asked.{Request};
ghost use Rattle.answer_laws.specs.Alone.{IsAlone, IsDueOrFlush};

use sound_rule::every_run_stays_sound;

/// On a board that tells all words no call is paused for a lost exchange.
#[tactic(auto, using(crate::proofs::NothingLost::never_lost))]
pub fn nothing_is_lost()
    ensures { (v w : PortValue) (r : Request) (place e x : ℕ) → is_telling v ≡ true → Stops v w r (Paused (Lost place e x)) → ⊥ }
{}

/// A vCPU that is alone is so after each of its own steps.
pub fn alone_stays()
    ensures { (v w : PortValue) → IsAlone v → Came v w → IsAlone w }
{
    every_run_stays_sound();
}

/// It finds no frame busy but those in its own hand.
pub fn nothing_is_busy_where_others_hold_nothing()
    ensures { (v w : PortValue) (r : Request) (f x : ℕ) → IsAlone v → r.destroys ≡ None → Stops v w r (Paused (Busy f x)) → ⊥ }
{
    alone_stays();
}

/// So its calls, but for destruction, pause only where the gate said yes or another vCPU has still to flush.
pub fn a_call_alone_is_neither_lost_nor_busy()
    ensures { (v w : PortValue) (r : Request) (x : Pause) → IsAlone v → r.destroys ≡ None → Stops v w r (Paused x) → IsDueOrFlush x }
{
    nothing_is_lost();
    nothing_is_busy_where_others_hold_nothing();
}
