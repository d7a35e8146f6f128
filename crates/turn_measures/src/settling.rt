//! What a settling leaves named in the old words.
ghost use Rattle.std.specs.Prelude.{◌≡◌, ◌⊎◌, ◌<◌, ℕ, Bool, List, Option, Ok, Err};
ghost use Rattle.xp_words.specs.declared.place.Place.{Place};
ghost use Rattle.xp_words.specs.declared.reply.Pause.{Pause};
ghost use Rattle.xp_words.specs.declared.reply.Stop.TheVariants.{Paused};
ghost use Rattle.xp_board.specs.Told.{PortValue, told_word};
ghost use Rattle.answer_laws.specs.Alone.{IsAlone};
ghost use Rattle.level_release.specs.Course.{left_settled};
ghost use Rattle.vcpu_turn.specs.Unhindered.{IsUnhindered};
ghost use Rattle.vcpu_turn.specs.Settling.{Settles};
ghost use Rattle.vcpu_turn.specs.declared.cpu.TurnEnd.TheVariants as ends;
ghost use Rattle.turn_measures.specs.Measures.{KeepsLeft, left_rank, olds_named};

/// A settling that is paused leaves fewer old words that name a frame; or as many, and less is left than before.
pub fn a_paused_settling_names_less()
    ensures keeps { (below : Option ℕ) (v w : PortValue) (answers : List Bool) (p : Pause) → IsAlone v → IsUnhindered v.post.machine (ends.Paused p) → KeepsLeft (told_word v) v.post.vcpu below → (settles : Settles below v w answers (Err (Paused p))) →
        KeepsLeft (told_word w) v.post.vcpu (left_settled settles.course) }
    ensures less { (below : Option ℕ) (v w : PortValue) (answers : List Bool) (p : Pause) → IsAlone v → IsUnhindered v.post.machine (ends.Paused p) → KeepsLeft (told_word v) v.post.vcpu below → (settles : Settles below v w answers (Err (Paused p))) →
        (olds_named (told_word w) v.post.vcpu < olds_named (told_word v) v.post.vcpu)
        ⊎ ((olds_named (told_word w) v.post.vcpu ≡ olds_named (told_word v) v.post.vcpu) × (left_rank (left_settled settles.course) < left_rank below)) }
{}

/// One that comes to its end leaves none; and where none named a frame before, all words are as they were.
pub fn a_settling_that_ends_names_none()
    ensures none { (below : Option ℕ) (v w : PortValue) (answers : List Bool) → IsAlone v → Settles below v w answers (Ok tt) → olds_named (told_word w) v.post.vcpu ≡ 0 }
    ensures same { (below : Option ℕ) (v w : PortValue) (answers : List Bool) → IsAlone v → Settles below v w answers (Ok tt) → olds_named (told_word v) v.post.vcpu ≡ 0 → (q : Place) → told_word w q ≡ told_word v q }
{}
