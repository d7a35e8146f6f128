//! Descriptor pages taken by a vCPU that is alone.
ghost use Rattle.std.specs.Prelude.{ℕ, ◌<◌, List, Err};
ghost use Rattle.xp_words.specs.declared.reply.Pause.{Pause};
ghost use Rattle.xp_words.specs.declared.reply.Stop.TheVariants.{Paused};
ghost use Rattle.xp_board.specs.Told.{PortValue, told_word};
ghost use Rattle.answer_laws.specs.Alone.{IsAlone};
ghost use Rattle.desc_pages.specs.Gdt.{SetsGdt};
ghost use Rattle.desc_pages.specs.Pages.{GotDesc, TookDesc};
ghost use Rattle.frame_ranks.specs.Ranks.{AreAllAlive, GoesForward};

use answer_laws::alone_stays;

/// Where no domain is dying, a frame for which a call is paused that takes it as a descriptor page, under a reference in hand or with one of its own, lets no frame fall back.
/// Nor does a GDT for one of whose pages it is paused: those before that one are given back, and are dead where they were not live before.
pub fn a_paused_taking_of_pages_goes_forward()
    ensures page { (v w : PortValue) (f owner : ℕ) (x : Pause) → IsAlone v → AreAllAlive v.post.machine (told_word v) → f < v.post.machine.frames →
        TookDesc v f owner w (Err (Paused x)) → GoesForward v.post.machine (told_word v) (told_word w) }
    ensures referred { (v w : PortValue) (f owner : ℕ) (x : Pause) → IsAlone v → AreAllAlive v.post.machine (told_word v) →
        GotDesc v f owner w (Err (Paused x)) → GoesForward v.post.machine (told_word v) (told_word w) }
    ensures gdt { (v w : PortValue) (entries : ℕ) (frames : List ℕ) (x : Pause) → IsAlone v → AreAllAlive v.post.machine (told_word v) →
        SetsGdt v entries frames w (Err (Paused x)) → GoesForward v.post.machine (told_word v) (told_word w) }
{
    alone_stays();
}
