//! Acquisitions of page tables by a vCPU that is alone.
ghost use Rattle.std.specs.Prelude.{ℕ, Bool, List, Err};
ghost use Rattle.xp_words.specs.declared.reply.Pause.{Pause};
ghost use Rattle.xp_words.specs.declared.reply.Pause.TheVariants.{Due};
ghost use Rattle.xp_words.specs.declared.reply.Stop.TheVariants.{Paused};
ghost use Rattle.xp_board.specs.Told.{PortValue, told_word};
ghost use Rattle.answer_laws.specs.Alone.{IsAlone};
ghost use Rattle.table_entries.specs.Acquiring.{Acquired};
ghost use Rattle.frame_ranks.specs.Ranks.{AreAllAlive, GetsFurther, GoesForward};

use answer_laws::alone_stays;

/// Where no domain is dying, a paused acquisition lets no frame fall back and names no frame in an old word; and where its gate pauses
/// it, a frame is further than before: an entry more is recorded of it, or it is live.
pub fn a_paused_acquisition_goes_forward()
    ensures forward { (v w : PortValue) (f owner level : ℕ) (answers : List Bool) (x : Pause) → IsAlone v → AreAllAlive v.post.machine (told_word v) →
        Acquired v f owner level w answers (Err (Paused x)) → GoesForward v.post.machine (told_word v) (told_word w) }
    ensures further { (v w : PortValue) (f owner level : ℕ) (answers : List Bool) → IsAlone v → AreAllAlive v.post.machine (told_word v) →
        Acquired v f owner level w answers (Err (Paused Due)) → GetsFurther v.post.machine (told_word v) (told_word w) }
{
    alone_stays();
}
