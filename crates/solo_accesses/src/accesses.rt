//! Reads and writes of a guest.
ghost use Rattle.std.specs.Prelude.{ℕ, true, false, Bool, Result};
ghost use Rattle.xp_words.specs.declared.reply.Stop.{Stop};
ghost use Rattle.xp_board.specs.Told.{PortValue};
ghost use Rattle.tlb_walks.specs.Accesses.{GuestReads, GuestWrites};
ghost use Rattle.script_law.specs.Values.{Solo};
ghost use Rattle.script_law.specs.Walks.{read_at, write_at};
ghost use Rattle.solo_ports.specs.Standing.{Clean};
ghost use Rattle.solo_accesses.specs.Accesses.{AccessComes, with_zero};
ghost use Rattle.solo_accesses.specs.Stale.{IsNeverStale, IsServedFresh};

use answer_laws::alone_stays;

/// From a port that stands to a plain value a guest's read is never paused. It answers what the plain read of that value answers, the word or the refusal, and leaves what that leaves,
/// where the translation that served it, if one did, was what a walk would have found.
pub fn a_read_comes_to_its_plain_meaning()
    ensures never_stale { (v w : PortValue) (x : Solo) (user : Bool) (va : ℕ) (answer : Result ℕ Stop) → Clean v x → IsNeverStale v w → GuestReads v w user va answer → AccessComes w (read_at v.post.machine user va x) answer }
    ensures served { (v w : PortValue) (x : Solo) (user : Bool) (va : ℕ) (answer : Result ℕ Stop) → Clean v x → IsServedFresh v user va false → GuestReads v w user va answer → AccessComes w (read_at v.post.machine user va x) answer }
{
    alone_stays();
}

/// The same of a write.
pub fn a_write_comes_to_its_plain_meaning()
    ensures never_stale { (v w : PortValue) (x : Solo) (user : Bool) (va val : ℕ) (answer : Result (Unit {0}) Stop) → Clean v x → IsNeverStale v w → GuestWrites v w user va val answer → AccessComes w (write_at v.post.machine user va val x) (with_zero answer) }
    ensures served { (v w : PortValue) (x : Solo) (user : Bool) (va val : ℕ) (answer : Result (Unit {0}) Stop) → Clean v x → IsServedFresh v user va true → GuestWrites v w user va val answer → AccessComes w (write_at v.post.machine user va val x) (with_zero answer) }
{
    alone_stays();
}
