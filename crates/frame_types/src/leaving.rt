//! Frames that wait for a flush which is not to be had, and are left.
ghost use Rattle.std.specs.Prelude.{◌≡◌, ◌<◌, ◌==◌, ℕ, not, true, false, IsTrue};
ghost use Rattle.xp_words.specs.PageTypes.{type_number};
ghost use Rattle.xp_words.specs.Places.{sizes_of};
ghost use Rattle.xp_words.specs.declared.place.Place.TheVariants.{Refs};
ghost use Rattle.xp_board.specs.Knowledge.{knows_partial};
ghost use Rattle.xp_board.specs.Readings.{is_free};
ghost use Rattle.xp_board.specs.Told.{is_telling, told_word};
ghost use Rattle.step_maker.specs.Holds.{MayWork};
ghost use Rattle.step_maker.specs.Moves.{Came};
ghost use Rattle.step_maker.specs.Plain.{Leaves};
ghost use Rattle.frame_words.specs.Plain.{put, stamp_now};
ghost use Rattle.kind_words.specs.Kinds.{dead_kind, partial_kind};
ghost use Rattle.step_maker.specs.Visits.{Does};
ghost use Rattle.frame_types.specs.Found.{DeadBy, SharedBy, StoresKind};
ghost use Rattle.frame_types.specs.Leaving.{GivesBack, IsWaiting, KeepsType, ServesType};
ghost use Rattle.frame_types.specs.Plain.{set_kind};

use frame_words::put_ref;
use kind_words::{dead_kind, leave, waiting_kind};
use step_maker::look_clock;
use xp_board::Port;
use xp_words::PageType;

/// Leaves a waiting frame partial, with its mark and that stamp, as it was found: its type count is another holder's. The
/// untyped reference in hand is given back.
pub fn leave_shared<P: Port>(port: &mut P, frame: u32, want: PageType, stamp: u64)
    requires frame { frame < (P.value port.old).post.machine.frames }
    requires may { MayWork (P.value port.old) }
    requires waits { IsWaiting (P.value port.old) frame want false stamp }
    ensures came { Came (P.value port.old) (P.value port.new) }
    ensures serves { ServesType (P.value port.old) (P.value port.new) frame want }
    ensures hand { GivesBack (P.value port.old) (P.value port.new) frame want false }
    ensures visits { Does (P.value port.old) (P.value port.new) (λ vs. SharedBy frame want stamp vs) }
    ensures plain { is_telling (P.value port.old) ≡ true → Leaves (P.value port.new) (put frame (set_kind frame (partial_kind want false true 0 stamp) (told_word (P.value port.old)))) }
    ensures owned { is_telling (P.value port.old) ≡ true → is_free (told_word (P.value port.old) (Refs frame)) ≡ false }
{
    let as_found = waiting_kind(want, false, stamp);
    leave(port, frame, as_found);
    put_ref(port, frame);
}

/// Leaves a waiting frame dead, with its mark and the clock as its stamp: its type count is in hand. The reference is given
/// back.
pub fn leave_dead<P: Port>(port: &mut P, frame: u32, want: PageType)
    requires frame { frame < (P.value port.old).post.machine.frames }
    requires may { MayWork (P.value port.old) }
    requires waits { (stamp : ℕ) × IsWaiting (P.value port.old) frame want true stamp }
    ensures came { Came (P.value port.old) (P.value port.new) }
    ensures serves { ServesType (P.value port.old) (P.value port.new) frame want }
    ensures hand { GivesBack (P.value port.old) (P.value port.new) frame want true }
    ensures visits { Does (P.value port.old) (P.value port.new) (λ vs. DeadBy frame want vs) }
    ensures plain { is_telling (P.value port.old) ≡ true → Leaves (P.value port.new) (put frame (set_kind frame (dead_kind want true (stamp_now (told_word (P.value port.old)))) (told_word (P.value port.old)))) }
    ensures owned { is_telling (P.value port.old) ≡ true → is_free (told_word (P.value port.old) (Refs frame)) ≡ false }
{
    let clock = look_clock(port);
    leave(port, frame, dead_kind(want, true, clock));
    put_ref(port, frame);
}

/// Leaves a waiting frame partial, with its mark and that stamp, and keeps its type count in hand. A descriptor page is left
/// partial with its `kept` mark alone, and not by this call.
pub fn leave_unsettled<P: Port>(port: &mut P, frame: u32, want: PageType, stamp: u64)
    requires frame { frame < (P.value port.old).post.machine.frames }
    requires may { MayWork (P.value port.old) }
    requires entries { IsTrue (not (type_number want == 5)) }
    requires waits { IsWaiting (P.value port.old) frame want true stamp }
    ensures came { Came (P.value port.old) (P.value port.new) }
    ensures serves { ServesType (P.value port.old) (P.value port.new) frame want }
    ensures hand { KeepsType (P.value port.old) (P.value port.new) frame want }
    ensures visits { Does (P.value port.old) (P.value port.new) (λ vs. StoresKind frame (partial_kind want false true 0 stamp) vs) }
    ensures partial { IsTrue (knows_partial (sizes_of (P.value port.old).post.machine) frame want (P.value port.new).holdings) }
    ensures plain { is_telling (P.value port.old) ≡ true → Leaves (P.value port.new) (set_kind frame (partial_kind want false true 0 stamp) (told_word (P.value port.old))) }
{
    leave(port, frame, waiting_kind(want, false, stamp));
}
