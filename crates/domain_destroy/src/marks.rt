//! The marks of one frame: its pin or its `kept` mark, and the allocated one.
ghost use Rattle.std.specs.Prelude.{ℕ, ◌≡◌, ◌<◌, [], true, false, Some, IfSome, IfNone};
ghost use Rattle.xp_words.specs.KindWords.{kind_read};
ghost use Rattle.xp_words.specs.Places.{number, sizes_of};
ghost use Rattle.xp_words.specs.declared.kind.PageType.TheVariants.{Desc};
ghost use Rattle.xp_words.specs.RefWords.{ref_read};
ghost use Rattle.xp_words.specs.declared.place.Place.TheVariants.{Refs};
ghost use Rattle.xp_words.specs.declared.refs.RefWord.TheVariants.{Owned};
ghost use Rattle.xp_words.specs.declared.reply.Pause.TheVariants.{Lost};
ghost use Rattle.xp_words.specs.declared.reply.Stop.TheVariants.{Paused};
ghost use Rattle.xp_board.specs.LifeSteps.{is_unallocated};
ghost use Rattle.xp_board.specs.Readings.{owner_of};
ghost use Rattle.xp_board.specs.Told.{PortValue};
ghost use Rattle.step_maker.specs.Holds.{Rests};
ghost use Rattle.level_release.specs.Asking.{is_due_answer};
ghost use Rattle.domain_destroy.specs.Clearing.{SawOwn};
ghost use Rattle.domain_destroy.specs.Coming.{IsForeign};
ghost use Rattle.domain_destroy.specs.Destroying.{GaveMark, TookMarks};
ghost use Rattle.domain_destroy.specs.Emptying.{NamesNone};
ghost use Rattle.xp_preempt.specs.Gates.{Gated};

use crate::releasing::let_go;
use claim_words::clear_allocated;
use frame_words::{look_refs, put_ref};
use kept_marks::take_back;
use kind_words::{dead_kind, leave, lost, read_kind, resume_work};
use step_maker::look_clock;
use table_words::clear_pin;
use xp_board::Port;
use xp_preempt::Preempt;
use xp_words::{KindWord, PageType, Pause, Place, RefWord, Stop};

/// The owner that a reference word says.
#[tactic(auto, unfolding(xp_board::specs::Readings::owner_of))]
pub(crate) fn owner_in(word: u64) -> Option<u16>
    ensures { result ≡ owner_of word }
{
    match RefWord::read(word) {
        Some(RefWord::Owned { owner, .. }) | Some(RefWord::Dying { owner }) => Some(owner),
        _ => None,
    }
}

/// The pin or the `kept` mark of a frame of the domain, whose kind word was found so, is taken off, and what it held is released.
pub(crate) fn take_marks<P: Port>(
    port: &mut P,
    gate: &mut dyn Preempt,
    frame: u32,
    found: u64,
) -> Result<(), Stop>
    requires saw { (u : PortValue) × (d : ℕ) × SawOwn u (P.value port.old) d frame found }
    requires rests { Rests (P.value port.old) }
    requires clear { NamesNone (P.value port.old) }
    ensures { Gated (policy gate.old) (policy gate.new) (is_due_answer result) (λ answers. TookMarks (P.value port.old) (P.value port.new) frame found answers result) }
{
    let kind = read_kind(found);
    if kind.pinned {
        match clear_pin(port, frame, kind) {
            Ok(()) => let_go(port, gate, frame),
            Err(other) => Err(lost(port, frame, found, other)),
        }
    } else if kind.kept {
        unkeep(port, gate, frame, kind, found)
    } else {
        Ok(())
    }
}

// The `kept` mark of a partial frame.
fn unkeep<P: Port>(
    port: &mut P,
    gate: &mut dyn Preempt,
    frame: u32,
    kind: KindWord,
    found: u64,
) -> Result<(), Stop>
    requires saw { (u : PortValue) × (d : ℕ) × SawOwn u (P.value port.old) d frame found }
    requires read { kind_read found ≡ Some kind }
    requires unpinned { kind.pinned ≡ false }
    requires kept { kind.kept ≡ true }
    requires rests { Rests (P.value port.old) }
    requires clear { NamesNone (P.value port.old) }
    ensures { Gated (policy gate.old) (policy gate.new) (is_due_answer result) (λ answers. TookMarks (P.value port.old) (P.value port.new) frame found answers result) }
{
    if kind.kind == PageType::Desc {
        return end_page(port, frame, kind, found);
    }
    match take_back(port, frame, kind) {
        Ok(()) => let_go(port, gate, frame),
        Err(other) => Err(lost(port, frame, found, other)),
    }
}

// A partial descriptor page with that mark is dead, for nothing is recorded of it.
fn end_page<P: Port>(port: &mut P, frame: u32, kind: KindWord, found: u64) -> Result<(), Stop>
    requires saw { (u : PortValue) × (d : ℕ) × SawOwn u (P.value port.old) d frame found }
    requires read { kind_read found ≡ Some kind }
    requires unpinned { kind.pinned ≡ false }
    requires kept { kind.kept ≡ true }
    requires page { kind.kind ≡ Desc }
    requires rests { Rests (P.value port.old) }
    requires clear { NamesNone (P.value port.old) }
    ensures went { TookMarks (P.value port.old) (P.value port.new) frame found [] result }
    ensures undue { is_due_answer result ≡ false }
{
    match resume_work(port, frame, kind) {
        Ok(()) => {
            let clock = look_clock(port);
            leave(port, frame, dead_kind(kind.kind, kind.unflushed, clock));
            put_ref(port, frame);
            Ok(())
        }
        Err(other) => Err(lost(port, frame, found, other)),
    }
}

/// The allocated mark of a frame of the domain is taken off, and its reference given back. `Ok(false)`: the frame is another domain's by now.
pub(crate) fn give_mark<P: Port>(port: &mut P, domain: u16, frame: u32) -> Result<bool, Stop>
    requires frame { frame < (P.value port.old).post.machine.frames }
    requires foreign { IsForeign (P.value port.old).post.machine (P.value port.old).post.vcpu domain }
    requires rests { Rests (P.value port.old) }
    requires clear { NamesNone (P.value port.old) }
    ensures went { GaveMark (P.value port.old) (P.value port.new) domain frame result }
    ensures undue { is_due_answer result ≡ false }
{
    let found = look_refs(port, frame);
    let Some((owner, count)) = allocated_to(found) else {
        return Ok(true);
    };
    if owner != domain {
        return Ok(false);
    }
    match clear_allocated(port, frame, owner, count) {
        Ok(()) => {
            put_ref(port, frame);
            Ok(true)
        }
        Err(other) => Err(lost_reference(port, frame, found, other)),
    }
}

// Whose an allocated frame is, and how often it is referred to.
#[tactic(auto, unfolding(xp_board::specs::Readings::allocated_mark))]
fn allocated_to(word: u64) -> Option<(u16, u32)>
    ensures some { IfSome result (λ known. ref_read word ≡ Some (Owned known.0 true known.1)) }
    ensures none { IfNone result (is_unallocated word ≡ true) }
{
    match RefWord::read(word) {
        Some(
            RefWord::Owned {
                owner,
                allocated: true,
                count,
            },
        ) => Some((owner, count)),
        _ => None,
    }
}

// The pause where an exchange of the frame's reference word found another word than was expected.
fn lost_reference<P: Port>(port: &P, frame: u32, expected: u64, found: u64) -> Stop
    requires { frame < (P.value port.now).post.machine.frames }
    ensures { result ≡ Paused (Lost (number (sizes_of (P.value port.now).post.machine) (Refs frame)) expected found) }
{
    let place = port.layout().place(Place::Refs { frame });
    Stop::Paused(Pause::Lost {
        place,
        expected,
        found,
    })
}
