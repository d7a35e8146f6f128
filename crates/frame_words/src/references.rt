//! References that are taken and given back.
ghost use Rattle.std.specs.Prelude.{◌≡◌, ◌<◌, true, false, [], length, Some, None, IfOk, IfErr, MatchResult};
ghost use Rattle.xp_words.specs.RefWords.{ref_read};
ghost use Rattle.xp_words.specs.declared.place.Place.TheVariants.{Refs};
ghost use Rattle.xp_words.specs.declared.refs.RefWord.TheVariants.{Owned};
ghost use Rattle.xp_words.specs.declared.reply.Pause.TheVariants.{Lost};
ghost use Rattle.xp_words.specs.declared.reply.Refusal.TheVariants.{CountFull, WrongOwner};
ghost use Rattle.xp_words.specs.declared.reply.Stop.TheVariants.{Paused};
ghost use Rattle.step_maker.specs.Holds.{Holds, Same, MayWork};
ghost use Rattle.step_maker.specs.Answers.{Serves, Stops, misses};
ghost use Rattle.step_maker.specs.Asked.{of_frame, of_back};
ghost use Rattle.xp_board.specs.Lists.{times};
ghost use Rattle.xp_board.specs.Readings.{is_free};
ghost use Rattle.frame_words.specs.Freeing.{IsEnding, Frees, Puts, gave};
ghost use Rattle.xp_board.specs.Told.{is_telling, told_word};
ghost use Rattle.step_maker.specs.Plain.{Leaves};
ghost use Rattle.frame_words.specs.Plain.{TwinGet, put};
ghost use Rattle.frame_words.specs.Refs.{Gets, took, IsRefStop, MayPut, RefusesWord};

use crate::freeing::{last_owner, lower_pages, set_free_bit, store_free};
use crate::rows::{Open, look_refs, lower_refs, raise_refs};
use step_maker::look_clock;
use xp_board::Port;
use xp_words::{Pause, Place, RefWord, Refusal, Stop};

// The stops stand apart, as they are seldom: what most often is done stays short where it is inlined.
#[cold]
#[inline(never)]
fn wrong_owner(frame: u32, found: u64) -> Refusal
    ensures { result ≡ WrongOwner frame found }
{
    Refusal::WrongOwner { frame, found }
}

#[cold]
#[inline(never)]
fn count_full(frame: u32, found: u64) -> Refusal
    ensures { result ≡ CountFull frame found }
{
    Refusal::CountFull { frame, found }
}

#[cold]
#[inline(never)]
fn lost(place: u32, expected: u64, found: u64) -> Stop
    ensures { result ≡ Paused (Lost place expected found) }
{
    Stop::Paused(Pause::Lost {
        place,
        expected,
        found,
    })
}

// The word of a frame that is the owner's and has room for one reference more.
fn open_word(found: u64, frame: u32, owner: u16, limit: u32) -> Result<Open, Refusal>
    ensures reads { IfOk result (λ o. ref_read found ≡ Some (Owned o.owner o.allocated o.count)) }
    ensures owner { IfOk result (λ o. o.owner ≡ owner) }
    ensures low { IfOk result (λ o. o.count < limit) }
    ensures cause { IfErr result (RefusesWord frame owner limit found) }
{
    match RefWord::read(found) {
        Some(
            RefWord::Owned {
                owner: domain,
                allocated,
                count,
            },
        ) => {
            if domain != owner {
                return Err(wrong_owner(frame, found));
            }
            if count >= limit {
                return Err(count_full(frame, found));
            }
            Ok(Open {
                owner,
                allocated,
                count,
            })
        }
        _ => Err(wrong_owner(frame, found)),
    }
}

/// Takes one reference to the frame, which is to be the owner's, into the hand. One that is lost is not tried again.
#[inline(always)]
pub fn get_ref<P: Port>(port: &mut P, f: u64, owner: u16) -> Result<u32, Stop>
    requires { MayWork (P.value port.old) }
    ensures frame { IfOk result (λ g. (g ≡ f) × (g < (P.value port.old).post.machine.frames)) }
    ensures serves { Serves (P.value port.old) (P.value port.new) (of_frame f owner None) (misses (P.value port.old).post.machine result) }
    ensures stops { IfErr result (λ e. Stops (P.value port.old) (P.value port.new) (of_frame f owner None) e) }
    ensures kinds { IfErr result IsRefStop }
    ensures hand { MatchResult result (λ g. Holds (P.value port.old) (P.value port.new) (took g owner (P.value port.old).holdings)) (λ _. Same (P.value port.old) (P.value port.new)) }
    ensures plain { TwinGet (P.value port.old) (P.value port.new) f owner result }
    ensures gets { Gets (P.value port.old) (P.value port.new) f owner result }
    // It may be given back, also where the frame was closing in the hand.
    ensures gives { IfOk result (λ g. MayPut g (P.value port.new).holdings) }
{
    let frames = u64::from(port.layout().frames);
    let limit = port.layout().limit;
    if f >= frames {
        return Err(Stop::Refused(Refusal::NoFrame { frame: f }));
    }
    let frame = f as u32;
    let place = port.layout().place(Place::Refs { frame });
    let found = look_refs(port, frame);
    match open_word(found, frame, owner, limit) {
        Err(refusal) => Err(Stop::Refused(refusal)),
        Ok(open) => match raise_refs(port, frame, open, found) {
            Ok(()) => Ok(frame),
            Err(other) => Err(lost(place, found, other)),
        },
    }
}

/// Gives a reference in hand back. Where it was the last the frame becomes free: its bit in the map of free frames is set,
/// the free word is stored with a clock value that was found here, and one is taken from the pages of the owner.
#[inline(always)]
pub fn put_ref<P: Port>(port: &mut P, frame: u32)
    requires frame { frame < (P.value port.old).post.machine.frames }
    requires may { MayWork (P.value port.old) }
    requires gives { MayPut frame (P.value port.old).holdings }
    ensures serves { Serves (P.value port.old) (P.value port.new) (of_back frame) [] }
    ensures puts { Puts (P.value port.old) (P.value port.new) frame }
    ensures hand { Holds (P.value port.old) (P.value port.new) (gave frame (P.value port.old).holdings) }
    ensures plain { is_telling (P.value port.old) ≡ true → Leaves (P.value port.new) (put frame (told_word (P.value port.old))) }
    ensures owned { is_telling (P.value port.old) ≡ true → is_free (told_word (P.value port.old) (Refs frame)) ≡ false }
{
    let found = lower_refs(port, frame);
    match last_owner(found) {
        Some(owner) => free_frame(port, frame, owner),
        None => {}
    }
}

// A frame whose last reference was given back becomes free.
#[inline(never)]
fn free_frame<P: Port>(port: &mut P, frame: u32, owner: u16)
    requires frame { frame < (P.value port.old).post.machine.frames }
    requires domain { owner < length (P.value port.old).post.machine.page_limit }
    requires may { MayWork (P.value port.old) }
    requires ending { IsEnding frame owner (P.value port.old).holdings }
    requires lowered { times frame (P.value port.old).holdings.raised ≡ 0 }
    ensures { Frees (P.value port.old) (P.value port.new) frame owner }
{
    let clock = look_clock(port);
    set_free_bit(port, frame, owner);
    store_free(port, frame, owner, clock);
    lower_pages(port, owner);
}
