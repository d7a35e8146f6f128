//! Frames are given back to the machine by the domain that owns them.
ghost use Rattle.std.specs.Prelude.{◌≡◌, ◌<◌, true, false, length, Some, IfSome, IfNone, IfErr};
ghost use Rattle.xp_words.specs.RefWords.{ref_read};
ghost use Rattle.xp_words.specs.declared.place.Place.TheVariants.{Refs};
ghost use Rattle.xp_words.specs.declared.refs.RefWord.TheVariants.{Owned};
ghost use Rattle.xp_board.specs.Told.{is_telling, told_word};
ghost use Rattle.step_maker.specs.Holds.{Rests, Same};
ghost use Rattle.step_maker.specs.Answers.{Serves, Stops};
ghost use Rattle.step_maker.specs.Asked.{of_return};
ghost use Rattle.step_maker.specs.Twins.{Twin};
ghost use Rattle.step_maker.specs.Visits.{Does};
ghost use Rattle.reservations.specs.Returning.{DecreasesBy, DecreasesPlainly, EndsAt, IsReturnStop, ReturnsBy, is_own_allocated, of_returns, return_deeds, return_refusal, returned, returns_deeds};

use claim_words::clear_allocated;
use frame_words::{look_refs, put_ref};
use xp_board::Port;
use xp_words::{Pause, Place, RefWord, Refusal, Stop};

// How often an allocated frame of that owner is referred to.
fn allocated_count(word: u64, owner: u16) -> Option<u32>
    ensures some { IfSome result (λ count. ref_read word ≡ Some (Owned owner true count)) }
    ensures none { IfNone result (is_own_allocated owner (ref_read word) ≡ false) }
{
    match RefWord::read(word) {
        Some(
            RefWord::Owned {
                owner: domain,
                allocated: true,
                count,
            },
        ) if domain == owner => Some(count),
        _ => None,
    }
}

/// An allocated frame of the domain `owner` loses its mark, and the reference of that is given back.
fn return_frame<P: Port>(port: &mut P, owner: u16, frame: u64) -> Result<(), Stop>
    requires domain { owner < length (P.value port.old).post.machine.page_limit }
    requires rests { Rests (P.value port.old) }
    ensures serves { Serves (P.value port.old) (P.value port.new) (of_return frame owner) (return_deeds (P.value port.old).post.machine frame result) }
    ensures stops { IfErr result (λ e. Stops (P.value port.old) (P.value port.new) (of_return frame owner) e) }
    ensures kinds { IfErr result IsReturnStop }
    ensures hand { Same (P.value port.old) (P.value port.new) }
    ensures found { Does (P.value port.old) (P.value port.new) (λ vs. ReturnsBy (P.value port.old).post.machine owner frame result vs) }
    ensures plain { Twin (P.value port.old) (P.value port.new) (return_refusal (P.value port.old).post.machine owner frame (told_word (P.value port.old) (Refs frame))) (returned frame (told_word (P.value port.old))) result }
{
    let frames = u64::from(port.layout().frames);
    if frame >= frames {
        return Err(Stop::Refused(Refusal::NoFrame { frame }));
    }
    let frame = frame as u32;
    let found = look_refs(port, frame);
    let count = match allocated_count(found, owner) {
        Some(count) => count,
        None => return Err(Stop::Refused(Refusal::WrongOwner { frame, found })),
    };
    match clear_allocated(port, frame, owner, count) {
        Ok(()) => {
            put_ref(port, frame);
            Ok(())
        }
        Err(other) => {
            let place = port.layout().place(Place::Refs { frame });
            Err(Stop::Paused(Pause::Lost {
                place,
                expected: found,
                found: other,
            }))
        }
    }
}

/// The frames of an extent of `size` frames, from frame number `first` of the machine, are given back in order, each as `return_frame` does. `at`: how many of
/// them are. What was given back before one that is refused stays so.
pub(crate) fn decrease<P: Port>(
    port: &mut P,
    owner: u16,
    size: u32,
    first: u64,
    at: &mut u32,
) -> Result<(), Stop>
    requires domain { owner < length (P.value port.old).post.machine.page_limit }
    requires rests { Rests (P.value port.old) }
    ensures serves { Serves (P.value port.old) (P.value port.new) (of_returns owner size first) (returns_deeds (P.value port.old).post.machine first at.old at.new result) }
    ensures stops { IfErr result (λ e. Stops (P.value port.old) (P.value port.new) (of_returns owner size first) e) }
    ensures kinds { IfErr result IsReturnStop }
    ensures place { EndsAt size at.old at.new result }
    ensures hand { Same (P.value port.old) (P.value port.new) }
    ensures found { Does (P.value port.old) (P.value port.new) (λ vs. DecreasesBy (P.value port.old).post.machine owner first at.old at.new result vs) }
    ensures plain { is_telling (P.value port.old) ≡ true → DecreasesPlainly (P.value port.old).post.machine owner first at.old at.new (told_word (P.value port.old)) (P.value port.new) result }
{
    while *at < size {
        return_frame(port, owner, first.saturating_add(u64::from(*at)))?;
        *at += 1;
    }
    Ok(())
}
