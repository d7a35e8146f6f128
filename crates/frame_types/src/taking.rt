//! Frames that are taken for a type.
ghost use Rattle.std.specs.Prelude.{◌≡◌, ◌≢◌, ◌<◌, List, true, not, Some, IfOk, IfErr, MatchResult, IsTrue};
ghost use Rattle.xp_board.specs.Told.{PortValue};
ghost use Rattle.xp_words.specs.PageTypes.{is_none};
ghost use Rattle.xp_words.specs.Places.{number, sizes_of};
ghost use Rattle.xp_words.specs.declared.place.Place.TheVariants.{Kind};
ghost use Rattle.xp_words.specs.declared.reply.Pause.TheVariants.{Lost};
ghost use Rattle.xp_words.specs.declared.reply.Stop.TheVariants.{Paused};
ghost use Rattle.step_maker.specs.Holds.{MayWork, Same};
ghost use Rattle.step_maker.specs.Answers.{Deed, Serves, Stops, misses};
ghost use Rattle.step_maker.specs.Asked.{of_frame};
ghost use Rattle.flush_waits.specs.Waiting.{IsFlushed};
ghost use Rattle.frame_types.specs.Found.{Finishes, Proceeds, TakesFound};
ghost use Rattle.frame_types.specs.Plain.{TwinOn, TwinTake};
ghost use Rattle.frame_types.specs.declared.standing.Standing.TheVariants.{Counted, Dead, Partial};
ghost use Rattle.frame_types.specs.Taking.{CountsAs, HasEntered, HoldsOn, IsDone, IsNotLive, IsTypeStop, LeavesLive, Looked, MayTakeLooked, MayTakeType, ServesOn, ShowsWait, Takes, TakesAs, WaitsOn, progress_of};

use crate::standing::{Standing, classify};
use crate::words::{counts, is_read_first, progress_of};
use flush_waits::clear_stale;
use frame_words::put_ref;
use kind_words::{
    begin_work, count_type, is_stale_for, leave, live_kind, look_kind, lost, read_kind,
    resume_work, work_kind,
};
use xp_board::Port;
use xp_words::{KindWord, PageType, Pause, Refusal, Stop};

/// How a type was taken.
#[derive(Clone, Copy, Debug, PartialEq, Eq, Drop)]
pub enum Taken {
    /// The typed reference is in hand, to a live frame.
    Counted,
    /// The frame is in the own works, past its flush, with so many of its entries recorded. `own`: its type count is in hand;
    /// else another holder has that, and the untyped reference stayed in hand.
    InWork { progress: u16, own: bool },
    /// It is in the own works with its mark, and nothing of it is recorded: its flush was not to be had, and why.
    Waiting { own: bool, stamp: u64, stop: Stop },
}

/// Takes a frame for the type `want`, under the untyped reference in hand. A frame that was of another type, or is marked,
/// is flushed first. What is read before it is live (a table, a descriptor page) comes into the own works. A refusal or a
/// pause leaves the reference in hand. A frame that the vCPU works on itself is to be of another type; one of which it has a typed reference
/// already is known live with that type.
#[inline(always)]
pub fn take_type<P: Port>(
    port: &mut P,
    frame: u32,
    owner: u16,
    want: PageType,
) -> Result<Taken, Stop>
    requires { MayTakeType (P.value port.old) frame owner want }
    ensures serves { Serves (P.value port.old) (P.value port.new) (of_frame frame owner (Some want)) (misses (P.value port.old).post.machine result) }
    ensures stops { IfErr result (λ e. Stops (P.value port.old) (P.value port.new) (of_frame frame owner (Some want)) e) }
    ensures kinds { IfErr result IsTypeStop }
    ensures waits { IfOk result (λ t. ShowsWait (P.value port.old) (P.value port.new) frame owner want t) }
    ensures hand { MatchResult result (λ t. TakesAs (P.value port.old) (P.value port.new) frame owner want t) (λ _. Same (P.value port.old) (P.value port.new)) }
    ensures found { TakesFound (P.value port.old) (P.value port.new) frame owner want result }
    ensures live { IfOk result (λ t. LeavesLive (P.value port.old) (P.value port.new) frame t) }
    ensures plain { TwinTake (P.value port.old) (P.value port.new) frame want result }
{
    match count_live(port, frame, owner, want) {
        Ok(Counting::Counted) => Ok(Taken::Counted),
        Ok(Counting::Found { word }) => take_looked(port, frame, owner, want, word),
        Err(stop) => Err(stop),
    }
}

/// Whether a frame was counted as one that is live.
#[derive(Clone, Copy, Debug, PartialEq, Eq, Drop)]
pub enum Counting {
    /// The typed reference is in hand.
    Counted,
    /// It is not live with that type, by its kind word, which a look just found. Nothing is taken yet.
    Found { word: u64 },
}

/// The first part of `take_type`, and all of it where the frame is live with the type `want`. Else `take_looked` goes on from the word
/// that was found.
#[inline(always)]
pub fn count_live<P: Port>(
    port: &mut P,
    frame: u32,
    owner: u16,
    want: PageType,
) -> Result<Counting, Stop>
    requires { MayTakeType (P.value port.old) frame owner want }
    ensures takes { CountsAs result (λ r. Takes (P.value port.old) (P.value port.new) frame owner want r) (λ word. Looked (P.value port.old) (P.value port.new) frame owner want word) }
    ensures found { CountsAs result (λ r. TakesFound (P.value port.old) (P.value port.new) frame owner want r) (λ word. IsNotLive want word) }
    ensures live { CountsAs result (λ r. IfOk r (λ t. LeavesLive (P.value port.old) (P.value port.new) frame t)) (λ word. IsNotLive want word) }
    ensures plain { CountsAs result (λ r. TwinTake (P.value port.old) (P.value port.new) frame want r) (λ word. IsNotLive want word) }
{
    let word = look_kind(port, frame);
    count_found(port, frame, owner, want, word)
}

// The same, where a look just found that kind word.
#[inline(always)]
fn count_found<P: Port>(
    port: &mut P,
    frame: u32,
    owner: u16,
    want: PageType,
    word: u64,
) -> Result<Counting, Stop>
    requires { MayTakeLooked (P.value port.old) frame owner want word (λ s. Unit {0}) }
    ensures takes { (b : PortValue) → Looked b (P.value port.old) frame owner want word → CountsAs result (λ r. Takes b (P.value port.new) frame owner want r) (λ x. Looked b (P.value port.new) frame owner want x) }
    ensures found { (b : PortValue) → Looked b (P.value port.old) frame owner want word → CountsAs result (λ r. TakesFound b (P.value port.new) frame owner want r) (λ x. IsNotLive want x) }
    ensures live { CountsAs result (λ r. IfOk r (λ t. LeavesLive (P.value port.old) (P.value port.new) frame t)) (λ x. IsNotLive want x) }
    ensures plain { (b : PortValue) → Looked b (P.value port.old) frame owner want word → CountsAs result (λ r. TwinTake b (P.value port.new) frame want r) (λ x. IsNotLive want x) }
{
    let kind = read_kind(word);
    match classify(kind, want) {
        Standing::Counted => match count_type(port, frame, kind, word) {
            Ok(()) => Ok(Counting::Counted),
            Err(found) => Err(lost_type(port, frame, word, found)),
        },
        _ => Ok(Counting::Found { word }),
    }
}

// Apart, as it is seldom so: the way above stays short where it is inlined.
#[cold]
#[inline(never)]
fn lost_type<P: Port>(port: &P, frame: u32, word: u64, found: u64) -> Stop
    requires { frame < (P.value port.now).post.machine.frames }
    ensures { result ≡ Paused (Lost (number (sizes_of (P.value port.now).post.machine) (Kind frame)) word found) }
{
    lost(port, frame, word, found)
}

/// The rest of `take_type`, of a frame that is not live with that type, by the word that a look just found.
#[inline(never)]
pub fn take_looked<P: Port>(
    port: &mut P,
    frame: u32,
    owner: u16,
    want: PageType,
    word: u64,
) -> Result<Taken, Stop>
    requires { MayTakeLooked (P.value port.old) frame owner want word (λ s. s ≢ Counted) }
    ensures takes { (b : PortValue) → Looked b (P.value port.old) frame owner want word → Takes b (P.value port.new) frame owner want result }
    ensures found { (b : PortValue) → Looked b (P.value port.old) frame owner want word → TakesFound b (P.value port.new) frame owner want result }
    ensures live { IfOk result (λ t. LeavesLive (P.value port.old) (P.value port.new) frame t) }
    ensures plain { (b : PortValue) → Looked b (P.value port.old) frame owner want word → TwinTake b (P.value port.new) frame want result }
{
    let kind = read_kind(word);
    match classify(kind, want) {
        Standing::Counted => unreachable!(),
        Standing::Dead => take_dead(port, frame, owner, want, word),
        Standing::Partial => take_partial(port, frame, owner, want, word),
        Standing::Busy => Err(Stop::Paused(Pause::Busy { frame, found: word })),
        Standing::Other => Err(Stop::Refused(Refusal::OtherType {
            frame,
            want,
            found: word,
        })),
    }
}

// A frame that was found dead comes into the own works.
fn take_dead<P: Port>(
    port: &mut P,
    frame: u32,
    owner: u16,
    want: PageType,
    word: u64,
) -> Result<Taken, Stop>
    requires { MayTakeLooked (P.value port.old) frame owner want word (λ s. s ≡ Dead) }
    ensures takes { (b : PortValue) → Looked b (P.value port.old) frame owner want word → Takes b (P.value port.new) frame owner want result }
    ensures found { (b : PortValue) → Looked b (P.value port.old) frame owner want word → TakesFound b (P.value port.new) frame owner want result }
    ensures live { IfOk result (λ t. LeavesLive (P.value port.old) (P.value port.new) frame t) }
    ensures plain { (b : PortValue) → Looked b (P.value port.old) frame owner want word → TwinTake b (P.value port.new) frame want result }
{
    let kind = read_kind(word);
    let marked = is_stale_for(kind, want);
    match begin_work(port, frame, kind, want) {
        Ok(()) => Ok(go_on(port, frame, owner, want, marked, kind, true)),
        Err(found) => Err(lost(port, frame, word, found)),
    }
}

// A frame that was found partial comes into the own works again.
fn take_partial<P: Port>(
    port: &mut P,
    frame: u32,
    owner: u16,
    want: PageType,
    word: u64,
) -> Result<Taken, Stop>
    requires { MayTakeLooked (P.value port.old) frame owner want word (λ s. s ≡ Partial) }
    ensures takes { (b : PortValue) → Looked b (P.value port.old) frame owner want word → Takes b (P.value port.new) frame owner want result }
    ensures found { (b : PortValue) → Looked b (P.value port.old) frame owner want word → TakesFound b (P.value port.new) frame owner want result }
    ensures live { IfOk result (λ t. LeavesLive (P.value port.old) (P.value port.new) frame t) }
    ensures plain { (b : PortValue) → Looked b (P.value port.old) frame owner want word → TwinTake b (P.value port.new) frame want result }
{
    let kind = read_kind(word);
    match resume_work(port, frame, kind) {
        Ok(()) => {
            let marked = kind.unflushed;
            if kind.kept {
                put_ref(port, frame);
                Ok(go_on(port, frame, owner, want, marked, kind, true))
            } else {
                Ok(go_on(port, frame, owner, want, marked, kind, false))
            }
        }
        Err(found) => Err(lost(port, frame, word, found)),
    }
}

// Goes on with a frame that has come into the own works. `marked`: it waits for flushes. `kind`: what its word said before.
// `own`: its type count is in hand.
fn go_on<P: Port>(
    port: &mut P,
    frame: u32,
    owner: u16,
    want: PageType,
    marked: bool,
    kind: KindWord,
    own: bool,
) -> Taken
    requires frame { frame < (P.value port.old).post.machine.frames }
    requires may { MayWork (P.value port.old) }
    requires wanted { IsTrue (not (is_none want)) }
    requires enters { HasEntered (P.value port.old) frame owner want marked kind own }
    ensures serves { ServesOn (P.value port.old) (P.value port.new) frame owner want marked kind.number }
    ensures waits { WaitsOn (P.value port.old) (P.value port.new) frame owner want marked kind.number result }
    ensures hand { HoldsOn (P.value port.old) (P.value port.new) frame owner want marked kind own result }
    ensures live { LeavesLive (P.value port.old) (P.value port.new) frame result }
    ensures visits { Proceeds (P.value port.old) (P.value port.new) frame owner want marked kind.number own (progress_of kind) result }
    ensures plain { TwinOn (P.value port.old) (P.value port.new) frame want marked own (progress_of kind) result }
{
    if marked {
        match clear_stale(port, frame, owner, kind.number) {
            Ok(()) => finish(port, frame, owner, want, marked, kind, own),
            Err(stop) => Taken::Waiting {
                own,
                stamp: kind.number,
                stop,
            },
        }
    } else {
        finish(port, frame, owner, want, marked, kind, own)
    }
}

// Makes a frame in the own works live, or takes its mark off where it is read first. Behind its flush, where it is marked.
fn finish<P: Port>(
    port: &mut P,
    frame: u32,
    owner: u16,
    want: PageType,
    marked: bool,
    kind: KindWord,
    own: bool,
) -> Taken
    requires frame { frame < (P.value port.old).post.machine.frames }
    requires may { MayWork (P.value port.old) }
    requires wanted { IsTrue (not (is_none want)) }
    requires enters { HasEntered (P.value port.old) frame owner want marked kind own }
    requires past { marked ≡ true → IsFlushed (P.value port.old).post.machine frame (P.value port.old).holdings }
    ensures serves { (u : PortValue) (ds : List Deed) → Serves u (P.value port.old) (of_frame frame owner (Some want)) ds → Serves u (P.value port.new) (of_frame frame owner (Some want)) ds }
    ensures done { IsDone result }
    ensures hand { HoldsOn (P.value port.old) (P.value port.new) frame owner want marked kind own result }
    ensures live { LeavesLive (P.value port.old) (P.value port.new) frame result }
    ensures visits { Finishes (P.value port.old) (P.value port.new) frame want marked own (progress_of kind) result }
    ensures plain { TwinOn (P.value port.old) (P.value port.new) frame want marked own (progress_of kind) result }
{
    if !is_read_first(want) {
        leave(port, frame, live_kind(want, counts(own)));
        Taken::Counted
    } else if marked {
        leave(port, frame, work_kind(want));
        Taken::InWork {
            progress: progress_of(kind),
            own,
        }
    } else {
        Taken::InWork {
            progress: progress_of(kind),
            own,
        }
    }
}
