//! A walk, level by level.
ghost use Rattle.std.specs.Prelude.{◌≡◌, ℕ, ◌<◌, ◌≤◌, ◌^◌, false, Some, None, MatchResult, IsTrue};
ghost use Rattle.xp_words.specs.Entries.{frame_of};
ghost use Rattle.xp_words.specs.declared.reply.Refusal.TheVariants.{NotMapped};
ghost use Rattle.xp_words.specs.declared.reply.Stop.TheVariants.{Refused};
ghost use Rattle.xp_board.specs.FillSteps.{is_walked};
ghost use Rattle.own_cache.specs.Translating.{flown, touched_in, with_entry};
ghost use Rattle.tlb_walks.specs.Flying.{WalkReady, Sees, BitsSet, BitsLost, IsAt, TouchMoves, PassedBy, PassedTo, PathMoves, EndedIn, next_flight};
ghost use Rattle.tlb_walks.specs.Walks.{barrier_with};

use crate::addresses::index_at;
use crate::entries::{load_entry, touch_entry};
use crate::walks::Walked;
use own_cache::{Flight, touched};
use xp_board::Port;
use xp_words::{Entry, Pause, Place, Refusal, Stop};

fn frames_of<P: Port>(port: &P) -> u32
    ensures { result ≡ (P.value port.now).post.machine.frames }
{
    port.layout().frames
}

// The entry that a walk loaded, with the bits that it needs in it.
fn needed(flight: &Flight, word: u64) -> u64
    ensures { (i : ℕ) → result ≡ touched_in (with_entry i word flight.now) word }
{
    let writable = flight.writable && Entry { word }.writable();
    touched(flight.write, writable, flight.level, word)
}

// The walk sets the bits that it needs in the entry that it loaded. An exchange that is lost answers the word that it found.
fn set_bits<P: Port>(port: &mut P, flight: &Flight, index: u16, word: u64) -> Result<(), u64>
    requires ready { WalkReady (P.value port.old) }
    requires table { flight.now.table < (P.value port.old).post.machine.frames }
    requires index { index < 512 }
    requires seen { Sees (P.value port.old) flight.now index word }
    ensures moves { TouchMoves (P.value port.old) (P.value port.new) flight.now.table index word (touched_in (with_entry index word flight.now) word) result }
    ensures hand { MatchResult result (λ _. BitsSet (P.value port.old) (P.value port.new) flight.now index word) (λ _. BitsLost (P.value port.old) (P.value port.new) flight.now index word) }
{
    let new = needed(flight, word);
    if new == word {
        return Ok(());
    }
    touch_entry(port, flight.table, index, word, new)
}

pub(crate) fn unmapped(level: u8, entry: u64) -> Stop
    ensures { result ≡ Refused (NotMapped level entry) }
{
    Stop::Refused(Refusal::NotMapped { level, entry })
}

// The walk loads the entry of its table, and sets its bits.
fn pass<P: Port>(port: &mut P, flight: &Flight, index: u16) -> Result<u64, Stop>
    requires ready { WalkReady (P.value port.old) }
    requires flying { flown (P.value port.old).holdings.walk ≡ Some flight.now }
    requires free { flight.now.touching ≡ false }
    requires table { flight.now.table < (P.value port.old).post.machine.frames }
    requires low { 1 ≤ flight.now.level }
    requires index { index < 512 }
    requires walked { IsTrue (is_walked flight.now.level index) }
    ensures moves { PassedBy (P.value port.old) (P.value port.new) flight.now index result }
    ensures hand { PassedTo (P.value port.old) (P.value port.new) flight.now index result }
{
    let frames = u64::from(frames_of(port));
    let place = port.layout().place(Place::Cell {
        frame: flight.table,
        index,
    });
    let word = load_entry(port, flight.table, index);
    let entry = Entry { word };
    if !entry.present() {
        return Err(unmapped(flight.level, word));
    }
    match set_bits(port, flight, index, word) {
        Ok(()) => {}
        Err(found) => {
            return Err(Stop::Paused(Pause::Lost {
                place,
                expected: word,
                found,
            }));
        }
    }
    if entry.frame() >= frames {
        return Err(unmapped(flight.level, word));
    }
    Ok(word)
}

// The first entry, from level 4 down, that cannot be written: with one more.
fn with_barrier(barrier: Option<u64>, word: u64) -> Option<u64>
    ensures { result ≡ barrier_with barrier word }
{
    let entry = Entry { word };
    match barrier {
        Some(first) => Some(first),
        None => { if entry.writable() { None } else { Some(word) } }
    }
}

// The walk at the table below.
fn next_of(frames: u32, flight: &Flight, index: u16, word: u64) -> Flight
    requires page { flight.now.page < 2 ^ 27 }
    requires index { index < 512 }
    requires level { 2 ≤ flight.now.level }
    requires frame { frame_of word < frames }
    ensures { result ≡ next_flight flight.now index word }
{
    let _ = frames;
    let entry = Entry { word };
    Flight {
        user: flight.user,
        write: flight.write,
        touching: false,
        page: flight.page * 512 + u64::from(index),
        writable: flight.writable && entry.writable(),
        table: entry.frame() as u32,
        level: flight.level - 1,
    }
}

/// From the table that a walk has reached down to its end. `barrier`: the first of the entries above it that cannot be
/// written.
pub(crate) fn walk_from<P: Port>(
    port: &mut P,
    flight: &Flight,
    barrier: Option<u64>,
    va: u64,
) -> Result<Walked, Stop>
    requires ready { WalkReady (P.value port.old) }
    requires at { IsAt (P.value port.old) flight.now.user va flight.now.write barrier flight.now }
    ensures path { PathMoves (P.value port.new) va flight.now.write result (P.value port.old) flight.now.level flight.now.table barrier }
    ensures hand { EndedIn (P.value port.old) (P.value port.new) flight.now.user va flight.now.write result }
{
    let frames = frames_of(port);
    let index = index_at(va, flight.level);
    let word = match pass(port, flight, index) {
        Ok(word) => word,
        Err(stop) => return Err(stop),
    };
    let barrier = with_barrier(barrier, word);
    if flight.level == 1 {
        return Ok(Walked {
            entry: word,
            barrier,
        });
    }
    let next = next_of(frames, flight, index, word);
    walk_from(port, &next, barrier, va)
}
