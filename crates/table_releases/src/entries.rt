//! The last recorded entry of a table, given back.
ghost use Rattle.std.specs.Prelude.{◌≡◌, ◌+◌, ◌<◌, ℕ, [], Some, Ok, true, IsTrue};
ghost use Rattle.xp_words.specs.Entries.{below};
ghost use Rattle.xp_words.specs.KindWords.{kind_read};
ghost use Rattle.xp_words.specs.declared.place.Place.TheVariants.{Refs};
ghost use Rattle.xp_board.specs.Readings.{is_partial};
ghost use Rattle.xp_board.specs.declared.step.Act.TheVariants.{Load};
ghost use Rattle.xp_board.specs.declared.step.Mark.TheVariants.{Shed};
ghost use Rattle.xp_board.specs.declared.step.StepKind.TheVariants as kinds;
ghost use Rattle.frame_types.specs.Taking.{IsOfOther};
ghost use Rattle.kind_words.specs.Kinds.{dead_kind};
ghost use Rattle.step_maker.specs.Holds.{Holds, MayWork};
ghost use Rattle.step_maker.specs.Moves.{Moves};
ghost use Rattle.table_releases.specs.Between.{FromKind, FromLive, FromResumed, FromTyped, HasResumed, HasSeenKind, HasSeenLive, HasSeenTyped, ReleasesEntry};
ghost use Rattle.table_releases.specs.Found.{has_recorded};
ghost use Rattle.table_releases.specs.Tops.{ReleasesTop};
ghost use Rattle.table_words.specs.Entries.{ShedsLast, entry_shed};

use frame_types::{drop_plain, drop_type};
use frame_words::{look_cell, put_ref};
use kind_words::{dead_kind, leave, look_kind, lost, read_kind, resume_work};
use pte_check::demand;
use step_maker::make;
use table_words::shed_entry;
use xp_board::{Act, Mark, Port, StepKind};
use xp_words::{Demand, KindWord, PageType, Pause, Place, Stop};

/// What became of the last recorded entry of a table that is released.
#[derive(Clone, Copy, Debug, PartialEq, Eq, Drop)]
pub enum Released {
    /// It is shed, and what it asked is given back.
    Given,
    /// It is shed. Its frame is a table that is to be released first, and in the own works now, with so many of its entries
    /// recorded, at least one. `closing`: its last type count was given back, and an untyped reference is in hand; else it was
    /// left partial, and its type count is in hand.
    Opened {
        frame: u32,
        recorded: u16,
        closing: bool,
    },
}

/// Gives back the last recorded entry of the newest table in the own works, of which `index + 1` are recorded. Where its frame is
/// a table that nobody else refers to as such, or that was left partial with entries recorded, that one comes into the own works.
/// A pause leaves the entry as it was.
pub fn release_entry<P: Port>(
    port: &mut P,
    table: u32,
    kind: PageType,
    index: u16,
) -> Result<Released, Stop>
    requires frame { table < (P.value port.old).post.machine.frames }
    requires index { index < 512 }
    requires may { MayWork (P.value port.old) }
    requires works { ReleasesTop table kind (index + 1) (P.value port.old).holdings }
    // No frame in the own works is of the type that the entries ask: each is of a level above.
    requires above { (g : ℕ) → IsOfOther g (below kind) (P.value port.old).holdings }
    requires looked { (P.value port.old).holdings.looking ≡ [] }
    ensures { ReleasesEntry (P.value port.old) (P.value port.new) table index kind result }
{
    let word = look_cell(port, table, index);
    match demand(kind, index, word) {
        Demand::Nothing | Demand::Bad => {
            shed_entry(port, table, index);
            Ok(Released::Given)
        }
        Demand::Read { frame } => {
            shed_entry(port, table, index);
            put_ref(port, frame as u32);
            Ok(Released::Given)
        }
        Demand::Typed { frame, kind: want } => {
            release_typed(port, table, index, frame as u32, want)
        }
    }
}

// The entry asks a type.
fn release_typed<P: Port>(
    port: &mut P,
    table: u32,
    index: u16,
    frame: u32,
    want: PageType,
) -> Result<Released, Stop>
    requires may { MayWork (P.value port.old) }
    requires seen { HasSeenTyped (P.value port.old) table index frame want }
    ensures { FromTyped (P.value port.old) table index frame want (λ b t. ReleasesEntry b (P.value port.new) table index t result) }
{
    let word = look_kind(port, frame);
    let kind = read_kind(word);
    if kind.validated {
        Ok(release_live(port, table, index, frame, want))
    } else if kind.partial {
        release_partial(port, table, index, frame, want, kind, word)
    } else {
        Err(Stop::Paused(Pause::Busy { frame, found: word }))
    }
}

// Its frame was found live: with that the entry is settled. The look that sheds it finds whose the frame is.
fn release_live<P: Port>(
    port: &mut P,
    table: u32,
    index: u16,
    frame: u32,
    want: PageType,
) -> Released
    requires may { MayWork (P.value port.old) }
    requires seen { HasSeenLive (P.value port.old) table index frame want }
    ensures { FromLive (P.value port.old) table index frame want (λ b t. ReleasesEntry b (P.value port.new) table index t (Ok result)) }
{
    shed_by_owner(port, table, index, frame);
    if !want.is_table() {
        drop_plain(port, frame, want);
        Released::Given
    } else if drop_type(port, frame) {
        Released::Opened {
            frame,
            recorded: 512,
            closing: true,
        }
    } else {
        put_ref(port, frame);
        Released::Given
    }
}

// Its frame was found partial.
fn release_partial<P: Port>(
    port: &mut P,
    table: u32,
    index: u16,
    frame: u32,
    want: PageType,
    kind: KindWord,
    word: u64,
) -> Result<Released, Stop>
    requires may { MayWork (P.value port.old) }
    requires seen { HasSeenKind (P.value port.old) table index frame want word }
    requires read { kind_read word ≡ Some kind }
    requires partial { IsTrue (is_partial kind) }
    ensures { FromKind (P.value port.old) table index frame want word (λ b t. ReleasesEntry b (P.value port.new) table index t result) }
{
    match resume_work(port, frame, kind) {
        Ok(()) => Ok(shed_resumed(port, table, index, frame, want, kind)),
        Err(found) => Err(lost(port, frame, word, found)),
    }
}

// It came into the own works. A table of which entries are recorded is to be released first. Ordinary memory, and a table of
// which nothing is recorded, is left dead with the mark that it had.
fn shed_resumed<P: Port>(
    port: &mut P,
    table: u32,
    index: u16,
    frame: u32,
    want: PageType,
    kind: KindWord,
) -> Released
    requires may { MayWork (P.value port.old) }
    requires seen { HasResumed (P.value port.old) table index frame want kind }
    ensures { FromResumed (P.value port.old) table index frame want kind (λ b t. ReleasesEntry b (P.value port.new) table index t (Ok result)) }
{
    if has_recorded(want, kind) {
        shed_by_owner(port, table, index, frame);
        Released::Opened {
            frame,
            recorded: kind.progress,
            closing: false,
        }
    } else {
        let clock = shed_entry(port, table, index);
        leave(port, frame, dead_kind(want, kind.unflushed, clock));
        put_ref(port, frame);
        Released::Given
    }
}

// Whether a partial frame is a table of which entries are recorded.
fn has_recorded(want: PageType, kind: KindWord) -> bool
    ensures { result ≡ has_recorded want kind }
{
    want.is_table() && kind.progress > 0
}

// Sheds the entry with a look at the reference word of a frame: what is found there is known of the reference that comes into
// the hand.
fn shed_by_owner<P: Port>(port: &mut P, table: u32, upto: u16, frame: u32) -> u64
    requires frame { frame < (P.value port.old).post.machine.frames }
    requires may { ShedsLast table upto (P.value port.old).holdings }
    ensures moves { Moves (P.value port.old) (P.value port.new) (Refs frame) Load kinds.Look (Some (Shed table upto)) result }
    ensures hand { Holds (P.value port.old) (P.value port.new) (entry_shed (P.value port.old).post.machine table upto (P.value port.old).holdings) }
{
    make(
        port,
        Place::Refs { frame },
        Act::Load,
        StepKind::Look,
        Some(Mark::Shed { frame: table, upto }),
    )
}
