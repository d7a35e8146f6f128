ghost use Rattle.std.specs.Prelude.{◌≡◌, ◌<◌, ◌≤◌, Bool, [], Some, false, Err, IfErr};
ghost use Rattle.xp_words.specs.Entries.{is_slot};
ghost use Rattle.xp_words.specs.declared.reply.Refusal.{Refusal};
ghost use Rattle.xp_words.specs.declared.reply.Stop.TheVariants.{Refused};
ghost use Rattle.xp_board.specs.Told.{PortValue};
ghost use Rattle.partial_state.specs.Levels.{level_type};
ghost use Rattle.step_maker.specs.Holds.{Rests};
ghost use Rattle.step_maker.specs.Moves.{Came};
ghost use Rattle.step_maker.specs.Answers.{Stops};
ghost use Rattle.foreign_map.specs.Owning.{MayMapFor};
ghost use Rattle.level_release.specs.Asking.{is_due_answer};
ghost use Rattle.table_words.specs.OldWords.{known_old};
ghost use Rattle.table_words.specs.declared.old_words.OldWord.TheVariants.{First, Second};
ghost use Rattle.mmu_update.specs.Course.{UpdatesBy};
ghost use Rattle.mmu_update.specs.Elements.{IsUpdateStop, LeavesUpdate, ServesUpdate, element_of, update_request};
ghost use Rattle.mmu_update.specs.Fits.{Updates};
ghost use Rattle.mmu_update.specs.Plain.{TwinUpdate};
ghost use Rattle.mmu_update.specs.Writing.{IsOrdinary, IsReferred, IsUnderLock, MayBeginElement, Ordinary, Referred, UnderLock, WritesBy};
ghost use Rattle.mmu_update.specs.declared.element.Element.TheVariants.{Write};

use crate::element::{Element, element_of};
use entry_exchange::{EntryUpdate, exchange_entry, leave_lock};
use entry_locks::{Locked, lock_entry};
use foreign_map::Owners;
use frame_types::drop_plain;
use frame_words::{get_ref, put_ref, store_cell};
use m2p_map::set_m2p;
use partial_state::is_xen_slot;
use writable_pages::take_page;
use xp_board::Port;
use xp_preempt::Preempt;
use xp_words::{PageType, Pair, Refusal, Stop};

/// One element of `mmu_update`: a machine-to-physical word of a frame of `owners.frames`, or a word in a frame of `owners.tables`, which is
/// an entry exchanged where that frame is a live table, and else a store into ordinary memory. Both old words are known to name no frame.
/// What a paused release leaves of the old entry stands in them; the element is done all the same.
#[tactic(auto, using(crate::proofs::Updating::plain_ways))]
pub fn update<P: Port>(
    port: &mut P,
    gate: &mut dyn Preempt,
    owners: Owners,
    pair: Pair,
) -> Result<(), Stop>
    requires rests { Rests (P.value port.old) }
    requires maps { MayMapFor (P.value port.old) owners }
    requires room { known_old First (P.value port.old).holdings ≡ Some 0 }
    requires room_too { known_old Second (P.value port.old).holdings ≡ Some 0 }
    ensures came { Came (P.value port.old) (P.value port.new) }
    // The steps serve what the element asks for, and show why it stops.
    ensures serves { ServesUpdate (P.value port.old) (P.value port.new) owners (element_of pair) result }
    ensures stops { IfErr result (λ e. Stops (P.value port.old) (P.value port.new) (update_request owners (element_of pair) result) e) }
    ensures kinds { IfErr result (IsUpdateStop (element_of pair)) }
    // What its numbers alone refuse is refused.
    ensures numbers { (x : Refusal) → (update_request owners (element_of pair) result).by_numbers ≡ Some x → result ≡ Err (Refused x) }
    ensures hand { LeavesUpdate (P.value port.old) (P.value port.new) }
    ensures rests { Rests (P.value port.new) }
    // It makes these calls, and its gate gave these answers.
    ensures course { UpdatesBy (P.value port.old) (P.value port.new) owners (element_of pair) (policy gate.old) (policy gate.new) result }
    // On a board that tells all words it answers, and leaves them, as its plain meaning says; of a word of a frame that is said of an own
    // frame which is no live table.
    ensures plain { TwinUpdate (P.value port.old) (P.value port.new) owners (element_of pair) result }
{
    match element_of(pair) {
        Element::SetM2p { frame, gpfn } => set_m2p(port, frame, owners.frames, gpfn),
        Element::Write {
            frame,
            index,
            word,
            keep,
        } => write_word(port, gate, owners, frame, index, word, keep),
        Element::Misaligned => Err(Stop::Refused(Refusal::BadRange)),
        Element::Unknown => Err(Stop::Refused(Refusal::BadCommand)),
    }
}

// The word at an address.
fn write_word<P: Port>(
    port: &mut P,
    gate: &mut dyn Preempt,
    owners: Owners,
    f: u64,
    index: u16,
    word: u64,
    keep: bool,
) -> Result<(), Stop>
    requires index { index < 512 }
    requires begins { MayBeginElement (P.value port.old) owners }
    ensures { WritesBy (P.value port.old) (P.value port.new) owners f index word keep (policy gate.old) (policy gate.new) result }
{
    let frame = get_ref(port, f, owners.tables)?;
    write_referred(port, gate, owners, frame, index, word, keep)
}

// The same under a reference to its frame.
fn write_referred<P: Port>(
    port: &mut P,
    gate: &mut dyn Preempt,
    owners: Owners,
    frame: u32,
    index: u16,
    word: u64,
    keep: bool,
) -> Result<(), Stop>
    requires index { index < 512 }
    requires referred { IsReferred (P.value port.old) owners frame }
    ensures { (b : PortValue) → Referred b (P.value port.old) owners frame →
        WritesBy b (P.value port.new) owners frame index word keep (policy gate.old) (policy gate.new) result }
{
    match lock_entry(port, frame, owners.tables) {
        Ok(Locked::Table { level, .. }) => {
            let update = EntryUpdate {
                table: frame,
                level,
                index,
                word,
                keep,
            };
            write_entry(port, gate, owners, update)
        }
        Ok(Locked::Other { .. }) => write_memory(port, owners, frame, index, word),
        Err(stop) => {
            put_ref(port, frame);
            Err(stop)
        }
    }
}

// An entry of the table that is under the own lock. Xen's slots of a top table are not written.
fn write_entry<P: Port>(
    port: &mut P,
    gate: &mut dyn Preempt,
    owners: Owners,
    update: EntryUpdate,
) -> Result<(), Stop>
    requires index { update.index < 512 }
    requires locked { IsUnderLock (P.value port.old) owners update.table update.level }
    ensures { (b : PortValue) → UnderLock b (P.value port.old) owners update.table update.level →
        WritesBy b (P.value port.new) owners update.table update.index update.word update.keep (policy gate.old) (policy gate.new) result }
{
    if is_xen_slot(update.level, update.index) {
        leave_lock(port, update.table, update.level);
        return Err(Stop::Refused(Refusal::Slot {
            index: update.index,
        }));
    }
    exchange_entry(port, gate, update, owners)
}

// A word of ordinary memory, under a reference to its frame.
fn write_memory<P: Port>(
    port: &mut P,
    owners: Owners,
    frame: u32,
    index: u16,
    word: u64,
) -> Result<(), Stop>
    requires index { index < 512 }
    requires ordinary { IsOrdinary (P.value port.old) owners frame }
    ensures writes { (b : PortValue) (keep : Bool) → Ordinary b (P.value port.old) owners frame → Updates owners (Write frame index word keep) b (P.value port.new) [] result }
    ensures undue { is_due_answer result ≡ false }
{
    take_page(port, frame, owners.tables)?;
    store_cell(port, frame, index, word);
    drop_plain(port, frame, PageType::Writable);
    Ok(())
}
