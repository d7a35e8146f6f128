//! Stamps, and the clock up to which vCPUs are flushed.
ghost use Rattle.std.specs.Prelude.{◌≡◌, ◌<◌, ◌+◌, ◌*◌, length, IsTrue, ◌↔◌};
ghost use Rattle.xp_words.specs.declared.place.Place.TheVariants.{Clock, Vcpu, Refs, Kind};
ghost use Rattle.xp_words.specs.Places.{sizes_of, size, memory, number, is_place, first_vcpu, first_frame, first_map};
ghost use Rattle.xp_board.specs.Readings.{free_stamp, kind_stamp, clock_value};
ghost use Rattle.reference_recount.specs.Recounted.{IsReadable};
ghost use Rattle.walk_audit.specs.Order.{FirstVerdict};

use crate::verdict::Verdict;
use word_readers::{free_stamp, kind_of, vcpu_word, word_at};
use xp_words::{Layout, Place};

/// The number of the word of a vCPU up to which clock value it is flushed.
const FLUSHED: u32 = 5;

/// The stamp of a frame's kind word, where it has one.
#[tactic(auto, unfolding(xp_board::specs::Readings::kind_stamp))]
fn kind_stamp(layout: &Layout, words: &[u64], frame: u32) -> u64
    requires frame { frame < layout.now.frames }
    requires words { length words.now ≡ size (sizes_of layout.now) }
    requires readable { IsReadable layout.now (memory (sizes_of layout.now) words.now) }
    ensures { result ≡ kind_stamp (memory (sizes_of layout.now) words.now (Kind frame)) }
{
    let kind = kind_of(layout, words, frame);
    if kind.validated { 0 } else { kind.number }
}

fn late_vcpu(layout: &Layout, words: &[u64], clock: u64, vcpu: u32) -> Option<Verdict>
    requires vcpu { vcpu < length layout.now.vcpu_domain }
    requires words { length words.now ≡ size (sizes_of layout.now) }
    requires clock { clock ≡ memory (sizes_of layout.now) words.now Clock }
    ensures { FirstVerdict layout.now (memory (sizes_of layout.now) words.now) 6 (first_vcpu (sizes_of layout.now) + 38 * vcpu) (first_vcpu (sizes_of layout.now) + 38 * vcpu + 38) result }
{
    if clock < vcpu_word(layout, words, vcpu, FLUSHED) {
        Some(Verdict::Stamp {
            place: u64::from(layout.vcpu_place(vcpu, FLUSHED)),
        })
    } else {
        None
    }
}

fn late_vcpus(layout: &Layout, words: &[u64], clock: u64) -> Option<Verdict>
    requires words { length words.now ≡ size (sizes_of layout.now) }
    requires clock { clock ≡ memory (sizes_of layout.now) words.now Clock }
    ensures { FirstVerdict layout.now (memory (sizes_of layout.now) words.now) 6 (first_vcpu (sizes_of layout.now)) (first_frame (sizes_of layout.now)) result }
{
    for vcpu in 0..layout.vcpus() {
        if let Some(verdict) = late_vcpu(layout, words, clock, vcpu) {
            return Some(verdict);
        }
    }
    None
}

fn late_frame(layout: &Layout, words: &[u64], clock: u64, frame: u32) -> Option<Verdict>
    requires frame { frame < layout.now.frames }
    requires words { length words.now ≡ size (sizes_of layout.now) }
    requires readable { IsReadable layout.now (memory (sizes_of layout.now) words.now) }
    requires clock { clock ≡ memory (sizes_of layout.now) words.now Clock }
    ensures { FirstVerdict layout.now (memory (sizes_of layout.now) words.now) 6 (first_frame (sizes_of layout.now) + 515 * frame) (first_frame (sizes_of layout.now) + 515 * frame + 515) result }
{
    if clock < free_stamp(layout, words, frame) {
        Some(Verdict::Stamp {
            place: u64::from(layout.refs_place(frame)),
        })
    } else if clock < kind_stamp(layout, words, frame) {
        Some(Verdict::Stamp {
            place: u64::from(layout.kind_place(frame)),
        })
    } else {
        None
    }
}

fn late_frames(layout: &Layout, words: &[u64], clock: u64) -> Option<Verdict>
    requires words { length words.now ≡ size (sizes_of layout.now) }
    requires readable { IsReadable layout.now (memory (sizes_of layout.now) words.now) }
    requires clock { clock ≡ memory (sizes_of layout.now) words.now Clock }
    ensures { FirstVerdict layout.now (memory (sizes_of layout.now) words.now) 6 (first_frame (sizes_of layout.now)) (first_map (sizes_of layout.now)) result }
{
    for frame in 0..layout.frames {
        if let Some(verdict) = late_frame(layout, words, clock, frame) {
            return Some(verdict);
        }
    }
    None
}

/// The first word that tells a clock value above the clock.
#[tactic(auto, unfolding(xp_words::specs::Places::is_place))]
pub fn first_late(layout: &Layout, words: &[u64]) -> Option<Verdict>
    requires words { length words.now ≡ size (sizes_of layout.now) }
    requires readable { IsReadable layout.now (memory (sizes_of layout.now) words.now) }
    ensures { FirstVerdict layout.now (memory (sizes_of layout.now) words.now) 6 0 (size (sizes_of layout.now)) result }
{
    let clock = word_at(layout, words, Place::Clock);
    if let Some(verdict) = late_vcpus(layout, words, clock) {
        return Some(verdict);
    }
    late_frames(layout, words, clock)
}
