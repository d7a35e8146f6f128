//! Kind words by what they say, and what an exchange of one answers that found another.
ghost use Rattle.std.specs.Prelude.{◌≡◌, ◌<◌, false, true, is_some, Some, IsTrue};
ghost use Rattle.xp_words.specs.KindWords.{kind_read};
ghost use Rattle.xp_words.specs.PageTypes.{type_of};
ghost use Rattle.xp_words.specs.Places.{number, sizes_of};
ghost use Rattle.xp_words.specs.declared.place.Place.TheVariants.{Kind};
ghost use Rattle.xp_words.specs.declared.reply.Pause.TheVariants.{Lost};
ghost use Rattle.xp_words.specs.declared.reply.Stop.TheVariants.{Paused};
ghost use Rattle.kind_words.specs.Kinds.{dead_kind, live_kind, partial_kind, work_kind};

use xp_board::Port;
use xp_words::{KindWord, PageType, Pause, Place, Stop};

/// Dead, with a stamp: that of the flush that it waits for where it is marked, else that of its last use.
pub fn dead_kind(kind: PageType, unflushed: bool, stamp: u64) -> KindWord
    ensures { result ≡ dead_kind kind unflushed stamp }
{
    KindWord {
        kind,
        pinned: false,
        validated: false,
        partial: false,
        locked: false,
        kept: false,
        unflushed,
        progress: 0,
        number: stamp,
    }
}

/// Live, with so many type counts.
pub fn live_kind(kind: PageType, number: u64) -> KindWord
    ensures { result ≡ live_kind kind number }
{
    KindWord {
        validated: true,
        ..dead_kind(kind, false, number)
    }
}

/// In work, without a mark.
pub fn work_kind(kind: PageType) -> KindWord
    ensures { result ≡ work_kind kind false 0 }
{
    KindWord {
        locked: true,
        ..dead_kind(kind, false, 0)
    }
}

/// Partial, with so many entries recorded, and past its flush.
pub fn partial_kind(kind: PageType, kept: bool, progress: u16) -> KindWord
    ensures { result ≡ partial_kind kind kept false progress 0 }
{
    KindWord {
        partial: true,
        kept,
        progress,
        ..dead_kind(kind, false, 0)
    }
}

/// Partial and marked with that stamp, with nothing recorded.
pub fn waiting_kind(kind: PageType, kept: bool, stamp: u64) -> KindWord
    ensures { result ≡ partial_kind kind kept true 0 stamp }
{
    KindWord {
        partial: true,
        kept,
        ..dead_kind(kind, true, stamp)
    }
}

// The type that the number in a kind word's bits 52 and above stands for.
#[inline(always)]
#[tactic(auto, using(std::proofs::lemmas::Bool::Decides::nat_tests))]
fn type_of(number: u64) -> PageType
    ensures { result ≡ type_of number }
{
    match number {
        0 => PageType::None,
        1 => PageType::L1,
        2 => PageType::L2,
        3 => PageType::L3,
        4 => PageType::L4,
        5 => PageType::Desc,
        _ => PageType::Writable,
    }
}

/// What a word says that was found at a kind word's place. So it is a spelling, which is not looked at again: where this is
/// inlined, only those fields are read that are used.
#[inline(always)]
#[tactic(auto, unfolding(xp_words::specs::KindWords::kind_read, xp_words::specs::KindWords::kind_fields), using(std::proofs::lemmas::Bool::Decides::nat_tests))]
pub fn read_kind(word: u64) -> KindWord
    requires { IsTrue (is_some (kind_read word)) }
    ensures { kind_read word ≡ Some result }
{
    KindWord {
        kind: type_of(word >> 52),
        pinned: (word >> 51) % 2 == 1,
        validated: (word >> 50) % 2 == 1,
        partial: (word >> 49) % 2 == 1,
        locked: (word >> 48) % 2 == 1,
        kept: (word >> 47) % 2 == 1,
        unflushed: (word >> 46) % 2 == 1,
        progress: ((word >> 36) % 1024) as u16,
        number: word % (1 << 36),
    }
}

/// The pause of a call whose exchange of the frame's kind word found another word than was expected.
pub fn lost<P: Port>(port: &P, frame: u32, expected: u64, found: u64) -> Stop
    requires { frame < (P.value port.now).post.machine.frames }
    ensures { result ≡ Paused (Lost (number (sizes_of (P.value port.now).post.machine) (Kind frame)) expected found) }
{
    let place = port.layout().place(Place::Kind { frame });
    Stop::Paused(Pause::Lost {
        place,
        expected,
        found,
    })
}
