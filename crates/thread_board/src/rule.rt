ghost use Rattle.std.specs.Prelude.{◌≡◌, ◌<◌};
ghost use Rattle.xp_words.specs.Places.{sizes_of, size};
ghost use Rattle.xp_board.specs.Legal.{Legal};
ghost use Rattle.xp_board.specs.Sound.{SoundWords};
ghost use Rattle.thread_board.specs.Sharing.{one, hold_of, deed_of, DidShare};

use crate::deed::Doing;
use atomic_table::{Join, Play, Seat, Shared, Split, TableRule};
use sound_rule::{an_unseen_run_word_stays, every_run_stays_sound};
use sparse_words::SparseWords;
use std::collections::LinkedList;
use std::marker::PhantomData;
use xp_board::{Act, Holdings, Step};
use xp_words::Layout;

// What the table is told once: the machine, and the words with which its board opened.
#[derive(Drop)]
pub struct Opening {
    pub layout: Layout,
    pub words: SparseWords,
}

// What a seat knows: the hands of the vCPUs from `from` on. No value of it is made.
pub struct SharedView {
    pub from: u32,
    pub hands: LinkedList<Holdings>,
}

// The rule speaks of lists of steps alone.
pub struct SharedRule;

impl TableRule<(), SharedView, Opening> for SharedRule {
    ghost use Rattle.thread_board.specs.Sharing.{Kept, all_hands};

    ghost holds = { Kept };

    ghost first = { all_hands };
}

pub struct Does<J> {
    of: PhantomData<J>,
}

impl<J: Doing> Play<(), SharedView> for Does<J> {
    ghost then = { λ st me found you. DidShare J.deed me found you };
}

// The first vCPU's hand, and the others'.
pub struct Cut;

impl Split<SharedView> for Cut {
    ghost use Rattle.thread_board.specs.Sharing.{first_view, rest_of};

    ghost left = { first_view };

    ghost right = { rest_of };
}

impl Join<SharedView> for Cut {
    ghost use Rattle.thread_board.specs.Sharing.{joined_views, nobody};

    ghost both = { joined_views };

    ghost spent = { nobody };
}

pub type SharedTable = Shared<(), SharedView, Opening, SharedRule>;

pub type SharedSeat = Seat<(), SharedView>;

// One step on the table, by the seat of one vCPU. Returns the word that it found.
#[inline(always)]
pub fn share_step<J: Doing>(
    shared: &SharedTable,
    seat: &mut SharedSeat,
    vcpu: u32,
    step: Step,
) -> u64
    requires deed { J.deed ≡ deed_of shared.now.key vcpu step }
    requires seat { seat.old.table_id ≡ shared.now.table_id }
    requires words { shared.now.table_id.words ≡ size (sizes_of shared.now.key.layout) }
    requires sound { SoundWords shared.now.key.layout shared.now.key.words }
    requires vcpu { vcpu < (sizes_of shared.now.key.layout).vcpus }
    requires hand { seat.old.me.0 ≡ one vcpu (hold_of seat.old.me.0) }
    requires legal { Legal shared.now.key.layout vcpu (hold_of seat.old.me.0) step }
    ensures seat { (seat.new.table_id ≡ seat.old.table_id) × (seat.new.id ≡ seat.old.id) }
    ensures did { DidShare (deed_of shared.now.key vcpu step) seat.old.me result seat.new.me }
{
    // What the steps keep is law: these two calls do nothing.
    every_run_stays_sound();
    an_unseen_run_word_stays();
    let place = step.place as usize;
    match step.act {
        Act::Load => shared.load::<Does<J>>(seat, place),
        Act::Cas { expected, new } => shared.compare_exchange::<Does<J>>(
            seat, place, expected, new,
        ),
        Act::Store { new } => shared.swap::<Does<J>>(seat, place, new),
        Act::Add { by } => shared.fetch_add::<Does<J>>(seat, place, by),
        Act::Max { value } => shared.fetch_max::<Does<J>>(seat, place, value),
    }
}
