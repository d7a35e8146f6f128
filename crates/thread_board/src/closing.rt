ghost use Rattle.std.specs.Prelude.{◌≡◌, ◌≤◌, length};
ghost use Rattle.std.specs.Slots.{slots_items, slots_len, IsFull};
ghost use Rattle.xp_words.specs.Places.{sizes_of};
ghost use Rattle.thread_board.specs.OneRun.{OneRun};
ghost use Rattle.thread_board.specs.Values.{AreOf, held_by};

use crate::board::SharedBoard;
use crate::pass::Pass;
use crate::rule::{Cut, Opening, SharedSeat, SharedTable};
use atomic_table::Closed;
use sound_rule::{a_run_leaves_it_safe, every_run_stays_sound};
use sparse_words::SparseWords;
use std::alloc::Global;

// Puts the words of a closed table in place of those.
fn copy_words(closed: &Closed<(), Global>, words: &mut SparseWords)
    requires count { length words.old ≡ slots_len closed.now.words }
    requires full { IsFull closed.now.words }
    ensures { words.new ≡ slots_items closed.now.words }
{
    for place in 0..words.len() {
        words.set(place, closed.word(place as usize));
    }
}

// One seat with the hands of all passes.
fn gather(shared: &SharedTable, mut passes: Vec<Pass>) -> SharedSeat
    requires some { 1 ≤ length passes.items }
    requires own { AreOf shared.now.table_id passes.items }
    requires words { 1 ≤ shared.now.table_id.words }
    ensures table { result.table_id ≡ shared.now.table_id }
    ensures view { result.me.0 ≡ record { from = 0; hands = held_by passes.items } }
{
    let Some(last) = passes.pop() else {
        unreachable!()
    };
    let Pass {
        vcpu: _,
        seat,
        translations: _,
    } = last;
    let mut all = seat;
    while let Some(pass) = passes.pop() {
        let Pass {
            vcpu: _,
            mut seat,
            translations: _,
        } = pass;
        shared.join_seat::<Cut>(&mut seat, all);
        all = seat;
    }
    all
}

impl SharedBoard {
    /// Ends the board, once no thread has a pass of it any more, and gives its words. One run of legal steps leads to them from the
    /// words that the board was made with, and explains all that each vCPU found.
    pub fn close(self, passes: Vec<Pass>) -> SparseWords
        requires count { length passes.items ≡ (sizes_of self.machine).vcpus }
        requires own { AreOf self.table passes.items }
        ensures { OneRun self.machine self.opening result (held_by passes.items) }
    {
        // What the steps keep is law: these two calls do nothing.
        every_run_stays_sound();
        a_run_leaves_it_safe();
        let SharedBoard { opening, table } = self;
        let Opening {
            layout: _,
            mut words,
        } = opening;
        let shared = &table.shared;
        let seat = gather(shared, passes);
        let closed = table.close_with(seat);
        copy_words(&closed, &mut words);
        closed.free();
        words
    }
}
