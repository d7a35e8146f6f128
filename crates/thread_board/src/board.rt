ghost use Rattle.std.specs.Prelude.{◌≡◌, ◌<◌, ◌≤◌, [], length, IfOk, replicate};
ghost use Rattle.std.specs.Vec.{vec_capacity};
ghost use Rattle.xp_words.specs.Machine.{IsMachine};
ghost use Rattle.xp_words.specs.Places.{sizes_of};
ghost use Rattle.xp_board.specs.Hands.{empty};
ghost use Rattle.xp_board.specs.Legal.{Legal};
ghost use Rattle.xp_board.specs.Sound.{SoundWords};
ghost use Rattle.thread_board.specs.Values.{AreOpened, IsPassOf, PassSteps};

use crate::pass::Pass;
use crate::rule::{Cut, Opening, SharedRule, SharedSeat, SharedTable, SharedView, share_step};
use atomic_table::Table;
use own_cache::Translations;
use sparse_words::SparseWords;
use std::alloc::{AllocError, Global};
use std::marker::{Brand, Model};
use xp_board::Step;
use xp_words::Layout;

/// A board whose words all vCPUs share, each in a thread of its own. It takes 8 bytes for each word of the machine, beside the
/// words with which it opened. Contracts see its table, its machine and those words, and no other word.
#[derive(Drop)]
pub struct SharedBoard {
    pub(crate) opening: Opening,
    pub(crate) table: Table<(), SharedView, Opening, SharedRule, Global>,
}

impl Model for SharedBoard {
    ghost use Rattle.thread_board.specs.Values.{BoardValue};
    ghost use Rattle.thread_board.specs.Boards.{board_value, IsSharedInside};

    ghost Value = { BoardValue };

    ghost view = { board_value };

    ghost invariant = { IsSharedInside };
}

// The words in one row.
fn in_a_row(alloc: Global, words: &SparseWords) -> Result<Vec<u64>, AllocError>
    ensures { IfOk result (λ row. row.items ≡ words.now) }
{
    let mut row = Vec::with_capacity(alloc, words.len() as usize)?;
    for place in 0..words.len() {
        row.push_reserved(words.get(place));
    }
    Ok(row)
}

// A pass for each vCPU, cut off the view of the first seat.
fn deal(
    alloc: Global,
    shared: &SharedTable,
    seat: SharedSeat,
    vcpus: u32,
    passes: &mut Vec<Pass>,
) -> Result<(), AllocError>
    requires empty { passes.old.items ≡ [] }
    requires some { 1 ≤ vcpus }
    requires room { vcpus ≤ vec_capacity passes.old }
    requires seat { (seat.table_id ≡ shared.now.table_id) × (seat.me ≡ (record { from = 0; hands = replicate vcpus empty }, [])) }
    requires words { 0 < shared.now.table_id.words }
    ensures count { IfOk result (λ _. length passes.new.items ≡ vcpus) }
    ensures passes { IfOk result (λ _. AreOpened shared.now.table_id passes.new.items) }
{
    let mut rest = seat;
    let last = vcpus - 1;
    for vcpu in 0..last {
        let translations = Translations::new(alloc)?;
        let next = shared.split_seat::<Cut>(&mut rest);
        passes.push_reserved(Pass {
            vcpu,
            seat: rest,
            translations,
        });
        rest = next;
    }
    let translations = Translations::new(alloc)?;
    passes.push_reserved(Pass {
        vcpu: last,
        seat: rest,
        translations,
    });
    Ok(())
}

impl SharedBoard {
    /// A board with these words, each at its place in the layout, on which no step was made, and a pass for each vCPU, in order.
    /// It fails where memory is short alone.
    pub fn make(
        alloc: Global,
        layout: Layout,
        words: SparseWords,
    ) -> Result<(SharedBoard, Vec<Pass>), AllocError>
        requires { SoundWords layout words }
        ensures board { IfOk result (λ r. (r.0.machine ≡ layout) × (r.0.opening ≡ words)) }
        ensures passes { IfOk result (λ r. (length r.1.items ≡ (sizes_of layout).vcpus) × AreOpened r.0.table r.1.items) }
    {
        let vcpus = layout.vcpus();
        let mut passes = Vec::with_capacity(alloc, vcpus as usize)?;
        let opening = Opening { layout, words };
        let row = in_a_row(alloc, &opening.words)?;
        let (table, seat) = Table::of_words(alloc, row.as_slice(), &opening)?;
        let shared = &table.shared;
        deal(alloc, shared, seat, vcpus, &mut passes)?;
        Ok((SharedBoard { opening, table }, passes))
    }

    /// The fixed numbers of the machine.
    pub fn layout(&self) -> &Layout
        ensures layout { result.now ≡ self.now.machine }
        ensures machine { IsMachine self.now.machine }
    {
        &self.opening.layout
    }

    // One step of the vCPU of a pass.
    #[inline(always)]
    pub(crate) fn step(&self, pass: &mut Pass, step: Step) -> u64
        requires pass { IsPassOf self.now pass.old }
        requires legal { Legal self.now.machine pass.old.vcpu pass.old.holdings step }
        ensures { PassSteps self.now pass.old step result pass.new }
    {
        let vcpu = pass.vcpu;
        let table = &self.table;
        let found = share_step::<Brand>(&table.shared, &mut pass.seat, vcpu, step);
        pass.translations
            .hear(&self.opening.layout, vcpu, step, found);
        found
    }
}
