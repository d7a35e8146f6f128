ghost use Rattle.std.specs.Prelude.{◌≡◌, ◌<◌, IfOk, IfSome};
ghost use Rattle.xp_words.specs.Machine.{IsMachine};
ghost use Rattle.xp_words.specs.Places.{sizes_of};
ghost use Rattle.xp_board.specs.Legal.{Legal};
ghost use Rattle.xp_board.specs.Runs.{Run, start};
ghost use Rattle.xp_board.specs.Sound.{SoundState, SoundWords, hand_of};
ghost use Rattle.shared_board.specs.Board.{Steps, opened_story, state_of};
ghost use Rattle.told_board.specs.Telling.{told_steps};

use shared_board::{PlainBoard, WholeBoard};
use sparse_words::SparseWords;
use std::alloc::{AllocError, Global};
use std::marker::Model;
use step_text::ToldStep;
use xp_board::{Item, Step};
use xp_words::Layout;

/// A plain board that lists its steps, not for the proof alone. Contracts see it as a plain board.
#[derive(Drop)]
pub struct ToldBoard {
    board: PlainBoard,
    // In the order in which they were made.
    steps: Vec<ToldStep>,
    // A step found no memory in the list.
    lost: bool,
}

impl Model for ToldBoard {
    ghost use Rattle.shared_board.specs.Board.{Board};
    ghost use Rattle.told_board.specs.Inside.{board_of, IsToldBoard};

    ghost Value = { Board };

    ghost view = { board_of };

    ghost invariant = { IsToldBoard };
}

impl ToldBoard {
    /// A board with these words, on which no step was made, as `PlainBoard::make`.
    pub fn make(alloc: Global, layout: Layout, words: SparseWords) -> Result<ToldBoard, AllocError>
        requires { SoundWords layout words }
        ensures { IfOk result (λ b. (b.machine ≡ layout) × (b.story ≡ opened_story layout words)) }
    {
        let board = PlainBoard::make(alloc, layout, words)?;
        Ok(ToldBoard {
            board,
            steps: Vec::new(alloc),
            lost: false,
        })
    }

    /// Gives the words back, as `PlainBoard::into_words`, and the steps in their order, or an error where there was no memory for one of them.
    pub fn into_parts(self) -> (SparseWords, Result<Vec<ToldStep>, AllocError>)
        ensures words { result.0 ≡ self.story.words }
        ensures run { Run self.machine (start self.machine self.story.opening) self.story.log (state_of self.story) }
        ensures sound { SoundState self.machine self.story.words self.story.hands }
        ensures steps { IfOk result.1 (λ v. v.items ≡ told_steps self.story.opening self.story.log) }
    {
        let ToldBoard { board, steps, lost } = self;
        let words = board.into_words();
        (words, if lost { Err(AllocError) } else { Ok(steps) })
    }
}

impl WholeBoard for ToldBoard {
    ghost board = { λ b. b };

    fn layout(&self) -> &Layout {
        self.board.layout()
    }

    fn cached(&self, vcpu: u32, user: bool, page: u64) -> Option<Item> {
        self.board.cached(vcpu, user, page)
    }

    // The step of the plain board, and one more item of the list.
    fn step(&mut self, vcpu: u32, step: Step) -> u64 {
        let found = self.board.step(vcpu, step);
        if !self.lost {
            let told = ToldStep { vcpu, step, found };
            self.lost = self.steps.push(told).is_err();
        }
        found
    }
}
