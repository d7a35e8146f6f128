ghost use Rattle.std.specs.Prelude.{◌≡◌};
ghost use base.Fml.{ftrue};
ghost use Rattle.xp_board.specs.Told.{Story};
ghost use Rattle.shared_board.specs.Board.{opened_story};

use sparse_words::SparseWords;
use std::marker::Model;
use xp_board::Step;
use xp_words::Layout;

/// The story of a board, for the proof alone: it takes no memory. That it is told as it was, the board's own invariant says.
#[derive(Drop)]
pub(crate) struct Tale {
    pub(crate) ghost story: { Story },
}

impl Model for Tale {
    ghost also_owns = { λ _. ftrue };
}

/// One more step, of a vCPU.
#[derive(Clone, Copy, Drop)]
pub(crate) struct Next<'a> {
    pub(crate) layout: &'a Layout,
    pub(crate) vcpu: u32,
    pub(crate) step: Step,
}

impl Tale {
    ghost use Rattle.shared_board.specs.Tales.{told_on};

    /// That of a board with these words, on which no step was made.
    #[inline(always)]
    pub(crate) fn opened(_layout: &Layout, _words: &SparseWords) -> Tale
        ensures { result.story ≡ opened_story _layout.now _words.now }
    {
        Tale {}
    }

    /// With one more step.
    #[inline(always)]
    pub(crate) fn then(&self, _next: &Next<'_>) -> Tale
        ensures { result.story ≡ told_on self.now.story _next.now }
    {
        Tale {}
    }
}
