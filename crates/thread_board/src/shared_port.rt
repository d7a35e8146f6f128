ghost use Rattle.thread_board.specs.Values.{IsPassOf};

use crate::board::SharedBoard;
use crate::pass::Pass;
use xp_board::{Item, Port, Step};
use xp_words::Layout;

/// One vCPU's access to a shared board. It tells contracts what its own vCPU finds, and no other words.
#[derive(Drop)]
pub struct SharedPort<'a> {
    pub(crate) board: &'a SharedBoard,
    pub(crate) pass: &'a mut Pass,
    ghost own: { IsPassOf board.now pass.now },
}

impl Port for SharedPort<'_> {
    ghost use Rattle.thread_board.specs.Ports.{pass_port};

    ghost value = { λ p. pass_port p.board.now p.pass.now p.pass.ghost_name };

    fn layout(&self) -> &Layout {
        let board = self.board;
        board.layout()
    }

    fn vcpu(&self) -> u32 {
        let pass: &Pass = &*self.pass;
        pass.vcpu()
    }

    fn cached(&self, user: bool, page: u64) -> Option<Item> {
        let pass: &Pass = &*self.pass;
        pass.cached(user, page)
    }

    #[inline(always)]
    fn step(&mut self, step: Step) -> u64 {
        let board = self.board;
        board.step(self.pass, step)
    }
}
