ghost use Rattle.std.specs.Prelude.{◌≡◌};
ghost use Rattle.xp_board.specs.Told.{cached_item};
ghost use Rattle.thread_board.specs.Values.{IsPassOf};

use crate::board::SharedBoard;
use crate::rule::SharedSeat;
use crate::shared_port::SharedPort;
use own_cache::Translations;
use std::marker::Model;
use xp_board::Item;

/// The right of one vCPU to step on a shared board, with its translations. There is one for each vCPU, and it may go to
/// another thread. Contracts see its board's table, the number of the vCPU, and what the vCPU holds.
#[derive(Drop)]
pub struct Pass {
    pub(crate) vcpu: u32,
    // What the vCPU holds, for the proof alone.
    pub(crate) seat: SharedSeat,
    // The newest first.
    pub(crate) translations: Translations,
}

impl Model for Pass {
    ghost use Rattle.thread_board.specs.Values.{PassValue};
    ghost use Rattle.thread_board.specs.Passes.{pass_of, IsPass};

    ghost Value = { PassValue };

    ghost view = { pass_of };

    ghost invariant = { IsPass };
}

impl Pass {
    /// The number of its vCPU, from 0 on.
    pub fn vcpu(&self) -> u32
        ensures { result ≡ self.now.vcpu }
    {
        self.vcpu
    }

    pub(crate) fn cached(&self, user: bool, page: u64) -> Option<Item>
        ensures { result ≡ cached_item user page self.now.holdings.cache }
    {
        self.translations.cached(user, page)
    }

    /// The vCPU's access to its board, for as long as it lives.
    pub fn port<'a>(&'a mut self, board: &'a SharedBoard) -> SharedPort<'a>
        requires { IsPassOf board.now self.old }
        ensures same { result.pass.ghost_name ≡ self.entry.ghost_name }
        ensures board { result.board.now ≡ board.now }
        ensures pass { result.pass.now ≡ self.old }
    {
        SharedPort { board, pass: self }
    }
}
