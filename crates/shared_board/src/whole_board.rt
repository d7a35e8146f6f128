use xp_board::{Item, Step};
use xp_words::Layout;

/// A board whose words nobody else reaches while it is had. One thread makes the steps of every vCPU on it. Contracts see it as a plain board.
pub trait WholeBoard {
    ghost use Rattle.std.specs.Prelude.{◌≡◌, ◌<◌, IfSome};
    ghost use Rattle.xp_words.specs.Machine.{IsMachine};
    ghost use Rattle.xp_words.specs.Places.{sizes_of};
    ghost use Rattle.xp_board.specs.Legal.{Legal};
    ghost use Rattle.xp_board.specs.Sound.{hand_of};
    ghost use Rattle.xp_board.specs.Told.{cached_item};
    ghost use Rattle.shared_board.specs.Board.{Board, Steps};

    ghost board: { Self → Board };

    /// The fixed numbers of the machine.
    fn layout(&self) -> &Layout
        ensures layout { result.now ≡ (board self.now).machine }
        ensures machine { IsMachine (board self.now).machine };

    /// The newest cached translation of a page of a vCPU, as its port tells it. Operations have ports.
    fn cached(&self, vcpu: u32, user: bool, page: u64) -> Option<Item>
        requires { vcpu < (sizes_of (board self.now).machine).vcpus }
        ensures newest { result ≡ cached_item user page (hand_of (board self.now).story.hands vcpu).cache }
        ensures inside { IfSome result (λ x. x.frame < (board self.now).machine.frames) };

    /// One step of a vCPU, as its port makes it. Operations have ports.
    fn step(&mut self, vcpu: u32, step: Step) -> u64
        requires vcpu { vcpu < (sizes_of (board self.old).machine).vcpus }
        requires legal { Legal (board self.old).machine vcpu (hand_of (board self.old).story.hands vcpu) step }
        ensures { Steps (board self.old) vcpu step result (board self.new) };
}

/// A board that is lent is one for as long.
impl<B: WholeBoard> WholeBoard for &mut B {
    ghost board = { λ b. B.board b.now };

    fn layout(&self) -> &Layout {
        WholeBoard::layout(&**self)
    }

    fn cached(&self, vcpu: u32, user: bool, page: u64) -> Option<Item> {
        WholeBoard::cached(&**self, vcpu, user, page)
    }

    #[inline(always)]
    fn step(&mut self, vcpu: u32, step: Step) -> u64 {
        WholeBoard::step(&mut **self, vcpu, step)
    }
}
