ghost use Rattle.std.specs.Prelude.{◌≡◌, ◌<◌, IfSome, length};

use crate::step::{Item, Step};
use xp_words::Layout;

/// One vCPU's access to the board. Each step is one event of the machine. Operations are written over this trait, so
/// they hold on every board: one that tells all words to contracts, and one that several threads share.
pub trait Port {
    ghost use Rattle.xp_words.specs.Machine.{IsMachine};
    ghost use Rattle.xp_words.specs.Places.{place_at, sizes_of, run_of};
    ghost use Rattle.xp_board.specs.Legal.{Legal};
    ghost use Rattle.xp_board.specs.Told.{PortValue, stepped, IsTold, Finds, Goes, Saw, cached_item, own_run};

    /// The port as contracts see it.
    ghost value: { Self → PortValue };

    /// The fixed numbers of the board's machine.
    fn layout(&self) -> &Layout
        ensures layout { result.now ≡ (value self.now).post.machine }
        ensures machine { IsMachine result.now };

    /// The number of the vCPU.
    fn vcpu(&self) -> u32
        ensures vcpu { result ≡ (value self.now).post.vcpu }
        ensures real { result < length (value self.now).post.machine.vcpu_domain };

    /// The newest cached translation of a page, which is bits 12 to 47 of the address. Its frame is one of the machine's.
    fn cached(&self, user: bool, page: u64) -> Option<Item>
        ensures newest { result ≡ cached_item user page (value self.now).holdings.cache }
        ensures inside { IfSome result (λ x. x.frame < (value self.now).post.machine.frames) };

    /// Makes one step, and answers the word that it found. At the own run word that is the one which the vCPU last found
    /// or left there, and before its first look the one with which it opened.
    fn step(&mut self, step: Step) -> u64
        requires { Legal (value self.old).post.machine (value self.old).post.vcpu (value self.old).holdings step }
        ensures value { value self.new ≡ stepped (value self.old) step result }
        ensures goes { Goes (value self.old) (value self.new) }
        ensures saw { Saw (value self.old) (value self.new) (place_at (sizes_of (value self.old).post.machine) step.place) result }
        ensures found { Finds (value self.old).post.machine (value self.old).post.vcpu (value self.old).holdings (place_at (sizes_of (value self.old).post.machine) step.place) result }
        ensures own { place_at (sizes_of (value self.old).post.machine) step.place ≡ run_of (value self.old).post.vcpu → result ≡ own_run (value self.old) }
        ensures told { IsTold (value self.old).post.machine (value self.old).told (place_at (sizes_of (value self.old).post.machine) step.place) result };
}
