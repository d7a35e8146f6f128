//! What one extent comes to by one vCPU alone: it is done or refused as the plain one, and never paused.
ghost use Rattle.std.specs.Prelude.{◌≡◌, ◌<◌, ◌≤◌, ℕ, Option, Result};
ghost use Rattle.xp_words.specs.declared.reply.Stop.{Stop};
ghost use Rattle.xp_board.specs.Readings.{domain_of};
ghost use Rattle.xp_board.specs.Told.{PortValue};
ghost use Rattle.reservations.specs.Extents.{Reserves};
ghost use Rattle.reservations.specs.declared.extents.Extent.{Extent};
ghost use Rattle.reservations.specs.declared.extents.Extent.TheVariants.{Decrease};
ghost use Rattle.script_law.specs.Memory.{reserve, return_frames};
ghost use Rattle.script_law.specs.Values.{Solo, Whose, then_do};
ghost use Rattle.solo_ports.specs.Standing.{Clean, Fair, IsSettled, whose};
ghost use Rattle.solo_memory.specs.Extents.{ComesExtent, reserve_from};

use answer_laws::alone_stays;

/// By the only vCPU, where nothing is left to be settled, an extent of its domain is done or refused as the plain one, and leaves what that leaves: it takes the first aligned block that
/// is wholly free, or gives back the frames up to the first that it may not. It is never paused.
pub fn an_extent_alone_comes_to_its_plain_meaning()
    ensures { (v w : PortValue) (x : Solo) (size call k : ℕ) (extent : Extent) (left : ℕ) (answer : Result (Option ℕ) Stop) → Clean v x → 0 < size → Fair v w →
        Reserves (domain_of v.post.machine v.post.vcpu) size extent 0 v left w answer → ComesExtent call k w (reserve (whose v) size call k extent x) answer }
{
    alone_stays();
}

/// And so is one that goes on behind frames that are given back already: what is left from there.
pub fn the_rest_of_an_extent_alone_comes_to_its_plain_meaning()
    ensures { (v w : PortValue) (x : Solo) (size call k : ℕ) (extent : Extent) (from left : ℕ) (answer : Result (Option ℕ) Stop) → Clean v x → 0 < size → Fair v w → from ≤ size →
        Reserves (domain_of v.post.machine v.post.vcpu) size extent from v left w answer → ComesExtent call k w (reserve_from (whose v) size call k from extent x) answer }
{
    alone_stays();
}

/// Whole, a decrease is its first frames, and behind them what is left from there.
pub fn a_decrease_is_its_first_frames_and_the_rest()
    ensures { (w : Whose) (size call k first from : ℕ) (x : Solo) → from ≤ size → reserve w size call k (Decrease first) x ≡ then_do (return_frames w.machine w.domain first from x) (reserve_from w size call k from (Decrease first)) }
{}

/// An extent leaves what the vCPU knows of its old words.
pub fn an_extent_keeps_a_port_settled()
    ensures { (v w : PortValue) (d size : ℕ) (extent : Extent) (from left : ℕ) (answer : Result (Option ℕ) Stop) → Reserves d size extent from v left w answer → IsSettled v → IsSettled w }
{}
