//! Unpins.
ghost use Rattle.std.specs.Prelude.{◌≡◌, Some};
ghost use Rattle.xp_board.specs.Readings.{domain_of};
ghost use Rattle.step_maker.specs.Holds.{Rests};
ghost use Rattle.table_words.specs.OldWords.{known_old};
ghost use Rattle.table_words.specs.declared.old_words.OldWord.TheVariants.{First};
ghost use Rattle.mmuext_ops.specs.Holding.{MeetsElement};
ghost use Rattle.mmuext_ops.specs.declared.element.Element.TheVariants.{Unpin};

use frame_words::{get_ref, put_ref};
use kind_words::{look_kind, lost, read_kind};
use level_release::release;
use table_words::clear_pin;
use xp_board::Port;
use xp_preempt::Preempt;
use xp_words::{Refusal, Stop};

/// Unpins a table of the own domain, and releases it. Where the gate pauses the release the table is unpinned all the same, and the first
/// old word names what is left.
pub fn unpin<P: Port>(port: &mut P, gate: &mut dyn Preempt, domain: u16, f: u64) -> Result<(), Stop>
    requires rests { Rests (P.value port.old) }
    requires own { domain ≡ domain_of (P.value port.old).post.machine (P.value port.old).post.vcpu }
    requires room { known_old First (P.value port.old).holdings ≡ Some 0 }
    ensures { MeetsElement (P.value port.old) (P.value port.new) domain (Unpin f) None (policy gate.old) (policy gate.new) result }
{
    let frame = get_ref(port, f, domain)?;
    let found = look_kind(port, frame);
    let kind = read_kind(found);
    if !kind.pinned {
        put_ref(port, frame);
        return Err(Stop::Refused(Refusal::NotPinned { found }));
    }
    match clear_pin(port, frame, kind) {
        Ok(()) => {
            put_ref(port, frame);
            // A pause of the release leaves this element done.
            match release(port, gate, frame, kind.kind) {
                Ok(()) | Err(_) => Ok(()),
            }
        }
        Err(found_now) => {
            put_ref(port, frame);
            if read_kind(found_now).pinned {
                Err(lost(port, frame, found, found_now))
            } else {
                Err(Stop::Refused(Refusal::NotPinned { found: found_now }))
            }
        }
    }
}
