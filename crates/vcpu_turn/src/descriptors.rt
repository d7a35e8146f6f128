//! Operations on descriptor tables.
ghost use Rattle.std.specs.Prelude.{◌≡◌, ◌≤◌, [], false};
ghost use Rattle.step_maker.specs.Holds.{Rests};
ghost use Rattle.vcpu_turn.specs.Cpus.{viewed_descriptors};
ghost use Rattle.vcpu_turn.specs.Descriptors.{DoesDescriptors};
ghost use Rattle.vcpu_turn.specs.Lists.{is_due_answer};
ghost use Rattle.vcpu_turn.specs.Settling.{IsWarm};

use desc_pages::{set_gdt, update_descriptor};
use ldt_pages::touch_ldt;
use xp_board::Port;
use xp_words::Stop;

// What is asked of them.
#[derive(Clone, Copy, Drop)]
pub(crate) enum Descriptors<'a> {
    // `set_gdt`: so many entries, in these frames.
    Gdt { entries: u64, frames: &'a [u64] },
    // `update_descriptor`: a word at a machine address.
    Descriptor { address: u64, word: u64 },
    // The guest's first touch of a page of its LDT.
    Ldt { page: u64 },
}

// It is done, or why not.
pub(crate) fn work_on_descriptors<P: Port>(
    port: &mut P,
    tables: &Descriptors<'_>,
    done: &mut u32,
) -> Result<(), Stop>
    requires rests { Rests (P.value port.old) }
    requires warm { IsWarm (P.value port.old) }
    ensures post { (P.value port.new).post ≡ (P.value port.old).post }
    ensures within { done.new ≤ 1 }
    ensures works { DoesDescriptors (viewed_descriptors tables.now) (P.value port.old) done.new (P.value port.new) [] result }
    ensures undue { is_due_answer result ≡ false }
    ensures rests { Rests (P.value port.new) }
    ensures warm { IsWarm (P.value port.new) }
{
    *done = 0;
    match tables {
        Descriptors::Gdt { entries, frames } => set_gdt(port, *entries, frames)?,
        Descriptors::Descriptor { address, word } => update_descriptor(port, *address, *word)?,
        Descriptors::Ldt { page } => touch_ldt(port, *page)?,
    }
    *done = 1;
    Ok(())
}
