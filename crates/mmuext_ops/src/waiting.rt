//! Flushes of other vCPUs.
ghost use Rattle.std.specs.Prelude.{ℕ, [], IfErr};
ghost use Rattle.step_maker.specs.Holds.{FlushedSame, Rests};
ghost use Rattle.step_maker.specs.Answers.{Stops};
ghost use Rattle.mmuext_ops.specs.Course.{WaitedForVcpus};
ghost use Rattle.mmuext_ops.specs.Elements.{IsElementStop, KnowsAwaited, ServesElement, awaited_by, ext_request};
ghost use Rattle.mmuext_ops.specs.declared.element.Element.TheVariants.{FlushVcpus};

use flush_waits::flush_others;
use step_maker::look_clock;
use xp_board::Port;
use xp_words::Stop;

/// Waits until each vCPU of the mask that belongs to the own domain has dropped its translations: the own one drops them at once, each
/// other is asked to. It is waited for past the clock value that is found first, or past `awaited`, where the wait began in an earlier turn.
pub fn flush_vcpus<P: Port>(port: &mut P, mask: u16, awaited: Option<u64>) -> Result<(), Stop>
    requires rests { Rests (P.value port.old) }
    requires known { KnowsAwaited (P.value port.old) awaited }
    ensures serves { (d : ℕ) → ServesElement (P.value port.old) (P.value port.new) d (FlushVcpus mask) awaited result }
    ensures stops { (d : ℕ) → IfErr result (λ e. Stops (P.value port.old) (P.value port.new) (ext_request (P.value port.old).post.machine (P.value port.old).post.vcpu d (FlushVcpus mask) awaited result) e) }
    ensures kinds { IfErr result (IsElementStop (FlushVcpus mask)) }
    ensures hand { FlushedSame (P.value port.old) (P.value port.new) }
    ensures rests { Rests (P.value port.new) }
    ensures awaits { KnowsAwaited (P.value port.new) (awaited_by (FlushVcpus mask) result) }
    ensures course { WaitedForVcpus (P.value port.old) (P.value port.new) mask awaited [] result }
{
    let clock = look_clock(port);
    let stamp = awaited.unwrap_or(clock);
    flush_others(port, mask, stamp)
}
