//! Translations of the own vCPU that are dropped.
ghost use Rattle.std.specs.Prelude.{ℕ, [], None, Ok, IfErr};
ghost use Rattle.step_maker.specs.Holds.{FlushedSame, Rests};
ghost use Rattle.step_maker.specs.Answers.{Stops};
ghost use Rattle.mmuext_ops.specs.Course.{FlushedLocal, Invalidated};
ghost use Rattle.mmuext_ops.specs.Elements.{IsElementStop, ServesElement, ext_request};
ghost use Rattle.mmuext_ops.specs.declared.element.Element.TheVariants.{FlushLocal, Invalidate};

use xp_board::Port;
use xp_words::Stop;

/// All of them.
pub fn flush_local<P: Port>(port: &mut P) -> Result<(), Stop>
    requires rests { Rests (P.value port.old) }
    ensures serves { (d : ℕ) → ServesElement (P.value port.old) (P.value port.new) d FlushLocal None result }
    ensures stops { (d : ℕ) → IfErr result (λ e. Stops (P.value port.old) (P.value port.new) (ext_request (P.value port.old).post.machine (P.value port.old).post.vcpu d FlushLocal None result) e) }
    ensures kinds { IfErr result (IsElementStop FlushLocal) }
    ensures hand { FlushedSame (P.value port.old) (P.value port.new) }
    ensures rests { Rests (P.value port.new) }
    ensures course { FlushedLocal (P.value port.old) (P.value port.new) [] result }
{
    match tlb_walks::flush_local(port) {
        Ok(()) => Ok(()),
        Err(refusal) => Err(Stop::Refused(refusal)),
    }
}

/// Those of the page of an address.
pub fn invalidate<P: Port>(port: &mut P, va: u64)
    requires rests { Rests (P.value port.old) }
    ensures serves { (d : ℕ) → ServesElement (P.value port.old) (P.value port.new) d (Invalidate va) None (Ok tt) }
    ensures hand { FlushedSame (P.value port.old) (P.value port.new) }
    ensures rests { Rests (P.value port.new) }
    ensures course { Invalidated (P.value port.old) (P.value port.new) va [] (Ok tt) }
{
    tlb_walks::invlpg(port, va);
}
