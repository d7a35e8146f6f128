//! The text of a trace.

ghost use Rattle.std.specs.Prelude.{◌≡◌, ◌<◌, ◌≤◌, ◌++◌, ◌∷◌, [], length, map, OnOk, IfOk, if◌then◌else◌, string_bytes};
ghost use Rattle.trace_lines.specs.declared.line.Line.TheVariants as lines;
ghost use Rattle.trace_text.specs.Lines.{mask_lines, priv_lines, own_line, cell_line, turn_line, script_lines, op_lines, head_lines, machine_lines, opening_lines, run_lines, lines_for, spelling};
ghost use Rattle.xp_words.specs.Entries.{is_bit};
ghost use Rattle.trace_text.specs.TraceOf.{trace_of};
ghost use Rattle.trace_text.specs.WellFormed.{IsWellFormed};

use crate::read::MAX_BYTES;
use crate::trace::{CellRun, Own, Trace, TurnRun};
use std::alloc::{AllocError, Global};
use trace_lines::{
    put_cell, put_clock, put_domain, put_end, put_frames, put_header, put_limit, put_op, put_own,
    put_priv, put_turn, put_vcpu,
};
use xp_words::{Op, Script};

fn put_domains(out: &mut String, limits: &[u32]) -> Result<(), AllocError>
    ensures { OnOk result (string_bytes out.new ≡ string_bytes out.old ++ spelling (map (λ limit. lines.Domain limit) limits.now)) }
{
    for limit in limits {
        put_domain(out, u64::from(*limit))?;
    }
    Ok(())
}

fn put_vcpus(out: &mut String, domains: &[u16]) -> Result<(), AllocError>
    ensures { OnOk result (string_bytes out.new ≡ string_bytes out.old ++ spelling (map (λ domain. lines.Vcpu domain) domains.now)) }
{
    for domain in domains {
        put_vcpu(out, u64::from(*domain))?;
    }
    Ok(())
}

fn put_owned(out: &mut String, owned: &[Own]) -> Result<(), AllocError>
    ensures { OnOk result (string_bytes out.new ≡ string_bytes out.old ++ spelling (map own_line owned.now)) }
{
    for o in owned {
        put_own(
            out,
            u64::from(o.domain),
            u64::from(o.first),
            u64::from(o.count),
        )?;
    }
    Ok(())
}

fn put_cells(out: &mut String, cells: &[CellRun]) -> Result<(), AllocError>
    ensures { OnOk result (string_bytes out.new ≡ string_bytes out.old ++ spelling (map cell_line cells.now)) }
{
    for c in cells {
        put_cell(
            out,
            u64::from(c.frame),
            u64::from(c.first),
            u64::from(c.count),
            c.value,
        )?;
    }
    Ok(())
}

fn put_turns(out: &mut String, turns: &[TurnRun]) -> Result<(), AllocError>
    ensures { OnOk result (string_bytes out.new ≡ string_bytes out.old ++ spelling (map turn_line turns.now)) }
{
    for t in turns {
        put_turn(out, u64::from(t.vcpu), u64::from(t.count))?;
    }
    Ok(())
}

fn put_script(out: &mut String, vcpu: u64, script: &[Op]) -> Result<(), AllocError>
    ensures { OnOk result (string_bytes out.new ≡ string_bytes out.old ++ spelling (script_lines vcpu script.now)) }
{
    for op in script {
        put_op(out, vcpu, op)?;
    }
    Ok(())
}

fn put_bit(out: &mut String, domain: u64, over: u32, mask: u16) -> Result<(), AllocError>
    requires { over < 16 }
    ensures { OnOk result (string_bytes out.new ≡ string_bytes out.old ++ spelling (if is_bit over mask then lines.Priv domain over ∷ [] else [])) }
{
    if (mask >> over) % 2 == 1 {
        put_priv(out, domain, u64::from(over))?;
    }
    Ok(())
}

// The privileges of one domain.
#[tactic(auto, using(crate::proofs::Texts::mask_more), unfolding(crate::specs::Lines::mask_lines))]
fn put_mask(out: &mut String, domains: u32, domain: u64, mask: u16) -> Result<(), AllocError>
    requires { domains ≤ 16 }
    ensures { OnOk result (string_bytes out.new ≡ string_bytes out.old ++ spelling (mask_lines domains domain mask)) }
{
    for over in 0..domains {
        put_bit(out, domain, over, mask)?;
    }
    Ok(())
}

fn put_masks(out: &mut String, domains: u32, masks: &[u16]) -> Result<(), AllocError>
    requires { domains ≤ 16 }
    ensures { OnOk result (string_bytes out.new ≡ string_bytes out.old ++ spelling (priv_lines domains masks.now)) }
{
    for (domain, mask) in masks.iter().enumerate() {
        put_mask(out, domains, domain as u64, *mask)?;
    }
    Ok(())
}

fn put_scripts(out: &mut String, scripts: &[Script]) -> Result<(), AllocError>
    ensures { OnOk result (string_bytes out.new ≡ string_bytes out.old ++ spelling (op_lines scripts.now)) }
{
    for (vcpu, script) in scripts.iter().enumerate() {
        put_script(out, vcpu as u64, script.as_slice())?;
    }
    Ok(())
}

fn put_head(out: &mut String, trace: &Trace) -> Result<(), AllocError>
    ensures { OnOk result (string_bytes out.new ≡ string_bytes out.old ++ spelling (head_lines trace.now)) }
{
    put_header(out, trace.version)?;
    put_frames(out, u64::from(trace.layout.frames))?;
    put_limit(out, u64::from(trace.layout.limit))?;
    put_clock(out, trace.clock)?;
    Ok(())
}

fn put_machine(out: &mut String, trace: &Trace) -> Result<(), AllocError>
    ensures { OnOk result (string_bytes out.new ≡ string_bytes out.old ++ spelling (machine_lines trace.now)) }
{
    let layout = &trace.layout;
    put_domains(out, layout.page_limit.as_slice())?;
    put_masks(out, layout.domains(), layout.privilege.as_slice())?;
    put_vcpus(out, layout.vcpu_domain.as_slice())?;
    Ok(())
}

fn put_opening(out: &mut String, trace: &Trace) -> Result<(), AllocError>
    ensures { OnOk result (string_bytes out.new ≡ string_bytes out.old ++ spelling (opening_lines trace.now)) }
{
    put_owned(out, trace.owned.as_slice())?;
    put_cells(out, trace.cells.as_slice())?;
    Ok(())
}

fn put_run(out: &mut String, trace: &Trace) -> Result<(), AllocError>
    ensures { OnOk result (string_bytes out.new ≡ string_bytes out.old ++ spelling (run_lines trace.now)) }
{
    put_scripts(out, trace.scripts.as_slice())?;
    put_turns(out, trace.turns.as_slice())?;
    put_end(out)?;
    Ok(())
}

fn spell(alloc: Global, trace: &Trace) -> Result<Vec<u8>, AllocError>
    ensures { IfOk result (λ v. v.items ≡ spelling (lines_for trace.now)) }
{
    let mut out = String::new(alloc);
    put_head(&mut out, trace)?;
    put_machine(&mut out, trace)?;
    put_opening(&mut out, trace)?;
    put_run(&mut out, trace)?;
    Ok(out.into_bytes())
}

/// The text of a well-formed trace, of which `read_trace` makes an equal trace where it is not too long.
#[tactic(auto, using(crate::proofs::TraceAgain::trace_again))]
pub fn write_trace(alloc: Global, trace: &Trace) -> Result<Vec<u8>, AllocError>
    requires { IsWellFormed trace.now }
    ensures spelled { IfOk result (λ v. v.items ≡ spelling (lines_for trace.now)) }
    ensures again { IfOk result (λ v. length v.items ≤ MAX_BYTES → trace_of v.items ≡ Ok trace.now) }
{
    spell(alloc, trace)
}
