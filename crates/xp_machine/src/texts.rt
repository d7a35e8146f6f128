ghost use Rattle.std.specs.Prelude.{◌≡◌, ◌++◌, Some, IfOk, codes};
ghost use Rattle.walk_audit.specs.Lines.{verdict_text};
ghost use Rattle.xp_machine.specs.Texts.{bad_image_text, cause_text, what_text, fault_text};
ghost use Rattle.trace_lines.specs.declared.fault.LineFault.TheVariants.{Passed, Bad};

use std::alloc::{AllocError, Global};
use std::fmt;
use trace_lines::{Cause, What};
use walk_audit::Verdict;

#[derive(Drop)]
struct CauseText(Cause);

impl fmt::Display for CauseText {
    ghost output = { λ c. Some (cause_text c.0) };

    fn fmt<W: fmt::Write>(&self, f: &mut fmt::Formatter<W>) -> fmt::Result {
        match self.0 {
            Cause::End => write!(f, "end"),
            Cause::Line => write!(f, "line"),
            Cause::Place => write!(f, "place"),
            Cause::Range => write!(f, "range"),
        }
    }
}

#[derive(Drop)]
struct WhatText(What);

impl fmt::Display for WhatText {
    ghost output = { λ w. Some (what_text w.0) };

    fn fmt<W: fmt::Write>(&self, f: &mut fmt::Formatter<W>) -> fmt::Result {
        match self.0 {
            What::Bytes => write!(f, "bytes"),
            What::Frames => write!(f, "frames"),
            What::Domains => write!(f, "domains"),
            What::Vcpus => write!(f, "vcpus"),
            What::Ops => write!(f, "ops"),
            What::Destroys => write!(f, "destroys"),
            What::Numbers => write!(f, "numbers"),
            What::Extents => write!(f, "extents"),
            What::Turns => write!(f, "turns"),
        }
    }
}

/// What is written for a line at fault; lines count from 1.
#[tactic(auto, unfolding(crate::specs::Texts::fault_text))]
pub fn bad_text(alloc: Global, line: u32, cause: Cause) -> Result<Vec<u8>, AllocError>
    ensures { IfOk result (λ v. v.items ≡ fault_text line (Bad cause)) }
{
    let cause = CauseText(cause);
    let text = format!(in alloc; "bad trace line {line}: {cause}\n")?;
    Ok(text.into_bytes())
}

/// What is written for a quantity that passes its limit; line 0 stands for the bytes themselves.
#[tactic(auto, unfolding(crate::specs::Texts::fault_text))]
pub fn large_text(alloc: Global, line: u32, what: What, number: u64) -> Result<Vec<u8>, AllocError>
    ensures { IfOk result (λ v. v.items ≡ fault_text line (Passed what number)) }
{
    let what = WhatText(what);
    let text = format!(in alloc; "too large line {line}: {what} {number}\n")?;
    Ok(text.into_bytes())
}

/// What is written for bytes whose first fault as an image is there.
#[tactic(auto, unfolding(crate::specs::Texts::bad_image_text))]
pub fn bad_image(alloc: Global, at: u64) -> Result<Vec<u8>, AllocError>
    ensures { IfOk result (λ v. v.items ≡ bad_image_text at) }
{
    let text = format!(in alloc; "bad image at {at}\n")?;
    Ok(text.into_bytes())
}

/// What is written for the words of an image.
pub fn verdict_line(alloc: Global, verdict: Verdict) -> Result<Vec<u8>, AllocError>
    ensures { IfOk result (λ v. v.items ≡ verdict_text verdict ++ codes "\n") }
{
    let text = format!(in alloc; "{verdict}\n")?;
    Ok(text.into_bytes())
}
