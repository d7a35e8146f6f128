ghost use Rattle.std.specs.Prelude.{◌≡◌, ◌++◌, IfOk, OnOk, string_bytes};
ghost use Rattle.step_text.specs.Lines.{steps_text_of, told_line};

use crate::acts::{ActText, MarkText, kind_text};
use crate::places::PlaceText;
use crate::told::ToldStep;
use std::alloc::{AllocError, Global};
use xp_words::Layout;

#[tactic(auto, unfolding(crate::specs::Lines::told_line))]
fn put_step(out: &mut String, layout: &Layout, told: ToldStep) -> Result<(), AllocError>
    ensures { OnOk result (string_bytes out.new ≡ string_bytes out.old ++ told_line layout.now told) }
{
    let ToldStep { vcpu, step, found } = told;
    let kind = kind_text(step.kind);
    let place = PlaceText {
        layout,
        place: step.place,
    };
    let act = ActText(step.act);
    let mark = MarkText(step.mark);
    writeln!(
        out,
        "step {vcpu} {kind} {place} {act} found 0x{found:x}{mark}"
    )
}

#[tactic(auto, unfolding(crate::specs::Lines::steps_text_of))]
fn put_steps(out: &mut String, layout: &Layout, steps: &[ToldStep]) -> Result<(), AllocError>
    ensures { OnOk result (string_bytes out.new ≡ string_bytes out.old ++ steps_text_of layout.now steps.now) }
{
    for told in steps {
        put_step(out, layout, *told)?;
    }
    Ok(())
}

/// The text of steps, a line each, in their order. `layout` is the machine's; a place behind its last word is written as a privilege of a domain that it has not.
pub fn steps_text(alloc: Global, layout: &Layout, steps: &[ToldStep]) -> Result<Vec<u8>, AllocError>
    ensures { IfOk result (λ v. v.items ≡ steps_text_of layout.now steps.now) }
{
    let mut out = String::new(alloc);
    put_steps(&mut out, layout, steps)?;
    Ok(out.into_bytes())
}
