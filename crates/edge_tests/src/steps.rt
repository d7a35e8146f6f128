//! Texts of steps (step_text), of a machine of two domains, two vCPUs and 70 frames, for which the map of free frames has two words. The words of the vCPUs
//! begin at 5, those of the frames at 81, the map at 36131, and the privileges at 36133.
use crate::machines::short_list;
use std::process::Abort;
use std::test::Fail;
use step_text::{ToldStep, steps_text};
use xp_board::{Act, Mark, Step, StepKind};
use xp_words::Layout;

fn layout() -> Layout {
    Layout {
        frames: 70,
        limit: 67_108_863,
        page_limit: short_list(&[70, 70]),
        privilege: short_list(&[0, 0]),
        vcpu_domain: short_list(&[0, 1]),
    }
}

// The line of one step of vCPU 1 that finds 10 has these words.
fn is_told(rt: &(impl Abort + AllocGlobal), step: Step, words: [&str; 4]) -> Result<(), Fail> {
    let [kind, place, act, mark] = words;
    let told = ToldStep {
        vcpu: 1,
        step,
        found: 10,
    };
    let text = steps_text(rt.alloc(), &layout(), &[told])?;
    let due = format!(in rt.alloc(); "step 1 {kind} {place} {act} found 0xa{mark}\n")?;
    assert_eq!(rt; String::from_utf8(text)?, due);
    Ok(())
}

const LOOK: Step = Step {
    place: 0,
    act: Act::Load,
    kind: StepKind::Look,
    mark: None,
};

#[test]
fn names_each_kind_of_step(rt: HostRuntime) -> Result<(), Fail> {
    for (kind, name) in [
        (StepKind::Look, "look"),
        (StepKind::Ref, "ref"),
        (StepKind::Kind, "kind"),
        (StepKind::Cell, "cell"),
        (StepKind::M2p, "m2p"),
        (StepKind::Pages, "pages"),
        (StepKind::Context, "context"),
        (StepKind::Fill, "fill"),
        (StepKind::Guest, "guest"),
        (StepKind::Tick, "tick"),
        (StepKind::Ask, "ask"),
        (StepKind::Ack, "ack"),
        (StepKind::Life, "life"),
        (StepKind::Run, "run"),
        (StepKind::Hint, "hint"),
        (StepKind::Touch, "touch"),
        (StepKind::Priv, "priv"),
    ] {
        is_told(&rt, Step { kind, ..LOOK }, [name, "clock", "load", ""])?;
    }
    Ok(())
}

#[test]
fn names_each_word_of_the_machine(rt: HostRuntime) -> Result<(), Fail> {
    for (place, name) in [
        (0, "clock"),
        (1, "pages 0"),
        (4, "life 1"),
        (5, "vcpu 0 base"),
        (6, "vcpu 0 user-base"),
        (45, "vcpu 1 old0"),
        (46, "vcpu 1 old1"),
        (47, "vcpu 1 asked"),
        (48, "vcpu 1 flushed"),
        (49, "vcpu 1 run"),
        (50, "vcpu 1 ldt-base"),
        (51, "vcpu 1 gdt 0"),
        (64, "vcpu 1 gdt 13"),
        (65, "vcpu 1 ldt 0"),
        (80, "vcpu 1 ldt 15"),
        (81, "refs 0"),
        (597, "kind 1"),
        (1113, "m2p 2"),
        (1114, "cell 2 0"),
        (36130, "cell 69 511"),
        (36131, "map 0"),
        (36132, "map 1"),
        (36134, "priv 1"),
    ] {
        is_told(&rt, Step { place, ..LOOK }, ["look", name, "load", ""])?;
    }
    Ok(())
}

#[test]
fn writes_each_act(rt: HostRuntime) -> Result<(), Fail> {
    for (act, name) in [
        (Act::Load, "load"),
        (
            Act::Cas {
                expected: 10,
                new: 0x1f,
            },
            "cas 0xa to 0x1f",
        ),
        (Act::Store { new: 0 }, "store 0x0"),
        (Act::Add { by: 16 }, "add 0x10"),
        (
            Act::Add {
                by: 0x7fff_ffff_ffff_ffff,
            },
            "add 0x7fffffffffffffff",
        ),
        (
            Act::Add {
                by: 0x8000_0000_0000_0000,
            },
            "add -0x8000000000000000",
        ),
        (
            Act::Add {
                by: 0xffff_ffff_ffff_ffff,
            },
            "add -0x1",
        ),
        (Act::Max { value: 17 }, "max 0x11"),
    ] {
        is_told(&rt, Step { act, ..LOOK }, ["look", "clock", name, ""])?;
    }
    Ok(())
}

#[test]
fn writes_each_mark(rt: HostRuntime) -> Result<(), Fail> {
    for (mark, name) in [
        (
            Mark::Record {
                frame: 5,
                upto: 512,
            },
            " record 5 512",
        ),
        (Mark::Shed { frame: 5, upto: 0 }, " shed 5 0"),
        (Mark::Forget { page: 0xabc }, " forget 0xabc"),
        (Mark::Cut { call: 0 }, " cut 0"),
        (Mark::Turn, " turn"),
        (Mark::Walk { write: true }, " walk write"),
        (Mark::Walk { write: false }, " walk read"),
    ] {
        let mark = Some(mark);
        is_told(&rt, Step { mark, ..LOOK }, ["look", "clock", "load", name])?;
    }
    Ok(())
}
