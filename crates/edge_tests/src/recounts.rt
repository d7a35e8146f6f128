//! References counted again (reference_recount): two frames that nobody owns, and a vCPU whose base names the first of them.
use crate::machines::short_list;
use reference_recount::{Tally, recount};
use std::test::Fail;
use xp_words::Layout;

fn layout() -> Layout {
    Layout {
        frames: 2,
        limit: 2,
        page_limit: short_list(&[2]),
        privilege: short_list(&[0]),
        vcpu_domain: short_list(&[0]),
    }
}

fn tally(refs: u64, types: u64, mistyped: bool) -> Tally {
    Tally {
        refs,
        types,
        mistyped,
    }
}

#[test]
fn a_base_names_a_frame_that_is_no_table(rt: HostRuntime) -> Result<(), Fail> {
    let layout = layout();
    let mut words = vec![in rt.alloc(); 0u64; layout.words() as usize]?;
    words[layout.vcpu_place(0, 0) as usize] = 1;
    let tallies = recount(rt.alloc(), &layout, words.as_slice())?;
    let want = [tally(1, 1, true), tally(0, 0, false)];
    assert_eq!(rt; tallies.as_slice(), want.as_slice());
    Ok(())
}
