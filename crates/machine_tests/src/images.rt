//! The commands that write an image and read one.
use crate::runs::{FIRST_UPDATE, ran, run_paced, sink_of, source_of, words_of};
use std::process::Abort;
use xp_machine::Status;

fn image_of(rt: &(impl Abort + AllocGlobal)) -> Vec<u8> {
    let (answer, image) = ran(rt, "image", FIRST_UPDATE.as_bytes(), 7);
    assert!(rt; answer == Status::Done);
    image
}

fn is_bad(rt: &(impl Abort + AllocGlobal), image: &[u8], line: &str) {
    let (answer, text) = ran(rt, "audit", image, 7);
    assert!(rt; answer == Status::BadImage, "{line}");
    assert!(rt; text.as_slice() == line.as_bytes(), "{line}");
}

// Word 41 is the reference word of the only frame, word 43 its machine-to-physical number. 72 bytes stand before the words.
#[test]
fn the_closing_machine_is_written(rt: HostRuntime) {
    let image = image_of(&rt);
    assert_eq!(rt; image.len(), 72 + 8 * 558);
    assert!(rt; image.starts_with(b"XPVIMG01"));
    assert!(rt; image.get(72 + 8 * 41) == Some(&1));
    assert!(rt; image.get(72 + 8 * 43) == Some(&7));
}

#[test]
fn what_is_no_image_is_refused_where_it_differs(rt: HostRuntime) {
    let image = image_of(&rt);
    assert_eq!(rt; image.len(), 4536);
    let (_, front) = image.split_last().expect(&rt, "a byte");
    let (_, back) = image.split_first().expect(&rt, "a byte");
    is_bad(&rt, front, "bad image at 4535\n");
    is_bad(&rt, back, "bad image at 0\n");
    is_bad(&rt, &[], "bad image at 0\n");
}

#[test]
fn a_failing_read_of_an_image_writes_nothing(rt: HostRuntime) {
    let words = words_of(&rt, "audit");
    let image = image_of(&rt);
    let mut source = source_of(&rt, &image, usize::MAX, 1);
    let mut sink = sink_of(&rt, 7, 0);
    assert!(rt; run_paced(&rt, &words, &mut source, &mut sink) == Status::ReadFault);
    assert!(rt; sink.bytes().is_empty());
}
