//! Images (machine_image): of two frames, two domains of which the first has privilege over the second, and one vCPU of the second.
ghost use Rattle.std.specs.Prelude.{◌≡◌};

use crate::machines::short_list;
use machine_image::{ImageFault, read_image, write_image};
use sparse_words::SparseWords;
use std::test::Fail;
use xp_words::Layout;

// The image up to the number of the words, 1 + 3 * 2 + 38 + 515 * 2 + 1.
const FRONT: [u8; 88] = [
    b'X', b'P', b'V', b'I', b'M', b'G', b'0', b'1', 2, 0, 0, 0, 0, 0, 0, 0, 0xff, 0xff, 0xff, 3, 0,
    0, 0, 0, 2, 0, 0, 0, 0, 0, 0, 0, 1, 0, 0, 0, 0, 0, 0, 0, 0, 0, 1, 0, 0, 0, 0, 0, 3, 0, 0, 0, 0,
    0, 0, 0, 2, 0, 0, 0, 0, 0, 0, 0, 0, 0, 0, 0, 0, 0, 0, 0, 1, 0, 0, 0, 0, 0, 0, 0, 0x34, 4, 0, 0,
    0, 0, 0, 0,
];

fn layout() -> Layout {
    Layout {
        frames: 2,
        limit: 67_108_863,
        page_limit: short_list(&[65536, 3]),
        privilege: short_list(&[2, 0]),
        vcpu_domain: short_list(&[1]),
    }
}

// The image of that machine with one word that is not 0, the second.
fn image(rt: &HostRuntime) -> Result<Vec<u8>, Fail> {
    let layout = layout();
    let mut words = SparseWords::new(rt.alloc(), &layout)?;
    if words.len() > 1 {
        words.set(1, 0x0102_0304_0506_0708);
    }
    Ok(write_image(rt.alloc(), &layout, &words)?)
}

fn fault(rt: &HostRuntime, bytes: &[u8]) -> Option<u64> {
    match read_image(rt.alloc(), bytes) {
        Err(ImageFault::Bad { at }) => Some(at),
        _ => None,
    }
}

// The fault of the image with one byte changed.
fn fault_with(rt: &HostRuntime, place: usize, byte: u8) -> Result<Option<u64>, Fail> {
    let mut bytes = image(rt)?;
    if let Some(changed) = bytes.get_mut(place) {
        *changed = byte;
    }
    Ok(fault(rt, &bytes))
}

#[test]
fn writes_the_lowest_byte_first(rt: HostRuntime) -> Result<(), Fail> {
    let bytes = image(&rt)?;
    assert_eq!(rt; bytes.len(), 88 + 8 * 1076);
    assert!(rt; bytes.starts_with(&FRONT));
    assert!(rt; bytes[88..].starts_with(&[0, 0, 0, 0, 0, 0, 0, 0, 8, 7, 6, 5, 4, 3, 2, 1, 0]));
    Ok(())
}

#[test]
fn reads_what_was_written(rt: HostRuntime) -> Result<(), Fail> {
    let bytes = image(&rt)?;
    let (layout, words) = read_image(rt.alloc(), &bytes)
        .ok()
        .ok_or("the bytes are an image")?;
    assert_eq!(rt; layout.frames, 2);
    assert_eq!(rt; layout.limit, 67_108_863);
    assert_eq!(rt; layout.page_limit.as_slice(), [65536, 3].as_slice());
    assert_eq!(rt; layout.privilege.as_slice(), [2, 0].as_slice());
    assert_eq!(rt; layout.vcpu_domain.as_slice(), [1].as_slice());
    assert_eq!(rt; words.len(), 1076);
    assert!(rt; words.starts_with(&[0, 0x0102_0304_0506_0708, 0]));
    Ok(())
}

#[test]
fn tells_where_the_first_fault_is(rt: HostRuntime) -> Result<(), Fail> {
    for length in [0, 12, 88] {
        let front = FRONT.get(..length).ok_or("no more than the front")?;
        assert_eq!(rt; fault(&rt, front), Some(length as u64));
    }
    for (place, byte) in [
        (0, b'x'),
        (8, 0),
        (40, 1),
        (56, 1),
        (56, 4),
        (72, 2),
        (80, 0),
    ] {
        assert_eq!(rt; fault_with(&rt, place, byte)?, Some(place as u64));
    }
    let mut bytes = image(&rt)?;
    bytes.push(0)?;
    assert_eq!(rt; fault(&rt, &bytes), Some(8696));
    Ok(())
}
