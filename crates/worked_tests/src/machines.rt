//! Small machines, each with all of its numbers.
ghost use Rattle.std.specs.Prelude.{◌≡◌, ◌≤◌, ◌∷◌, [], length};

use arrayvec::ArrayVec;
use xp_words::{Layout, ShortList};

/// Two domains and one vCPU, of domain 1. Its 65 frames have two words of free map.
pub fn small_layout() -> Layout
    ensures { result ≡ record { frames = 65; limit = 2; page_limit = 65 ∷ 5 ∷ []; privilege = 2 ∷ 0 ∷ []; vcpu_domain = 1 ∷ [] } }
{
    Layout {
        frames: 65,
        limit: 2,
        page_limit: short_list(&[65, 5]),
        privilege: short_list(&[2, 0]),
        vcpu_domain: short_list(&[1]),
    }
}

/// Three domains, and a vCPU of each of the first two.
pub fn three_domains(frames: u32) -> Layout
    requires some { 1 ≤ frames }
    requires few { frames ≤ 65536 }
    ensures { result ≡ record { frames = frames; limit = 67108863; page_limit = 4 ∷ 3 ∷ 0 ∷ []; privilege = 0 ∷ 0 ∷ 0 ∷ []; vcpu_domain = 0 ∷ 1 ∷ [] } }
{
    Layout {
        frames,
        limit: 67_108_863,
        page_limit: short_list(&[4, 3, 0]),
        privilege: short_list(&[0, 0, 0]),
        vcpu_domain: short_list(&[0, 1]),
    }
}

/// One domain of at most one page, with one vCPU and one frame.
pub fn least_machine() -> Layout
    ensures { result ≡ record { frames = 1; limit = 67108863; page_limit = 1 ∷ []; privilege = 0 ∷ []; vcpu_domain = 0 ∷ [] } }
{
    Layout {
        frames: 1,
        limit: 67_108_863,
        page_limit: short_list(&[1]),
        privilege: short_list(&[0]),
        vcpu_domain: short_list(&[0]),
    }
}

/// One domain that may have all of 100 frames, with one vCPU.
pub fn hundred_frames() -> Layout
    ensures { result ≡ record { frames = 100; limit = 2; page_limit = 100 ∷ []; privilege = 0 ∷ []; vcpu_domain = 0 ∷ [] } }
{
    Layout {
        frames: 100,
        limit: 2,
        page_limit: short_list(&[100]),
        privilege: short_list(&[0]),
        vcpu_domain: short_list(&[0]),
    }
}

fn short_list<T: Copy + Default>(items: &[T]) -> ShortList<T>
    requires { length items.now ≤ 16 }
    ensures { result ≡ items.now }
{
    let mut list = ArrayVec::new();
    for item in items {
        list.push(*item);
    }
    ShortList::new(list)
}
