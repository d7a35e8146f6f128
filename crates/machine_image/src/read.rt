ghost use Rattle.std.specs.Prelude.{◌≡◌, ◌<◌, ◌≤◌, ◌+◌, ◌*◌, ◌-◌, ◌^◌, ℕ, List, length, Ok, IfOk, IfErr};
ghost use Rattle.xp_words.specs.Machine.{Machine, IsMachine};
ghost use Rattle.machine_image.specs.declared.fault.ImageFault.TheVariants.{Bad};
ghost use Rattle.machine_image.specs.Image.{image_of, IsImaged};
ghost use Rattle.machine_image.specs.Reading.{ReadsAs, Tells, field_at, whole_at, letters as letters_number, ranged_at, mask_at, each_at, words_at, machine_at, ended_at, image_at, image_fault};

use crate::fault::ImageFault;
use crate::numbers::Numbers;
use arrayvec::ArrayVec;
use byteorder::{ByteOrder, LittleEndian};
use std::alloc::Global;
use xp_io::Keeper;
use xp_words::{Layout, ShortList};

// Number `index` is none that may stand there.
fn refused(index: usize) -> ImageFault
    requires { index < 2 ^ 32 }
    ensures { result ≡ Bad (8 * index) }
{
    let at = 8 * index as u64;
    ImageFault::Bad { at }
}

// The bytes end within a number.
fn cut_off(bytes: &Numbers) -> ImageFault
    ensures { result ≡ Bad (length bytes.now) }
{
    let at = bytes.len() as u64;
    ImageFault::Bad { at }
}

// Number `index` of the bytes, where it is whole.
#[tactic(auto, unfolding(crate::specs::Reading::tested_at))]
fn whole(bytes: &Numbers, index: usize) -> Result<u64, ImageFault>
    requires { index < 2 ^ 32 }
    ensures { ReadsAs (λ n. n) result (whole_at bytes.now index) }
{
    if bytes.len() < 8 * index + 8 {
        return Err(cut_off(bytes));
    }
    Ok(bytes.get(index))
}

#[tactic(auto, unfolding(crate::specs::Reading::tested_at))]
fn ranged(bytes: &Numbers, index: usize, least: u64, most: u64) -> Result<u64, ImageFault>
    requires { index < 2 ^ 32 }
    ensures gives { ReadsAs (λ n. n) result (ranged_at least most bytes.now index) }
    ensures range { IfOk result (λ n. (least ≤ n) × (n ≤ most)) }
{
    let number = whole(bytes, index)?;
    if number < least || most < number {
        return Err(refused(index));
    }
    Ok(number)
}

// The letters before all numbers, as one number.
fn letters(bytes: &Numbers) -> Result<u64, ImageFault>
    ensures { ReadsAs (λ n. n) result (ranged_at letters_number letters_number bytes.now 0) }
{
    let letters = LittleEndian::read_u64(b"XPVIMG01");
    ranged(bytes, 0, letters, letters)
}

// The privilege mask of a domain.
#[tactic(auto, unfolding(crate::specs::Reading::tested_at))]
fn mask(bytes: &Numbers, index: usize, domains: u32, domain: u32) -> Result<u16, ImageFault>
    requires index { index < 2 ^ 32 }
    requires few { domains ≤ 16 }
    requires domain { domain < domains }
    ensures { ReadsAs (λ n. n) result (mask_at domains domain bytes.now index) }
{
    let mask = whole(bytes, index)?;
    if mask >= 1 << domains || (mask >> domain) % 2 == 1 {
        return Err(refused(index));
    }
    Ok(mask as u16)
}

fn page_limits(bytes: &Numbers, domains: u32) -> Result<ArrayVec<u32, 16>, ImageFault>
    requires { domains ≤ 16 }
    ensures { ReadsAs (λ v. v.items) result (each_at (λ _. ranged_at 0 65536 bytes.now) 0 5 domains) }
{
    let mut limits = ArrayVec::new();
    for domain in 0..domains {
        let limit = ranged(bytes, 5 + domain as usize, 0, 65536)?;
        limits.push(limit as u32);
    }
    Ok(limits)
}

fn masks(bytes: &Numbers, domains: u32) -> Result<ArrayVec<u16, 16>, ImageFault>
    requires { domains ≤ 16 }
    ensures { ReadsAs (λ v. v.items) result (each_at (λ d. mask_at domains d bytes.now) 0 (5 + domains) domains) }
{
    let mut masks = ArrayVec::new();
    let first = 5 + domains as usize;
    for domain in 0..domains {
        masks.push(mask(bytes, first + domain as usize, domains, domain)?);
    }
    Ok(masks)
}

fn vcpu_domains(bytes: &Numbers, domains: u32, vcpus: u32) -> Result<ArrayVec<u16, 16>, ImageFault>
    requires some { 1 ≤ domains }
    requires domains { domains ≤ 16 }
    requires vcpus { vcpus ≤ 16 }
    ensures { ReadsAs (λ v. v.items) result (each_at (λ _. ranged_at 0 (domains - 1) bytes.now) 0 (5 + 2 * domains) vcpus) }
{
    let mut found = ArrayVec::new();
    let first = 5 + 2 * domains as usize;
    let most = domains as u64 - 1;
    for vcpu in 0..vcpus {
        let domain = ranged(bytes, first + vcpu as usize, 0, most)?;
        found.push(domain as u16);
    }
    Ok(found)
}

#[tactic(auto, unfolding(crate::specs::Reading::machine_at))]
fn layout(bytes: &Numbers) -> Result<Layout, ImageFault>
    ensures { ReadsAs (λ l. l) result (machine_at bytes.now) }
{
    let _letters = letters(bytes)?;
    let frames = ranged(bytes, 1, 1, 65536)?;
    let limit = ranged(bytes, 2, 2, 67_108_863)?;
    let domains = ranged(bytes, 3, 1, 16)? as u32;
    let vcpus = ranged(bytes, 4, 1, 16)? as u32;
    let page_limit = page_limits(bytes, domains)?;
    let privilege = masks(bytes, domains)?;
    let vcpu_domain = vcpu_domains(bytes, domains, vcpus)?;
    Ok(Layout {
        frames: frames as u32,
        limit: limit as u32,
        page_limit: ShortList::new(page_limit),
        privilege: ShortList::new(privilege),
        vcpu_domain: ShortList::new(vcpu_domain),
    })
}

// So many words, from number `first` on.
#[tactic(auto, unfolding(crate::specs::Reading::words_at))]
fn words(bytes: &Numbers, first: usize, count: usize) -> Result<&[u64], ImageFault>
    requires first { first < 2 ^ 32 }
    requires count { count < 2 ^ 32 }
    ensures { ReadsAs (λ v. v.now) result (words_at bytes.now first count) }
{
    if bytes.len() < 8 * (first + count) {
        return Err(cut_off(bytes));
    }
    Ok(bytes.run(first, count))
}

#[tactic(auto, unfolding(crate::specs::Reading::image_at, crate::specs::Reading::ended_at))]
fn image(bytes: &Numbers) -> Result<(Layout, &[u64]), ImageFault>
    ensures { ReadsAs (λ x. (x.0, x.1.now)) result (image_at bytes.now) }
{
    let layout = layout(bytes)?;
    let count = layout.words();
    let place = 5 + 2 * layout.domains() as usize + layout.vcpus() as usize;
    let _count = ranged(bytes, place, u64::from(count), u64::from(count))?;
    let words = words(bytes, place + 1, count as usize)?;
    let end = 8 * (place + 1 + count as usize);
    if end < bytes.len() {
        return Err(ImageFault::Bad { at: end as u64 });
    }
    Ok((layout, words))
}

/// The machine and the words whose image the bytes are, all of the bytes. Otherwise it says where they first differ from an image.
pub fn image_in(bytes: &Numbers) -> Result<(Layout, &[u64]), ImageFault>
    // The bytes are the image of what is read.
    ensures found { IfOk result (λ x. IsImaged x.0 x.1.now × (bytes.now ≡ image_of x.0 x.1.now)) }
    // An image is read.
    ensures only { (m : Machine) (words : List ℕ) → IsImaged m words → bytes.now ≡ image_of m words → ReadsAs {Y = Machine × List ℕ} (λ x. (x.0, x.1.now)) result (Ok (m, words)) }
    // A fault is the first one.
    ensures fault { IfErr result (λ e. Tells e (image_fault bytes.now)) }
{
    // So the prover knows that these are bytes.
    let _len = bytes.len();
    image(bytes)
}

// The same, of which the words are copied.
fn copied(alloc: Global, bytes: &[u8]) -> Result<(Layout, Vec<u64>), ImageFault>
    ensures { ReadsAs (λ x. (x.0, x.1.items)) result (image_at bytes.now) }
{
    let mut numbers = Numbers::new(alloc);
    numbers.keep(bytes)?;
    let (layout, found) = image(&numbers)?;
    let mut words = Vec::new(alloc);
    words.extend_from_slice(found)?;
    Ok((layout, words))
}

/// The machine and the words whose image the bytes are, all of the bytes. Otherwise it says where they first differ from an image, or that
/// memory ran out.
pub fn read_image(alloc: Global, bytes: &[u8]) -> Result<(Layout, Vec<u64>), ImageFault>
    // The bytes are the image of what is read.
    ensures found { IfOk result (λ x. IsImaged x.0 x.1.items × (bytes.now ≡ image_of x.0 x.1.items)) }
    // An image is read, unless memory runs out.
    ensures only { (m : Machine) (words : List ℕ) → IsImaged m words → bytes.now ≡ image_of m words → ReadsAs {Y = Machine × List ℕ} (λ x. (x.0, x.1.items)) result (Ok (m, words)) }
    // A fault is the first one.
    ensures fault { IfErr result (λ e. Tells e (image_fault bytes.now)) }
{
    copied(alloc, bytes)
}
