ghost use Rattle.std.specs.Prelude.{◌≡◌, ◌<◌, ◌≤◌, ◌||◌, ℕ, false, length, slice_index_or, IfOk};
ghost use Rattle.machine_draw.specs.Named.{entries_name, table_names, tables_name, words_name, vcpus_name, is_named_frame, named_frames};
ghost use Rattle.machine_draw.specs.Targets.{is_frame};

use crate::image::Image;
use crate::targets::{context_target, entry_target};
use std::alloc::{AllocError, Global};
use word_readers::recorded_entries;
use xp_words::{KindWord, Place};

// Marks the frame, if there is one and the machine has it.
fn mark(named: &mut [bool], target: Option<u64>)
    ensures { (f : ℕ) → f < length named.old → slice_index_or named.new f false ≡ (slice_index_or named.old f false || is_frame f target) }
{
    if let Some(frame) = target {
        if frame < named.len() as u64 {
            named[frame as usize] = true;
        }
    }
}

// Marks what the first `count` entries of a table name.
#[tactic(auto, unfolding(xp_words::specs::Places::is_place), using(std::proofs::lemmas::Bool::Decides::nat_tests))]
fn mark_entries(image: &Image<'_>, table: u32, kind: &KindWord, count: u16, named: &mut [bool])
    requires table { table < image.now.machine.frames }
    requires count { count ≤ 512 }
    ensures { (f : ℕ) → f < length named.old → slice_index_or named.new f false ≡ (slice_index_or named.old f false || entries_name image.now table kind.now count f) }
{
    for index in 0..count {
        let target = entry_target(
            kind.kind,
            index,
            image.word(Place::Cell {
                frame: table,
                index,
            }),
        );
        mark(named, target);
    }
}

// Marks what the recorded entries of a frame name.
#[tactic(auto, unfolding(xp_words::specs::Places::is_place), using(std::proofs::lemmas::Bool::Decides::nat_tests))]
fn mark_table(image: &Image<'_>, table: u32, named: &mut [bool])
    requires { table < image.now.machine.frames }
    ensures { (f : ℕ) → f < length named.old → slice_index_or named.new f false ≡ (slice_index_or named.old f false || table_names image.now table f) }
{
    if let Some(kind) = KindWord::read(image.word(Place::Kind { frame: table })) {
        mark_entries(image, table, &kind, recorded_entries(&kind), named);
    }
}

// Marks what the first tables name.
fn mark_tables(image: &Image<'_>, frames: u32, named: &mut [bool])
    requires { frames ≤ image.now.machine.frames }
    ensures { (f : ℕ) → f < length named.old → slice_index_or named.new f false ≡ (slice_index_or named.old f false || tables_name image.now frames f) }
{
    for table in 0..frames {
        mark_table(image, table, named);
    }
}

// Marks what the words of a vCPU name.
#[tactic(auto, unfolding(xp_words::specs::Places::is_place), using(std::proofs::lemmas::Bool::Decides::nat_tests))]
fn mark_words(image: &Image<'_>, vcpu: u32, named: &mut [bool])
    requires { vcpu < length image.now.machine.vcpu_domain }
    ensures { (f : ℕ) → f < length named.old → slice_index_or named.new f false ≡ (slice_index_or named.old f false || words_name image.now vcpu 38 f) }
{
    for index in 0..38 {
        let target = context_target(index, image.word(Place::Vcpu { vcpu, word: index }));
        mark(named, target);
    }
}

// Marks what the first vCPUs name.
fn mark_vcpus(image: &Image<'_>, vcpus: u32, named: &mut [bool])
    requires { vcpus ≤ length image.now.machine.vcpu_domain }
    ensures { (f : ℕ) → f < length named.old → slice_index_or named.new f false ≡ (slice_index_or named.old f false || vcpus_name image.now vcpus f) }
{
    for vcpu in 0..vcpus {
        mark_words(image, vcpu, named);
    }
}

// Marks what anything names.
fn mark_all(image: &Image<'_>, named: &mut [bool])
    ensures { (f : ℕ) → f < length named.old → slice_index_or named.new f false ≡ (slice_index_or named.old f false || is_named_frame image.now f) }
{
    let layout = image.layout();
    mark_tables(image, layout.frames, named);
    mark_vcpus(image, layout.vcpus(), named);
}

/// Of each frame, whether a recorded entry or a word of a vCPU names it.
pub fn named_frames(alloc: Global, image: &Image<'_>) -> Result<Vec<bool>, AllocError>
    ensures items { IfOk result (λ v. v.items ≡ named_frames image.now) }
    ensures len { IfOk result (λ v. length v.items ≡ image.now.machine.frames) }
{
    let frames = image.frames();
    let mut named = vec![in alloc; false; frames as usize]?;
    mark_all(image, &mut named);
    Ok(named)
}
