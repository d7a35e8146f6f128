ghost use Rattle.std.specs.Prelude.{◌≡◌, ◌<◌, ◌≤◌, ◌==◌, ◌++◌, true, Some, OnOk, string_bytes};
ghost use Rattle.machine_draw.specs.Frames.{domains_of, is_in_run, is_drawn_alone, red_text, slots_text, node_text, run_title, frames_text, run_node, frame_part, frame_parts};
ghost use Rattle.machine_draw.specs.Runs.{run_end};

use crate::picture::Picture;
use crate::runs::RangeText;
use report_text::{FormText, HolderText};
use std::alloc::AllocError;
use xp_words::{KindWord, PageType, Place};

/// The attribute that colours what the verdict names.
pub fn red_text(red: bool) -> &'static str
    ensures { result.now ≡ red_text red }
{
    if red { ",color=red" } else { "" }
}

#[tactic(auto, unfolding(crate::specs::Frames::slots_text))]
fn slots_text(kind: u64) -> &'static str
    ensures { result.now ≡ slots_text kind }
{
    match KindWord::read(kind) {
        Some(
            KindWord {
                kind: PageType::L4,
                ..
            },
        ) => "\\nslots 256-271 are Xen's",
        _ => "",
    }
}

#[tactic(auto, unfolding(crate::specs::Frames::node_text))]
fn put_node(out: &mut String, frame: u32, refs: u64, kind: u64, red: bool) -> Result<(), AllocError>
    ensures { OnOk result (string_bytes out.new ≡ string_bytes out.old ++ node_text frame refs kind red) }
{
    let holder = HolderText(refs);
    let form = FormText(kind);
    let slots = slots_text(kind);
    let color = red_text(red);
    writeln!(
        out,
        "frame{frame} [label=\"frame {frame}\\n{holder}\\n{form}{slots}\"{color}];"
    )
}

fn run_title(free: bool) -> &'static str
    ensures { result.now ≡ run_title free }
{
    if free { "free" } else { "frames" }
}

#[tactic(auto, unfolding(crate::specs::Frames::frames_text))]
fn put_range(out: &mut String, range: RangeText, free: bool) -> Result<(), AllocError>
    ensures { OnOk result (string_bytes out.new ≡ string_bytes out.old ++ frames_text range.first range.last free) }
{
    let first = range.first;
    let last = range.last;
    let title = run_title(free);
    writeln!(out, "frames{first}to{last} [label=\"{title} {range}\"];")
}

// The frame behind the run that begins at `first`.
fn run_end(picture: &Picture<'_>, cluster: u32, first: u32) -> u32
    requires first { first < picture.now.memory.machine.frames }
    requires is_in_run { is_in_run picture.now cluster first ≡ true }
    ensures end { result ≡ run_end (is_in_run picture.now cluster) first picture.now.memory.machine.frames }
    ensures some { first < result }
{
    let frames = picture.frames();
    let mut end = first + 1;
    while end < frames && picture.is_in_run(cluster, end) {
        end += 1;
    }
    end
}

// The run of frames that begins at `frame`, if one does.
#[tactic(auto, unfolding(crate::specs::Frames::run_node))]
fn put_run(
    out: &mut String,
    picture: &Picture<'_>,
    cluster: u32,
    frame: u32,
) -> Result<(), AllocError>
    requires frame { frame < picture.now.memory.machine.frames }
    requires is_in_run { is_in_run picture.now cluster frame ≡ true }
    ensures { OnOk result (string_bytes out.new ≡ string_bytes out.old ++ run_node picture.now cluster frame) }
{
    if frame > 0 && picture.is_in_run(cluster, frame - 1) {
        return Ok(());
    }
    let range = RangeText {
        first: frame,
        last: run_end(picture, cluster, frame) - 1,
    };
    let free = cluster == picture.image().layout().domains();
    put_range(out, range, free)
}

#[tactic(auto, unfolding(crate::specs::Frames::frame_part, xp_words::specs::Places::is_place), using(std::proofs::lemmas::Bool::Decides::nat_tests))]
fn put_frame(
    out: &mut String,
    picture: &Picture<'_>,
    cluster: u32,
    frame: u32,
) -> Result<(), AllocError>
    requires { frame < picture.now.memory.machine.frames }
    ensures { OnOk result (string_bytes out.new ≡ string_bytes out.old ++ frame_part picture.now cluster frame) }
{
    if picture.cluster_of(frame) != cluster {
        return Ok(());
    }
    if !picture.is_drawn_alone(frame) {
        return put_run(out, picture, cluster, frame);
    }
    let image = picture.image();
    put_node(
        out,
        frame,
        image.word(Place::Refs { frame }),
        image.word(Place::Kind { frame }),
        picture.blames_frame(frame),
    )
}

/// Appends the frames of a domain's cluster, or of none, where `cluster` is the number of domains.
pub fn put_frames(out: &mut String, picture: &Picture<'_>, cluster: u32) -> Result<(), AllocError>
    ensures { OnOk result (string_bytes out.new ≡ string_bytes out.old ++ frame_parts picture.now cluster picture.now.memory.machine.frames) }
{
    let frames = picture.frames();
    for frame in 0..frames {
        put_frame(out, picture, cluster, frame)?;
    }
    Ok(())
}
