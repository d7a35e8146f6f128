ghost use Rattle.std.specs.Prelude.{◌≡◌, ◌<◌, ◌++◌, length, Some, OnOk, string_bytes};
ghost use Rattle.machine_draw.specs.Vcpus.{vcpu_node, vcpu_part, vcpu_parts, word_title, word_edge, word_edges, vcpu_edges};

use crate::frames::red_text;
use crate::image::Image;
use crate::picture::Picture;
use crate::targets::context_target;
use std::alloc::AllocError;
use std::fmt;
use xp_words::Place;

#[tactic(auto, unfolding(crate::specs::Vcpus::vcpu_node))]
fn put_node(out: &mut String, picture: &Picture<'_>, vcpu: u32) -> Result<(), AllocError>
    ensures { OnOk result (string_bytes out.new ≡ string_bytes out.old ++ vcpu_node picture.now vcpu) }
{
    let color = red_text(picture.blames_vcpu(vcpu));
    writeln!(
        out,
        "vcpu{vcpu} [label=\"vcpu {vcpu}\",shape=ellipse{color}];"
    )
}

#[tactic(auto, unfolding(crate::specs::Vcpus::vcpu_part))]
fn put_vcpu(
    out: &mut String,
    picture: &Picture<'_>,
    domain: u16,
    vcpu: u32,
) -> Result<(), AllocError>
    requires { vcpu < length picture.now.memory.machine.vcpu_domain }
    ensures { OnOk result (string_bytes out.new ≡ string_bytes out.old ++ vcpu_part picture.now domain vcpu) }
{
    let layout = picture.image().layout();
    if layout.vcpu_domain.as_slice()[vcpu as usize] == domain {
        put_node(out, picture, vcpu)
    } else {
        Ok(())
    }
}

/// Appends the vCPUs of a domain.
pub fn put_vcpus(out: &mut String, picture: &Picture<'_>, domain: u16) -> Result<(), AllocError>
    ensures { OnOk result (string_bytes out.new ≡ string_bytes out.old ++ vcpu_parts picture.now domain (length picture.now.memory.machine.vcpu_domain)) }
{
    let vcpus = picture.image().layout().vcpus();
    for vcpu in 0..vcpus {
        put_vcpu(out, picture, domain, vcpu)?;
    }
    Ok(())
}

/// What a word of a vCPU is, by its number.
#[derive(Clone, Copy)]
struct WordTitle(u32);

#[tactic(auto, unfolding(crate::specs::Vcpus::word_title), using(std::proofs::lemmas::Bool::Decides::nat_tests))]
impl fmt::Display for WordTitle {
    ghost output = { λ s. Some (word_title s.0) };

    fn fmt<W: fmt::Write>(&self, f: &mut fmt::Formatter<W>) -> fmt::Result {
        let index = self.0;
        if index == 0 {
            f.write_str("base")
        } else if index == 1 {
            f.write_str("user")
        } else if index < 8 {
            f.write_str("old")
        } else if index < 22 {
            let entry = index - 8;
            write!(f, "GDT {entry}")
        } else {
            let entry = index - 22;
            write!(f, "LDT {entry}")
        }
    }
}

#[tactic(auto, unfolding(crate::specs::Vcpus::word_edge, xp_words::specs::Places::is_place), using(std::proofs::lemmas::Bool::Decides::nat_tests))]
fn put_word(out: &mut String, image: &Image<'_>, vcpu: u32, index: u32) -> Result<(), AllocError>
    requires vcpu { vcpu < length image.now.machine.vcpu_domain }
    requires index { index < 38 }
    ensures { OnOk result (string_bytes out.new ≡ string_bytes out.old ++ word_edge image.now vcpu index) }
{
    let title = WordTitle(index);
    match context_target(index, image.word(Place::Vcpu { vcpu, word: index })) {
        Some(frame) => writeln!(out, "vcpu{vcpu} -> frame{frame} [label=\"{title}\"];"),
        None => Ok(()),
    }
}

fn put_words(out: &mut String, image: &Image<'_>, vcpu: u32) -> Result<(), AllocError>
    requires { vcpu < length image.now.machine.vcpu_domain }
    ensures { OnOk result (string_bytes out.new ≡ string_bytes out.old ++ word_edges image.now vcpu 38) }
{
    for index in 0..38 {
        put_word(out, image, vcpu, index)?;
    }
    Ok(())
}

/// Appends the edges of all vCPUs to the frames that their words name.
pub fn put_edges(out: &mut String, image: &Image<'_>) -> Result<(), AllocError>
    ensures { OnOk result (string_bytes out.new ≡ string_bytes out.old ++ vcpu_edges image.now (length image.now.machine.vcpu_domain)) }
{
    let vcpus = image.layout().vcpus();
    for vcpu in 0..vcpus {
        put_words(out, image, vcpu)?;
    }
    Ok(())
}
