ghost use Rattle.std.specs.Prelude.{◌≡◌, ◌<◌, ◌≤◌, ◌++◌, length, OnOk, IfOk, string_bytes};
ghost use Rattle.xp_words.specs.Places.{sizes_of, size};
ghost use Rattle.machine_draw.specs.Drawing.{cluster_head, cluster_label, cluster_open, cluster_color, cluster_text, cluster_texts, head_text, drawing, drawing_of};
ghost use Rattle.machine_draw.specs.Frames.{domains_of};

use crate::frames::put_frames;
use crate::image::Image;
use crate::named::named_frames;
use crate::picture::Picture;
use crate::tables::put_tables;
use crate::vcpus::{put_edges, put_vcpus};
use report_text::LifeText;
use std::alloc::{AllocError, Global};
use walk_audit::Verdict;
use xp_words::{Layout, Place};

#[tactic(auto, unfolding(crate::specs::Drawing::cluster_label, xp_words::specs::Places::is_place), using(std::proofs::lemmas::Bool::Decides::nat_tests))]
fn put_cluster_label(out: &mut String, picture: &Picture<'_>, domain: u16) -> Result<(), AllocError>
    requires { domain < domains_of picture.now }
    ensures { OnOk result (string_bytes out.new ≡ string_bytes out.old ++ cluster_label picture.now domain) }
{
    let image = picture.image();
    let life = LifeText(image.word(Place::Life { domain }));
    let pages = image.word(Place::Pages { domain });
    writeln!(out, "label=\"domain {domain} {life} pages {pages}\";")
}

#[tactic(auto, unfolding(crate::specs::Drawing::cluster_open))]
fn put_cluster_open(out: &mut String, domain: u16) -> Result<(), AllocError>
    ensures { OnOk result (string_bytes out.new ≡ string_bytes out.old ++ cluster_open domain) }
{
    writeln!(out, "subgraph cluster_domain{domain} {{")
}

fn cluster_color(red: bool) -> &'static str
    ensures { result.now ≡ cluster_color red }
{
    if red { "color=red;\n" } else { "" }
}

#[tactic(auto, unfolding(crate::specs::Drawing::cluster_head))]
fn put_cluster_head(out: &mut String, picture: &Picture<'_>, domain: u16) -> Result<(), AllocError>
    requires { domain < domains_of picture.now }
    ensures { OnOk result (string_bytes out.new ≡ string_bytes out.old ++ cluster_head picture.now domain) }
{
    put_cluster_open(out, domain)?;
    put_cluster_label(out, picture, domain)?;
    out.push_str(cluster_color(picture.blames_domain(domain)))
}

#[tactic(auto, unfolding(crate::specs::Drawing::cluster_text))]
fn put_cluster(out: &mut String, picture: &Picture<'_>, domain: u16) -> Result<(), AllocError>
    requires { domain < domains_of picture.now }
    ensures { OnOk result (string_bytes out.new ≡ string_bytes out.old ++ cluster_text picture.now domain) }
{
    put_cluster_head(out, picture, domain)?;
    put_frames(out, picture, u32::from(domain))?;
    put_vcpus(out, picture, domain)?;
    out.push_str("}\n")
}

fn put_clusters(out: &mut String, picture: &Picture<'_>) -> Result<(), AllocError>
    ensures { OnOk result (string_bytes out.new ≡ string_bytes out.old ++ cluster_texts picture.now (domains_of picture.now)) }
{
    let domains = picture.image().layout().domains() as u16;
    for domain in 0..domains {
        put_cluster(out, picture, domain)?;
    }
    Ok(())
}

#[tactic(auto, unfolding(crate::specs::Drawing::head_text))]
fn put_head(out: &mut String, verdict: Verdict) -> Result<(), AllocError>
    ensures { OnOk result (string_bytes out.new ≡ string_bytes out.old ++ head_text verdict) }
{
    writeln!(
        out,
        "digraph machine {{\nnode [shape=box];\nlabel=\"{verdict}\";"
    )
}

#[tactic(auto, unfolding(crate::specs::Drawing::drawing))]
fn put_drawing(alloc: Global, out: &mut String, picture: &Picture<'_>) -> Result<(), AllocError>
    ensures { OnOk result (string_bytes out.new ≡ string_bytes out.old ++ drawing picture.now) }
{
    let image = picture.image();
    put_head(out, picture.verdict())?;
    put_clusters(out, picture)?;
    put_frames(out, picture, image.layout().domains())?;
    put_tables(alloc, out, image)?;
    put_edges(out, image)?;
    out.push_str("}\n")
}

/// The machine as a text for Graphviz. Each domain is a cluster of the frames that it owns and of its vCPUs. An edge goes from a page table to each
/// frame that a recorded entry names, and from a vCPU to each frame that one of its words names. What the verdict names is red. `words` are all words
/// of the machine by their places, and may be any: what is no spelling of a word is printed as a number. It takes memory for a mark for each frame,
/// for the runs of one table, and for the text.
pub fn draw(
    alloc: Global,
    layout: &Layout,
    words: &[u64],
    verdict: Verdict,
) -> Result<Vec<u8>, AllocError>
    requires { length words.now ≡ size (sizes_of layout.now) }
    ensures { IfOk result (λ t. t.items ≡ drawing_of layout.now words.now verdict) }
{
    let image = Image::new(layout, words);
    let named = named_frames(alloc, &image)?;
    let picture = Picture::new(&image, &named, verdict);
    let mut out = String::new(alloc);
    put_drawing(alloc, &mut out, &picture)?;
    Ok(out.into_bytes())
}
