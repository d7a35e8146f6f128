ghost use Rattle.std.specs.Prelude.{◌≡◌, ◌<◌, ◌++◌, Some, [], slice_index_or, length, OnOk, IfOk, string_bytes};
ghost use Rattle.xp_words.specs.Places.{sizes_of, size};
ghost use Rattle.report_text.specs.ReportOf.{vcpu_line, vcpu_text, vcpu_texts, pending_line, domain_line, domain_lines, is_free_word, holder_text, form_text, frame_by, frame_texts, free_frames, free_line, report_of};

use crate::log::put_lines;
use crate::memory::Memory;
use crate::words::{ContextText, FlagsText, LifeText, M2pText, TypeText, type_count};
use sparse_words::SparseWords;
use std::alloc::{AllocError, Global};
use std::fmt;
use xp_words::{KindWord, Layout, Log, LogLine, RefWord};

#[tactic(auto, unfolding(crate::specs::ReportOf::vcpu_line))]
fn put_vcpu_line(out: &mut String, machine: &Memory<'_>, vcpu: u32) -> Result<(), AllocError>
    requires { vcpu < length machine.now.machine.vcpu_domain }
    ensures { OnOk result (string_bytes out.new ≡ string_bytes out.old ++ vcpu_line machine.now vcpu) }
{
    let layout = machine.layout();
    let domain = layout.vcpu_domain.as_slice()[vcpu as usize];
    let base = ContextText(machine.vcpu(vcpu, 0));
    let user = ContextText(machine.vcpu(vcpu, 1));
    let old0 = ContextText(machine.vcpu(vcpu, 2));
    let old1 = ContextText(machine.vcpu(vcpu, 3));
    writeln!(
        out,
        "vcpu {vcpu} domain {domain} base {base} user {user} old {old0} {old1}"
    )
}

#[tactic(auto, unfolding(crate::specs::ReportOf::pending_line))]
fn put_pending(out: &mut String, pending: u32) -> Result<(), AllocError>
    ensures { OnOk result (string_bytes out.new ≡ string_bytes out.old ++ pending_line pending) }
{
    if pending == 0 {
        return Ok(());
    }
    writeln!(out, "pending {pending}")
}

#[tactic(auto, unfolding(crate::specs::ReportOf::vcpu_text))]
fn put_vcpu(
    out: &mut String,
    machine: &Memory<'_>,
    log: &[LogLine],
    pending: u32,
    vcpu: u32,
) -> Result<(), AllocError>
    requires { vcpu < length machine.now.machine.vcpu_domain }
    ensures { OnOk result (string_bytes out.new ≡ string_bytes out.old ++ vcpu_text machine.now log.now pending vcpu) }
{
    put_vcpu_line(out, machine, vcpu)?;
    put_lines(out, log)?;
    put_pending(out, pending)?;
    Ok(())
}

#[tactic(auto, unfolding(crate::specs::ReportOf::domain_line))]
fn put_domain(out: &mut String, machine: &Memory<'_>, domain: u16) -> Result<(), AllocError>
    requires { domain < length machine.now.machine.page_limit }
    ensures { OnOk result (string_bytes out.new ≡ string_bytes out.old ++ domain_line machine.now domain) }
{
    let life = LifeText(machine.life(domain));
    let pages = machine.pages(domain);
    writeln!(out, "domain {domain} {life} pages {pages}")
}

/// The owner and the references of a frame.
#[derive(Clone, Copy)]
pub struct HolderText(pub u64);

#[tactic(auto, unfolding(crate::specs::ReportOf::holder_text))]
impl fmt::Display for HolderText {
    ghost output = { λ s. Some (holder_text s.0) };

    fn fmt<W: fmt::Write>(&self, f: &mut fmt::Formatter<W>) -> fmt::Result {
        let word = self.0;
        match RefWord::read(word) {
            Some(
                RefWord::Owned {
                    owner,
                    allocated: true,
                    count,
                },
            ) => write!(f, "owner {owner} refs {count} alloc"),
            Some(
                RefWord::Owned {
                    owner,
                    allocated: false,
                    count,
                },
            ) => write!(f, "owner {owner} refs {count} -"),
            Some(RefWord::Dying { owner }) => write!(f, "owner {owner} refs 0 -"),
            Some(RefWord::Free { .. }) => f.write_str("free"),
            None => write!(f, "refs 0x{word:x}"),
        }
    }
}

/// The type of a frame, its count, flags and progress.
#[derive(Clone, Copy)]
pub struct FormText(pub u64);

#[tactic(auto, unfolding(crate::specs::ReportOf::form_text))]
impl fmt::Display for FormText {
    ghost output = { λ s. Some (form_text s.0) };

    fn fmt<W: fmt::Write>(&self, f: &mut fmt::Formatter<W>) -> fmt::Result {
        let word = self.0;
        let Some(kind) = KindWord::read(word) else {
            return write!(f, "kind 0x{word:x}");
        };
        let progress = kind.progress;
        write!(
            f,
            "type {} count {} flags {} at {progress}",
            TypeText(kind.kind),
            type_count(&kind),
            FlagsText(kind)
        )
    }
}

#[tactic(auto, unfolding(crate::specs::ReportOf::is_free_word))]
fn is_free(refs: u64) -> bool
    ensures { result ≡ is_free_word refs }
{
    matches!(RefWord::read(refs), Some(RefWord::Free { .. }))
}

#[tactic(auto, unfolding(crate::specs::ReportOf::frame_by))]
fn put_frame(out: &mut String, frame: u32, refs: u64, kind: u64, m2p: u64) -> Result<(), AllocError>
    ensures { OnOk result (string_bytes out.new ≡ string_bytes out.old ++ frame_by frame refs kind m2p) }
{
    writeln!(
        out,
        "frame {frame} {} {} m2p {}",
        HolderText(refs),
        FormText(kind),
        M2pText(m2p)
    )
}

fn log_of(logs: &[Log], vcpu: u32) -> &[LogLine]
    requires { vcpu < length logs.now }
    ensures { result.now ≡ slice_index_or logs.now vcpu [] }
{
    logs[vcpu as usize].as_slice()
}

fn put_vcpus(
    out: &mut String,
    machine: &Memory<'_>,
    logs: &[Log],
    pending: &[u32],
) -> Result<(), AllocError>
    requires logs { length logs.now ≡ length machine.now.machine.vcpu_domain }
    requires pending { length pending.now ≡ length machine.now.machine.vcpu_domain }
    ensures { OnOk result (string_bytes out.new ≡ string_bytes out.old ++ vcpu_texts machine.now logs.now pending.now (length machine.now.machine.vcpu_domain)) }
{
    let vcpus = machine.layout().vcpus();
    for vcpu in 0..vcpus {
        put_vcpu(
            out,
            machine,
            log_of(logs, vcpu),
            pending[vcpu as usize],
            vcpu,
        )?;
    }
    Ok(())
}

fn put_domains(out: &mut String, machine: &Memory<'_>) -> Result<(), AllocError>
    ensures { OnOk result (string_bytes out.new ≡ string_bytes out.old ++ domain_lines machine.now (length machine.now.machine.page_limit)) }
{
    let domains = machine.layout().domains() as u16;
    for domain in 0..domains {
        put_domain(out, machine, domain)?;
    }
    Ok(())
}

fn put_frames(out: &mut String, machine: &Memory<'_>) -> Result<(), AllocError>
    ensures { OnOk result (string_bytes out.new ≡ string_bytes out.old ++ frame_texts machine.now machine.now.machine.frames) }
{
    let layout = machine.layout();
    for frame in 0..layout.frames {
        let refs = machine.refs(frame);
        if !is_free(refs) {
            put_frame(out, frame, refs, machine.kind(frame), machine.m2p(frame))?;
        }
    }
    Ok(())
}

fn free_count(machine: &Memory<'_>) -> u32
    ensures { result ≡ free_frames machine.now machine.now.machine.frames }
{
    let layout = machine.layout();
    let mut free = 0;
    for frame in 0..layout.frames {
        if is_free(machine.refs(frame)) {
            free += 1;
        }
    }
    free
}

/// Appends the line that says how many frames are free.
#[tactic(auto, unfolding(crate::specs::ReportOf::free_line))]
pub(crate) fn put_free(out: &mut String, machine: &Memory<'_>) -> Result<(), AllocError>
    ensures { OnOk result (string_bytes out.new ≡ string_bytes out.old ++ free_line machine.now) }
{
    let free = free_count(machine);
    writeln!(out, "free {free}")
}

/// The text of the report: each vCPU with its log and the number of its unanswered operations, each
/// domain, each frame that is not free, and how many are. `logs` and `pending` have one item per vCPU.
#[tactic(auto, unfolding(crate::specs::ReportOf::text_of))]
pub fn report(
    alloc: Global,
    layout: &Layout,
    words: &SparseWords,
    logs: &[Log],
    pending: &[u32],
) -> Result<Vec<u8>, AllocError>
    requires words { length words.now ≡ size (sizes_of layout.now) }
    requires logs { length logs.now ≡ length layout.now.vcpu_domain }
    requires pending { length pending.now ≡ length layout.now.vcpu_domain }
    ensures { IfOk result (λ v. v.items ≡ report_of layout.now words.now logs.now pending.now) }
{
    let machine = Memory::new(layout, words);
    let mut out = String::new(alloc);
    put_vcpus(&mut out, &machine, logs, pending)?;
    put_domains(&mut out, &machine)?;
    put_frames(&mut out, &machine)?;
    put_free(&mut out, &machine)?;
    out.push_str("end\n")?;
    Ok(out.into_bytes())
}
