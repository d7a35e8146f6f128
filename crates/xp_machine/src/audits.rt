//! The audit of what is read, and its picture.
ghost use Rattle.std.specs.Prelude.{◌≡◌, ◌≢◌, ◌≤◌, ℕ, List, length, Option, IfOk, IsErrOf};
ghost use Rattle.xp_io.specs.Causes.{Rose, TookOneMore};
ghost use Rattle.walk_audit.specs.Judged.{Judged};
ghost use Rattle.xp_words.specs.Machine.{IsMachine};
ghost use Rattle.xp_words.specs.Places.{size, sizes_of};
ghost use Rattle.xp_machine.specs.Audited.{IsImageDue, IsJudgement, Shows, TellsLength};
ghost use Rattle.xp_machine.specs.Due.{bytes_of};
ghost use Rattle.xp_machine.specs.Outcome.{Outcome};
ghost use Rattle.xp_machine.specs.Texts.{verdict_status};

use crate::due::{Due, Early, Text, write_text};
use crate::status::Status;
use crate::texts::{bad_image, large_text, verdict_line};
use machine_draw::draw;
use machine_image::{ImageFault, Numbers, image_in};
use std::alloc::{AllocError, Global};
use trace_lines::What;
use walk_audit::{Verdict, audit};
use xp_io::{ReadAllError, Sink, Source, read_into};
use xp_words::Layout;

// As many bytes as an image may have: more than any has.
const MAX_BYTES: usize = 536_870_912;

/// What is written of an image.
#[derive(Clone, Copy)]
pub(crate) enum Showing {
    /// Whether its words are sound, or what breaks them first, in one line.
    Line,
    /// A picture of its machine.
    Drawn,
}

fn status_of(verdict: Verdict) -> Status
    ensures { result ≡ verdict_status verdict }
{
    match verdict {
        Verdict::Sound => Status::Done,
        _ => Status::Unsound,
    }
}

// What is due for words on which this is the verdict.
fn show(
    showing: Showing,
    alloc: Global,
    layout: &Layout,
    words: &[u64],
    verdict: Verdict,
) -> Result<Due, AllocError>
    requires machine { IsMachine layout.now }
    requires words { length words.now ≡ size (sizes_of layout.now) }
    ensures { IfOk result (λ d. Shows showing layout.now words.now verdict d.status (bytes_of d.text)) }
{
    match showing {
        Showing::Line => {
            let text = verdict_line(alloc, verdict)?;
            Ok(Due {
                status: status_of(verdict),
                text: Text::Bytes(text),
            })
        }
        Showing::Drawn => {
            let text = draw(alloc, layout, words, verdict)?;
            Ok(Due {
                status: Status::Done,
                text: Text::Bytes(text),
            })
        }
    }
}

// What is due for bytes that were read to their end.
fn judge(showing: Showing, alloc: Global, bytes: &Numbers) -> Result<Due, AllocError>
    ensures { IfOk result (λ d. IsJudgement showing bytes.now d.status (bytes_of d.text)) }
{
    match image_in(bytes) {
        Ok((layout, words)) => {
            let verdict = audit(alloc, &layout, words)?;
            show(showing, alloc, &layout, words, verdict)
        }
        Err(ImageFault::Bad { at }) => {
            let text = bad_image(alloc, at)?;
            Ok(Due {
                status: Status::BadImage,
                text: Text::Bytes(text),
            })
        }
        Err(ImageFault::Memory) => Err(AllocError),
    }
}

// What is due for more bytes than an image may have.
fn too_long(alloc: Global) -> Result<Due, AllocError>
    ensures { IfOk result (λ d. (from from' : Option (List ℕ)) → TookOneMore from from' 536870912 → TellsLength from from' d.status (bytes_of d.text)) }
{
    let text = large_text(alloc, 0, What::Bytes, 536_870_913)?;
    Ok(Due {
        status: Status::TooLarge,
        text: Text::Bytes(text),
    })
}

// What is due for what the source gives.
fn gather<S: Source>(showing: Showing, alloc: Global, source: &mut S) -> Result<Due, Early>
    ensures due { IfOk result (λ d. IsImageDue showing (S.left source.old) (S.left source.new) d.status (bytes_of d.text)) }
    ensures failed { IsErrOf result Early.Failed → Rose (S.faults source.old) (S.faults source.new) }
    ensures later { S.faults source.old ≤ S.faults source.new }
    ensures kept { IfOk result (λ _. S.faults source.new ≡ S.faults source.old) }
    ensures unfailed { IsErrOf result Early.Memory → S.faults source.new ≡ S.faults source.old }
{
    let mut bytes = Numbers::new(alloc);
    match read_into(alloc, source, MAX_BYTES, &mut bytes) {
        Ok(()) => match judge(showing, alloc, &bytes) {
            Ok(due) => Ok(due),
            Err(_) => Err(Early::Memory),
        },
        Err(ReadAllError::Large) => match too_long(alloc) {
            Ok(due) => Ok(due),
            Err(_) => Err(Early::Memory),
        },
        Err(ReadAllError::Failed) => Err(Early::Failed),
        Err(ReadAllError::Memory) => Err(Early::Memory),
    }
}

/// Reads an image to its end, judges its words, and writes what is to be shown of it.
pub(crate) fn show_what_is_read<S: Source, K: Sink>(
    showing: Showing,
    alloc: Global,
    source: &mut S,
    sink: &mut K,
) -> Status
    ensures outcome { Outcome (IsImageDue showing) (S.left source.old) (S.left source.new) (K.taken sink.old) (K.taken sink.new) result }
    ensures words { result ≢ Status.BadWords }
    ensures read { result ≡ Status.ReadFault → Rose (S.faults source.old) (S.faults source.new) }
    ensures write { result ≡ Status.WriteFault → Rose (K.faults sink.old) (K.faults sink.new) }
    ensures read_kept { result ≢ Status.ReadFault → S.faults source.new ≡ S.faults source.old }
    ensures write_kept { result ≢ Status.WriteFault → K.faults sink.new ≡ K.faults sink.old }
{
    match gather(showing, alloc, source) {
        Err(Early::Failed) => Status::ReadFault,
        Err(Early::Memory) => Status::Memory,
        Ok(Due { status, text }) => match write_text(sink, text) {
            Ok(()) => status,
            Err(_) => Status::WriteFault,
        },
    }
}
