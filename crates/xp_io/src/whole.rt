ghost use Rattle.std.specs.Prelude.{◌≡◌, ◌≤◌, ◌<◌, ◌+◌, ◌++◌, ◌⊎◌, ℕ, List, [], length, vec_len, IfOk, OnErr, OnOk, IsErrOf};
ghost use Rattle.std.specs.Io.{ReadsAtMost};
ghost use Rattle.std.specs.Io.KnownBytes.{Appends, ReadConsumes};
ghost use Rattle.xp_io.specs.Causes.{Rose, ReadToEnd, TookOneMore, TookNoMore, AppendsFront, HasCause};
ghost use Rattle.xp_io.specs.declared.whole.ReadAllError.TheVariants.{Memory, Failed};

use crate::streams;
use crate::streams::{Sink, Source};
use std::alloc::{AllocError, Global};

/// Why not all was read.
#[derive(Clone, Copy, Debug, PartialEq, Eq)]
pub enum ReadAllError {
    /// The source failed.
    Failed,
    /// More bytes were taken than are allowed.
    Large,
    /// There was no memory for the bytes. What was taken from the source is lost.
    Memory,
}

impl From<AllocError> for ReadAllError {
    ghost from_gives = { λ _ e. e ≡ Memory };

    fn from(_e: AllocError) -> ReadAllError {
        ReadAllError::Memory
    }
}

impl From<streams::Failed> for ReadAllError {
    ghost from_gives = { λ _ e. e ≡ Failed };

    fn from(_e: streams::Failed) -> ReadAllError {
        ReadAllError::Failed
    }
}

const PIECE: usize = 65536;

// So many zeros. (The length stays a variable here: at a numeral the list of zeros would be computed.)
fn zeros(alloc: Global, len: usize) -> Result<Vec<u8>, AllocError>
    ensures { IfOk result (λ v. vec_len v ≡ len) }
{
    vec![in alloc; 0u8; len]
}

// Reads at the front of `piece`, at most one byte more than is allowed: that is enough to know that there are too many.
fn read_piece<S: Source>(
    source: &mut S,
    piece: &mut [u8],
    left: usize,
) -> Result<usize, streams::Failed>
    requires { 0 < length piece.old }
    ensures bound { ReadsAtMost result piece.new }
    ensures few { IfOk result (λ n. n ≤ left + 1) }
    ensures bytes { ReadConsumes (S.left source.old) (S.left source.new) result piece.new }
    ensures cause { HasCause (S.faults source.old) (S.faults source.new) result }
{
    let room = left.saturating_add(1).min(piece.len());
    source.read(&mut piece[..room])
}

/// What keeps the bytes that are read.
pub trait Keeper {
    /// The bytes that it keeps.
    ghost kept: { Self → List ℕ };

    /// How many these are.
    fn count(&self) -> usize
        ensures { result ≡ length (kept self.now) };

    /// Keeps these, too, behind the others.
    fn keep(&mut self, bytes: &[u8]) -> Result<(), AllocError>
        ensures { OnOk result (kept self.new ≡ kept self.old ++ bytes.now) };
}

impl Keeper for Vec<u8> {
    ghost kept = { λ v. v.items };

    fn count(&self) -> usize {
        self.len()
    }

    fn keep(&mut self, bytes: &[u8]) -> Result<(), AllocError> {
        self.extend_from_slice(bytes)
    }
}

/// Reads to the end, at most `limit` bytes, into what keeps nothing yet. Never more than `limit` and one more are taken, since each read is
/// offered no more room than that.
pub fn read_into<S: Source, K: Keeper>(
    alloc: Global,
    source: &mut S,
    limit: usize,
    keeper: &mut K,
) -> Result<(), ReadAllError>
    requires { K.kept keeper.old ≡ [] }
    ensures whole { OnOk result (ReadToEnd (S.left source.old) (S.left source.new) (K.kept keeper.new)) }
    ensures within { OnOk result (length (K.kept keeper.new) ≤ limit) }
    ensures large { IsErrOf result ReadAllError.Large → TookOneMore (S.left source.old) (S.left source.new) limit }
    ensures failed { IsErrOf result ReadAllError.Failed → Rose (S.faults source.old) (S.faults source.new) }
    ensures few { OnErr result (TookNoMore (S.left source.old) (S.left source.new) (limit + 1)) }
    ensures later { S.faults source.old ≤ S.faults source.new }
    ensures kept { OnOk result (S.faults source.new ≡ S.faults source.old) }
    ensures unfailed { (IsErrOf result ReadAllError.Large ⊎ IsErrOf result ReadAllError.Memory) → S.faults source.new ≡ S.faults source.old }
{
    let mut piece = zeros(alloc, PIECE)?;
    loop {
        let kept = keeper.count();
        let left = limit - kept;
        let count = read_piece(source, &mut piece, left)?;
        if count == 0 {
            return Ok(());
        }
        if count > left {
            return Err(ReadAllError::Large);
        }
        keeper.keep(&piece[..count])?;
    }
}

/// Reads to the end, at most `limit` bytes.
pub fn read_all<S: Source>(
    alloc: Global,
    source: &mut S,
    limit: usize,
) -> Result<Vec<u8>, ReadAllError>
    ensures whole { IfOk result (λ v. ReadToEnd (S.left source.old) (S.left source.new) v.items) }
    ensures within { IfOk result (λ v. vec_len v ≤ limit) }
    ensures large { IsErrOf result ReadAllError.Large → TookOneMore (S.left source.old) (S.left source.new) limit }
    ensures failed { IsErrOf result ReadAllError.Failed → Rose (S.faults source.old) (S.faults source.new) }
    ensures few { OnErr result (TookNoMore (S.left source.old) (S.left source.new) (limit + 1)) }
    ensures later { S.faults source.old ≤ S.faults source.new }
    ensures kept { IfOk result (λ _. S.faults source.new ≡ S.faults source.old) }
    ensures unfailed { (IsErrOf result ReadAllError.Large ⊎ IsErrOf result ReadAllError.Memory) → S.faults source.new ≡ S.faults source.old }
{
    let mut bytes = Vec::new(alloc);
    match read_into(alloc, source, limit, &mut bytes) {
        Ok(()) => Ok(bytes),
        Err(error) => Err(error),
    }
}

/// Writes all of the bytes, in as many pieces as the sink takes.
pub fn write_whole<K: Sink>(sink: &mut K, bytes: &[u8]) -> Result<(), streams::Failed>
    ensures whole { OnOk result (Appends (K.taken sink.old) (K.taken sink.new) bytes.now) }
    ensures front { OnErr result (AppendsFront (K.taken sink.old) (K.taken sink.new) bytes.now) }
    ensures cause { HasCause (K.faults sink.old) (K.faults sink.new) result }
{
    let mut rest = bytes;
    while !rest.is_empty() {
        let count = sink.write(rest)?;
        rest = &rest[count..];
    }
    Ok(())
}
