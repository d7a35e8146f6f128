ghost use Rattle.std.specs.Prelude.{◌≡◌, ◌<◌, ◌≤◌, ◌^◌, length, IfOk};
ghost use Rattle.xp_words.specs.Places.{sizes_of};
ghost use Rattle.xp_board.specs.Readings.{domain_of};
ghost use Rattle.vcpu_turn.specs.Cpus.{begun, begun_at, fresh, lines_ahead, pending_of};

use crate::calls::lines_of;
use domain_destroy::DestroyAt;
use std::alloc::{AllocError, Global};
use std::marker::Model;
use xp_words::{Layout, Log, LogLine, Op, Pause, Reply, Script};

/// How a turn ended.
#[derive(Clone, Copy, Debug, PartialEq, Eq, Drop)]
pub enum TurnEnd {
    /// The operation that stood next is answered, and its reply is logged.
    Answered(Reply),
    /// It goes on in a later turn.
    Paused(Pause),
    /// All operations are answered, and the vCPU is stopped.
    Retired,
}

/// The number of an operation in its script, and of a call within it; both count from 1, and call 0 is the operation itself.
#[derive(Clone, Copy, Debug, PartialEq, Eq, Drop)]
pub struct CallNumber {
    pub op: u32,
    pub call: u32,
}

/// How far the operation that stands next is done.
#[derive(Clone, Copy, Debug, PartialEq, Eq, Drop)]
pub struct Progress {
    /// How many calls of a multicall are answered.
    pub call: u16,
    /// How many elements of the call in progress are done; of a multicall whose calls are all answered, how many these are.
    pub done: u32,
    /// How far the next element is that goes on from turn to turn: how many frames of an extent are given back.
    pub within: u32,
    /// The clock value past which the next element goes on to wait.
    pub awaited: Option<u64>,
    /// Where a destruction stands.
    pub place: DestroyAt,
}

impl Progress {
    // Of an operation that begins.
    pub(crate) fn begun() -> Progress
        ensures { result ≡ begun }
    {
        Progress::begun_at(0)
    }

    // Of a multicall of which so many calls are answered.
    pub(crate) fn begun_at(answered: u16) -> Progress
        ensures { result ≡ begun_at answered }
    {
        Progress {
            call: answered,
            done: 0,
            within: 0,
            awaited: None,
            place: DestroyAt::Begins,
        }
    }
}

/// A virtual processor: its domain, its operations, what it logged, how many of them are answered, and how far the next one is done.
/// `left` is how much was left to give back where the gate paused what its last turn settled first, and `frames` how many frames the machine has.
/// Its log has room for all lines from the beginning, and never more: a turn takes no memory.
#[derive(Drop)]
pub struct Cpu {
    pub(crate) vcpu: u32,
    pub(crate) domain: u16,
    pub(crate) script: Script,
    pub(crate) log: Vec<LogLine>,
    pub(crate) answered: usize,
    pub(crate) at: Progress,
    pub(crate) left: Option<u64>,
    pub(crate) frames: u32,
    pub(crate) retired: bool,
}

// How many lines these operations log at most, on a machine of so many frames.
fn lines_in(script: &[Op], frames: u32) -> usize
    requires short { length script.now < 2 ^ 32 }
    requires few { frames ≤ 65536 }
    ensures { result ≡ lines_ahead frames script.now 0 }
{
    let mut lines = 0;
    for op in script {
        lines += lines_of(op, frames);
    }
    lines
}

impl Model for Cpu {
    ghost use Rattle.std.specs.Prelude.{◌≡◌, ◌+◌, ◌≤◌, length, slice_get, vec_len, vec_capacity};
    ghost use Rattle.vcpu_turn.specs.Cpus.{IsFew, IsMade, Processing, lines_ahead, made_next};

    ghost Value = { Processing };

    ghost view = { λ c. record { vcpu = c.vcpu; domain = c.domain; script = c.script; log = c.log.items; answered = c.answered; at = c.at; left = c.left; frames = c.frames; retired = c.retired } };

    ghost invariant = { λ c. (c.answered ≤ length c.script) × (vec_capacity c.log ≡ lines_ahead c.frames c.script 0) × (vec_len c.log + lines_ahead c.frames c.script c.answered ≤ vec_capacity c.log + made_next c.frames (slice_get c.script c.answered) c.at) × IsFew (slice_get c.script c.answered) c.at × IsMade c.frames (slice_get c.script c.answered) c.at };
}

impl Cpu {
    /// A vCPU of the machine before its first turn. All room that its log will need is taken here.
    pub fn new(alloc: Global, layout: &Layout, vcpu: u32, script: Script) -> Result<Cpu, AllocError>
        requires vcpu { vcpu < (sizes_of layout.now).vcpus }
        requires short { length script < 2 ^ 32 }
        ensures { IfOk result (λ c. c ≡ fresh layout.now.frames vcpu (domain_of layout.now vcpu) script) }
    {
        let frames = layout.frames;
        let log = Vec::with_capacity(alloc, lines_in(script.as_slice(), frames))?;
        Ok(Cpu {
            vcpu,
            domain: layout.vcpu_domain.as_slice()[vcpu as usize],
            script,
            log,
            answered: 0,
            at: Progress::begun(),
            left: None,
            frames,
            retired: false,
        })
    }

    /// What was logged so far.
    pub fn log(&self) -> &[LogLine]
        ensures { result.now ≡ self.now.log }
    {
        &self.log
    }

    /// How many operations are not answered.
    pub fn pending(&self) -> u32
        requires { length self.now.script < 2 ^ 32 }
        ensures { result ≡ pending_of self.now }
    {
        (self.script.len() - self.answered) as u32
    }

    /// Whether it makes no turn any more.
    pub fn is_retired(&self) -> bool
        ensures { result ≡ self.now.retired }
    {
        self.retired
    }

    pub fn into_log(self) -> Log
        ensures { result ≡ self.log }
    {
        Log::new(self.log)
    }
}
