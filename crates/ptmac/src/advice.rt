//! What the program tells the person who ran it, on standard error.
ghost use Rattle.std.specs.Prelude.{◌≡◌, ◌↔◌, None};
ghost use Rattle.xp_machine.specs.declared.status.Status.TheVariants.{Done};

use xp_machine::Status;

const UNKNOWN_WORDS: &str = "\
ptmac: this is no command line that it knows. It knows these:

usage: ptmac COMMAND < TRACE
       ptmac generate COUNT
       ptmac audit [PATH]
       ptmac draw [PATH]

  turns [--preempt N]   Runs the trace on standard input: the vCPUs take the turns that its
                        `turn` lines give them. Writes the report to standard output.
  replay [--preempt N]  The same, but each vCPU runs its whole script in a thread of its own.
  image [--preempt N]   As turns, but writes the closing machine as an image, in binary.
  generate COUNT        Reads nothing: makes a trace of COUNT operations, from 1 to 60000, runs it,
                        and writes how many were done, refused and left pending, and how many
                        frames are free.
  audit [PATH]          Reads an image, from the file PATH or else from standard input, and writes
                        whether it is of a sound machine, or what breaks it first.
  draw [PATH]           Reads an image likewise, and writes a drawing of its machine for Graphviz,
                        as `dot -Tsvg` takes it; docs/DRAWING.md explains it.

  With --preempt N operations pause: each vCPU's gate says yes at each N-th time that it is
  asked. N is a decimal number up to 1000000 without leading zeros; with 0, as without the
  option, no gate says yes. It may be written --preempt=N, too.

  With turns --steps, before --preempt N or behind it, each step that was made follows the
  report, a line each; docs/STEPS.md explains them.

example: ptmac turns --preempt 300 < examples/pinned-in-several-turns.trace

exit status:
  0  what was asked for was written; of an audit: the machine is sound
  2  the words are no command, and nothing was read
  3  the input is no trace: the line on standard output says where and why
  4  the input passes a limit: the line on standard output says which
  5  reading the input failed
  6  writing standard output failed
  7  there was too little memory
  8  the input is no image: the line on standard output says where
  9  the machine of the image is not sound: the line on standard output says why";

const BAD_TRACE: &str = "\
ptmac: the input is no trace. The line on standard output says which of its lines is wrong, and how; docs/TRACE.md explains the causes.";

const TOO_LARGE: &str = "\
ptmac: the input passes a limit. The line on standard output says which; docs/TRACE.md and docs/IMAGES.md list the limits.";

const READ_FAULT: &str = "\
ptmac: reading the input failed. Give it a file that can be read, as in `ptmac turns < FILE` or `ptmac audit FILE`; a folder is none.";

const WRITE_FAULT: &str = "\
ptmac: writing standard output failed, so the output is cut short. See that its place has room and that nothing closes it, and run again.";

const MEMORY: &str = "\
ptmac: there was too little memory. Give it more, or a trace with fewer frames and operations.";

const BAD_IMAGE: &str = "\
ptmac: the input is no image. The line on standard output says where it first differs from one; docs/IMAGES.md says what stands there.";

const UNSOUND: &str = "\
ptmac: the machine of the image is not sound. The line on standard output says what breaks it first; docs/IMAGES.md explains it.";

/// What was wrong, and what to do about it. Where the run was done there is nothing to say, and only there.
pub fn advice_for(status: &Status) -> Option<&'static str>
    ensures { (result ≡ None) ↔ (status.now ≡ Done) }
{
    match status {
        Status::Done => None,
        Status::BadWords => Some(UNKNOWN_WORDS),
        Status::BadTrace => Some(BAD_TRACE),
        Status::TooLarge => Some(TOO_LARGE),
        Status::ReadFault => Some(READ_FAULT),
        Status::WriteFault => Some(WRITE_FAULT),
        Status::Memory => Some(MEMORY),
        Status::BadImage => Some(BAD_IMAGE),
        Status::Unsound => Some(UNSOUND),
    }
}
