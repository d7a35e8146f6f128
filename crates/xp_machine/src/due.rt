ghost use Rattle.std.specs.Prelude.{OnErr, OnOk};
ghost use Rattle.std.specs.Io.KnownBytes.{Appends};
ghost use Rattle.xp_io.specs.Causes.{AppendsFront, HasCause};
ghost use Rattle.xp_machine.specs.Due.{bytes_of};

use crate::status::Status;
use machine_image::Image;
use xp_io::{Failed, Sink, write_whole};

/// What is to be written.
#[derive(Drop)]
pub(crate) enum Text {
    Bytes(Vec<u8>),
    /// An image is large, and is written without its bytes having been put together.
    Image(Image),
}

/// A status, and the text that is due with it.
#[derive(Drop)]
pub(crate) struct Due {
    pub status: Status,
    pub text: Text,
}

/// Why nothing is to be written.
pub(crate) enum Early {
    Failed,
    Memory,
}

/// Writes all of the text, in as many pieces as the sink takes.
pub(crate) fn write_text<K: Sink>(sink: &mut K, text: Text) -> Result<(), Failed>
    ensures whole { OnOk result (Appends (K.taken sink.old) (K.taken sink.new) (bytes_of text)) }
    ensures front { OnErr result (AppendsFront (K.taken sink.old) (K.taken sink.new) (bytes_of text)) }
    ensures cause { HasCause (K.faults sink.old) (K.faults sink.new) result }
{
    match text {
        Text::Bytes(bytes) => write_whole(sink, &bytes),
        Text::Image(mut image) => image.write_to(sink),
    }
}
