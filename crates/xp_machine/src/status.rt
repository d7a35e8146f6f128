ghost use Rattle.std.specs.Prelude.{◌≡◌};
ghost use Rattle.xp_machine.specs.Texts.{exit_of};

/// How a run ended.
#[derive(Clone, Copy, Debug, PartialEq, Eq)]
pub enum Status {
    /// What was asked for was written: a report, a summary, an image, or that an image is sound.
    Done,
    /// The words of the command line are none of those that are known; nothing was read or written.
    BadWords,
    /// The bytes are no trace; a line with the place and the cause was written.
    BadTrace,
    /// A quantity of the trace, or the number of an image's bytes, passes its limit; a line with the place and the number was written.
    TooLarge,
    /// The source failed; nothing was written.
    ReadFault,
    /// The sink failed; it holds a front of the text that was due.
    WriteFault,
    /// Memory ran out; nothing was written.
    Memory,
    /// The bytes are no image; a line with the place of the first fault was written.
    BadImage,
    /// The words of the image are not sound; a line with what breaks them first was written.
    Unsound,
}

impl Status {
    /// The exit number of the program.
    pub fn exit(&self) -> u8
        ensures { result ≡ exit_of self.now }
    {
        match self {
            Status::Done => 0,
            Status::BadWords => 2,
            Status::BadTrace => 3,
            Status::TooLarge => 4,
            Status::ReadFault => 5,
            Status::WriteFault => 6,
            Status::Memory => 7,
            Status::BadImage => 8,
            Status::Unsound => 9,
        }
    }
}
