ghost use Rattle.std.specs.Prelude.{◌≡◌, option_map};
ghost use Rattle.command_words.specs.Words.{argument_of, asked_as, command_named};

/// How the vCPUs of a trace are run.
#[derive(Clone, Copy, Debug, PartialEq, Eq)]
pub enum Manner {
    /// In one thread, in the order of the trace's `turn` lines.
    Turns,
    /// Each in a thread of its own, to the end of its script.
    Replay,
}

/// What the words of the command line ask for.
#[derive(Clone, Copy, Debug, PartialEq, Eq)]
pub enum Asked {
    /// A run of the trace that is read, and its report.
    Run {
        manner: Manner,
        /// What the gates are told: each says yes at every so many-th time that it is asked, and at 0 never.
        pace: u32,
    },
    /// The same run in one thread, with a line for each of its steps behind the report.
    Steps {
        /// As of a run.
        pace: u32,
    },
    /// The same run in one thread, and an image of the closing machine.
    Image {
        /// As of a run.
        pace: u32,
    },
    /// A run of the generated trace of so many operations, from 1 to 60,000, in one thread. No trace is read, and no gate says yes.
    Generate {
        operations: u32,
    },
    /// Whether the words of the image that is read are sound. `path_of` says from which file, if the words name one.
    Audit,
    /// A picture of the machine whose image is read. `path_of` says from which file, if the words name one.
    Draw,
}

/// The first word of those that ask for something.
#[derive(Clone, Copy, Debug, PartialEq, Eq)]
pub(crate) enum CommandName {
    Turns,
    Replay,
    Image,
    Generate,
    Audit,
    Draw,
}

impl CommandName {
    pub(crate) fn named(word: &str) -> Option<CommandName>
        ensures { result ≡ command_named word.now }
    {
        match word {
            "turns" => Some(CommandName::Turns),
            "replay" => Some(CommandName::Replay),
            "image" => Some(CommandName::Image),
            "generate" => Some(CommandName::Generate),
            "audit" => Some(CommandName::Audit),
            "draw" => Some(CommandName::Draw),
            _ => None,
        }
    }

    // The argument that is its number, where it has one.
    pub(crate) fn argument(self) -> Option<&'static str>
        ensures { option_map (λ s. s.now) result ≡ argument_of self }
    {
        match self {
            CommandName::Turns | CommandName::Replay | CommandName::Image => Some("preempt"),
            CommandName::Generate => Some("operations"),
            CommandName::Audit | CommandName::Draw => None,
        }
    }

    // What is asked by this command with this number, with the steps or without.
    pub(crate) fn asked(self, steps: bool, number: u32) -> Asked
        ensures { result ≡ asked_as self steps number }
    {
        match self {
            CommandName::Turns if steps => Asked::Steps { pace: number },
            CommandName::Turns => Asked::Run {
                manner: Manner::Turns,
                pace: number,
            },
            CommandName::Replay => Asked::Run {
                manner: Manner::Replay,
                pace: number,
            },
            CommandName::Image => Asked::Image { pace: number },
            CommandName::Generate => Asked::Generate { operations: number },
            CommandName::Audit => Asked::Audit,
            CommandName::Draw => Asked::Draw,
        }
    }
}
