use std::marker::Brand;

// Which step a call makes, for the proof alone.
pub trait Doing {
    ghost use Rattle.thread_board.specs.Deeds.{Deed};

    ghost deed: { Deed };
}

impl Doing for Brand {
    ghost use Rattle.thread_board.specs.Deeds.{no_deed};

    ghost deed = { no_deed };
}
