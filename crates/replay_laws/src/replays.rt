//! On a board that tells all words a call's visits replay.
ghost use Rattle.std.specs.Prelude.{◌≡◌, ◌++◌, true, List};
ghost use Rattle.xp_board.specs.Told.{PortValue, is_telling, told_word};
ghost use Rattle.step_maker.specs.Moves.{Moment, Ran};
ghost use Rattle.step_maker.specs.Plain.{Words};
ghost use Rattle.step_maker.specs.Visits.{Visit, visits};
ghost use Rattle.replay_laws.specs.Replays.{FindsEach, Replays, SameWords, left_behind};

/// The list of all steps from one port to the other replays: each visit finds the word that was told before it, and what was told behind it is what the acts leave.
pub fn steps_replay()
    ensures { (v w : PortValue) (ms : List Moment) → is_telling v ≡ true → Ran v ms w → Replays (told_word v) (visits ms) (told_word w) }
{}

/// The words behind are a function of the words before and of the acts: a list has one end. And a list replays where, and only where, each visit
/// says that it found what the acts before it left there.
pub fn a_list_has_one_end()
    ensures left { (m w : Words) (vs : List Visit) → Replays m vs w → SameWords (left_behind vs m) w }
    ensures one { (m a b : Words) (vs : List Visit) → Replays m vs a → Replays m vs b → SameWords a b }
    ensures finds { (m w : Words) (vs : List Visit) → Replays m vs w → FindsEach m vs }
    ensures replays { (m w : Words) (vs : List Visit) → FindsEach m vs → SameWords (left_behind vs m) w → Replays m vs w }
{}

/// Where a list is one part behind another, the second part replays from where the first one ended, and the other way round.
pub fn one_part_replays_behind_the_other()
    ensures apart { (m w : Words) (before after : List Visit) → Replays m (after ++ before) w → (u : Words) × Replays m before u × Replays u after w }
    ensures together { (m u w : Words) (before after : List Visit) → Replays m before u → Replays u after w → Replays m (after ++ before) w }
{}
