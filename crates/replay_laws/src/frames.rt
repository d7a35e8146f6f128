//! What a call that serves a request leaves as it is.
ghost use Rattle.std.specs.Prelude.{◌≡◌, ℕ, true, List, [], None};
ghost use Rattle.xp_words.specs.declared.place.Place.{Place};
ghost use Rattle.xp_board.specs.Told.{PortValue, is_telling, told_word};
ghost use Rattle.xp_words.specs.declared.place.Place.TheVariants.{M2p};
ghost use Rattle.xp_board.specs.Lists.{Member};
ghost use Rattle.step_maker.specs.Answers.{Deed, Serves, SetsM2p};
ghost use Rattle.step_maker.specs.Asked.{Request};
ghost use Rattle.replay_laws.specs.LeftAlone.{IsLeftAlone};

/// On a board that tells all words these are told behind the call as before it: lives and privileges of domains of which it is not asked to change them; words of other vCPUs; words that name frames
/// or the LDT and of which no deed says that they are set; all of a frame of which nothing is asked.
pub fn what_is_not_asked_stays()
    ensures { (v w : PortValue) (r : Request) (ds : List Deed) (q : Place) → is_telling v ≡ true → Serves v w r ds → IsLeftAlone v.post.machine v.post.vcpu r ds q → told_word w q ≡ told_word v q }
{}

/// And so is the machine-to-physical word of a frame of which no deed says that it is set, by a call that takes no pages, of a vCPU that has claimed none.
pub fn a_word_of_a_frame_that_no_deed_sets_stays()
    ensures { (v w : PortValue) (r : Request) (ds : List Deed) (f : ℕ) → is_telling v ≡ true → Serves v w r ds → v.holdings.claimed ≡ [] → r.pages ≡ None → ((x : ℕ) → Member (SetsM2p f x) ds → ⊥) → told_word w (M2p f) ≡ told_word v (M2p f) }
{}
