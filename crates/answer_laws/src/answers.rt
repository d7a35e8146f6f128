//! Answers that no steps license.
ghost use Rattle.std.specs.Prelude.{◌≡◌, ◌<◌, ℕ, true, false, Some, None};
ghost use Rattle.xp_words.specs.declared.place.Place.TheVariants.{Refs, Kind};
ghost use Rattle.xp_words.specs.Places.{sizes_of};
ghost use Rattle.xp_words.specs.declared.kind.PageType.{PageType};
ghost use Rattle.xp_words.specs.declared.reply.Pause.TheVariants.{Busy, Flush};
ghost use Rattle.xp_words.specs.declared.reply.Refusal.TheVariants.{CountFull, OtherType};
ghost use Rattle.xp_words.specs.declared.reply.Stop.TheVariants.{Refused, Paused};
ghost use Rattle.xp_board.specs.Hands.{refs_to, typed_hand, typed_to, work_on};
ghost use Rattle.xp_board.specs.Knowledge.{knows_owner};
ghost use Rattle.xp_board.specs.Told.{PortValue};
ghost use Rattle.step_maker.specs.Moves.{Moment, Met};
ghost use Rattle.step_maker.specs.Answers.{Stops};
ghost use Rattle.step_maker.specs.Asked.{Request, of_frame};
ghost use Rattle.step_maker.specs.Pauses.{AskedTo, IsElsewhere};

/// Where the count was found full only while the vCPU had more untyped references to the frame than as it began, nothing is
/// refused for it. In a call for which entries ask frames that is said of frames that the vCPU does not work on: a table that
/// another holder left unfinished is held by one more while it is in work.
#[tactic(auto, using(crate::proofs::Refusing::own_refs))]
pub fn own_references_fill_no_count()
    ensures { (v w : PortValue) (r : Request) (f x : ℕ) → ((m : Moment) → Met v w m → m.place ≡ Refs f → m.found ≡ x → (r.entries ≡ true → work_on f m.hand.works ≡ None) × (refs_to f v.holdings.refs < refs_to f m.hand.refs)) →
        Stops v w r (Refused (CountFull f x)) → ⊥ }
{}

/// The same of typed references, in a call for which no entry asks frames.
#[tactic(auto, using(crate::proofs::Refusing::own_types))]
pub fn own_types_fill_no_count()
    ensures { (v w : PortValue) (r : Request) (f x : ℕ) → r.entries ≡ false → ((m : Moment) → Met v w m → m.place ≡ Refs f → m.found ≡ x → typed_hand f v.holdings < typed_hand f m.hand) →
        Stops v w r (Refused (CountFull f x)) → ⊥ }
{}

/// A frame that the vCPU itself works on, has under its entry lock or ends is not busy.
#[tactic(auto, using(crate::proofs::Refusing::own_work))]
pub fn own_work_is_not_busy()
    ensures { (v w : PortValue) (r : Request) (f x : ℕ) → r.destroys ≡ None → ((m : Moment) → Met v w m → m.place ≡ Kind f → m.found ≡ x → IsElsewhere f m.hand → ⊥) →
        Stops v w r (Paused (Busy f x)) → ⊥ }
{}

/// The vCPU that is waited for was asked.
#[tactic(auto, using(crate::proofs::Refusing::waits))]
pub fn who_is_waited_for_was_asked()
    ensures { (v w : PortValue) (r : Request) (u stamp x : ℕ) → Stops v w r (Paused (Flush u stamp x)) → AskedTo stamp (Met v w) u }
{}

/// Where the vCPU did not know the frame's owner to be the one asked, and had no typed reference to it, as it found that kind
/// word, nothing is refused for its type.
#[tactic(auto, using(crate::proofs::Refusing::foreign))]
pub fn a_foreign_frame_has_no_other_type()
    ensures { (v w : PortValue) (f owner : ℕ) (t : PageType) (x : ℕ) →
        ((m : Moment) → Met v w m → m.place ≡ Kind f → m.found ≡ x → (knows_owner (sizes_of v.post.machine) f owner m.hand ≡ false) × (typed_to f m.hand.typed ≡ 0)) →
        Stops v w (of_frame f owner (Some t)) (Refused (OtherType f t x)) → ⊥ }
{}
