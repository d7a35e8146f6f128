//! Lists of steps that do not fit.
ghost use Rattle.std.specs.Prelude.{◌≡◌, ◌≢◌, ◌⊎◌, ℕ, false, List, Option, Some, None};
ghost use Rattle.xp_words.specs.declared.place.Place.TheVariants.{Clock, Life, Refs, Kind, Priv, Vcpu};
ghost use Rattle.xp_words.specs.KindWords.{kind_fields};
ghost use Rattle.xp_words.specs.declared.kind.PageType.{PageType};
ghost use Rattle.xp_board.specs.declared.step.Act.TheVariants.{Load, Cas, Store, Max};
ghost use Rattle.xp_board.specs.Acts.{left_by};
ghost use Rattle.xp_board.specs.Hands.{work_on, typed_hand};
ghost use Rattle.xp_board.specs.Lists.{Member};
ghost use Rattle.xp_board.specs.Marks.{after_mark};
ghost use Rattle.xp_board.specs.Readings.{allocated_mark, is_free};
ghost use Rattle.xp_board.specs.Told.{PortValue};
ghost use Rattle.step_maker.specs.Moves.{Moment, Met};
ghost use Rattle.step_maker.specs.Answers.{Deed, Piece, Misses, Returns, SetsPrivilege};
ghost use Rattle.step_maker.specs.Asked.{Request, of_frame};
ghost use Rattle.step_maker.specs.Reasons.{IsFlushedNext, MayFlush, MayAskFor};

/// A call on one frame changes no kind word but that frame's.
#[tactic(auto, using(crate::proofs::Fitting::others_stay))]
pub fn kind_words_of_other_frames_stay()
    ensures { (v w : PortValue) (f owner : ℕ) (want : Option PageType) (ds : List Deed) (ms : List Moment) (m : Moment) (g : ℕ) → Piece v w (of_frame f owner want) ds ms → Member m ms → m.place ≡ Kind g → g ≢ f →
        m.act ≡ Load }
{}

/// A call on one frame for one type exchanges its kind word for that type alone.
#[tactic(auto, using(crate::proofs::Fitting::asked_type))]
pub fn only_the_asked_type()
    ensures { (v w : PortValue) (f owner : ℕ) (t : PageType) (ds : List Deed) (ms : List Moment) (m : Moment) (g e x : ℕ) → Piece v w (of_frame f owner (Some t)) ds ms → Member m ms → m.place ≡ Kind g → m.act ≡ Cas e x →
        (g ≡ f) × ((kind_fields x).kind ≡ t) }
{}

/// A call that asks no type (a machine-to-physical word, a reference) exchanges no kind word.
#[tactic(auto, using(crate::proofs::Fitting::no_exchange))]
pub fn no_kind_word_is_exchanged()
    ensures { (v w : PortValue) (f owner : ℕ) (ds : List Deed) (ms : List Moment) (m : Moment) (g e x : ℕ) → Piece v w (of_frame f owner None) ds ms → Member m ms → m.place ≡ Kind g → m.act ≡ Cas e x → ⊥ }
{}

/// A store at a kind word, in any call, keeps the type that it finds.
#[tactic(auto, using(crate::proofs::Fitting::store_keeps))]
pub fn a_store_keeps_the_type()
    ensures { (v w : PortValue) (r : Request) (ds : List Deed) (ms : List Moment) (m : Moment) (g x : ℕ) → Piece v w r ds ms → Member m ms → m.place ≡ Kind g → m.act ≡ Store x →
        (kind_fields x).kind ≡ (kind_fields m.found).kind }
{}

/// So a call that asks no type changes no kind word at all but that of a frame which the vCPU has in work, typed or locked, as
/// the mark of the step leaves its hand.
#[tactic(auto, using(crate::proofs::Fitting::no_kind))]
pub fn no_kind_word_is_changed()
    ensures { (v w : PortValue) (f owner : ℕ) (ds : List Deed) (ms : List Moment) (m : Moment) (g : ℕ) → Piece v w (of_frame f owner None) ds ms → Member m ms → m.place ≡ Kind g →
        work_on g (after_mark v.post.machine m.mark m.hand).works ≡ None → typed_hand g (after_mark v.post.machine m.mark m.hand) ≡ 0 → m.act ≡ Load }
{}

/// Each exchange but a tick of the clock or one of a life word found what it expected, or the answer says that it was lost. So
/// after a lost one nothing is done in that turn.
#[tactic(auto, using(crate::proofs::Fitting::all_found))]
pub fn nothing_is_tried_again()
    ensures { (v w : PortValue) (r : Request) (ds : List Deed) (ms : List Moment) (m : Moment) (e x : ℕ) → Piece v w r ds ms → Member m ms → m.place ≢ Clock → ((d : ℕ) → m.place ≢ Life d) → m.act ≡ Cas e x →
        (m.found ≡ e) ⊎ Member (Misses m.place) ds }
{}

/// What clears the allocated mark is a deed.
#[tactic(auto, using(crate::proofs::Fitting::returned))]
pub fn a_return_is_a_deed()
    ensures { (v w : PortValue) (r : Request) (ds : List Deed) (ms : List Moment) (m : Moment) (f e x : ℕ) → Piece v w r ds ms → Member m ms → m.place ≡ Refs f → m.act ≡ Cas e x → m.found ≡ e →
        allocated_mark e ≡ 1 → allocated_mark x ≡ 0 → Member (Returns f) ds }
{}

/// Privileges are changed only by a call that gives or takes them, and that is a deed.
pub fn privileges_are_changed_as_asked()
    ensures { (v w : PortValue) (r : Request) (ds : List Deed) (ms : List Moment) (m : Moment) (d e x : ℕ) → Piece v w r ds ms → Member m ms → m.place ≡ Priv d → m.act ≡ Cas e x → m.found ≡ e →
        (r.grants ≡ Some d) × Member (SetsPrivilege d x) ds }
{}

/// A free frame is claimed only by a call that takes pages.
#[tactic(auto, using(crate::proofs::Fitting::claims))]
pub fn a_claim_takes_pages()
    ensures { (v w : PortValue) (r : Request) (ds : List Deed) (ms : List Moment) (m : Moment) (f e x : ℕ) → r.pages ≡ None → Piece v w r ds ms → Member m ms → m.place ≡ Refs f → m.act ≡ Cas e x →
        is_free e ≡ false }
{}

/// A vCPU flushes itself only where its flushed word, as it last knew it, is at most what it was asked for or at most an
/// awaited stamp; or its call ends with a flush.
#[tactic(auto, using(crate::proofs::Fitting::flushes))]
pub fn no_needless_flush()
    ensures { (v w : PortValue) (r : Request) (ds : List Deed) (ms : List Moment) (m : Moment) (x : ℕ) → Piece v w r ds ms → Member m ms → r.destroys ≡ None → m.place ≡ Vcpu v.post.vcpu 5 → m.act ≡ Store x →
        MayFlush v.post.machine v.post.vcpu r (Met v w) m.hand }
{}

/// A vCPU is asked only for an awaited stamp, after it was found flushed no later.
#[tactic(auto, using(crate::proofs::Fitting::asks))]
pub fn asks_are_of_awaited_stamps()
    ensures { (v w : PortValue) (r : Request) (ds : List Deed) (ms : List Moment) (m : Moment) (u k stamp : ℕ) → Piece v w r ds ms → Member m ms → m.place ≡ Vcpu u k → m.act ≡ Max stamp →
        MayAskFor v.post.machine v.post.vcpu r (Met v w) u k stamp m.hand }
{}

/// The clock is moved on only for the own flush, which is the next step and goes to what the exchange left. So no call moves it
/// on twice for one flush, nor to its last value to be refused.
pub fn the_clock_goes_on_for_a_flush_alone()
    ensures { (v w : PortValue) (r : Request) (ds : List Deed) (ms : List Moment) (m : Moment) (e x : ℕ) → Piece v w r ds ms → Member m ms → m.place ≡ Clock → m.act ≡ Cas e x →
        IsFlushedNext v.post.vcpu (Met v w) (left_by (Cas e x) m.found) m.hand }
{}
