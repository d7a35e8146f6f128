//! What the definitions of the machine say at once. These functions do nothing: their contracts are laws.
ghost use Rattle.std.specs.Prelude.{◌≡◌, ◌≢◌, ◌<◌, ◌≤◌, ◌+◌, ◌^◌, ◌∷◌, ℕ, suc, Bool, false, IsTrue, None, Some, length};
ghost use Rattle.xp_words.specs.Entries.{demand_at};
ghost use Rattle.xp_words.specs.Machine.{Machine};
ghost use Rattle.xp_words.specs.declared.place.Place.{Place};
ghost use Rattle.xp_words.specs.declared.place.Place.TheVariants.{Vcpu, Refs, M2p, Cell};
ghost use Rattle.xp_words.specs.Places.{is_place, sizes_of, run_of};
ghost use Rattle.xp_words.specs.declared.entry.Demand.TheVariants.{Typed};
ghost use Rattle.xp_words.specs.declared.kind.PageType.{PageType};
ghost use Rattle.xp_board.specs.AskSteps.{AwaitsFree};
ghost use Rattle.xp_board.specs.CellSteps.{after_cell, keeps_demand};
ghost use Rattle.xp_board.specs.ContextSteps.{after_context, context_type};
ghost use Rattle.xp_board.specs.Knowledge.{knows_live};
ghost use Rattle.xp_board.specs.Lawful.{Lawful};
ghost use Rattle.xp_board.specs.Marks.{after_mark, demand_seen};
ghost use Rattle.xp_board.specs.Readings.{is_context, is_dead, is_free, kind_at, ref_count};
ghost use Rattle.xp_board.specs.RefSteps.{Claim, Raise, after_ref_row, after_ref_store};
ghost use Rattle.xp_board.specs.Runs.{place_of};
ghost use Rattle.xp_board.specs.Settling.{is_settled};
ghost use Rattle.xp_board.specs.Sound.{Sound};
ghost use Rattle.xp_board.specs.Steps.{last_since};
ghost use Rattle.xp_board.specs.Told.{PortValue, own_run, stepped};
ghost use Rattle.xp_board.specs.declared.holdings.Claimed.{Claimed};
ghost use Rattle.xp_board.specs.declared.holdings.Ending.{Ending};
ghost use Rattle.xp_board.specs.declared.holdings.Lock.{Lock};
ghost use Rattle.xp_board.specs.declared.holdings.Work.{Work};
ghost use Rattle.xp_board.specs.declared.step.Mark.TheVariants.{Shed};
ghost use Rattle.xp_board.specs.declared.step.Step.{Step};
ghost use Rattle.xp_words.specs.PageTypes.{is_table};
ghost use Rattle.xp_words.specs.RefWords.{ref_write};
ghost use Rattle.xp_words.specs.declared.kind.PageType.TheVariants.{Writable};
ghost use Rattle.xp_words.specs.declared.refs.RefWord.TheVariants.{Free, Owned};
ghost use Rattle.xp_board.specs.AckSteps.{after_ack};
ghost use Rattle.xp_board.specs.Acts.{left_by};
ghost use Rattle.xp_board.specs.Hands.{claim_of, empty, ending_of, hand, lock_on, refs_to, work_on};
ghost use Rattle.xp_board.specs.Legal.{LegalMove};
ghost use Rattle.xp_board.specs.WellFormed.{WellFormed};
ghost use Rattle.xp_board.specs.declared.holdings.Holdings.{Holdings};
ghost use Rattle.xp_board.specs.declared.step.Act.TheVariants.{Load, Cas, Store, Add};
ghost use Rattle.xp_board.specs.declared.step.StepKind.TheVariants as steps;

/// A load of any word is legal at any time.
pub fn a_look_is_legal()
    ensures { (n : Machine) (s : ℕ) (h : Holdings) (p : Place) → IsTrue (is_place (sizes_of n) p) → LegalMove n s h p Load steps.Look None }
{}

/// It leaves the word as it was.
#[tactic(auto, unfolding(crate::specs::Acts::left_by))]
pub fn a_load_leaves_the_word()
    ensures { (w : ℕ) → left_by Load w ≡ w }
{}

/// No reference is given back that is not in hand.
pub fn what_is_lowered_is_in_hand()
    ensures { (n : Machine) (s f by : ℕ) (h : Holdings) → LegalMove n s h (Refs f) (Add by) steps.Ref None → 0 < refs_to f h.refs }
{}

/// The exchange that counts a reference to an owned frame one up is legal below the limit, with nothing in hand.
pub fn a_raise_is_legal()
    ensures { (n : Machine) (s f owner count : ℕ) (allocated : Bool) (h : Holdings) → n.limit < 2 ^ 26 → length n.page_limit ≤ 16 → f < n.frames → h.run ≡ Some 0 →
        owner < length n.page_limit → 0 < count → count < n.limit →
        LegalMove n s h (Refs f) (Cas (ref_write (Owned owner allocated count)) (ref_write (Owned owner allocated (count + 1)))) steps.Ref None }
{}

/// A reference in hand is all that a store of a machine-to-physical word needs.
pub fn a_map_is_legal()
    ensures { (n : Machine) (s f new : ℕ) (h : Holdings) → f < n.frames → h.run ≡ Some 0 → new < 2 ^ 64 → 0 < hand f h → LegalMove n s h (M2p f) (Store new) steps.M2p None }
{}

/// A vCPU that has made no step holds nothing, and that is well formed.
pub fn empty_hands_are_well_formed()
    ensures { (n : Machine) (s : ℕ) → WellFormed n s empty }
{}

/// A typed reference that comes out of a word of a vCPU, but one of the two old words, is known live at once; so is what an
/// entry exchanged under the lock led to, and the last recorded entry where it is settled. So each of them can be given back.
pub fn what_comes_back_is_known_live()
    ensures word { (n : Machine) (v k new f : ℕ) (t : PageType) (h : Holdings) → IsTrue (is_context k) → context_type k ≡ Some t →
        IsTrue (knows_live (sizes_of n) f t (after_context (Vcpu v k) (Store new) (suc f) h)) }
    ensures entry { (n : Machine) (f i new w g : ℕ) (t : PageType) (h : Holdings) (e : Lock) → lock_on f h.locks ≡ Some e → keeps_demand e i new ≡ false →
        demand_at e.kind i w ≡ Typed g t → IsTrue (knows_live (sizes_of n) g t (after_cell (Cell f i) (Store new) w h)) }
    ensures settled { (n : Machine) (f upto g : ℕ) (t : PageType) (h : Holdings) (e : Work) → work_on f h.works ≡ Some e → IsTrue (is_settled (sizes_of n) h e) →
        demand_seen upto e ≡ Typed g t → IsTrue (knows_live (sizes_of n) g t (after_mark n (Some (Shed f upto)) h)) }
{}

/// The stamp of an ask for a free frame is the word of a free one, and no other reference word.
pub fn an_awaited_stamp_is_free()
    ensures { (n : Machine) (since stamp : ℕ) (h : Holdings) → AwaitsFree n since stamp h → IsTrue (is_free stamp) }
{}

/// Each own word of a vCPU that is not stopped, but the two of flushes, is what its vCPU last found or left there.
pub fn an_own_word_is_as_it_was_left()
    ensures { (n : Machine) (m : Place → ℕ) (h : ℕ → Holdings) (s k w : ℕ) → Sound n m h → s < (sizes_of n).vcpus → k ≢ 4 → k ≢ 5 → m (run_of s) ≢ 1 →
        last_since (sizes_of n) 0 (Vcpu s k) (h s).steps ≡ Some w → m (Vcpu s k) ≡ w }
{}

/// After a step at the own run word that word is known.
pub fn a_step_tells_the_own_run_word()
    ensures { (v : PortValue) (x : Step) (found : ℕ) → place_of v.post.machine x ≡ run_of v.post.vcpu → own_run (stepped v x found) ≡ left_by x.act found }
{}

/// A reference that was counted up is in hand; a frame that is freed leaves a page counted for the domain that owned it; none of the cells
/// of a frame just claimed counts as scrubbed; and a vCPU is warm once it has flushed.
pub fn what_steps_move_in_hand()
    ensures raised { (n : Machine) (s f w : ℕ) (h : Holdings) → refs_to f (after_ref_row Raise n s f w h).refs ≡ refs_to f h.refs + 1 }
    ensures freed { (n : Machine) (s f stamp : ℕ) (h : Holdings) (e : Ending) → ending_of f h.ending ≡ Some e →
        (after_ref_store (Some (Free stamp)) n s f h).credits ≡ e.owner ∷ h.credits }
    ensures claimed { (n : Machine) (s f w : ℕ) (h : Holdings) (e : Claimed) → claim_of f (after_ref_row Claim n s f w h).claimed ≡ Some e → e.scrubbed ≡ 0 }
    ensures flushed { (h : Holdings) → (after_ack h).cold ≡ false }
{}

/// A table that would map itself writable is not lawful: two types would be asked of one frame.
pub fn a_table_does_not_map_itself_writable()
    ensures { (n : Machine) (owner f i : ℕ) (m : Place → ℕ) (t : PageType) → IsTrue (is_dead (kind_at m f)) → IsTrue (is_table t) → i < 512 →
        demand_at t i (m (Cell f i)) ≡ Typed f Writable → Lawful n owner m f t → ⊥ }
{}

/// Where a tree is lawful, the count of its top frame is below the limit.
pub fn a_lawful_tree_has_room_at_its_top()
    ensures { (n : Machine) (owner f : ℕ) (m : Place → ℕ) (t : PageType) → Lawful n owner m f t → ref_count (m (Refs f)) < n.limit }
{}
