//! Walks by themselves, and the loads of an update by address.
ghost use Rattle.std.specs.Prelude.{◌≡◌, ℕ, false, Bool, Some, None, Result, Ok, Err};
ghost use Rattle.xp_words.specs.declared.context.LdtBase.{LdtBase};
ghost use Rattle.xp_words.specs.declared.reply.Refusal.{Refusal};
ghost use Rattle.xp_words.specs.declared.reply.Stop.{Stop};
ghost use Rattle.xp_board.specs.Told.{PortValue};
ghost use Rattle.tlb_walks.specs.Addresses.{walk_refusal};
ghost use Rattle.tlb_walks.specs.Translating.{Walks};
ghost use Rattle.tlb_walks.specs.Walks.{top_word};
ghost use Rattle.ldt_pages.specs.Touching.{is_beyond, touch_address};
ghost use Rattle.mmu_update.specs.Addresses.{Leads};
ghost use Rattle.script_law.specs.Values.{Numbers, Solo, stopped};
ghost use Rattle.script_law.specs.Walks.{from_base, touch_unnamed};
ghost use Rattle.solo_ports.specs.Standing.{Clean};
ghost use Rattle.solo_accesses.specs.Accesses.{AccessComes};
ghost use Rattle.solo_accesses.specs.Walking.{IsTouchLed, LoadsCome, WalkComes};

use answer_laws::alone_stays;

/// From a port that stands to a plain value a walk that its address allows goes the way of the plain walk, whatever is cached: to the same frame, or to the same refusal. It is
/// never paused, and leaves what that leaves. One that the address alone refuses is refused so.
pub fn a_walk_goes_the_plain_way()
    ensures walks { (v w : PortValue) (x : Solo) (user : Bool) (va : ℕ) (write : Bool) (answer : Result ℕ Stop) → Clean v x → walk_refusal va ≡ None → Walks v w user va write answer →
        WalkComes w x (from_base v.post.machine va write (x.own (top_word user)) x.frames) answer }
    ensures barred { (v w : PortValue) (x : Solo) (user : Bool) (va : ℕ) (write : Bool) (y : Refusal) (answer : Result ℕ Stop) → Clean v x → walk_refusal va ≡ Some y → Walks v w user va write answer → AccessComes w (stopped (Numbers y) x) answer }
{
    alone_stays();
}

/// So the walk to a page of the LDT that is touched is refused as the touch is, or leads to the frame that the touch is to take.
pub fn a_touched_page_is_walked_to_the_plain_way()
    ensures refused { (v w : PortValue) (x : Solo) (d page : ℕ) (b : LdtBase) (e : Stop) → Clean v x → is_beyond page b ≡ false → Walks v w false (touch_address page b) false (Err e) → AccessComes w (touch_unnamed v.post.machine d page b x) (Err e) }
    ensures led { (v w : PortValue) (x : Solo) (d page : ℕ) (b : LdtBase) (entry : ℕ) → Clean v x → is_beyond page b ≡ false → Walks v w false (touch_address page b) false (Ok entry) → IsTouchLed v w x d page b entry }
{
    alone_stays();
}

/// The loads by which an update by address finds its table lead to the table of the plain loads, or to the same refusal, and change nothing.
pub fn loads_lead_the_plain_way()
    ensures { (v w : PortValue) (x : Solo) (va : ℕ) (answer : Result ℕ Stop) → Clean v x → Leads v va w answer → LoadsCome v.post.machine va x answer × Clean w x }
{
    alone_stays();
}
