//! The GDT and the LDT.
ghost use Rattle.std.specs.Prelude.{◌≡◌, ℕ, List, Result};
ghost use Rattle.xp_words.specs.declared.reply.Stop.{Stop};
ghost use Rattle.xp_board.specs.Told.{PortValue};
ghost use Rattle.step_maker.specs.Holds.{Rests};
ghost use Rattle.desc_pages.specs.Gdt.{GdtSet};
ghost use Rattle.desc_pages.specs.Ldt.{SetsLdt};
ghost use Rattle.desc_pages.specs.Names.{own_domain};
ghost use Rattle.script_law.specs.Pages.{set_gdt, set_ldt};
ghost use Rattle.script_law.specs.Values.{Solo};
ghost use Rattle.solo_ports.specs.Standing.{Clean, Fair};
ghost use Rattle.solo_ports.specs.Coming.{Comes};

use answer_laws::{a_call_alone_is_neither_lost_nor_busy, alone_stays, nobody_is_waited_for};

/// From a port of a vCPU that is alone, where nothing is left to be settled, the GDT is set, or refused, as the plain value is: its pages are taken first, or none; its words are
/// named in the other order, which does not matter.
pub fn the_gdt_set_alone_comes_to_its_plain_meaning()
    ensures { (v w : PortValue) (x : Solo) (entries : ℕ) (frames : List ℕ) (answer : Result (Unit {0}) Stop) → Clean v x → Fair v w → GdtSet v w entries frames answer →
        Comes (λ v x. ⊥) w x (set_gdt v.post.machine (own_domain v) entries frames x) answer }
{
    alone_stays();
    a_call_alone_is_neither_lost_nor_busy();
    nobody_is_waited_for();
}

/// And so the LDT: by its numbers alone it is refused.
pub fn the_ldt_set_alone_comes_to_its_plain_meaning()
    ensures { (v w : PortValue) (x : Solo) (address entries : ℕ) (answer : Result (Unit {0}) Stop) → Clean v x → SetsLdt v address entries w answer → Rests w → Comes (λ v x. ⊥) w x (set_ldt address entries x) answer }
{
    alone_stays();
}
