//! Pages of the LDT that are touched.
ghost use Rattle.std.specs.Prelude.{◌≡◌, ℕ, Result};
ghost use Rattle.xp_words.specs.declared.reply.Stop.{Stop};
ghost use Rattle.xp_board.specs.Told.{PortValue};
ghost use Rattle.desc_pages.specs.Names.{own_domain};
ghost use Rattle.ldt_pages.specs.Touching.{LdtTouched};
ghost use Rattle.script_law.specs.Values.{Solo};
ghost use Rattle.script_law.specs.Walks.{touch_ldt};
ghost use Rattle.solo_ports.specs.Standing.{Clean, Fair};
ghost use Rattle.solo_ports.specs.Coming.{Comes};

use answer_laws::{a_call_alone_is_neither_lost_nor_busy, alone_stays, nobody_is_waited_for};

/// From a port of a vCPU that is alone, where nothing is left to be settled, a page of the LDT is touched, or refused, as the plain value is.
pub fn a_page_of_the_ldt_touched_alone_comes_to_its_plain_meaning()
    ensures { (v w : PortValue) (x : Solo) (page : ℕ) (answer : Result (Unit {0}) Stop) → Clean v x → Fair v w → LdtTouched v w page answer → Comes (λ v x. ⊥) w x (touch_ldt v.post.machine (own_domain v) page x) answer }
{
    alone_stays();
    a_call_alone_is_neither_lost_nor_busy();
    nobody_is_waited_for();
}
