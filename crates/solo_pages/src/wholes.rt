//! Whole pages, cleared and copied.
ghost use Rattle.std.specs.Prelude.{◌≡◌, ◌≢◌, ℕ, List, Result, IfErr};
ghost use Rattle.xp_words.specs.declared.reply.Stop.{Stop};
ghost use Rattle.xp_board.specs.Told.{PortValue};
ghost use Rattle.step_maker.specs.Answers.{Stops};
ghost use Rattle.step_maker.specs.Holds.{Rests};
ghost use Rattle.whole_pages.specs.Whole.{ClearsPage, CopiesPage, of_clear, of_copy};
ghost use Rattle.script_law.specs.Pages.{clear_frame, copy_frame};
ghost use Rattle.script_law.specs.Values.{Solo};
ghost use Rattle.solo_ports.specs.Standing.{Clean, Fair};
ghost use Rattle.solo_ports.specs.Coming.{Comes};

use answer_laws::{a_call_alone_is_neither_lost_nor_busy, alone_stays, nobody_is_waited_for};

/// From a port of a vCPU that is alone, where nothing is left to be settled, a page is cleared, or refused, as the plain value is.
pub fn a_page_cleared_alone_comes_to_its_plain_meaning()
    ensures { (v w : PortValue) (x : Solo) (d f : ℕ) (answer : Result (Unit {0}) Stop) → Clean v x → Fair v w → ClearsPage v d f w answer → IfErr answer (λ e. Stops v w (of_clear d f) e) → Rests w →
        Comes (λ v x. ⊥) w x (clear_frame v.post.machine d f x) answer }
{
    alone_stays();
    a_call_alone_is_neither_lost_nor_busy();
    nobody_is_waited_for();
}

/// And so it is copied: where source and target are one frame, too.
pub fn a_page_copied_alone_comes_to_its_plain_meaning()
    ensures { (v w : PortValue) (x : Solo) (d to from : ℕ) (words : List ℕ) (answer : Result (Unit {0}) Stop) → Clean v x → Fair v w → CopiesPage v d to from words w answer → IfErr answer (λ e. Stops v w (of_copy d to from) e) → Rests w →
        Comes (λ v x. ⊥) w x (copy_frame v.post.machine d to from x) answer }
{
    alone_stays();
    a_call_alone_is_neither_lost_nor_busy();
    nobody_is_waited_for();
}
