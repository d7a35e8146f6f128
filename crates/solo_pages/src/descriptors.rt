//! Descriptor pages, and single descriptors.
ghost use Rattle.std.specs.Prelude.{◌≡◌, ◌<◌, ℕ, true, Result};
ghost use Rattle.xp_words.specs.Machine.{IsMachine, Machine};
ghost use Rattle.xp_words.specs.declared.kind.PageType.TheVariants.{Desc};
ghost use Rattle.xp_words.specs.declared.reply.Stop.{Stop};
ghost use Rattle.xp_board.specs.Told.{PortValue, is_telling, told_word};
ghost use Rattle.course_laws.specs.Courses.{IsOrderly};
ghost use Rattle.desc_pages.specs.Descriptors.{DescriptorUpdated};
ghost use Rattle.desc_pages.specs.Names.{own_domain};
ghost use Rattle.desc_pages.specs.Pages.{GotDesc};
ghost use Rattle.frame_types.specs.Found.{DropsPlain};
ghost use Rattle.script_law.specs.Pages.{get_page, give_page, set_descriptor};
ghost use Rattle.script_law.specs.Values.{Solo, with_frames};
ghost use Rattle.solo_ports.specs.Standing.{Clean, Fair};
ghost use Rattle.solo_ports.specs.Coming.{Comes};
ghost use Rattle.solo_pages.specs.Shown.{IsShown};
ghost use Rattle.solo_pages.specs.Ends.{EndsSo, IsEnded};

use answer_laws::{a_call_alone_is_neither_lost_nor_busy, alone_stays, nobody_is_waited_for};

/// From words that show a plain value, in the midst of an element too, a frame is taken as a descriptor page, or refused, as the plain value is: a dead one once all its words are
/// fixed, or those before the first one without a fixed form; a live one once more. And it is given back so.
pub fn a_descriptor_page_is_had_and_given_back_as_plainly()
    ensures had { (n : Machine) (s : ℕ) (v w : PortValue) (f owner : ℕ) (x : Solo) (answer : Result ℕ Stop) → IsMachine n → v.post.machine ≡ n → is_telling v ≡ true → IsOrderly n (told_word v) → IsShown n s (told_word v) x →
        IsEnded answer → GotDesc v f owner w answer → EndsSo n s (told_word w) (get_page n owner f x) answer }
    ensures given { (n : Machine) (s : ℕ) (v w : PortValue) (f : ℕ) (x : Solo) → v.post.machine ≡ n → is_telling v ≡ true → IsShown n s (told_word v) x → DropsPlain v w f Desc → IsShown n s (told_word w) (with_frames (give_page f x.frames) x) }
{}

/// From a port of a vCPU that is alone, where nothing is left to be settled, a descriptor is written, or refused, as the plain value is: into a live descriptor page, or into
/// ordinary memory.
pub fn a_descriptor_updated_alone_comes_to_its_plain_meaning()
    ensures { (v w : PortValue) (x : Solo) (address word : ℕ) (answer : Result (Unit {0}) Stop) → Clean v x → Fair v w → DescriptorUpdated v w address word answer →
        Comes (λ v x. ⊥) w x (set_descriptor v.post.machine (own_domain v) address word x) answer }
{
    alone_stays();
    a_call_alone_is_neither_lost_nor_busy();
    nobody_is_waited_for();
}
