//! One atomic step at a word that is given by name, and what it leaves. And what steps show of an answer: why a call may be refused or paused so, and why a
//! step may change a word; these are definitions and lemmas alone, which the operations cite.
#![tactic(auto)]

ghost use Rattle.std.specs.Prelude.{◌≡◌, ◌≢◌, ◌<◌, ◌≤◌, length, IsTrue, IfErr, None};
ghost use Rattle.xp_board.specs.declared.step.Act.TheVariants.{Load, Cas};
ghost use Rattle.xp_board.specs.declared.step.StepKind.TheVariants as kinds;
ghost use Rattle.xp_words.specs.Places.{is_place, sizes_of};
ghost use Rattle.xp_words.specs.declared.place.Place.TheVariants.{Clock};
ghost use Rattle.step_maker.specs.Holds.{Same, own_domain};
ghost use Rattle.step_maker.specs.Moves.{Moves, May, found_by};

use xp_board::{Act, Mark, Port, Step, StepKind};
use xp_words::Place;

/// Makes one step at that word, and answers what it found.
// Where it is inlined, the tests of the step's kind, mark and place are decided when the program is built.
#[inline(always)]
pub fn make<P: Port>(
    port: &mut P,
    place: Place,
    act: Act,
    kind: StepKind,
    mark: Option<Mark>,
) -> u64
    requires { May (P.value port.old) place act kind mark }
    ensures { Moves (P.value port.old) (P.value port.new) place act kind mark result }
{
    let at = port.layout().place(place);
    port.step(Step {
        place: at,
        act,
        kind,
        mark,
    })
}

/// A load.
#[inline(always)]
#[tactic(auto, using(crate::proofs::Moving::may_look))]
pub fn look<P: Port>(port: &mut P, place: Place) -> u64
    requires { IsTrue (is_place (sizes_of (P.value port.old).post.machine) place) }
    ensures { Moves (P.value port.old) (P.value port.new) place Load kinds.Look None result }
{
    make(port, place, Act::Load, StepKind::Look, None)
}

/// One exchange. One that finds another word answers it.
#[inline(always)]
pub fn exchange<P: Port>(
    port: &mut P,
    place: Place,
    expected: u64,
    new: u64,
    kind: StepKind,
) -> Result<(), u64>
    requires { May (P.value port.old) place (Cas expected new) kind None }
    ensures moves { Moves (P.value port.old) (P.value port.new) place (Cas expected new) kind None (found_by expected result) }
    ensures lost { IfErr result (λ found. found ≢ expected) }
{
    let found = make(port, place, Act::Cas { expected, new }, kind, None);
    if found == expected {
        Ok(())
    } else {
        Err(found)
    }
}

/// Loads the clock of flushes.
#[tactic(auto, unfolding(xp_words::specs::Places::is_place))]
pub fn look_clock<P: Port>(port: &mut P) -> u64
    ensures moves { Moves (P.value port.old) (P.value port.new) Clock Load kinds.Look None result }
    ensures hand { Same (P.value port.old) (P.value port.new) }
{
    look(port, Place::Clock)
}

/// The domain of the own vCPU, which is one of the machine's.
pub fn own_domain<P: Port>(port: &P) -> u16
    ensures own { result ≡ own_domain (P.value port.now) }
    ensures real { result < length (P.value port.now).post.machine.page_limit }
    ensures few { length (P.value port.now).post.machine.page_limit ≤ 16 }
{
    port.layout().vcpu_domain.as_slice()[port.vcpu() as usize]
}
