//! The destruction of a domain by the only vCPU, turn by turn, and its plain meaning.
ghost use Rattle.std.specs.Prelude.{ℕ, Bool, List, Result};
ghost use Rattle.xp_words.specs.declared.reply.LogLine.{LogLine};
ghost use Rattle.xp_words.specs.declared.reply.Stop.{Stop};
ghost use Rattle.xp_board.specs.Told.{PortValue};
ghost use Rattle.domain_destroy.specs.Destroying.{DomainDestroyed};
ghost use Rattle.domain_destroy.specs.declared.place.DestroyAt.{DestroyAt};
ghost use Rattle.domain_destroy.specs.declared.place.DestroyAt.TheVariants.{Begins};
ghost use Rattle.script_law.specs.Destroying.{destroy};
ghost use Rattle.script_law.specs.Values.{Outcome, Solo, Whose};
ghost use Rattle.solo_ports.specs.Standing.{Clean, whose};
ghost use Rattle.solo_deaths.specs.Dying.{ComesDying, GoesOnDying};

use answer_laws::{a_call_alone_is_neither_lost_nor_busy, alone_stays};
use release_laws::{a_paused_release_leaves_the_rest, a_release_leaves_what_the_plain_one_leaves};

/// Before its first turn a destruction comes to what the plain one comes to.
pub fn a_destruction_begins()
    ensures { (w : Whose) (d op : ℕ) (log : List LogLine) (x : Solo) → GoesOnDying w d op Begins log log x (destroy w d x) }
{}

/// By the only vCPU, where nothing is left to be settled, each turn of a destruction is done or refused as the plain one: with its value, its lines in the log of all its turns, and what it
/// leaves. Or it is paused, behind a part or within the release of a table, and comes to the same from there.
pub fn a_destruction_comes_to_its_plain_meaning()
    ensures { (v w : PortValue) (x : Solo) (d op : ℕ) (at to : DestroyAt) (before log made : List LogLine) (o : Outcome) (answers : List Bool) (answer : Result ℕ Stop) → Clean v x →
        GoesOnDying (whose v) d op at before log x o → DomainDestroyed v w d op at to log made answers answer → ComesDying w d op to before made o answer }
{
    alone_stays();
    a_call_alone_is_neither_lost_nor_busy();
    a_release_leaves_what_the_plain_one_leaves();
    a_paused_release_leaves_the_rest();
}
