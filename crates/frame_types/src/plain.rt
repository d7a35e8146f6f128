//! Types given back of frames that hold no entries.
ghost use Rattle.std.specs.Prelude.{◌<◌, ◌≡◌, [], true, false};
ghost use Rattle.xp_words.specs.KindWords.{kind_fields};
ghost use Rattle.xp_words.specs.declared.place.Place.TheVariants.{Refs, Kind};
ghost use Rattle.xp_board.specs.Readings.{is_free};
ghost use Rattle.xp_board.specs.Told.{is_telling, told_word};
ghost use Rattle.step_maker.specs.Holds.{Holds, MayWork};
ghost use Rattle.step_maker.specs.Plain.{Leaves};
ghost use Rattle.step_maker.specs.Answers.{Serves};
ghost use Rattle.step_maker.specs.Asked.{of_back};
ghost use Rattle.frame_types.specs.Found.{DropsPlain};
ghost use Rattle.frame_types.specs.Plain.{dropped_plain};
ghost use Rattle.frame_types.specs.Taking.{MayDropPlain, gave_type};

use crate::lowering::drop_type;
use frame_words::put_ref;
use kind_words::{dead_kind, leave};
use step_maker::look_clock;
use xp_board::Port;
use xp_words::PageType;

/// Gives a typed reference to a live writable frame or descriptor page back, its type count first. After the last type count the
/// clock is loaded and the frame left dead with that stamp.
pub fn drop_plain<P: Port>(port: &mut P, frame: u32, kind: PageType)
    requires frame { frame < (P.value port.old).post.machine.frames }
    requires may { MayWork (P.value port.old) }
    requires drops { MayDropPlain (P.value port.old).post.machine frame kind (P.value port.old).holdings }
    ensures serves { Serves (P.value port.old) (P.value port.new) (of_back frame) [] }
    ensures hand { Holds (P.value port.old) (P.value port.new) (gave_type frame (P.value port.old).holdings) }
    ensures found { DropsPlain (P.value port.old) (P.value port.new) frame kind }
    ensures plain { is_telling (P.value port.old) ≡ true → Leaves (P.value port.new) (dropped_plain frame kind (told_word (P.value port.old))) }
    ensures stands { is_telling (P.value port.old) ≡ true → (is_free (told_word (P.value port.old) (Refs frame)) ≡ false) × ((kind_fields (told_word (P.value port.old) (Kind frame))).validated ≡ true) }
{
    if drop_type(port, frame) {
        let stamp = look_clock(port);
        leave(port, frame, dead_kind(kind, false, stamp));
        put_ref(port, frame);
    } else {
        put_ref(port, frame);
    }
}
