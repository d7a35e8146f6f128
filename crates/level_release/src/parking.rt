//! Typed references to live tables, given back where a call cannot go on.
ghost use Rattle.level_release.specs.Parking.{MayPark, Parks};

use frame_types::drop_type;
use frame_words::put_ref;
use kept_marks::leave_kept;
use kind_words::{leave, partial_kind};
use partial_state::level_type;
use table_words::{OldWord, put_old};
use xp_board::Port;

/// Gives a typed reference to a live table of that level and that domain back. Where it was the last, the table is left partial with all its
/// entries recorded: its own mark keeps the reference (`kept`), or the first old word names it.
pub fn park<P: Port>(port: &mut P, frame: u32, level: u8, owner: u16, kept: bool)
    requires { MayPark (P.value port.old) frame level owner }
    // What it promises are the fields of that record, in specs/Parking.antt.
    ensures { Parks (P.value port.old) (P.value port.new) frame level owner kept }
{
    if drop_type(port, frame) {
        let kind = partial_kind(level_type(level), kept, 512);
        if kept {
            leave_kept(port, frame, kind, owner);
        } else {
            leave(port, frame, kind);
            put_old(port, OldWord::First, frame);
        }
    } else {
        put_ref(port, frame);
    }
}
