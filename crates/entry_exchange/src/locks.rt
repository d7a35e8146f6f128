//! Entry locks that go off a table.
ghost use Rattle.entry_exchange.specs.Holding.{MayLeaveLock};
ghost use Rattle.entry_exchange.specs.Parts.{LockLeft};

use entry_locks::unlock_entry;
use frame_words::put_ref;
use kind_words::{leave, partial_kind};
use partial_state::level_type;
use table_words::{OldWord, put_old};
use xp_board::Port;

/// Takes the own entry lock off a table of that level, and gives its reference back. Where the lock held the table's last type count, the table
/// is left partial with all its entries recorded, and the second old word, which is known to name no frame, names it.
pub fn leave_lock<P: Port>(port: &mut P, table: u32, level: u8)
    requires { MayLeaveLock (P.value port.old) table level }
    // What it promises are the fields of that record, in specs/Parts.antt.
    ensures { LockLeft (P.value port.old) (P.value port.new) table level }
{
    if unlock_entry(port, table) {
        leave(port, table, partial_kind(level_type(level), false, 512));
        put_old(port, OldWord::Second, table);
    } else {
        put_ref(port, table);
    }
}
