ghost use Rattle.std.specs.Prelude.{◌≡◌, ◌≤◌, IsTrue};
ghost use Rattle.xp_words.specs.Entries.{is_slot as is_slot_lem};
ghost use Rattle.xp_words.specs.PageTypes.{is_table};
ghost use Rattle.partial_state.specs.Levels.{level_type};

use pte_check::is_slot;
use xp_words::PageType;

/// The type of a page table of that level, 1 to 4. Level 0 is ordinary memory, which the entries of level 1 name.
pub fn level_type(level: u8) -> PageType
    ensures { result ≡ level_type level }
{
    match level {
        0 => PageType::Writable,
        1 => PageType::L1,
        2 => PageType::L2,
        3 => PageType::L3,
        _ => PageType::L4,
    }
}

/// Whether entry `index` of a table of that level is one of the hypervisor's own.
pub fn is_xen_slot(level: u8, index: u16) -> bool
    ensures { result ≡ is_slot_lem (level_type level) index }
{
    is_slot(level_type(level), index)
}

/// The level of a page table of that type.
pub fn level_of(kind: PageType) -> u8
    requires { IsTrue (is_table kind) }
    ensures kind { level_type result ≡ kind }
    ensures low { 1 ≤ result }
    ensures high { result ≤ 4 }
{
    match kind {
        PageType::L1 => 1,
        PageType::L2 => 2,
        PageType::L3 => 3,
        PageType::L4 => 4,
        _ => unreachable!(),
    }
}
