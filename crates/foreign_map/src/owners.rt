//! The `foreigndom` argument of `mmu_update`, read.
ghost use Rattle.std.specs.Prelude.{◌≡◌, ◌<◌, length, [], IfOk, IfErr};
ghost use Rattle.xp_words.specs.declared.reply.Stop.TheVariants.{Refused};
ghost use Rattle.xp_board.specs.Readings.{domain_of, has_now};
ghost use Rattle.step_maker.specs.Holds.{Rests, Same};
ghost use Rattle.step_maker.specs.Answers.{Serves, Stops};
ghost use Rattle.foreign_map.specs.Owning.{AdmitsFound, AllowsFound, MayMapFor, FoundOwners, TwinOwners, frames_of, of_owners, tables_of};

use flush_words::{look_life, look_privileges};
use step_maker::own_domain;
use xp_board::Port;
use xp_words::Refusal;

// The caller's own domain (`DOMID_SELF` of `xen.h`).
const DOMID_SELF: u64 = 0x7ff0;

/// Whose a call's tables are, and whose the frames that entries of level 1 in them map.
#[derive(Clone, Copy, Debug, PartialEq, Eq)]
pub struct Owners {
    pub tables: u16,
    pub frames: u16,
}

/// Reads the number that names both: bits 0 to 15 the owner of mapped frames, where 0x7ff0 (`DOMID_SELF` of `xen.h`) is the caller; bits 16
/// to 31 one more than the owner of the tables, or 0 for the caller. The caller needs privilege over each that is not itself, and that one is
/// to be alive; and the tables' owner needs privilege over the frames' owner. Privileges are those of this moment.
pub fn owner_for<P: Port>(port: &mut P, caller: u16, foreign: u64) -> Result<Owners, Refusal>
    requires rests { Rests (P.value port.old) }
    requires own { caller ≡ domain_of (P.value port.old).post.machine (P.value port.old).post.vcpu }
    ensures serves { Serves (P.value port.old) (P.value port.new) (of_owners (P.value port.old).post.machine caller foreign) [] }
    ensures stops { IfErr result (λ x. Stops (P.value port.old) (P.value port.new) (of_owners (P.value port.old).post.machine caller foreign) (Refused x)) }
    ensures hand { Same (P.value port.old) (P.value port.new) }
    // By the words that its steps found, in that order.
    ensures found { FoundOwners (P.value port.old) (P.value port.new) caller foreign result }
    // The privilege was found in this turn where one is needed.
    ensures may { IfOk result (λ o. MayMapFor (P.value port.new) o) }
    ensures plain { TwinOwners (P.value port.old) (P.value port.new) caller foreign result }
{
    if foreign >= 1 << 32 {
        return Err(Refusal::BadRange);
    }
    let tables = admit(port, caller, tables_of(caller, foreign))?;
    let frames = admit(port, caller, frames_of(caller, foreign))?;
    allow(port, caller, tables, frames)?;
    Ok(Owners { tables, frames })
}

// Whether the caller may name the domain of that number.
fn admit<P: Port>(port: &mut P, caller: u16, named: u64) -> Result<u16, Refusal>
    requires own { caller ≡ domain_of (P.value port.old).post.machine (P.value port.old).post.vcpu }
    requires looked { (P.value port.old).holdings.looking ≡ [] }
    ensures steps { AdmitsFound (P.value port.old) (P.value port.new) caller named result }
    ensures real { IfOk result (λ d. d < length (P.value port.old).post.machine.page_limit) }
    ensures hand { Same (P.value port.old) (P.value port.new) }
{
    if named == u64::from(own_domain(port)) {
        return Ok(caller);
    }
    if named >= u64::from(port.layout().domains()) {
        return Err(Refusal::NoDomain);
    }
    let domain = named as u16;
    if !has_privilege(look_privileges(port, caller), domain) {
        return Err(Refusal::NoPrivilege { caller, domain });
    }
    let found = look_life(port, domain);
    if found != 0 {
        return Err(Refusal::Dying { domain, found });
    }
    Ok(domain)
}

// Whether the tables' owner may map the frames' owner's frames. What the caller may is known already.
fn allow<P: Port>(port: &mut P, caller: u16, tables: u16, frames: u16) -> Result<(), Refusal>
    requires tables { tables < length (P.value port.old).post.machine.page_limit }
    requires frames { frames < 16 }
    ensures steps { AllowsFound (P.value port.old) (P.value port.new) caller tables frames result }
    ensures hand { Same (P.value port.old) (P.value port.new) }
{
    if tables == caller || tables == frames {
        return Ok(());
    }
    if has_privilege(look_privileges(port, tables), frames) {
        return Ok(());
    }
    Err(Refusal::NoPrivilege {
        caller: tables,
        domain: frames,
    })
}

// Whether a domain with that word has privilege over the other one.
fn has_privilege(word: u64, over: u16) -> bool
    requires { over < 16 }
    ensures { result ≡ has_now over word }
{
    word >> over & 1 == 1
}

// The number of the tables' owner.
fn tables_of(caller: u16, foreign: u64) -> u64
    ensures { result ≡ tables_of caller foreign }
{
    match foreign >> 16 {
        0 => u64::from(caller),
        named => named - 1,
    }
}

// The number of the frames' owner.
fn frames_of(caller: u16, foreign: u64) -> u64
    ensures { result ≡ frames_of caller foreign }
{
    match foreign & 0xffff {
        DOMID_SELF => u64::from(caller),
        named => named,
    }
}
