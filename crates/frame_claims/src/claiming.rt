//! A block of free frames is claimed.
ghost use Rattle.std.specs.Prelude.{◌≡◌, ◌+◌, ◌*◌, ◌/◌, ◌%◌, ◌^◌, ◌<◌, ◌≤◌, [], length, IfSome, IfErr, IfOk, MatchResult};
ghost use Rattle.xp_board.specs.Lists.{times};
ghost use Rattle.xp_board.specs.Readings.{domain_of};
ghost use Rattle.xp_board.specs.Told.{told_word};
ghost use Rattle.step_maker.specs.Holds.{FlushedSame, Holds, MayWork, Rests, Same};
ghost use Rattle.step_maker.specs.Answers.{misses};
ghost use Rattle.step_maker.specs.Visits.{Does};
ghost use Rattle.answer_laws.specs.Alone.{IsAlone};
ghost use Rattle.claim_words.specs.Claims.{charged, uncharged};
ghost use Rattle.frame_claims.specs.Blocks.{HasRow, IsBlockSize, IsPlain};
ghost use Rattle.frame_claims.specs.Claiming.{IsClaimStop, ServesClaim, ServesPages, ServesTaken, StopsClaim, StopsPages, Took};
ghost use Rattle.frame_claims.specs.Found.{ChargedBy, ClaimsBy, TookBy};
ghost use Rattle.frame_claims.specs.Plain.{ClaimsPlainly, ref_looks};

use crate::choosing::{Stamps, choose};
use crate::giving::give_block;
use crate::taking::take_block;
use arrayvec::ArrayVec;
use claim_words::{charge_pages, look_pages, refund_pages};
use flush_waits::clear_free;
use xp_board::Port;
use xp_words::{Pause, Place, Refusal, Stop};

// The pages of the block are counted for the own domain.
fn charge<P: Port>(port: &mut P, owner: u16, size: u32) -> Result<(), Stop>
    requires own { owner ≡ domain_of (P.value port.old).post.machine (P.value port.old).post.vcpu }
    requires domain { owner < length (P.value port.old).post.machine.page_limit }
    requires may { MayWork (P.value port.old) }
    requires some { 0 < size }
    requires few { size ≤ 512 }
    requires none { times owner (P.value port.old).holdings.credits ≡ 0 }
    ensures serves { ServesPages (P.value port.old) (P.value port.new) (misses (P.value port.old).post.machine result) }
    ensures stops { IfErr result (λ e. StopsPages (P.value port.old) (P.value port.new) size e) }
    ensures kinds { IfErr result IsClaimStop }
    ensures hand { MatchResult result (λ _. Holds (P.value port.old) (P.value port.new) (charged size owner (P.value port.old).holdings)) (λ _. Same (P.value port.old) (P.value port.new)) }
    ensures visits { Does (P.value port.old) (P.value port.new) (λ vs. ChargedBy (P.value port.old).post.machine owner size result vs) }
{
    let limit = u64::from(port.layout().page_limit.as_slice()[owner as usize]);
    let found = look_pages(port, owner);
    if found > limit || limit - found < u64::from(size) {
        return Err(Stop::Refused(Refusal::DomainFull { found }));
    }
    match charge_pages(port, owner, found, u64::from(size)) {
        Ok(()) => Ok(()),
        Err(other) => {
            let place = port.layout().place(Place::Pages { domain: owner });
            Err(Stop::Paused(Pause::Lost {
                place,
                expected: found,
                found: other,
            }))
        }
    }
}

// How many frames a block of that order has.
fn size_of(order: u8) -> u32
    requires order { order ≤ 9 }
    ensures power { result ≡ 2 ^ order }
    ensures size { IsBlockSize result }
{
    1 << order
}

// Chooses a block, waits for its flush, and takes it. The pages are counted.
fn take<P: Port>(port: &mut P, owner: u16, size: u32, stamps: &mut Stamps) -> Result<u32, Stop>
    requires own { owner ≡ domain_of (P.value port.old).post.machine (P.value port.old).post.vcpu }
    requires domain { owner < length (P.value port.old).post.machine.page_limit }
    requires may { MayWork (P.value port.old) }
    requires some { 0 < size }
    requires few { size ≤ 512 }
    requires whole { 64 < size → 64 * (size / 64) ≡ size }
    requires parts { size ≤ 64 → 64 % size ≡ 0 }
    requires plain { IsPlain (P.value port.old).holdings }
    requires row { HasRow (P.value port.old) (P.value port.old) 0 [] owner size }
    ensures serves { ServesTaken (P.value port.old) (P.value port.new) size result }
    ensures stops { IfErr result (λ e. StopsClaim (P.value port.old) (P.value port.new) size e) }
    ensures kinds { IfErr result IsClaimStop }
    ensures took { Took (P.value port.old) (P.value port.new) owner size stamps.new.items result }
    ensures visits { Does (P.value port.old) (P.value port.new) (λ vs. TookBy (P.value port.old).post owner size result vs) }
{
    match choose(port, size, stamps) {
        None => Err(Stop::Refused(Refusal::NoFree)),
        Some(chosen) => {
            clear_free(port, chosen.latest, chosen.stamp)?;
            take_block(port, owner, chosen.first, stamps.as_slice())?;
            Ok(chosen.first)
        }
    }
}

/// Claims a block of 2^order free frames for the own domain, and answers its first frame. Its cells are all 0, and its machine-to-physical words
/// are 2^64 - 1, or `gpfn` and the numbers behind it. Where it is refused or paused nothing is left in hand.
pub fn claim<P: Port>(port: &mut P, owner: u16, order: u8, gpfn: Option<u64>) -> Result<u32, Stop>
    requires own { owner ≡ domain_of (P.value port.old).post.machine (P.value port.old).post.vcpu }
    requires domain { owner < length (P.value port.old).post.machine.page_limit }
    requires order { order ≤ 9 }
    requires number { IfSome gpfn (λ g. g < 2 ^ 52) }
    requires rests { Rests (P.value port.old) }
    ensures block { IfOk result (λ f. (f % 2 ^ order ≡ 0) × (f + 2 ^ order ≤ (P.value port.old).post.machine.frames)) }
    ensures serves { ServesClaim (P.value port.old) (P.value port.new) (2 ^ order) result }
    ensures stops { IfErr result (λ e. StopsClaim (P.value port.old) (P.value port.new) (2 ^ order) e) }
    ensures kinds { IfErr result IsClaimStop }
    ensures hand { FlushedSame (P.value port.old) (P.value port.new) }
    ensures found { Does (P.value port.old) (P.value port.new) (λ vs. ClaimsBy (P.value port.old).post owner (2 ^ order) gpfn result vs) }
    // Where nobody else holds anything: it is the first free block, and no reference word is looked at but those of its frames.
    ensures plain { IsAlone (P.value port.old) → ClaimsPlainly (P.value port.old).post.machine (told_word (P.value port.old)) owner (2 ^ order) result }
    ensures bound { IsAlone (P.value port.old) → IfOk result (λ f. Does (P.value port.old) (P.value port.new) (λ vs. ref_looks vs ≡ 2 ^ order)) }
{
    let size = size_of(order);
    charge(port, owner, size)?;
    let mut stamps = ArrayVec::new();
    match take(port, owner, size, &mut stamps) {
        Ok(first) => {
            give_block(port, owner, first, gpfn, stamps.as_slice());
            Ok(first)
        }
        Err(stop) => {
            refund_pages(port, owner, u64::from(size));
            Err(stop)
        }
    }
}
