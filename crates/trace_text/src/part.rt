//! What the lines so far say, one line after another.

ghost use Rattle.std.specs.Prelude.{◌≡◌, ◌+◌, ◌^◌, ◌<◌, ◌≤◌, length, nat_le, IsTrue, slice_set, slice_index, bit_or};
ghost use Rattle.trace_lines.specs.Steps.{Gives};
ghost use Rattle.trace_lines.specs.declared.fault.LineError.TheVariants.{At};
ghost use Rattle.trace_lines.specs.declared.fault.LineFault.TheVariants.{Passed};
ghost use Rattle.trace_text.specs.Fronts.{empty_front, is_between, most_frames as most_frames_lem, front_after_header, front_after_frames, front_after_limit, front_after_clock, front_after_domain, front_after_priv, front_after_vcpu, front_after_own, may_own as may_own_lem, front_after_cell, may_fill as may_fill_lem, front_after_op, front_after_turn, front_after_end, front_after};
ghost use Rattle.trace_text.specs.TraceOf.{is_ended, front_trace};
ghost use Rattle.trace_text.specs.WellFormed.{IsWellFormed};
ghost use Rattle.trace_text.specs.Counted.{pages_of, is_apart};
ghost use Rattle.std.specs.Bool.{OnTrue};
ghost use Rattle.std.specs.List.{list_all};
ghost use Rattle.trace_lines.specs.Spelling.{IsSpellable};
ghost use Rattle.trace_lines.specs.declared.line.Line.TheVariants.{Header, Op as OpLine};

use crate::counts::{destroys_of, extents_of, numbers_of};
use crate::taken::{is_free, take};
use crate::trace::{CellList, CellRun, Own, OwnList, ScriptList, Trace, TurnList, TurnRun};
use arrayvec::ArrayVec;
use std::alloc::Global;
use std::marker::Model;
use trace_lines::{Line, LineError, LineFault, What};
use xp_words::{Domains, Layout, Limits, Masks, Op, Script};

/// What the lines so far say. Beside that it keeps which frames are owned, how many each domain owns, and
/// the sums of what is counted, so that no line looks at the ones before it.
#[derive(Drop)]
pub(crate) struct Part {
    place: u8,
    version: u8,
    frames: u32,
    limit: u32,
    clock: u64,
    domains: ArrayVec<u32, 16>,
    masks: ArrayVec<u16, 16>,
    vcpus: ArrayVec<u16, 16>,
    owned: Vec<Own>,
    cells: Vec<CellRun>,
    scripts: Vec<Script>,
    turns: Vec<TurnRun>,
    taken: Vec<bool>,
    pages: [u32; 16],
    ops: u32,
    destroys: u32,
    extents: u32,
    turned: u32,
}

impl Model for Part {
    ghost use Rattle.trace_text.specs.Fronts.{Front};

    ghost Value = { Front };

    ghost use Rattle.trace_text.specs.Parts.{Tallies, HasMachine, HasOpening};

    ghost view = { λ s. record { place = s.place; version = s.version; frames = s.frames; limit = s.limit; clock = s.clock; domains = s.domains.items; masks = s.masks.items; vcpus = s.vcpus.items; owned = s.owned.items; cells = s.cells.items; scripts = s.scripts.items; turns = s.turns.items } };

    ghost invariant = { λ s. let front : Front = record { place = s.place; version = s.version; frames = s.frames; limit = s.limit; clock = s.clock; domains = s.domains.items; masks = s.masks.items; vcpus = s.vcpus.items; owned = s.owned.items; cells = s.cells.items; scripts = s.scripts.items; turns = s.turns.items } in HasMachine front × HasOpening front × Tallies front s.taken.items s.pages s.ops s.destroys s.extents s.turned };
}

fn is_in(low: u8, high: u8, place: u8) -> bool
    ensures { result ≡ is_between low high place }
{
    low <= place && place <= high
}

// How many frames a trace of that version may have.
fn most_frames(version: u8) -> u64
    ensures { result ≡ most_frames_lem version }
{
    if version == 2 { 65_536 } else { 4_096 }
}

// Gives that domain the privilege over another.
fn give(masks: &mut ArrayVec<u16, 16>, domain: usize, over: u64)
    requires inside { domain < length masks.old.items }
    requires few { over < 16 }
    ensures { masks.new.items ≡ slice_set masks.old.items domain (bit_or (slice_index masks.old.items domain) (2 ^ over)) }
{
    masks[domain] |= 1 << over;
}

fn passed(what: What, number: u64) -> LineError
    ensures { result ≡ At (Passed what number) }
{
    LineError::At(LineFault::Passed { what, number })
}

impl Part {
    pub(crate) fn new(alloc: Global) -> Part
        ensures { result ≡ empty_front }
    {
        Part {
            place: 0,
            version: 0,
            frames: 0,
            limit: 67_108_863,
            clock: 1,
            domains: ArrayVec::new(),
            masks: ArrayVec::new(),
            vcpus: ArrayVec::new(),
            owned: Vec::new(alloc),
            cells: Vec::new(alloc),
            scripts: Vec::new(alloc),
            turns: Vec::new(alloc),
            taken: Vec::new(alloc),
            pages: [0; 16],
            ops: 0,
            destroys: 0,
            extents: 0,
            turned: 0,
        }
    }

    #[tactic(auto, unfolding(crate::specs::Fronts::front_after_header))]
    fn header(&mut self, version: u8) -> Result<(), LineError>
        requires { IsSpellable self.old.version (Header version) }
        ensures { Gives (λ _. self.new) result (front_after_header self.old version) }
    {
        if self.place != 0 {
            return Err(LineError::PLACE);
        }
        self.place = 1;
        self.version = version;
        Ok(())
    }

    #[tactic(auto, unfolding(crate::specs::Fronts::front_after_frames))]
    fn frames(&mut self, count: u64) -> Result<(), LineError>
        ensures { Gives (λ _. self.new) result (front_after_frames self.old count) }
    {
        if self.place != 1 {
            return Err(LineError::PLACE);
        }
        if count < 1 {
            return Err(LineError::RANGE);
        }
        if count > most_frames(self.version) {
            return Err(passed(What::Frames, count));
        }
        self.taken.resize(count as usize, false)?;
        self.place = 2;
        self.frames = count as u32;
        Ok(())
    }

    #[tactic(auto, unfolding(crate::specs::Fronts::front_after_limit))]
    fn limit(&mut self, count: u64) -> Result<(), LineError>
        ensures { Gives (λ _. self.new) result (front_after_limit self.old count) }
    {
        if self.place != 2 {
            return Err(LineError::PLACE);
        }
        if count < 2 || count > 67_108_863 {
            return Err(LineError::RANGE);
        }
        self.place = 3;
        self.limit = count as u32;
        Ok(())
    }

    #[tactic(auto, unfolding(crate::specs::Fronts::front_after_clock))]
    fn clock(&mut self, start: u64) -> Result<(), LineError>
        ensures { Gives (λ _. self.new) result (front_after_clock self.old start) }
    {
        if !is_in(2, 3, self.place) {
            return Err(LineError::PLACE);
        }
        if start < 1 || start > 68_719_476_734 {
            return Err(LineError::RANGE);
        }
        self.place = 4;
        self.clock = start;
        Ok(())
    }

    #[tactic(auto, unfolding(crate::specs::Fronts::front_after_domain))]
    fn domain(&mut self, limit: u64) -> Result<(), LineError>
        ensures { Gives (λ _. self.new) result (front_after_domain self.old limit) }
    {
        if !is_in(2, 5, self.place) {
            return Err(LineError::PLACE);
        }
        if limit > 65_536 {
            return Err(LineError::RANGE);
        }
        if self.domains.len() >= 16 {
            return Err(passed(What::Domains, self.domains.len() as u64 + 1));
        }
        self.domains.push(limit as u32);
        self.masks.push(0);
        self.place = 5;
        Ok(())
    }

    #[tactic(auto, unfolding(crate::specs::Fronts::front_after_priv))]
    fn privilege(&mut self, domain: u64, over: u64) -> Result<(), LineError>
        ensures { Gives (λ _. self.new) result (front_after_priv self.old domain over) }
    {
        if !is_in(5, 6, self.place) {
            return Err(LineError::PLACE);
        }
        let domains = self.domains.len() as u64;
        if domain >= domains || over >= domains || domain == over {
            return Err(LineError::RANGE);
        }
        give(&mut self.masks, domain as usize, over);
        self.place = 6;
        Ok(())
    }

    #[tactic(auto, unfolding(crate::specs::Fronts::front_after_vcpu))]
    fn vcpu(&mut self, alloc: Global, domain: u64) -> Result<(), LineError>
        ensures { Gives (λ _. self.new) result (front_after_vcpu self.old domain) }
    {
        if !is_in(5, 7, self.place) {
            return Err(LineError::PLACE);
        }
        if domain >= self.domains.len() as u64 {
            return Err(LineError::RANGE);
        }
        if self.vcpus.len() >= 16 {
            return Err(passed(What::Vcpus, self.vcpus.len() as u64 + 1));
        }
        self.scripts.push(Script::new(Vec::new(alloc)))?;
        self.vcpus.push(domain as u16);
        self.place = 7;
        Ok(())
    }

    // Whether no frame of the run is owned yet. Its domain does not matter.
    fn is_free(&self, first: u64, count: u64) -> bool
        requires some { 1 ≤ count }
        requires inside { first + count ≤ self.now.frames }
        ensures { result ≡ list_all (is_apart (record { domain = 0; first = first; count = count })) self.now.owned }
    {
        is_free(&self.taken, first as usize, count as usize)
    }

    #[tactic(auto, unfolding(crate::specs::Fronts::may_own))]
    fn may_own(&self, domain: u64, first: u64, count: u64) -> bool
        ensures value { result ≡ may_own_lem self.now (record { domain = domain; first = first; count = count }) }
        ensures inside { OnTrue result (domain < 16) }
        ensures room { OnTrue result (pages_of domain self.now.owned + count < 2 ^ 32) }
    {
        let frames = u64::from(self.frames);
        if domain >= self.domains.len() as u64 || count < 1 || !fits(first, count, frames) {
            return false;
        }
        let at = domain as usize;
        self.is_free(first, count)
            && u64::from(self.pages[at]) + count <= u64::from(self.domains[at])
    }

    #[tactic(auto, unfolding(crate::specs::Fronts::front_after_own, crate::specs::Fronts::may_own))]
    fn own(&mut self, domain: u64, first: u64, count: u64) -> Result<(), LineError>
        ensures { Gives (λ _. self.new) result (front_after_own self.old (record { domain = domain; first = first; count = count })) }
    {
        if !is_in(7, 8, self.place) {
            return Err(LineError::PLACE);
        }
        if !self.may_own(domain, first, count) {
            return Err(LineError::RANGE);
        }
        self.owned.push(Own {
            domain: domain as u16,
            first: first as u32,
            count: count as u32,
        })?;
        self.pages[domain as usize] += count as u32;
        take(&mut self.taken, first as usize, count as usize);
        self.place = 8;
        Ok(())
    }

    fn may_fill(&self, frame: u64, first: u64, count: u64) -> bool
        ensures { result ≡ may_fill_lem self.now (record { frame = frame; first = first; count = count; value = 0 }) }
    {
        frame < u64::from(self.frames) && 1 <= count && fits(first, count, 512)
    }

    #[tactic(auto, unfolding(crate::specs::Fronts::front_after_cell))]
    fn cell(&mut self, frame: u64, first: u64, count: u64, value: u64) -> Result<(), LineError>
        ensures { Gives (λ _. self.new) result (front_after_cell self.old (record { frame = frame; first = first; count = count; value = value })) }
    {
        if !is_in(7, 9, self.place) {
            return Err(LineError::PLACE);
        }
        if !self.may_fill(frame, first, count) {
            return Err(LineError::RANGE);
        }
        self.cells.push(CellRun {
            frame: frame as u32,
            first: first as u16,
            count: count as u16,
            value,
        })?;
        self.place = 9;
        Ok(())
    }

    #[tactic(auto, unfolding(crate::specs::Fronts::front_after_op))]
    fn op(&mut self, vcpu: u64, op: Op) -> Result<(), LineError>
        requires { IsSpellable self.old.version (OpLine vcpu op) }
        ensures { Gives (λ _. self.new) result (front_after_op self.old vcpu op) }
    {
        if !is_in(7, 10, self.place) {
            return Err(LineError::PLACE);
        }
        if vcpu >= self.vcpus.len() as u64 {
            return Err(LineError::RANGE);
        }
        if self.ops >= 65_536 {
            return Err(passed(What::Ops, u64::from(self.ops) + 1));
        }
        let destroys = self.destroys + destroys_of(&op);
        if destroys > 16 {
            return Err(passed(What::Destroys, u64::from(destroys)));
        }
        let numbers = numbers_of(&op);
        if numbers > 8_192 {
            return Err(passed(What::Numbers, numbers));
        }
        let extents = u64::from(self.extents).saturating_add(extents_of(&op));
        if extents > 1_000_000 {
            return Err(passed(What::Extents, extents));
        }
        let script = &mut self.scripts[vcpu as usize];
        script.push(op)?;
        self.ops += 1;
        self.destroys = destroys;
        self.extents = extents as u32;
        self.place = 10;
        Ok(())
    }

    #[tactic(auto, unfolding(crate::specs::Fronts::front_after_turn))]
    fn turn(&mut self, vcpu: u64, count: u64) -> Result<(), LineError>
        ensures { Gives (λ _. self.new) result (front_after_turn self.old (record { vcpu = vcpu; count = count })) }
    {
        if !is_in(7, 10, self.place) {
            return Err(LineError::PLACE);
        }
        if vcpu >= self.vcpus.len() as u64 {
            return Err(LineError::RANGE);
        }
        let turned = u64::from(self.turned).saturating_add(count);
        if turned > 1_000_000 {
            return Err(passed(What::Turns, turned));
        }
        self.turns.push(TurnRun {
            vcpu: vcpu as u32,
            count: count as u32,
        })?;
        self.turned = turned as u32;
        self.place = 10;
        Ok(())
    }

    #[tactic(auto, unfolding(crate::specs::Fronts::front_after_end))]
    fn end(&mut self) -> Result<(), LineError>
        ensures { Gives (λ _. self.new) result (front_after_end self.old) }
    {
        if !is_in(7, 10, self.place) {
            return Err(LineError::PLACE);
        }
        self.place = 11;
        Ok(())
    }

    /// One more line, which the text of a line of that version can say.
    #[tactic(auto, unfolding(crate::specs::Fronts::front_after))]
    pub(crate) fn add(&mut self, alloc: Global, line: Line) -> Result<(), LineError>
        requires { IsSpellable self.old.version line }
        ensures { Gives (λ _. self.new) result (front_after self.old line) }
    {
        match line {
            Line::Header { version } => self.header(version),
            Line::Frames { count } => self.frames(count),
            Line::Limit { count } => self.limit(count),
            Line::Clock { start } => self.clock(start),
            Line::Domain { limit } => self.domain(limit),
            Line::Priv { domain, over } => self.privilege(domain, over),
            Line::Vcpu { domain } => self.vcpu(alloc, domain),
            Line::Own {
                domain,
                first,
                count,
            } => self.own(domain, first, count),
            Line::Cell {
                frame,
                first,
                count,
                value,
            } => self.cell(frame, first, count, value),
            Line::Op { vcpu, op } => self.op(vcpu, op),
            Line::Turn { vcpu, count } => self.turn(vcpu, count),
            Line::End => self.end(),
        }
    }

    pub(crate) fn version(&self) -> u8
        ensures { result ≡ self.now.version }
    {
        self.version
    }

    pub(crate) fn is_ended(&self) -> bool
        ensures { result ≡ is_ended self.now }
    {
        self.place == 11
    }

    pub(crate) fn into_trace(self) -> Trace
        requires { IsTrue (is_ended self) }
        ensures front_trace { result ≡ front_trace self }
        ensures well { IsWellFormed result }
    {
        let Part {
            place: _,
            version,
            frames,
            limit,
            clock,
            domains,
            masks,
            vcpus,
            owned,
            cells,
            scripts,
            turns,
            taken: _,
            pages: _,
            ops: _,
            destroys: _,
            extents: _,
            turned: _,
        } = self;
        Trace {
            version,
            layout: Layout {
                frames,
                limit,
                page_limit: Limits::new(domains),
                privilege: Masks::new(masks),
                vcpu_domain: Domains::new(vcpus),
            },
            clock,
            owned: OwnList::new(owned),
            cells: CellList::new(cells),
            scripts: ScriptList::new(scripts),
            turns: TurnList::new(turns),
        }
    }
}

fn fits(first: u64, count: u64, most: u64) -> bool
    ensures { result ≡ nat_le (first + count) most }
{
    first <= most && count <= most - first
}
