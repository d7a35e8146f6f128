ghost use Rattle.std.specs.Prelude.{◌≡◌, ◌<◌, ◌≤◌, ◌++◌, true, Some, OnOk, IfOk, length, string_bytes};
ghost use Rattle.std.specs.List.{list_any};
ghost use Rattle.machine_draw.specs.Runs.{run_end};
ghost use Rattle.machine_draw.specs.Tables.{leads, right_text, run_from, run_at, entry_runs, run_text, is_to, other_text, others_text, edge_text, target_edge, target_edges, edges_of, table_edges, all_edges};

use crate::image::Image;
use crate::runs::RangeText;
use crate::targets::{entry_target, is_frame};
use std::alloc::{AllocError, Global};
use std::fmt;
use word_readers::recorded_entries;
use xp_words::{Entry, KindWord, PageType, Place};

/// A page table: its frame, its type, and how many of its entries are recorded.
#[derive(Clone, Copy)]
pub struct Table {
    pub frame: u32,
    pub kind: PageType,
    pub recorded: u16,
}

/// Neighbouring entries of a table, from `first` to `last`, that name the same frame with the same right.
#[derive(Clone, Copy)]
pub struct Run {
    pub first: u16,
    pub last: u16,
    pub frame: u64,
    pub writable: bool,
}

#[tactic(auto, unfolding(crate::specs::Tables::run_text))]
impl fmt::Display for Run {
    ghost output = { λ r. Some (run_text r) };

    fn fmt<W: fmt::Write>(&self, f: &mut fmt::Formatter<W>) -> fmt::Result {
        let range = RangeText {
            first: u32::from(self.first),
            last: u32::from(self.last),
        };
        let right = right_text(self.writable);
        write!(f, "{range} {right}")
    }
}

// Whether entry `index` names that frame with that right.
#[tactic(auto, unfolding(crate::specs::Tables::leads, xp_words::specs::Places::is_place), using(std::proofs::lemmas::Bool::Decides::nat_tests))]
fn leads(image: &Image<'_>, table: Table, frame: u64, writable: bool, index: u16) -> bool
    requires frame { table.frame < image.now.machine.frames }
    requires index { index < 512 }
    ensures { result ≡ leads image.now table frame writable index }
{
    let word = image.word(Place::Cell {
        frame: table.frame,
        index,
    });
    let right = Entry { word }.writable();
    let as_asked = if writable { right } else { !right };
    is_frame(frame, entry_target(table.kind, index, word)) && as_asked
}

// The entry behind the run that begins at `first`.
fn run_end(image: &Image<'_>, table: Table, frame: u64, writable: bool, first: u16) -> u16
    requires frame { table.frame < image.now.machine.frames }
    requires recorded { table.recorded ≤ 512 }
    requires first { first < table.recorded }
    requires leads { leads image.now table frame writable first ≡ true }
    ensures end { result ≡ run_end (leads image.now table frame writable) first table.recorded }
    ensures some { first < result }
{
    let mut end = first + 1;
    while end < table.recorded && leads(image, table, frame, writable, end) {
        end += 1;
    }
    end
}

fn right_text(writable: bool) -> &'static str
    ensures { result.now ≡ right_text writable }
{
    if writable { "W" } else { "R" }
}

// The run of entries with that frame and right that begins at `index`, if one does.
#[tactic(auto, unfolding(crate::specs::Tables::run_from))]
fn run_from(image: &Image<'_>, table: Table, frame: u64, writable: bool, index: u16) -> Option<Run>
    requires frame { table.frame < image.now.machine.frames }
    requires recorded { table.recorded ≤ 512 }
    requires index { index < table.recorded }
    requires leads { leads image.now table frame writable index ≡ true }
    ensures { result ≡ run_from image.now table frame writable index }
{
    if index > 0 && leads(image, table, frame, writable, index - 1) {
        return None;
    }
    let last = run_end(image, table, frame, writable, index) - 1;
    Some(Run {
        first: index,
        last,
        frame,
        writable,
    })
}

// The run that begins at entry `index`, if one does.
#[tactic(auto, unfolding(crate::specs::Tables::run_at, xp_words::specs::Places::is_place), using(std::proofs::lemmas::Bool::Decides::nat_tests))]
fn run_at(image: &Image<'_>, table: Table, index: u16) -> Option<Run>
    requires frame { table.frame < image.now.machine.frames }
    requires recorded { table.recorded ≤ 512 }
    requires index { index < table.recorded }
    ensures { result ≡ run_at image.now table index }
{
    let word = image.word(Place::Cell {
        frame: table.frame,
        index,
    });
    match entry_target(table.kind, index, word) {
        Some(frame) => run_from(image, table, frame, Entry { word }.writable(), index),
        None => None,
    }
}

// The runs of a table's recorded entries.
fn entry_runs(alloc: Global, image: &Image<'_>, table: Table) -> Result<Vec<Run>, AllocError>
    requires frame { table.frame < image.now.machine.frames }
    requires recorded { table.recorded ≤ 512 }
    ensures { IfOk result (λ v. v.items ≡ entry_runs image.now table table.recorded) }
{
    let mut runs = Vec::new(alloc);
    for index in 0..table.recorded {
        if let Some(run) = run_at(image, table, index) {
            runs.push(run)?;
        }
    }
    Ok(runs)
}

#[tactic(auto, unfolding(crate::specs::Tables::other_text))]
fn put_other(out: &mut String, frame: u64, run: Run) -> Result<(), AllocError>
    ensures { OnOk result (string_bytes out.new ≡ string_bytes out.old ++ other_text frame run) }
{
    if run.frame == frame {
        write!(out, ", {run}")
    } else {
        Ok(())
    }
}

#[tactic(auto, unfolding(crate::specs::Tables::others_text))]
fn put_others(out: &mut String, frame: u64, runs: &[Run]) -> Result<(), AllocError>
    ensures { OnOk result (string_bytes out.new ≡ string_bytes out.old ++ others_text frame runs.now) }
{
    for run in runs {
        put_other(out, frame, *run)?;
    }
    Ok(())
}

#[tactic(auto, unfolding(crate::specs::Tables::edge_text))]
fn put_edge(out: &mut String, table: u32, run: Run, behind: &[Run]) -> Result<(), AllocError>
    ensures { OnOk result (string_bytes out.new ≡ string_bytes out.old ++ edge_text table run behind.now) }
{
    let frame = run.frame;
    write!(out, "frame{table} -> frame{frame} [label=\"{run}")?;
    put_others(out, frame, behind)?;
    out.push_str("\"];\n")
}

// Whether one of the runs has the frame.
fn is_among(frame: u64, runs: &[Run]) -> bool
    ensures { result ≡ list_any (is_to frame) runs.now }
{
    runs.iter().any(|run| run.frame == frame)
}

#[tactic(auto, unfolding(crate::specs::Tables::target_edge))]
fn put_target(out: &mut String, table: u32, runs: &[Run], index: usize) -> Result<(), AllocError>
    requires { index < length runs.now }
    ensures { OnOk result (string_bytes out.new ≡ string_bytes out.old ++ target_edge table runs.now index) }
{
    let run = runs[index];
    if is_among(run.frame, &runs[..index]) {
        Ok(())
    } else {
        put_edge(out, table, run, &runs[index + 1..])
    }
}

fn put_targets(out: &mut String, table: u32, runs: &[Run]) -> Result<(), AllocError>
    ensures { OnOk result (string_bytes out.new ≡ string_bytes out.old ++ target_edges table runs.now (length runs.now)) }
{
    for index in 0..runs.len() {
        put_target(out, table, runs, index)?;
    }
    Ok(())
}

#[tactic(auto, unfolding(crate::specs::Tables::edges_of))]
fn put_edges(
    alloc: Global,
    out: &mut String,
    image: &Image<'_>,
    table: Table,
) -> Result<(), AllocError>
    requires frame { table.frame < image.now.machine.frames }
    requires recorded { table.recorded ≤ 512 }
    ensures { OnOk result (string_bytes out.new ≡ string_bytes out.old ++ edges_of image.now table) }
{
    let runs = entry_runs(alloc, image, table)?;
    put_targets(out, table.frame, &runs)
}

#[tactic(auto, unfolding(crate::specs::Tables::table_edges, xp_words::specs::Places::is_place), using(std::proofs::lemmas::Bool::Decides::nat_tests))]
fn put_table(
    alloc: Global,
    out: &mut String,
    image: &Image<'_>,
    frame: u32,
) -> Result<(), AllocError>
    requires { frame < image.now.machine.frames }
    ensures { OnOk result (string_bytes out.new ≡ string_bytes out.old ++ table_edges image.now frame) }
{
    match KindWord::read(image.word(Place::Kind { frame })) {
        Some(kind) => {
            let recorded = recorded_entries(&kind);
            let table = Table {
                frame,
                kind: kind.kind,
                recorded,
            };
            put_edges(alloc, out, image, table)
        }
        None => Ok(()),
    }
}

/// Appends the edges of all page tables.
pub fn put_tables(alloc: Global, out: &mut String, image: &Image<'_>) -> Result<(), AllocError>
    ensures { OnOk result (string_bytes out.new ≡ string_bytes out.old ++ all_edges image.now image.now.machine.frames) }
{
    let layout = image.layout();
    for frame in 0..layout.frames {
        put_table(alloc, out, image, frame)?;
    }
    Ok(())
}
