//! Judges the cases of its input by the plain checker and the parts of soundness, and prints how many of each table
//! agree, and each that does not with the first thing that is otherwise. The head of `stdin` says how a case is written.
//! Cases are text, since it costs nothing to prove.
#![tactic(auto)]

mod cases;
mod edits;
mod facts;
mod said;

use std::alloc::Global;
use std::io;
use std::process::ExitCode;

/// The table that is read, and how many cases there were and agreed; and the same of all tables.
#[derive(Drop)]
struct Tally {
    table: String,
    here: u64,
    agreed: u64,
    all: u64,
    all_agreed: u64,
}

impl Tally {
    fn new(alloc: Global) -> Tally {
        Tally {
            table: String::new(alloc),
            here: 0,
            agreed: 0,
            all: 0,
            all_agreed: 0,
        }
    }

    fn count(&mut self, agrees: bool) {
        self.here = self.here.saturating_add(1);
        self.all = self.all.saturating_add(1);
        self.agreed = self.agreed.saturating_add(u64::from(agrees));
        self.all_agreed = self.all_agreed.saturating_add(u64::from(agrees));
    }

    /// The table ends.
    fn print(&mut self, rt: &impl Print) -> io::Result<()> {
        if 0 < self.here {
            let (table, agreed, here) = (self.table.as_str(), self.agreed, self.here);
            println!(rt; "{table}: {agreed} of {here}")?;
        }
        self.here = 0;
        self.agreed = 0;
        Ok(())
    }

    fn read(&mut self, rt: &(impl Print + AllocGlobal), line: &str) -> io::Result<()> {
        if let Some(title) = line.strip_prefix("# ") {
            self.print(rt)?;
            let (table, _) = title.split_once(':').unwrap_or((title, ""));
            self.table = String::from_str(rt.alloc(), table)?;
        } else if !line.is_empty() && !line.starts_with("//") {
            let (name, amiss) = cases::judged(line);
            if let Some(what) = amiss {
                println!(rt; "{name}: {what}")?;
            }
            self.count(amiss.is_none());
        }
        Ok(())
    }
}

/// Whether all cases agree.
fn run(rt: &(impl Print + Input + AllocGlobal)) -> io::Result<bool> {
    let mut tally = Tally::new(rt.alloc());
    for line in rt.lines(rt.alloc()) {
        tally.read(rt, line?.as_str())?;
    }
    tally.print(rt)?;
    let all = tally.all;
    println!(rt; "{all} cases")?;
    Ok(tally.all_agreed == all)
}

fn main(rt: HostRuntime) -> io::Result<ExitCode> {
    let agree = run(&rt)?;
    Ok(if agree {
        ExitCode::SUCCESS
    } else {
        ExitCode::FAILURE
    })
}
