ghost use Rattle.std.specs.Prelude.{◌≡◌, ◌<◌, ◌≤◌, ◌∷◌, ◌↔◌, [], drop, length, IsTrue, IfSome, IfNone};
ghost use Rattle.partial_state.specs.Stacks.{AreTables, IsStack, IsTable, IsUnder, advanced, done_on_top, left_on_top, retreated};
ghost use Rattle.partial_state.specs.Weights.{table_weight, weight};

use arrayvec::ArrayVec;
use std::marker::Model;

/// A page table in work.
#[derive(Clone, Copy, Debug, Default, PartialEq, Eq)]
pub struct TableWork {
    pub frame: u32,
    /// 1 to 4.
    pub level: u8,
    /// How many of its entries are done with. The last of them names the table inside this one, if there is one.
    pub done: u16,
    /// Its type count is in hand; else another holder has that, and an untyped reference is in hand.
    pub own: bool,
    /// The entry that names it was recorded before, and is taken on again; else that entry is recorded when this table is live.
    pub recorded: bool,
}

/// The tables that a vCPU has in work, at most four: each was named by an entry of the one around it, and is one
/// level below it. Contracts see the list of them, the innermost first.
#[derive(Drop)]
pub struct Stack {
    items: ArrayVec<TableWork, 4>,
}

impl Model for Stack {
    ghost use Rattle.std.specs.Prelude.{List, reverse};
    ghost use Rattle.partial_state.specs.declared.stack.TableWork.{TableWork};
    ghost use Rattle.partial_state.specs.Stacks.{IsStack};

    ghost Value = { List TableWork };

    ghost view = { λ s. reverse s.items.items };

    ghost invariant = { λ s. IsStack (reverse s.items.items) };
}

impl Stack {
    pub fn new() -> Stack
        ensures { result ≡ [] }
    {
        Stack {
            items: ArrayVec::new(),
        }
    }

    /// How many tables are in work.
    pub fn len(&self) -> usize
        ensures value { result ≡ length self.now }
        ensures few { result ≤ 4 }
        ensures stack { IsStack self.now }
    {
        self.items.len()
    }

    pub fn is_empty(&self) -> bool
        ensures { IsTrue result ↔ (self.now ≡ []) }
    {
        self.items.is_empty()
    }

    /// The innermost table.
    pub fn top(&self) -> Option<TableWork>
        ensures some { IfSome result (λ t. self.now ≡ t ∷ drop 1 self.now) }
        ensures none { IfNone result (self.now ≡ []) }
        ensures stack { IsStack self.now }
    {
        self.items.last().copied()
    }

    /// Goes into a table that an entry of the innermost one names.
    pub fn push(&mut self, table: TableWork)
        requires table { IsTable table }
        requires under { IsUnder table self.old }
        ensures pushed { self.new ≡ table ∷ self.old }
        ensures stack { IsStack self.new }
    {
        self.items.push(table);
    }

    /// Goes out of the innermost table.
    pub fn pop(&mut self) -> Option<TableWork>
        ensures some { IfSome result (λ t. self.old ≡ t ∷ self.new) }
        ensures none { IfNone result ((self.old ≡ []) × (self.new ≡ [])) }
        ensures was { IsStack self.old }
        ensures stack { IsStack self.new }
    {
        self.items.pop()
    }

    /// One more entry of the innermost table is done with.
    pub fn advance(&mut self)
        requires { 0 < left_on_top self.old }
        ensures advanced { self.new ≡ advanced self.old }
        ensures stack { IsStack self.new }
    {
        let last = self.items.len() - 1;
        let top = self.items[last];
        self.items[last] = TableWork {
            done: top.done + 1,
            ..top
        };
    }

    /// One entry fewer of it is.
    pub fn retreat(&mut self)
        requires { 0 < done_on_top self.old }
        ensures retreated { self.new ≡ retreated self.old }
        ensures stack { IsStack self.new }
    {
        let last = self.items.len() - 1;
        let top = self.items[last];
        self.items[last] = TableWork {
            done: top.done - 1,
            ..top
        };
    }

    /// How much is left to do for them at most, as one number: less after each entry that is done with, and after each table that is left.
    pub fn weight(&self) -> u64
        ensures { result ≡ weight self.now }
    {
        weight_of(self.items.as_slice())
    }
}

// Of tables in any order.
fn weight_of(tables: &[TableWork]) -> u64
    requires few { length tables.now ≤ 4 }
    requires tables { AreTables tables.now }
    ensures { result ≡ weight tables.now }
{
    let mut sum = 0;
    for table in tables {
        sum += table_weight(*table);
    }
    sum
}

// An entry weighs more than a table with all its entries that it may name.
fn table_weight(table: TableWork) -> u64
    requires { IsTable table }
    ensures { result ≡ table_weight table }
{
    let entry: u64 = match table.level {
        1 => 1,
        2 => 514,
        3 => 264_196,
        _ => 135_796_744,
    };
    1 + u64::from(512 - table.done) * entry
}
