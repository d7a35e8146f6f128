ghost use Rattle.std.specs.Prelude.{◌≡◌, ◌<◌, ◌^◌, ◌++◌, ◌∷◌, ◌↔◌, [], length, IsTrue, OnOk, OnErr};

use std::alloc::AllocError;
use std::marker::Model;

/// Items in order, as the elements of a batch or the operations of a script. Contracts see the list of them.
#[derive(Drop)]
pub struct ItemList<T> {
    items: Vec<T>,
}

impl<T> Model for ItemList<T> {
    ghost use Rattle.std.specs.Prelude.{List};

    ghost Value = { List T };

    ghost view = { λ s. s.items.items };
}

impl<T: Drop> ItemList<T> {
    pub fn new(items: Vec<T>) -> ItemList<T>
        ensures { result ≡ items.items }
    {
        ItemList { items }
    }

    pub fn as_slice(&self) -> &[T]
        ensures { result.now ≡ self.now }
    {
        &self.items
    }

    pub fn len(&self) -> usize
        ensures value { result ≡ length self.now }
        ensures room { result < 2 ^ 63 }
    {
        self.items.len()
    }

    pub fn is_empty(&self) -> bool
        ensures { IsTrue result ↔ (self.now ≡ []) }
    {
        self.items.is_empty()
    }

    /// One more item at the end. After want of memory the list is as it was.
    pub fn push(&mut self, item: T) -> Result<(), AllocError>
        ensures ok { OnOk result (self.new ≡ self.old ++ item ∷ []) }
        ensures err { OnErr result (self.new ≡ self.old) }
    {
        self.items.push(item)?;
        Ok(())
    }

    /// The vector that the list was made from, with what was pushed since.
    pub fn into_items(self) -> Vec<T>
        ensures { result.items ≡ self }
    {
        self.items
    }
}
