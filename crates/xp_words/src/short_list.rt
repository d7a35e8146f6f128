ghost use Rattle.std.specs.Prelude.{◌≡◌, ◌≤◌, length};

use arrayvec::ArrayVec;
use std::marker::Model;

/// At most 16 items in order, which lie in the value itself. Contracts see the list of them.
#[derive(Drop)]
pub struct ShortList<T> {
    items: ArrayVec<T, 16>,
}

impl<T> Model for ShortList<T> {
    ghost use Rattle.std.specs.Prelude.{List};

    ghost Value = { List T };

    ghost view = { λ s. s.items.items };
}

impl<T> ShortList<T> {
    pub fn new(items: ArrayVec<T, 16>) -> ShortList<T>
        ensures { result ≡ items.items }
    {
        ShortList { items }
    }

    pub fn as_slice(&self) -> &[T]
        ensures items { result.now ≡ self.now }
        ensures few { length result.now ≤ 16 }
    {
        self.items.as_slice()
    }
}

impl<T: Copy + Default> ShortList<T> {
    /// An equal list, which takes no memory.
    pub fn copy(&self) -> ShortList<T>
        ensures { result ≡ self.now }
    {
        let mut items = ArrayVec::new();
        for item in self.items.as_slice() {
            items.push(*item);
        }
        ShortList { items }
    }
}
