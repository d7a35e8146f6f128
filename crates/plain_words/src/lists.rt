//! Lists of a hand: small arrays, the newest in front.
use crate::hand::Held;

/// Nothing is in a list.
pub fn is_bare<T>(list: &[Option<T>]) -> bool {
    let mut bare = true;
    for entry in list {
        bare = bare && entry.is_none();
    }
    bare
}

/// How often a list names a frame.
pub fn times<T>(list: &[Option<Held<T>>], frame: u64) -> u64 {
    let mut count: u64 = 0;
    for entry in list {
        if matches!(entry, Some(held) if held.frame == frame) {
            count = count.saturating_add(1);
        }
    }
    count
}

/// The newest that a list has of a frame.
pub fn newest<T: Copy>(list: &[Option<Held<T>>], frame: u64) -> Option<T> {
    for entry in list {
        if let Some(held) = entry {
            if held.frame == frame {
                return Some(held.is);
            }
        }
    }
    None
}

/// Puts an item in front; where the list is full the last one drops out.
pub fn push<T: Copy>(list: &mut [Option<T>], item: T) {
    let mut carried = Some(item);
    for slot in list {
        let old = *slot;
        if carried.is_some() {
            *slot = carried;
            carried = old;
        }
    }
}

/// Puts an item behind the others, where there is room.
pub fn append<T: Copy>(list: &mut [Option<T>], item: T) {
    let mut stored = false;
    for slot in list {
        if !stored && slot.is_none() {
            *slot = Some(item);
            stored = true;
        }
    }
}

/// Moves all items to the front.
pub fn pack<T: Copy>(list: &mut [Option<T>]) {
    for from in 0..list.len() {
        let mut moved = None;
        if let Some(slot) = list.get_mut(from) {
            moved = *slot;
            *slot = None;
        }
        if let Some(item) = moved {
            append(list, item);
        }
    }
}

/// Puts something of a frame in front.
pub fn put<T: Copy>(list: &mut [Option<Held<T>>], frame: u64, is: T) {
    push(list, Held { frame, is });
}

/// Takes the newest of the frame out.
pub fn take<T: Copy>(list: &mut [Option<Held<T>>], frame: u64) {
    let mut taken = false;
    for slot in &mut *list {
        if !taken && matches!(slot, Some(held) if held.frame == frame) {
            *slot = None;
            taken = true;
        }
    }
    pack(list);
}

/// Changes the newest of the frame.
pub fn change<T: Copy>(list: &mut [Option<Held<T>>], frame: u64, is: T) {
    let mut changed = false;
    for slot in list {
        if !changed && matches!(slot, Some(held) if held.frame == frame) {
            *slot = Some(Held { frame, is });
            changed = true;
        }
    }
}

/// Takes one such item out.
pub fn remove<T: Copy + PartialEq>(list: &mut [Option<T>], item: T) {
    let mut taken = false;
    for slot in &mut *list {
        if !taken && *slot == Some(item) {
            *slot = None;
            taken = true;
        }
    }
    pack(list);
}
