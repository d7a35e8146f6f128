//! What small machines are made of: their lists of numbers, and their words.
ghost use Rattle.std.specs.Prelude.{◌≡◌, ◌≤◌, IfOk, length, vec_len};
ghost use Rattle.xp_words.specs.Machine.{IsMachine};
ghost use Rattle.xp_words.specs.Places.{sizes_of, size};

use arrayvec::ArrayVec;
use std::test::Fail;
use xp_words::{Layout, ShortList};

pub fn short_list<T: Copy + Default>(items: &[T]) -> ShortList<T>
    requires { length items.now ≤ 16 }
    ensures { result ≡ items.now }
{
    let mut list = ArrayVec::new();
    for item in items {
        list.push(*item);
    }
    ShortList::new(list)
}

// The words of the machine that are not 0, first these and then those.
pub fn words_with(
    rt: &HostRuntime,
    layout: &Layout,
    standing: &[(usize, u64)],
    changes: &[(usize, u64)],
) -> Result<Vec<u64>, Fail>
    ensures machine { IfOk result (λ _. IsMachine layout.now) }
    ensures words { IfOk result (λ w. length w.items ≡ size (sizes_of layout.now)) }
{
    let mut words = vec![in rt.alloc(); 0; layout.words() as usize]?;
    put(&mut words, standing);
    put(&mut words, changes);
    Ok(words)
}

fn put(words: &mut Vec<u64>, changes: &[(usize, u64)])
    ensures { vec_len words.new ≡ vec_len words.old }
{
    for (place, word) in changes {
        if let Some(standing) = words.get_mut(*place) {
            *standing = *word;
        }
    }
}
