//! Stacks of tables in work (partial_state).
use partial_state::{Stack, TableWork, level_type};
use xp_words::PageType;

#[test]
fn each_level_has_a_type(rt: HostRuntime) {
    let types = [level_type(0), level_type(3), level_type(4)];
    assert!(rt; types == [PageType::Writable, PageType::L3, PageType::L4]);
}

const OUTER: TableWork = TableWork {
    frame: 7,
    level: 2,
    done: 0,
    own: true,
    recorded: false,
};

const INNER: TableWork = TableWork {
    frame: 9,
    level: 1,
    done: 511,
    own: false,
    recorded: true,
};

#[test]
fn a_stack_is_left_as_it_was_entered(rt: HostRuntime) {
    let mut stack = Stack::new();
    assert!(rt; stack.is_empty());
    stack.push(OUTER);
    stack.advance();
    stack.push(INNER);
    assert!(rt; (stack.len(), stack.top()) == (2, Some(INNER)));
    stack.advance();
    stack.retreat();
    let popped = [stack.pop(), stack.pop(), stack.pop()];
    assert!(rt; popped == [Some(INNER), Some(TableWork { done: 1, ..OUTER }), None]);
}
