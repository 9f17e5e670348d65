use super::*;
use queue::{Full, Put};
use std::test::Fail;
use worth::{PlainMoney, StrictMoney};

fn plain(value: i64) -> PlainMoney {
    PlainMoney { value }
}

fn strict(money: i64, notches: i64) -> StrictMoney {
    StrictMoney { money, notches }
}

#[test]
fn smaller_keys_come_first(rt: HostRuntime) {
    let mut memory = [Entry {
        package: 9,
        key: plain(-5),
    }; 2];
    assert_eq!(rt; in_order(&mut memory, plain(70), plain(-30)), Some((2, 1)));
    assert_eq!(rt; in_order(&mut memory, plain(4), plain(4)), Some((1, 2)));
    assert_eq!(rt; in_order(&mut memory[0..1], plain(1), plain(2)), None);
}

#[test]
fn notches_count_where_the_money_is_the_same(rt: HostRuntime) {
    let mut memory = [Entry {
        package: 0,
        key: strict(0, 0),
    }; 3];
    assert_eq!(rt;
        in_order(&mut memory, strict(4, 1), strict(4, 0)),
        Some((2, 1))
    );
    assert_eq!(rt;
        in_order(&mut memory, strict(4, 9), strict(5, 0)),
        Some((1, 2))
    );
    assert_eq!(rt;
        in_order(&mut memory, strict(4, 1), strict(4, 1)),
        Some((1, 2))
    );
}

#[test]
fn a_smaller_key_moves_a_package_up(rt: HostRuntime) -> Result<(), Fail> {
    let mut memory = [Entry {
        package: 0,
        key: plain(0),
    }; 3];
    let mut queue = Queue::new(&mut memory);
    assert_eq!(rt; queue.put(7, plain(5)), Ok(Put::Added));
    assert_eq!(rt; queue.put(3, plain(6)), Ok(Put::Added));
    assert_eq!(rt; queue.put(7, plain(8)), Ok(Put::Kept));
    assert_eq!(rt; queue.put(3, plain(2)), Ok(Put::Lowered));
    let first = queue.take().ok_or("empty")?;
    assert_eq!(rt; first.package, 3);
    assert_eq!(rt; first.key.value, 2);
    assert_eq!(rt; queue.take().ok_or("empty")?.key.value, 5);
    Ok(())
}

#[test]
fn full_and_empty(rt: HostRuntime) -> Result<(), Fail> {
    let mut memory = [Entry {
        package: 0,
        key: strict(0, 0),
    }; 1];
    let mut queue = Queue::new(&mut memory);
    assert!(rt; queue.is_empty() && queue.take().is_none());
    assert_eq!(rt; queue.put(8, strict(1, 1)), Ok(Put::Added));
    assert_eq!(rt; queue.put(2, strict(0, 0)), Err(Full));
    assert_eq!(rt; queue.len(), 1);
    assert_eq!(rt; queue.take().ok_or("empty")?.package, 8);
    assert!(rt; queue.take().is_none());
    Ok(())
}
