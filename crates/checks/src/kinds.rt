use worth::{OrderedWorth, PlainMoney, StrictMoney, Worth, difference, smaller, total};

fn plain(value: i64) -> PlainMoney {
    PlainMoney { value }
}

fn strict(money: i64, notches: i64) -> StrictMoney {
    StrictMoney { money, notches }
}

#[test]
fn sums_add_every_part(rt: HostRuntime) {
    assert_eq!(rt; plain(70).sum(&plain(-30)), plain(40));
    assert_eq!(rt; strict(5, 2).sum(&strict(-8, 1)), strict(-3, 3));
}

#[test]
fn sums_stop_at_the_ends(rt: HostRuntime) {
    assert_eq!(rt; plain(i64::MAX).sum(&plain(1)), plain(i64::MAX));
    assert_eq!(rt; plain(i64::MIN).sum(&plain(-1)), plain(i64::MIN));
    assert_eq!(rt; plain(i64::MIN).opposite(), plain(i64::MAX));
    assert_eq!(rt;
        strict(i64::MAX, i64::MIN).sum(&strict(5, -5)),
        strict(i64::MAX, i64::MIN)
    );
}

#[test]
fn money_weighs_more_than_notches(rt: HostRuntime) {
    assert!(rt; strict(4, 9).below(&strict(5, 0)));
    assert!(rt; strict(5, 0).below(&strict(5, 1)));
    assert!(rt; !strict(5, 1).below(&strict(5, 1)));
    assert_eq!(rt; smaller(&strict(5, 1), &strict(4, 9)), strict(4, 9));
}

#[test]
fn telling_gives_money_and_notches(rt: HostRuntime) {
    assert_eq!(rt; PlainMoney::amount(12).tell(), (12, 0));
    assert_eq!(rt;
        StrictMoney::amount(12).sum(&StrictMoney::notch()).tell(),
        (12, 1)
    );
}

#[test]
fn totals_and_differences(rt: HostRuntime) {
    assert_eq!(rt; total(&[plain(3), plain(-10), plain(4)]), plain(-3));
    assert_eq!(rt; difference(&strict(3, 1), &strict(-10, 4)), strict(13, -3));
}
