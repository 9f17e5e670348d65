use crate::table::{BidError, RoundError, Table};
use worth::PlainMoney;

// Three rounds: the first package stood in the first and the last of them, another one in the second.
fn sale() -> Table {
    let mut table = Table::new(2);
    let _ = table.add_round(&[10, 20]);
    let _ = table.set_bid(&[2, 0]);
    let _ = table.add_round(&[15, 22]);
    let _ = table.set_bid(&[0, 1]);
    let _ = table.add_round(&[16, 30]);
    let _ = table.set_bid(&[2, 0]);
    table
}

fn money(value: i64) -> PlainMoney {
    PlainMoney { value }
}

#[test]
fn costs_and_steps_by_round_and_place(rt: HostRuntime) {
    let table = sale();
    assert_eq!(rt; table.bid_in(2), Some(0));
    assert_eq!(rt; table.cost_in(0, 0), Some(20));
    assert_eq!(rt; table.step_in::<PlainMoney>(1, 0, 1), Some(money(8)));
    assert_eq!(rt; table.cost_in(3, 0), None);
}

#[test]
fn the_roll_in_bytes(rt: HostRuntime) {
    let mut bytes = [9; 5];
    assert_eq!(rt; sale().write_roll(&mut bytes), Some(2));
    assert_eq!(rt; bytes, [2, 0, 0, 1, 9]);
    let mut short = [9; 3];
    assert_eq!(rt; sale().write_roll(&mut short), None);
    assert_eq!(rt; short, [9; 3]);
}

#[test]
fn the_sheet_from_inner_worths(rt: HostRuntime) {
    let mut sheet = [money(7); 3];
    assert_eq!(rt; sale().write_sheet(&[money(0), money(-2)], &mut sheet), 2);
    assert_eq!(rt; sheet, [money(32), money(30), money(7)]);
    assert_eq!(rt; Table::new(2).write_sheet(&[], &mut sheet), 0);
}

#[test]
fn a_bid_taken_away_gives_its_place_back(rt: HostRuntime) {
    let mut table = sale();
    assert!(rt; table.clear_bid());
    assert_eq!(rt; table.packages(), 2);
    assert!(rt; !table.clear_bid());
    assert_eq!(rt; table.set_bid(&[1, 1]).ok(), Some(2));
    assert_eq!(rt; table.set_bid(&[1, 1]).ok(), None);
    assert!(rt; table.clear_bid());
    assert_eq!(rt; table.packages(), 2);
}

#[test]
fn a_row_is_refused_for_its_reason(rt: HostRuntime) {
    let mut table = Table::new(2);
    assert_eq!(rt; table.set_bid(&[1]), Err(BidError::RowLength));
    assert_eq!(rt; table.set_bid(&[1, 1]), Err(BidError::NoRound));
    assert_eq!(rt; table.add_round(&[1]), Err(RoundError::RowLength));
    for _ in 0..128 {
        assert_eq!(rt; table.add_round(&[1, 1]), Ok(()));
    }
    assert_eq!(rt; table.add_round(&[1]), Err(RoundError::RowLength));
    assert_eq!(rt; table.add_round(&[1, 1]), Err(RoundError::TooManyRounds));
    assert_eq!(rt; table.set_bid(&[1, 1]), Ok(0));
    assert_eq!(rt; table.set_bid(&[1, 1]), Err(BidError::BidStands));
}
