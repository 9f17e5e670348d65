use crate::{Held, Refused, weigh};
use paths::Step;
use queue::Entry;
use std::test::Fail;
use tables::table::Table;
use worth::PlainMoney;

const NO_MONEY: PlainMoney = PlainMoney { value: 0 };

const NO_ENTRY: Entry<PlainMoney> = Entry {
    package: 0,
    key: NO_MONEY,
};

const NO_STEP: Step = Step {
    from: 0,
    to: 0,
    round: 0,
};

// Two units were bid for at a price of 10; the price is 5 now.
fn sale() -> Table {
    let mut table = Table::new(1);
    let _ = table.add_round(&[10]);
    let _ = table.set_bid(&[2]);
    let _ = table.add_round(&[5]);
    table
}

#[test]
fn more_at_a_lower_price_is_held(rt: HostRuntime) {
    let mut after = [NO_MONEY; 128];
    let answer = weigh(
        &sale(),
        &[3],
        &[NO_MONEY; 128],
        &mut [NO_ENTRY; 128],
        &mut [NO_STEP; 128],
        &mut after,
    );
    let held = Held {
        package: 2,
        moved: 1,
    };
    assert_eq!(rt; answer, Ok(held));
}

#[test]
fn less_at_a_lower_price_is_a_contradiction(rt: HostRuntime) {
    let mut chain = [NO_STEP; 128];
    let answer = weigh(
        &sale(),
        &[1],
        &[NO_MONEY; 128],
        &mut [NO_ENTRY; 128],
        &mut chain,
        &mut [NO_MONEY; 128],
    );
    assert_eq!(rt; answer, Err(Refused::Contradiction { steps: 2 }));
    let there = Step {
        from: 2,
        to: 1,
        round: 2,
    };
    let back = Step {
        from: 1,
        to: 2,
        round: 1,
    };
    assert_eq!(rt; chain[0], there);
    assert_eq!(rt; chain[1], back);
}

#[test]
fn refusals_are_numbered_and_printed(rt: HostRuntime) -> Result<(), Fail> {
    let refused = Refused::Contradiction { steps: 2 };
    assert_eq!(rt; u8::from(refused), 12);
    assert_eq!(rt;
        refused.to_string(rt.alloc())?.as_str(),
        "a chain of 2 steps forbids the bid"
    );
    Ok(())
}
