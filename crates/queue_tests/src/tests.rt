//! Random calls of the queue, beside a sorted list.
use crate::counted::{Counted, Counter, Tally};
use crate::item::Item;
use crate::random::Random;
use faults::Fault;
use queue::{clear, put, sort, take};
use std::alloc::Global;
use std::cell::Cell;
use std::process::Abort;
use std::test::Fail;

// Of the numbers below a bound each comes, so that the runs are random.
#[test]
fn every_number_comes(rt: HostRuntime) {
    let mut random = Random::new(7);
    let mut came = [false; 10];
    for _ in 0..200 {
        if let Some(slot) = came.get_mut(usize::from(random.below(10))) {
            *slot = true;
        }
    }
    assert_eq!(rt; came, [true; 10]);
}

// Every number of slots up to a heap of six levels.
#[test]
fn answers_as_a_sorted_list(rt: HostRuntime) -> Result<(), Fail> {
    let mut random = Random::new(7);
    for length in 0..48 {
        let mut slots = vec![in rt.alloc(); Item::default(); length]?;
        agrees(&rt, rt.alloc(), &mut slots, &mut random)?;
    }
    Ok(())
}

// Random calls, of which for a while three in four are puts, then takes, so that the queue is full and empty by turns.
fn agrees(
    rt: &impl Abort,
    heap: Global,
    slots: &mut [Item],
    random: &mut Random,
) -> Result<(), Fail> {
    let mut sorted = Vec::new(heap);
    let mut used = 5;
    let mut was_refused = false;
    let mut was_empty = false;
    clear(slots, &mut used);
    for step in 0..1600 {
        let puts_often = step / 200 % 2 == 0;
        let seldom = random.below(4) == 0;
        if puts_often != seldom {
            was_refused |= used == slots.len();
            agrees_on_put(rt, slots, &mut used, &mut sorted, Item::random(random))?;
        } else {
            was_empty |= used == 0;
            agrees_on_take(rt, slots, &mut used, &mut sorted)?;
        }
        assert_eq!(rt; used, sorted.len());
    }
    assert!(rt; was_refused && was_empty);
    Ok(())
}

// Puts an element into both, the queue and the list that it is compared with.
fn agrees_on_put(
    rt: &impl Abort,
    slots: &mut [Item],
    used: &mut usize,
    sorted: &mut Vec<Item>,
    item: Item,
) -> Result<(), Fail> {
    let answer = put(slots, used, item);
    if sorted.len() >= slots.len() {
        assert_eq!(rt; answer, Err(Fault::WorkTableTooShort));
        return Ok(());
    }
    sorted.push(item)?;
    sorted.sort()?;
    assert_eq!(rt; answer, Ok(()));
    Ok(())
}

fn agrees_on_take(
    rt: &impl Abort,
    slots: &mut [Item],
    used: &mut usize,
    sorted: &mut Vec<Item>,
) -> Result<(), Fail> {
    let answer = take(slots, used);
    if sorted.is_empty() {
        assert_eq!(rt; answer, None);
        return Ok(());
    }
    assert_eq!(rt; answer, Some(sorted.remove(0)));
    Ok(())
}

// A count above the length means that every slot is in use.
#[test]
fn counts_no_further_than_the_slots(rt: HostRuntime) {
    let first = Item {
        minute: 1,
        number: 0,
    };
    let second = Item {
        minute: 1,
        number: 2,
    };
    let mut slots = [first, second];
    let mut used = 9;
    assert_eq!(rt;
        put(&mut slots, &mut used, Item::default()),
        Err(Fault::WorkTableTooShort)
    );
    assert_eq!(rt; used, 9);
    assert_eq!(rt; slots, [first, second]);
    assert_eq!(rt; take(&mut slots, &mut used), Some(first));
    assert_eq!(rt; used, 1);
    assert_eq!(rt; take(&mut slots[0..0], &mut used), None);
    assert_eq!(rt; used, 1);
    assert_eq!(rt;
        put(&mut slots[0..0], &mut used, Item::default()),
        Err(Fault::WorkTableTooShort)
    );
    assert_eq!(rt; take(&mut slots, &mut used), Some(second));
}

#[test]
fn sorts(rt: HostRuntime) -> Result<(), Fail> {
    let mut random = Random::new(3);
    for length in 0..70 {
        let mut items = Vec::new(rt.alloc());
        for _ in 0..length {
            items.push(Item::random(&mut random))?;
        }
        let mut expected = items.clone()?;
        expected.sort()?;
        sort(&mut items);
        assert_eq!(rt; items, expected);
    }
    Ok(())
}

const SLOTS: u32 = 1024;

// In 1,024 slots an element rises ten levels at most and sinks nine: one comparison for each level up, two for each down.
const MOST_OF_A_PUT: u32 = 10;

const MOST_OF_A_TAKE: u32 = 18;

// Keys that rise, that are scrambled, and that fall, of which the last meet the bounds exactly.
#[test]
fn compares_seldom(rt: HostRuntime) -> Result<(), Fail> {
    let comparisons = Cell::new(0);
    let counter = Tally {
        comparisons: &comparisons,
    };
    for factor in [1, 421] {
        let (of_a_put, of_a_take) = most_comparisons(&rt, rt.alloc(), counter, factor)?;
        assert!(rt; of_a_put <= MOST_OF_A_PUT && of_a_take <= MOST_OF_A_TAKE);
    }
    let most = most_comparisons(&rt, rt.alloc(), counter, SLOTS - 1)?;
    assert_eq!(rt; most, (MOST_OF_A_PUT, MOST_OF_A_TAKE));
    Ok(())
}

// The most comparisons of one put and of one take, where a queue is filled with the multiples of a factor, each key
// twice, and emptied.
fn most_comparisons<C: Counter>(
    rt: &impl Abort,
    heap: Global,
    counter: C,
    factor: u32,
) -> Result<(u32, u32), Fail> {
    let mut slots = vec![in heap; Counted { key: 0, counter }; 1024]?;
    let mut used = 0;
    let mut of_a_put = 0;
    for n in 0..SLOTS {
        let key = n.wrapping_mul(factor) % SLOTS / 2;
        let before = counter.total();
        put(&mut slots, &mut used, Counted { key, counter })?;
        of_a_put = of_a_put.max(counter.total().wrapping_sub(before));
    }
    let mut of_a_take = 0;
    let mut last = 0;
    for _ in 0..SLOTS {
        let before = counter.total();
        let taken = take(&mut slots, &mut used).ok_or("no element is left")?;
        of_a_take = of_a_take.max(counter.total().wrapping_sub(before));
        assert!(rt; last <= taken.key);
        last = taken.key;
    }
    Ok((of_a_put, of_a_take))
}
