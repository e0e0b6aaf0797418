// Each call once, on the values of its worked row, and a walk past an empty word.
use crate::{Chains, Queue, Rows, Runs};
use std::test::Fail;

#[test]
fn chains_put_new_items_first(rt: HostRuntime) -> Result<(), Fail> {
    let mut chains = Chains::new(rt.alloc(), 2)?;
    chains.reserve(2)?;
    chains.push(0, 5);
    chains.push(0, 7);
    assert!(rt; chains.walk(0).eq([7, 5].iter().copied()));
    assert!(rt; chains.walk(1).next().is_none());
    Ok(())
}

#[test]
fn a_queue_holds_a_number_once(rt: HostRuntime) -> Result<(), Fail> {
    let mut queue = Queue::new(rt.alloc(), 3)?;
    assert!(rt; queue.put(2));
    assert!(rt; !queue.put(2));
    assert_eq!(rt; queue.take(), Some(2));
    assert_eq!(rt; queue.take(), None);
    Ok(())
}

#[test]
fn rows_add_and_join(rt: HostRuntime) -> Result<(), Fail> {
    let mut rows = Rows::new(rt.alloc(), 2, 240)?;
    assert!(rt; rows.add(0, 39));
    assert!(rt; !rows.add(0, 39));
    assert!(rt; rows.add(0, 230));
    assert!(rt; rows.join(0, 1));
    assert!(rt; !rows.join(0, 1));
    assert!(rt; rows.has(1, 39));
    assert_eq!(rt; rows.next_from(1, 40), Some(230));
    let mut walk = rows.walk(1);
    assert_eq!(rt; walk.next(), Some(39));
    assert_eq!(rt; walk.next(), Some(230));
    assert_eq!(rt; walk.next(), None);
    rows.clear();
    assert_eq!(rt; rows.next_from(1, 0), None);
    Ok(())
}

#[test]
fn runs_keep_the_order_of_pairs(rt: HostRuntime) -> Result<(), Fail> {
    let runs = Runs::of(rt.alloc(), 3, &[(2, 7), (0, 5), (2, 1), (2, 7)])?;
    assert_eq!(rt; runs.len(), 3);
    assert!(rt; runs.run(0).iter().copied().eq([5].iter().copied()));
    assert!(rt; runs.run(1).is_empty());
    assert!(rt; runs.run(2).iter().copied().eq([7, 1, 7].iter().copied()));
    Ok(())
}
