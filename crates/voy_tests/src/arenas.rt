use std::marker::Brand;
use std::test::Fail;
use voy_link::{Arena, Steps};

// The arena of two nodes, one bucket and two lanes: what each look-up answers before and after a node leaves.
#[test]
fn a_node_that_leaves_stands_in_neither_list(rt: HostRuntime) -> Result<(), Fail> {
    let mut steps = Steps::<Brand>::new();
    let mut arena = Arena::with_capacity(rt.alloc(), 2, 1, 2)?;
    let first = arena.insert(0, 0, 7u64);
    let second = arena.insert(0, 1, 8u64);
    let last = arena.last_in_bucket(0, &mut steps);
    let before = arena.prev_in_bucket(second, &mut steps);
    let item = arena.remove(first, &mut steps);
    let before_then = arena.prev_in_bucket(second, &mut steps);
    let lane_then = arena.first_in_lane(0, &mut steps);
    assert_eq!(rt; last, Some(second));
    assert_eq!(rt; before, Some(first));
    assert_eq!(rt; item, 7);
    assert_eq!(rt; before_then, None);
    assert_eq!(rt; lane_then, None);
    assert_eq!(rt; arena.spare(), 1);
    Ok(())
}
