//! Joined pairs of a few places.
use crate::Joins;
use std::alloc::Global;
use std::process::Abort;
use std::test::Fail;

// The places that remain and are joined with k are those that are wanted.
fn meets(
    rt: &impl Abort,
    list: &mut Vec<u32>,
    joins: &Joins,
    k: u32,
    remain: &[bool],
    places: &[u32],
) -> Result<(), Fail> {
    assert!(rt; k < joins.size() && remain.len() == joins.size() as usize);
    joins.neighbours(k, remain, list)?;
    assert_eq!(rt; list.as_slice(), places, "with {k}");
    assert_eq!(rt; joins.count(k, remain) as usize, places.len(), "with {k}");
    Ok(())
}

// What is joined after 0 was joined with 3, 2 with itself, and 1, 3 and 4 with one another.
fn read(rt: &impl Abort, alloc: Global, joins: &Joins) -> Result<(), Fail> {
    let all = [true; 5];
    // What stands in the list before is gone.
    let mut list = Vec::from_slice(alloc, [4, 4].as_slice())?;
    meets(rt, &mut list, joins, 0, all.as_slice(), [3].as_slice())?;
    meets(rt, &mut list, joins, 1, all.as_slice(), [3, 4].as_slice())?;
    meets(rt, &mut list, joins, 2, all.as_slice(), &[])?;
    meets(
        rt,
        &mut list,
        joins,
        3,
        all.as_slice(),
        [0, 1, 4].as_slice(),
    )?;
    meets(rt, &mut list, joins, 4, all.as_slice(), [1, 3].as_slice())?;
    assert!(rt; joins.size() == 5);
    assert_eq!(rt; joins.count_joined(2), 0);
    assert_eq!(rt; joins.count_joined(3), 3);
    let some = [true, false, true, false, true];
    meets(rt, &mut list, joins, 3, some.as_slice(), [0, 4].as_slice())
}

#[test]
fn joins_keep_pairs(rt: HostRuntime) -> Result<(), Fail> {
    let mut joins = Joins::new(rt.alloc(), 5)?;
    let mut list = Vec::new(rt.alloc());
    for k in 0..5 {
        meets(&rt, &mut list, &joins, k, [true; 5].as_slice(), &[])?;
    }
    assert!(rt; joins.join(0, 3)?);
    assert!(rt; !joins.join(3, 0)?);
    assert!(rt; !joins.join(2, 2)?);
    joins.join_all([1, 3, 4].as_slice())?;
    assert!(rt; joins.get(0, 3) && joins.get(3, 0) && !joins.get(2, 2) && !joins.get(0, 1));
    read(&rt, rt.alloc(), &joins)?;
    let copy = joins.copy(rt.alloc())?;
    read(&rt, rt.alloc(), &copy)
}
