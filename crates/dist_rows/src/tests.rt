//! One list of calls through the trait's bound, run at each representation.
ghost use Rattle.std.specs.Prelude.{◌≡◌, ◌≢◌, ◌<◌};
ghost use Rattle.dist_rows.specs.Cells.{IsLight};

use crate::{Cell, MatrixRows, Rows, Via};
use std::alloc::Global;
use std::process::Abort;
use std::test::Fail;
use stn_model::AgentId;

// Makes room for a pair and lowers its cell; then the pair has the cell that is wanted.
fn write<R: Rows>(
    rt: &impl Abort,
    rows: &mut R,
    from: u32,
    to: u32,
    cell: Cell,
    written: bool,
    after: Cell,
) -> Result<(), Fail>
    requires within { (from < R.places rows.old) × (to < R.places rows.old) }
    requires apart { from ≢ to }
    requires light { IsLight 100 cell.weight }
    ensures places { R.places rows.new ≡ R.places rows.old }
{
    rows.make_room(from, to)?;
    assert_eq!(rt;
        rows.lower(from, to, cell),
        written,
        "{from} to {to}, {cell:?}"
    );
    assert_eq!(rt;
        rows.get(from, to),
        Some(after),
        "{from} to {to}, after {cell:?}"
    );
    Ok(())
}

// A few writes to rows of five places without a cell.
fn fill<R: Rows>(rt: &impl Abort, rows: &mut R) -> Result<(), Fail>
    requires { R.places rows.old ≡ 5 }
    ensures { R.places rows.new ≡ 5 }
{
    let ten = Cell {
        weight: 10,
        via: Via::Given(0),
    };
    let equal = Cell {
        weight: 10,
        via: Via::Given(1),
    };
    let less = Cell {
        weight: 9,
        via: Via::Published(AgentId(3)),
    };
    let greatest = Cell {
        weight: 1 << 100,
        via: Via::Given(2),
    };
    let least = Cell {
        weight: -(1 << 100),
        via: Via::Through(4_294_967_295),
    };
    write(rt, rows, 0, 1, ten, true, ten)?;
    write(rt, rows, 0, 1, equal, false, ten)?;
    write(rt, rows, 0, 1, less, true, less)?;
    write(rt, rows, 0, 1, ten, false, less)?;
    write(rt, rows, 3, 0, greatest, true, greatest)?;
    write(rt, rows, 3, 0, least, true, least)?;
    write(rt, rows, 1, 3, greatest, true, greatest)
}

// The weight from one place to another is the one that is wanted.
fn weighs<R: Rows>(rt: &impl Abort, rows: &R, from: u32, to: u32, weight: Option<i128>) {
    assert!(rt; from < rows.size() && to < rows.size());
    let found: Option<i128> = rows.get(from, to).map(|cell| cell.weight);
    assert_eq!(rt; found, weight, "from {from} to {to}");
}

// The next neighbour of a place is the one that is wanted.
fn leads<R: Rows>(rt: &impl Abort, rows: &R, place: u32, after: Option<u32>, next: Option<u32>) {
    assert!(rt; place < rows.size());
    assert_eq!(rt;
        rows.next_neighbour(place, after),
        next,
        "of {place} after {after:?}"
    );
}

// What these writes leave, by each reading call.
fn read<R: Rows>(rt: &impl Abort, rows: &R) {
    assert_eq!(rt; rows.size(), 5);
    for (from, to, weight) in [
        (0, 1, Some(9)),
        (1, 0, None),
        (3, 0, Some(-(1 << 100))),
        (0, 3, None),
        (1, 3, Some(1 << 100)),
        (3, 1, None),
        (2, 2, None),
        (4, 2, None),
    ] {
        weighs(rt, rows, from, to, weight);
    }
    for (place, after, next) in [
        (0, None, Some(1)),
        (0, Some(1), Some(3)),
        (0, Some(2), Some(3)),
        (0, Some(3), None),
        (0, Some(4_294_967_295), None),
        (1, None, Some(0)),
        (1, Some(0), Some(3)),
        (2, None, None),
        (3, None, Some(0)),
        (3, Some(0), Some(1)),
        (4, None, None),
    ] {
        leads(rt, rows, place, after, next);
    }
}

// The whole list of calls, on rows of five places without a cell.
fn run<R: Rows>(rt: &impl Abort, alloc: Global, rows: &mut R) -> Result<(), Fail>
    requires { R.places rows.old ≡ 5 }
{
    assert_eq!(rt; rows.get(0, 1), None);
    assert_eq!(rt; rows.next_neighbour(0, None), None);
    fill(rt, rows)?;
    read(rt, rows);
    let copy = rows.copy(alloc)?;
    read(rt, &copy);
    Ok(())
}

#[test]
fn matrix_keeps_cells(rt: HostRuntime) -> Result<(), Fail> {
    let mut rows = MatrixRows::new(rt.alloc(), 5)?;
    run(&rt, rt.alloc(), &mut rows)
}
