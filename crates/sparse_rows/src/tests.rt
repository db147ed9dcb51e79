//! One list of calls through the trait's bound, run at both representations.
ghost use Rattle.std.specs.Prelude.{◌≡◌, ◌≢◌, ◌<◌};
ghost use Rattle.dist_rows.specs.Cells.{IsLight};

use crate::SparseRows;
use dist_rows::{Cell, MatrixRows, Offer, Rows, Via, weight_in};
use std::alloc::Global;
use std::process::Abort;
use std::test::Fail;
use stn_model::OutOfMemory;

// The cell between two places is the one that is wanted.
fn has<R: Rows>(rt: &impl Abort, rows: &R, from: u32, to: u32, cell: Option<Cell>) {
    assert!(rt; from < rows.size() && to < rows.size());
    assert_eq!(rt; rows.get(from, to), cell, "from {from} to {to}");
}

// Makes room for a pair and lowers its cell, which is written where that is wanted.
fn write<R: Rows>(
    rt: &impl Abort,
    rows: &mut R,
    from: u32,
    to: u32,
    cell: Cell,
    written: bool,
) -> Result<(), OutOfMemory>
    requires within { (from < R.places rows.old) × (to < R.places rows.old) }
    requires apart { from ≢ to }
    requires light { IsLight 100 cell.weight }
    ensures places { R.places rows.new ≡ R.places rows.old }
{
    rows.make_room(from, to)?;
    assert_eq!(rt; rows.lower(from, to, cell), written, "{from} to {to}");
    Ok(())
}

// Makes room among three places, and for the row of a place with them; then lowers that row by three offers.
fn offer<R: Rows>(rows: &mut R, i: u32, a: u32, b: u32, c: u32, by: i128) -> Result<(), OutOfMemory>
    requires within { i < R.places rows.old }
    requires rising { (a < b) × (b < c) × (c < R.places rows.old) }
    requires light { IsLight 99 by }
    ensures places { R.places rows.new ≡ R.places rows.old }
{
    rows.make_room_among(&[a, b, c])?;
    rows.make_room_row(i, &[a, b, c])?;
    let offers = [
        Offer {
            weight: 3,
            place: a,
        },
        Offer {
            weight: -7,
            place: b,
        },
        Offer {
            weight: 5,
            place: c,
        },
    ];
    rows.lower_row(i, &offers, by, 4);
    Ok(())
}

// The cells of a row at three places are those that are wanted, and so are their weights.
fn reads<R: Rows>(
    rt: &impl Abort,
    rows: &R,
    i: u32,
    a: u32,
    b: u32,
    c: u32,
    wanted: [Option<Cell>; 3],
)
    requires within { i < R.places rows.now }
    requires rising { (a < b) × (b < c) × (c < R.places rows.now) }
{
    let mut cells = [None; 3];
    rows.read_row(i, &[a, b, c], &mut cells);
    assert_eq!(rt; cells, wanted, "row of {i}");
    let mut weights = [0; 3];
    rows.read_weights(i, &[a, b, c], &mut weights);
    assert_eq!(rt; weights, wanted.map(weight_in), "row of {i}");
}

// The neighbours of a place from another one on are the first of these, and as many.
fn lists<R: Rows>(rt: &impl Abort, rows: &R, i: u32, from: u32, wanted: [u32; 4], count: usize)
    requires { i < R.places rows.now }
{
    let mut list = [0; 4];
    let listed = rows.neighbours(i, from, &mut list);
    assert_eq!(rt; list, wanted, "of {i} from {from}");
    assert_eq!(rt; listed.count, count, "of {i} from {from}");
}

// The whole list of calls, on rows of five places without a cell.
fn run<R: Rows>(rt: &impl Abort, alloc: Global, rows: &mut R) -> Result<(), Fail>
    requires { R.places rows.old ≡ 5 }
{
    let ten = Cell {
        weight: 10,
        via: Via::Given(0),
    };
    let equal = Cell {
        weight: 10,
        via: Via::Given(1),
    };
    let through = |weight: i128| Cell {
        weight,
        via: Via::Through(4),
    };
    write(rt, rows, 0, 3, ten, true)?;
    write(rt, rows, 0, 3, equal, false)?;
    offer(rows, 1, 0, 1, 3, 100)?;
    offer(rows, 0, 1, 2, 3, 5)?;
    let copy = rows.copy(alloc)?;
    for (from, to, cell) in [
        (0, 1, Some(through(8))),
        (0, 2, Some(through(-2))),
        (0, 3, Some(ten)),
        (1, 0, Some(through(103))),
        (1, 1, None),
        (1, 3, Some(through(105))),
        (3, 0, None),
    ] {
        has(rt, rows, from, to, cell);
        has(rt, &copy, from, to, cell);
    }
    reads(
        rt,
        rows,
        1,
        0,
        2,
        3,
        [Some(through(103)), None, Some(through(105))],
    );
    lists(rt, rows, 0, 0, [1, 2, 3, 0], 3);
    lists(rt, rows, 3, 0, [0, 1, 0, 0], 2);
    lists(rt, rows, 3, 1, [1, 0, 0, 0], 1);
    assert_eq!(rt; rows.next_neighbour(3, Some(0)), Some(1));
    assert_eq!(rt; rows.next_neighbour(4, None), None);
    Ok(())
}

#[test]
fn sparse_rows_keep_cells(rt: HostRuntime) -> Result<(), Fail> {
    let mut rows = SparseRows::new(rt.alloc(), 5)?;
    assert_eq!(rt; rows.count_roomless(2, &[0, 2, 4]), 2);
    run(&rt, rt.alloc(), &mut rows)
}

#[test]
fn matrix_rows_keep_the_same_cells(rt: HostRuntime) -> Result<(), Fail> {
    let mut rows = MatrixRows::new(rt.alloc(), 5)?;
    run(&rt, rt.alloc(), &mut rows)
}
