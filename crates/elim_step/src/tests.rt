//! Small networks worked by hand: eliminations, a revisit, picks and summaries.
ghost use Rattle.std.specs.Prelude.{◌≡◌, ◌≢◌, ℕ, ◌<◌, true, false, None, OnOk, IsTrue, length};
ghost use Rattle.dist_rows.specs.Cells.{AllLight, IsLight};
ghost use Rattle.dist_rows.specs.Places.{AreRisingPlaces, AreWithin};
ghost use Rattle.stn_walk.specs.Eliminations.{is_in};
ghost use Rattle.elim_step.specs.Revisits.{names_once};

use crate::{
    Candidate, Found, Joins, Picker, Ranking, Steps, Summary, SummaryEntry, eliminate_among,
    eliminate_point, eliminate_with_room, negative_with, revisit_point, revisit_rows,
};
use dist_rows::{Cell, MatrixRows, Rows, Via};
use std::alloc::Global;
use std::marker::Brand;
use std::process::Abort;
use std::sync::ledger::{Blank, Ledger};
use std::test::Fail;
use stn_model::{GREATEST_WALK, PointId};

// Lowers the cell of a pair to the bound of a given arc.
#[tactic(auto, using(dist_rows::proofs::Lights::lowered_light))]
fn lower<R: Rows>(rows: &mut R, from: u32, to: u32, weight: i128) -> Result<(), Fail>
    requires within { (from < R.places rows.old) × (to < R.places rows.old) }
    requires apart { from ≢ to }
    requires weight { IsLight 99 weight }
    requires light { AllLight 99 (R.at rows.old) }
    ensures places { R.places rows.new ≡ R.places rows.old }
    ensures light { AllLight 99 (R.at rows.new) }
{
    rows.make_room(from, to)?;
    let cell = Cell {
        weight,
        via: Via::Given(0),
    };
    rows.lower(from, to, cell);
    Ok(())
}

// The same for numbers of a table.
fn put<R: Rows>(rt: &impl Abort, rows: &mut R, from: u32, to: u32, weight: i128) -> Result<(), Fail>
    requires light { AllLight 99 (R.at rows.old) }
    ensures places { R.places rows.new ≡ R.places rows.old }
    ensures light { AllLight 99 (R.at rows.new) }
{
    assert!(rt; from < rows.size() && to < rows.size() && from != to);
    assert!(rt; -1_000_000 < weight && weight < 1_000_000);
    lower(rows, from, to, weight)
}

// Each cell of the table, as from, to and weight.
fn fill<R: Rows>(rt: &impl Abort, rows: &mut R, cells: &[(u32, u32, i128)]) -> Result<(), Fail>
    requires light { AllLight 99 (R.at rows.old) }
    ensures places { R.places rows.new ≡ R.places rows.old }
    ensures light { AllLight 99 (R.at rows.new) }
{
    for &(from, to, weight) in cells {
        put(rt, rows, from, to, weight)?;
    }
    Ok(())
}

// The cell of each pair of the table is the one that is wanted, and there are as many cells.
fn holds<R: Rows>(rt: &impl Abort, rows: &R, cells: &[(u32, u32, Cell)]) {
    for &(from, to, cell) in cells {
        assert!(rt; from < rows.size() && to < rows.size());
        assert_eq!(rt; rows.get(from, to), Some(cell), "from {from} to {to}");
    }
    assert_eq!(rt; count(rows), cells.len());
}

// How many pairs of the first four places have a cell.
fn count<R: Rows>(rows: &R) -> usize {
    let mut count = 0;
    for pair in 0..16u32 {
        let (from, to) = (pair / 4, pair % 4);
        if from < rows.size() && to < rows.size() && rows.get(from, to).is_some() && count < 16 {
            count += 1;
        }
    }
    count
}

// A cell of a given arc, and one through a place.
fn given(weight: i128) -> Cell {
    Cell {
        weight,
        via: Via::Given(0),
    }
}

fn through(place: u32, weight: i128) -> Cell {
    Cell {
        weight,
        via: Via::Through(place),
    }
}

// Joins a place of four with the others, and lists those that remain.
fn list_others(alloc: Global, k: u32, remain: &[bool], list: &mut Vec<u32>) -> Result<(), Fail>
    requires within { k < 4 }
    requires len { length remain.now ≡ 4 }
    ensures within { OnOk result (AreWithin 4 list.new.items) }
    ensures listed { OnOk result ((m : ℕ) → is_in list.new.items m ≡ true → m < 4) }
    ensures rising { OnOk result (AreRisingPlaces list.new.items) }
    ensures away { OnOk result (is_in list.new.items k ≡ false) }
{
    let mut joins = Joins::new(alloc, 4)?;
    joins.join(k, 0)?;
    joins.join(k, 1)?;
    joins.join(k, 2)?;
    joins.join(k, 3)?;
    joins.neighbours(k, remain, list)?;
    Ok(())
}

// The place that fails.
fn failing(found: Found) -> Option<u32> {
    match found {
        Found::Clear => None,
        Found::Negative(place) => Some(place),
    }
}

// Eliminates a place of rows of four places with these cells.
fn eliminates<L: Ledger>(
    rt: &impl Abort,
    alloc: Global,
    blank: Blank,
    cells: &[(u32, u32, i128)],
    k: u32,
    remain: &[bool],
    found: Found,
    after: &[(u32, u32, Cell)],
) -> Result<(), Fail>
    requires name { blank.name ≡ L.name }
    requires parts { (blank.parts ≡ L.parts) × (blank.parts ≡ 1) }
{
    let mut rows = MatrixRows::new(alloc, 4)?;
    fill(rt, &mut rows, cells)?;
    assert!(rt; remain.len() == 4 && k < 4);
    let mut steps = Steps::<L>::new(blank);
    assert_eq!(rt; eliminate_point(&mut rows, k, remain, &mut steps)?, found);
    holds(rt, &rows, after);
    Ok(())
}

// The same among the places of a list.
fn eliminates_among<L: Ledger>(
    rt: &impl Abort,
    alloc: Global,
    blank: Blank,
    cells: &[(u32, u32, i128)],
    k: u32,
    others: &[u32],
    found: Found,
    after: &[(u32, u32, Cell)],
) -> Result<(), Fail>
    requires name { blank.name ≡ L.name }
    requires parts { (blank.parts ≡ L.parts) × (blank.parts ≡ 1) }
    requires within { k < 4 }
    requires others { AreWithin 4 others.now }
    requires rising { AreRisingPlaces others.now }
    requires away { is_in others.now k ≡ false }
{
    let mut rows = MatrixRows::new(alloc, 4)?;
    fill(rt, &mut rows, cells)?;
    let mut steps = Steps::<L>::new(blank);
    assert_eq!(rt; eliminate_among(&mut rows, k, others, &mut steps)?, found);
    holds(rt, &rows, after);
    Ok(())
}

// The same once they have room.
fn eliminates_with_room<L: Ledger>(
    rt: &impl Abort,
    alloc: Global,
    blank: Blank,
    cells: &[(u32, u32, i128)],
    k: u32,
    others: &[u32],
    found: Found,
    after: &[(u32, u32, Cell)],
) -> Result<(), Fail>
    requires name { blank.name ≡ L.name }
    requires parts { (blank.parts ≡ L.parts) × (blank.parts ≡ 1) }
    requires within { k < 4 }
    requires others { AreWithin 4 others.now }
    requires rising { AreRisingPlaces others.now }
    requires away { is_in others.now k ≡ false }
{
    let mut rows = MatrixRows::new(alloc, 4)?;
    fill(rt, &mut rows, cells)?;
    rows.make_room_among(others)?;
    let mut steps = Steps::<L>::new(blank);
    assert_eq!(rt;
        eliminate_with_room(&mut rows, k, others, &mut steps),
        found
    );
    holds(rt, &rows, after);
    Ok(())
}

// What it would answer, without a write.
fn fails(
    rt: &impl Abort,
    alloc: Global,
    cells: &[(u32, u32, i128)],
    k: u32,
    remain: &[bool],
    found: Found,
) -> Result<(), Fail> {
    let mut rows = MatrixRows::new(alloc, 4)?;
    fill(rt, &mut rows, cells)?;
    assert!(rt; remain.len() == 4 && k < 4);
    assert_eq!(rt; negative_with(&rows, k, remain), failing(found));
    Ok(())
}

// From z, a1 and a2: a1 after 0 and within 20 of z, a2 between 30 and 40 after a1, a2 within 100 of z.
const PLAN: [(u32, u32, i128); 6] = [
    (0, 1, 20),
    (1, 2, 40),
    (2, 1, -30),
    (1, 0, 0),
    (0, 2, 100),
    (2, 0, 0),
];

// All four of these, with counters of their own.
fn case(
    rt: &impl Abort,
    alloc: Global,
    cells: &[(u32, u32, i128)],
    k: u32,
    remain: &[bool],
    found: Found,
    after: &[(u32, u32, Cell)],
) -> Result<(), Fail> {
    eliminates::<Brand>(rt, alloc, Blank::new(1), cells, k, remain, found, after)?;
    fails(rt, alloc, cells, k, remain, found)?;
    assert!(rt; remain.len() == 4 && k < 4);
    let mut others = Vec::new(alloc);
    list_others(alloc, k, remain, &mut others)?;
    let others = others.as_slice();
    eliminates_among::<Brand>(rt, alloc, Blank::new(1), cells, k, others, found, after)?;
    eliminates_with_room::<Brand>(rt, alloc, Blank::new(1), cells, k, others, found, after)
}

#[test]
fn elimination_lowers_pairs(rt: HostRuntime) -> Result<(), Fail> {
    let after = [
        (0, 1, given(20)),
        (1, 2, given(40)),
        (2, 1, given(-30)),
        (1, 0, given(0)),
        (0, 2, through(1, 60)),
        (2, 0, through(1, -30)),
    ];
    case(
        &rt,
        rt.alloc(),
        PLAN.as_slice(),
        1,
        [true; 4].as_slice(),
        Found::Clear,
        after.as_slice(),
    )
}

#[test]
fn elimination_leaves_places_that_do_not_remain(rt: HostRuntime) -> Result<(), Fail> {
    let after = [
        (0, 1, given(20)),
        (1, 2, given(40)),
        (2, 1, given(-30)),
        (1, 0, given(0)),
        (0, 2, given(100)),
        (2, 0, given(0)),
    ];
    let remain = [false, true, true, true];
    case(
        &rt,
        rt.alloc(),
        PLAN.as_slice(),
        1,
        remain.as_slice(),
        Found::Clear,
        after.as_slice(),
    )
}

#[test]
fn elimination_keeps_equal_weights(rt: HostRuntime) -> Result<(), Fail> {
    let cells = [(0, 1, 20), (1, 2, 40), (0, 2, 60)];
    let after = [(0, 1, given(20)), (1, 2, given(40)), (0, 2, given(60))];
    case(
        &rt,
        rt.alloc(),
        cells.as_slice(),
        1,
        [true; 4].as_slice(),
        Found::Clear,
        after.as_slice(),
    )
}

#[test]
fn elimination_finds_the_least_negative_place(rt: HostRuntime) -> Result<(), Fail> {
    let cells = [
        (1, 0, 5),
        (0, 1, -5),
        (1, 2, 5),
        (2, 1, -6),
        (1, 3, 1),
        (3, 1, -2),
    ];
    let after = [
        (1, 0, given(5)),
        (0, 1, given(-5)),
        (1, 2, given(5)),
        (2, 1, given(-6)),
        (1, 3, given(1)),
        (3, 1, given(-2)),
    ];
    for (remain, place) in [([true; 4], 2), ([true, true, false, true], 3)] {
        let found = Found::Negative(place);
        case(
            &rt,
            rt.alloc(),
            cells.as_slice(),
            1,
            remain.as_slice(),
            found,
            after.as_slice(),
        )?;
    }
    Ok(())
}

// A star of 69 neighbours of place 0, which are two blocks, with weight i to and from each i.
fn star<L: Ledger>(rt: &impl Abort, alloc: Global, blank: Blank) -> Result<(), Fail>
    requires name { blank.name ≡ L.name }
    requires parts { (blank.parts ≡ L.parts) × (blank.parts ≡ 1) }
{
    let mut rows = MatrixRows::new(alloc, 70)?;
    for i in 1..70u32 {
        put(rt, &mut rows, 0, i, i128::from(i))?;
        put(rt, &mut rows, i, 0, i128::from(i))?;
    }
    let remain = [true; 70];
    let mut steps = Steps::<L>::new(blank);
    assert_eq!(rt;
        eliminate_point(&mut rows, 0, remain.as_slice(), &mut steps)?,
        Found::Clear
    );
    for pair in 0..4_900u32 {
        let (i, j) = (pair / 70, pair % 70);
        if i != j && i != 0 && j != 0 {
            let sum = through(0, i128::from(i) + i128::from(j));
            assert!(rt; i < rows.size() && j < rows.size());
            assert_eq!(rt; rows.get(i, j), Some(sum), "from {i} to {j}");
        }
    }
    Ok(())
}

#[test]
fn elimination_lowers_pairs_of_all_blocks(rt: HostRuntime) -> Result<(), Fail> {
    star::<Brand>(&rt, rt.alloc(), Blank::new(1))
}

// Whether no cell stands between two places.
fn is_free<R: Rows>(rows: &R, k: u32, j: u32) -> bool
    requires within { (k < R.places rows.now) × (j < R.places rows.now) }
    ensures { result ≡ true → (R.at rows.now k j ≡ None) × (R.at rows.now j k ≡ None) }
{
    rows.get(k, j).is_none() && rows.get(j, k).is_none()
}

// Whether no cell stands between k and any of these places.
fn is_apart<R: Rows>(rows: &R, k: u32, later: &[u32]) -> bool
    requires within { k < R.places rows.now }
    requires all_within { (m : ℕ) → is_in later.now m ≡ true → m < R.places rows.now }
    ensures { IsTrue result → (j : ℕ) → is_in later.now j ≡ true → (R.at rows.now k j ≡ None) × (R.at rows.now j k ≡ None) }
{
    for &j in later {
        if !is_free(rows, k, j) {
            return false;
        }
    }
    true
}

// Weights from one of four places to another before a revisit of place 1, and the cells after it.
const FORWARD: [(u32, u32, i128); 4] = [(1, 0, 15), (0, 1, 35), (1, 2, 40), (2, 1, -30)];

const FINALS: [(u32, u32, i128); 6] = [
    (0, 2, 60),
    (2, 0, -30),
    (0, 3, 100),
    (3, 0, 1),
    (2, 3, 100),
    (3, 2, 1),
];

fn revisited() -> [(u32, u32, Cell); 12] {
    [
        (0, 2, given(60)),
        (2, 0, given(-30)),
        (0, 3, given(100)),
        (3, 0, given(1)),
        (2, 3, given(100)),
        (3, 2, given(1)),
        (1, 0, through(2, 10)),
        (0, 1, through(2, 30)),
        (1, 2, through(2, 40)),
        (2, 1, through(2, -30)),
        (1, 3, through(0, 115)),
        (3, 1, through(2, -29)),
    ]
}

// Revisits place 1 of four.
fn revisits<L: Ledger>(
    rt: &impl Abort,
    alloc: Global,
    blank: Blank,
    later: &[u32],
) -> Result<(), Fail>
    requires name { blank.name ≡ L.name }
    requires parts { (blank.parts ≡ L.parts) × (blank.parts ≡ 1) }
    requires some { 0 < length later.now }
    requires others { is_in later.now 1 ≡ false }
    requires once { names_once later.now ≡ true }
    requires within { (m : ℕ) → is_in later.now m ≡ true → m < 4 }
{
    let mut forward = MatrixRows::new(alloc, 4)?;
    fill(rt, &mut forward, FORWARD.as_slice())?;
    let mut finals = MatrixRows::new(alloc, 4)?;
    fill(rt, &mut finals, FINALS.as_slice())?;
    assert!(rt; is_apart(&finals, 1, later));
    let mut steps = Steps::<L>::new(blank);
    revisit_point(&forward, &mut finals, 1, later, &mut steps);
    holds(rt, &finals, revisited().as_slice());
    Ok(())
}

#[test]
fn revisit_takes_least_sums(rt: HostRuntime) -> Result<(), Fail> {
    revisits::<Brand>(&rt, rt.alloc(), Blank::new(1), [0, 2, 3].as_slice())
}

// The same by rows.
fn revisits_by_rows<L: Ledger>(
    rt: &impl Abort,
    alloc: Global,
    blank: Blank,
    later: &[u32],
) -> Result<(), Fail>
    requires name { blank.name ≡ L.name }
    requires parts { (blank.parts ≡ L.parts) × (blank.parts ≡ 1) }
    requires some { 0 < length later.now }
    requires others { is_in later.now 1 ≡ false }
    requires rising { AreRisingPlaces later.now }
    requires within { (m : ℕ) → is_in later.now m ≡ true → m < 4 }
{
    let mut forward = MatrixRows::new(alloc, 4)?;
    fill(rt, &mut forward, FORWARD.as_slice())?;
    let mut finals = MatrixRows::new(alloc, 4)?;
    fill(rt, &mut finals, FINALS.as_slice())?;
    assert!(rt; is_apart(&finals, 1, later));
    let mut steps = Steps::<L>::new(blank);
    revisit_rows(&forward, &mut finals, 1, later, &mut steps);
    holds(rt, &finals, revisited().as_slice());
    Ok(())
}

#[test]
fn revisit_by_rows_takes_least_sums(rt: HostRuntime) -> Result<(), Fail> {
    let mut later = Vec::new(rt.alloc());
    list_others(rt.alloc(), 1, [true; 4].as_slice(), &mut later)?;
    assert!(rt; !later.is_empty());
    revisits_by_rows::<Brand>(&rt, rt.alloc(), Blank::new(1), later.as_slice())
}

#[test]
fn ranking_keeps_the_least_key(rt: HostRuntime) -> Result<(), Fail> {
    let mut ranking = Ranking::new(rt.alloc(), 5)?;
    assert_eq!(rt; ranking.first(), None);
    for (place, key, first) in [
        (3, Some(7), Some(3)),
        (1, Some(7), Some(1)),
        (4, Some(2), Some(4)),
        (4, Some(9), Some(1)),
        (1, None, Some(3)),
        (3, None, Some(4)),
        (4, None, None),
    ] {
        assert!(rt; place < ranking.size());
        ranking.set(place, key);
        assert_eq!(rt; ranking.first(), first, "after {place}");
    }
    Ok(())
}

#[test]
fn picker_takes_the_least_key(rt: HostRuntime) -> Result<(), Fail> {
    let key = Box::new(rt.alloc(), |degree: u32, _number: u32| u64::from(degree))?;
    let picker = Picker::new(key);
    let candidates = [(2, 5), (1, 7), (1, 6)].map(|(degree, number)| Candidate { degree, number });
    assert_eq!(rt; picker.pick(candidates.as_slice()), Some(2));
    assert_eq!(rt; picker.pick(&candidates[..2]), Some(1));
    assert_eq!(rt; picker.pick(&candidates[..0]), None);
    Ok(())
}

// Whether these entries are a summary; if so, it and its copy hold them.
fn is_taken(rt: &impl Abort, alloc: Global, entries: &[SummaryEntry]) -> Result<bool, Fail> {
    let Some(summary) = Summary::new(Vec::from_slice(alloc, entries)?) else {
        return Ok(false);
    };
    assert_eq!(rt; summary.entries(), entries);
    assert_eq!(rt; summary.copy(alloc)?.entries(), entries);
    Ok(true)
}

// An entry from one point to another.
fn entry(from: u32, to: u32, weight: i128) -> SummaryEntry {
    SummaryEntry {
        from: PointId(from),
        to: PointId(to),
        weight,
    }
}

#[test]
fn summary_refuses_what_is_none(rt: HostRuntime) -> Result<(), Fail> {
    let greatest = i128::from(GREATEST_WALK);
    let alloc = rt.alloc();
    assert_eq!(rt; is_taken(&rt, alloc, &[])?, true, "the empty list");
    for (first, second, taken) in [
        (entry(0, 1, greatest), entry(0, 2, -greatest), true),
        (entry(0, 4, 5), entry(1, 0, 5), true),
        (entry(0, 1, 5), entry(0, 1, 5), false),
        (entry(0, 2, 5), entry(0, 1, 5), false),
        (entry(1, 0, 5), entry(0, 4, 5), false),
        (entry(0, 1, 5), entry(2, 2, 5), false),
        (entry(1, 1, 5), entry(2, 1, 5), false),
        (entry(0, 1, greatest + 1), entry(0, 2, 5), false),
        (entry(0, 1, 5), entry(0, 2, -greatest - 1), false),
    ] {
        assert_eq!(rt;
            is_taken(&rt, alloc, [first, second].as_slice())?,
            taken,
            "{first:?} {second:?}"
        );
    }
    Ok(())
}
