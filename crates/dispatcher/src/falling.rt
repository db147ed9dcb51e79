//! Labels of points that fall along arcs until every arc holds (Bellman 1958, Ford 1956).
//!
//! Nothing that is proved rests on the order in which arcs are looked at.
ghost use Rattle.std.specs.Prelude.{◌≡◌, ℕ, ◌<◌, length, set, MatchOption, IsTrue, ◌↔◌, pos, neg_ℤ, ◌+ℤ◌, ◌≤ℤ◌, ◌<ℤ◌};
ghost use Rattle.stn_model.specs.Limits.{greatest_bound};
ghost use Rattle.stn_model.specs.Schedules.{KeepsArcs};
ghost use Rattle.dispatcher.specs.Falling.{IsSafe, Falls, IsBroken, room};

use stn_model::Constraint;

/// Whether a label is above what an arc of that bound allows after the label where the arc begins.
fn exceeds(head: i128, tail: i128, bound: i64) -> bool
    requires low { neg_ℤ (pos greatest_bound) ≤ℤ tail }
    requires high { tail ≤ℤ pos greatest_bound }
    requires bound_low { neg_ℤ (pos greatest_bound) ≤ℤ bound }
    requires bound_high { bound ≤ℤ pos greatest_bound }
    ensures { IsTrue result ↔ (tail +ℤ bound) <ℤ head }
{
    tail + i128::from(bound) < head
}

/// Whether the arc of that number does not hold.
fn is_broken(arcs: &[Constraint], labels: &Vec<i128>, n: usize) -> bool
    requires safe { IsSafe arcs.now labels.now.items }
    requires within { n < length arcs.now }
    ensures { IsTrue result ↔ IsBroken arcs.now labels.now.items n }
{
    let arc = arcs[n];
    let tail = labels[arc.from.0 as usize];
    let head = labels[arc.to.0 as usize];
    exceeds(head, tail, arc.bound)
}

/// Lowers the label where a broken arc ends, so that it holds.
fn lower(arcs: &[Constraint], labels: &mut Vec<i128>, n: usize)
    requires safe { IsSafe arcs.now labels.old.items }
    requires within { n < length arcs.now }
    requires broken { IsBroken arcs.now labels.old.items n }
    ensures falls { Falls arcs.now labels.old.items labels.new.items }
    ensures less { room labels.new.items < room labels.old.items }
{
    let arc = arcs[n];
    let tail = labels[arc.from.0 as usize];
    labels[arc.to.0 as usize] = tail + i128::from(arc.bound);
}

/// Lowers the label where an arc ends, if the arc is broken.
fn look(arcs: &[Constraint], labels: &mut Vec<i128>, n: usize)
    requires safe { IsSafe arcs.now labels.old.items }
    requires within { n < length arcs.now }
    ensures { Falls arcs.now labels.old.items labels.new.items }
{
    if is_broken(arcs, labels, n) {
        lower(arcs, labels, n);
    }
}

/// Looks at every arc.
fn sweep(arcs: &[Constraint], labels: &mut Vec<i128>)
    requires { IsSafe arcs.now labels.old.items }
    ensures { Falls arcs.now labels.old.items labels.new.items }
{
    for n in 0..arcs.len() {
        look(arcs, labels, n);
    }
}

/// The first arc that does not hold.
fn first_broken(arcs: &[Constraint], labels: &Vec<i128>) -> Option<usize>
    requires { IsSafe arcs.now labels.now.items }
    ensures { MatchOption result (KeepsArcs arcs.now labels.now.items) (λ n. (n < length arcs.now) × IsBroken arcs.now labels.now.items n) }
{
    for n in 0..arcs.len() {
        if is_broken(arcs, labels, n) {
            return Some(n);
        }
    }
    None
}

/// Lowers labels until every arc holds. They are then the greatest labels at which every arc holds among those that are not above the old ones.
pub(crate) fn settle(arcs: &[Constraint], labels: &mut Vec<i128>)
    requires { IsSafe arcs.now labels.old.items }
    ensures falls { Falls arcs.now labels.old.items labels.new.items }
    ensures holds { KeepsArcs arcs.now labels.new.items }
{
    'rounds: loop {
        sweep(arcs, labels);
        let Some(n) = first_broken(arcs, labels) else {
            return;
        };
        lower(arcs, labels, n);
    }
}

/// Puts a label to a number, and lowers labels until every arc holds.
pub(crate) fn settle_at(arcs: &[Constraint], labels: &mut Vec<i128>, p: usize, t: i128)
    requires within { p < length labels.old.items }
    requires safe { IsSafe arcs.now (set labels.old.items p t) }
    ensures falls { Falls arcs.now (set labels.old.items p t) labels.new.items }
    ensures holds { KeepsArcs arcs.now labels.new.items }
{
    labels[p] = t;
    settle(arcs, labels);
}
