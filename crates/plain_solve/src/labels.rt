//! Labels that only rise, each point with the arc that raised it last.
ghost use Rattle.std.specs.Prelude.{◌≡◌, ℕ, ◌+◌, ◌*◌, ◌<◌, ◌≤◌, length, MatchOption, IsTrue, ◌↔◌, set, pos, neg_ℤ, ◌≤ℤ◌, ◌<ℤ◌, ◌-ℤ◌};
ghost use Rattle.stn_model.specs.Limits.{greatest_bound, greatest_walk};
ghost use Rattle.plain_solve.specs.Graphs.{IsGraph};
ghost use Rattle.plain_solve.specs.LabelFacts.{IsForced, IsBroken, Holds, IsOver};

use crate::graph::Graph;

/// A label and a last arc for each point, and how often a label was raised.
#[derive(Drop)]
pub struct Labels {
    pub times: Vec<i64>,
    pub last_arcs: Vec<u32>,
    pub raises: u64,
}

/// Whether an arc of that bound asks for more than the label where it begins.
fn exceeds(head: i64, bound: i64, tail: i64) -> bool
    requires low { neg_ℤ (pos greatest_bound) ≤ℤ head }
    requires high { head ≤ℤ pos greatest_bound }
    requires bound_low { neg_ℤ (pos greatest_bound) ≤ℤ bound }
    requires bound_high { bound ≤ℤ pos greatest_bound }
    ensures { IsTrue result ↔ tail <ℤ (head -ℤ bound) }
{
    head - bound > tail
}

/// Whether the arc of that number does not hold.
pub fn is_broken(graph: &Graph, labels: &Labels, n: u32) -> bool
    requires graph { IsGraph graph.now }
    requires forced { IsForced graph.now labels.now }
    requires arc { n < length graph.now.arcs.items }
    ensures { IsTrue result ↔ IsBroken graph.now labels.now n }
{
    let arc = graph.arc(n);
    let head = labels.times[arc.to.0 as usize];
    let tail = labels.times[arc.from.0 as usize];
    exceeds(head, arc.bound, tail)
}

/// The first arc that does not hold.
pub fn first_broken(graph: &Graph, labels: &Labels) -> Option<u32>
    requires graph { IsGraph graph.now }
    requires forced { IsForced graph.now labels.now }
    ensures { MatchOption result ((n : ℕ) → n < length graph.now.arcs.items → Holds graph.now labels.now n)
        (λ n. n < length graph.now.arcs.items × IsBroken graph.now labels.now n) }
{
    for n in 0..graph.arcs.len() as u32 {
        if is_broken(graph, labels, n) {
            return Some(n);
        }
    }
    None
}

/// Raises the label where a broken arc begins, or answers that arc where the label would be too high.
pub fn raise(graph: &Graph, labels: &mut Labels, n: u32) -> Option<u32>
    requires graph { IsGraph graph.now }
    requires forced { IsForced graph.now labels.old }
    requires arc { n < length graph.now.arcs.items }
    requires broken { IsBroken graph.now labels.old n }
    ensures forced { IsForced graph.now labels.new }
    ensures more { labels.old.raises ≤ labels.new.raises }
    ensures answer { MatchOption result (labels.old.raises < labels.new.raises) (IsOver graph.now labels.new) }
{
    let arc = graph.arc(n);
    let head = labels.times[arc.to.0 as usize];
    let time = head - arc.bound;
    if arc.from.0 == graph.root || time > graph.top {
        return Some(n);
    }
    set_label(labels, arc.from.0, time, n);
    None
}

/// Puts in a label and a last arc.
fn set_label(labels: &mut Labels, point: u32, time: i64, n: u32)
    requires times { point < length labels.old.times.items }
    requires last { point < length labels.old.last_arcs.items }
    requires few { labels.old.raises < 2 * greatest_walk }
    ensures times { labels.new.times.items ≡ set labels.old.times.items point time }
    ensures last { labels.new.last_arcs.items ≡ set labels.old.last_arcs.items point n }
    ensures raises { labels.new.raises ≡ labels.old.raises + 1 }
{
    labels.times[point as usize] = time;
    labels.last_arcs[point as usize] = n;
    labels.raises += 1;
}
