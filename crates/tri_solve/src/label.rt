//! Labels: what a pass knows of a point.
ghost use Rattle.std.specs.Prelude.{◌≡◌};
ghost use Rattle.stn_model.specs.Limits.{greatest_time, greatest_walk};
ghost use Rattle.tri_solve.specs.Passes.{IsLight};
ghost use Rattle.tri_solve.specs.Labels.{offered, lesser_label, IsLightLabel};

use crate::edge::Edge;
use stn_model::PointId;

/// The number of a point, and the point before it on a path whose bounds add up to that; of the source the source itself.
#[derive(Clone, Copy, Debug, PartialEq, Eq)]
pub struct Label {
    pub number: i128,
    pub via: PointId,
}

/// The label that the point at the edge's end gets by way of the edge.
pub fn offer(label: Option<Label>, edge: Edge) -> Option<Label>
    requires label_range { IsLightLabel greatest_time label }
    requires edge_range { IsLight greatest_walk edge.bound }
    ensures { result ≡ offered label edge }
{
    match label {
        None => None,
        Some(label) => Some(Label {
            number: label.number + edge.bound,
            via: edge.from,
        }),
    }
}

/// The second label where its number is less, else the first.
pub fn lesser(first: Option<Label>, second: Option<Label>) -> Option<Label>
    ensures { result ≡ lesser_label first second }
{
    match (first, second) {
        (None, second) => second,
        (first, None) => first,
        (Some(a), Some(b)) => {
            if b.number < a.number {
                Some(b)
            } else {
                Some(a)
            }
        }
    }
}
