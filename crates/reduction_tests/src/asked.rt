//! Questions on lists of points, by which the conditions of calls are tested before they are made.
ghost use Rattle.std.specs.Prelude.{◌≡◌, ◌||◌, map};
ghost use Rattle.stn_walk.specs.Eliminations.{is_in};

use stn_model::PointId;

/// Whether one of two tests passes.
pub fn either(first: bool, second: bool) -> bool
    ensures { result ≡ (first || second) }
{
    first || second
}

/// Whether a point is listed.
pub fn is_listed(points: &[PointId], point: PointId) -> bool
    ensures { result ≡ is_in (map (λ p. p.0) points.now) point.0 }
{
    let mut listed = false;
    for p in points {
        listed = either(listed, point.0 == p.0);
    }
    listed
}
