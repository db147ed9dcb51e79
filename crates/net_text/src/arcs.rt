//! The given arcs of a network, and arcs that can be added to it.
ghost use Rattle.std.specs.Prelude.{◌≡◌, ◌+◌, ◌*◌, ◌≤◌, length};
ghost use Rattle.stn_model.specs.Limits.{most_arcs};
ghost use Rattle.stn_model.specs.Refusals.{is_beyond};
ghost use Rattle.net_text.specs.Networks.{arc_between};

use stn_model::{Constraint, GREATEST_BOUND, Network, PointId};

/// Whether the bound has magnitude above 2^40.
pub fn is_beyond(bound: i64) -> bool
    ensures { result ≡ is_beyond bound }
{
    bound < -GREATEST_BOUND || bound > GREATEST_BOUND
}

/// The arc of these ends and that bound.
pub fn arc_between(from: PointId, to: PointId, bound: i64) -> Constraint
    ensures { result ≡ arc_between from.0 to.0 bound }
{
    Constraint { from, to, bound }
}

/// How many arcs were given.
pub fn given_arcs(net: &Network) -> u32
    ensures { result ≡ length net.now.given }
{
    net.arcs() - fixed_arcs(net)
}

/// How many arcs were not given: two for each point but the reference point, and two for each act. Given arcs have the numbers from there on.
pub fn fixed_arcs(net: &Network) -> u32
    ensures { result ≡ 2 * length net.now.places + 2 * length net.now.acts }
{
    2 * (net.points() - 1) + 2 * net.acts()
}

/// How many arcs count for the limit of arcs: the given ones, and two for each act.
pub fn counted_arcs(net: &Network) -> u32
    ensures count { result ≡ 2 * length net.now.acts + length net.now.given }
    ensures few { result ≤ most_arcs }
{
    2 * net.acts() + given_arcs(net)
}
