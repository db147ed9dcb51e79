//! Which step may be made next.
ghost use Rattle.std.specs.Prelude.{◌≡◌, true, IfSome, IfNone, is_some};
ghost use Rattle.stn_model.specs.declared.ids.PointId.{PointId};
ghost use Rattle.shared_graph.specs.declared.events.By.{By};
ghost use Rattle.shared_graph.specs.declared.events.Event.TheVariants.{Revisit};
ghost use Rattle.shared_graph.specs.Firsts.{IsLeastRevisit};
ghost use Rattle.shared_graph.specs.Refusals.{refusal};

use crate::shared::Shared;
use stn_model::PointId;

impl Shared {
    /// The least point whose revisit is legal, whoever makes it. None exactly where no revisit is: also after a stop, and where the order is open. It is
    /// kept from step to step, and takes no search.
    pub fn least_revisit(&self) -> Option<PointId>
        ensures some { IfSome result (λ k. IsLeastRevisit self.now.face self.now.state k) }
        ensures none { IfNone result ((by : By) (k : PointId) → is_some (refusal self.now.face self.now.state (record { by = by; event = Revisit k })) ≡ true) }
    {
        let place = self.ready.first()?;
        Some(self.graph.point_at(place))
    }
}
