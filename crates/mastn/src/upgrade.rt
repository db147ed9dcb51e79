//! The answer of `upgrade`.
ghost use Rattle.std.specs.Prelude.{IfOk};
ghost use Rattle.mastn.specs.Upgrades.{Upgrades};

use crate::answer::{Answer, Outcome};
use net_text::print_net2;
use std::alloc::Global;
use stn_model::{Network, OutOfMemory};

/// The plain form of a network in version 2, whether or not some schedule satisfies it.
pub fn upgrade(alloc: Global, net: &Network) -> Result<Answer, OutOfMemory>
    ensures { IfOk result (λ a. Upgrades net.now a.outcome a.text.items) }
{
    let mut text = Vec::new(alloc);
    print_net2(net, &mut text)?;
    Ok(Answer {
        outcome: Outcome::Done,
        text,
    })
}
