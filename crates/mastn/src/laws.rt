//! Laws of runs, which no code keeps.
ghost use Rattle.mastn.specs.Laws.{ValidInputsAreReported, JsonNetworksAreReported, GeneratedIsReported, SolvesAreReported, CertifiedIsVerified, NumbersRise};

/// Each job that reads a network text reports each valid input, where no read and no write fails, unless memory runs out.
///
/// An input is valid where it is within the limit and begins with a network text: for `certify` one of at most 256 points, and for
/// `verify` such a text and a certificate without a false line.
#[tactic(auto, using(crate::proofs::Valid::valid_inputs))]
pub fn valid_inputs_are_reported()
    ensures { ValidInputsAreReported }
{}

/// `check --json` and `json` report each network in JSON, where no read and no write fails, unless memory runs out.
#[tactic(auto, using(crate::proofs::Valid::json_networks))]
pub fn json_networks_are_reported()
    ensures { JsonNetworksAreReported }
{}

/// `solve` reports each network that has a script of built commands behind it, where no read and no write fails, unless memory runs out; if it
/// returns.
#[tactic(auto, using(crate::proofs::ValidSolves::valid_solves))]
pub fn solves_are_reported()
    ensures { SolvesAreReported }
{}

/// `gen` writes its network, where no write fails, unless memory runs out.
#[tactic(auto, using(crate::proofs::Valid::generated))]
pub fn generated_is_reported()
    ensures { GeneratedIsReported }
{}

/// What `certify` writes for a text, `verify` accepts behind that text, with the same status.
#[tactic(auto, using(crate::proofs::Verified::certified_is_verified))]
pub fn certified_is_verified()
    ensures { CertifiedIsVerified }
{}

/// In each order that `solve --pick number` writes, the private points of an agent come by rising number.
#[tactic(auto, using(crate::proofs::Rising::numbers_rise))]
pub fn numbers_rise()
    ensures { NumbersRise }
{}
