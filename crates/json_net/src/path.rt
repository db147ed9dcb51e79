//! Where a value stands in a JSON text.
ghost use Rattle.std.specs.Prelude.{◌≡◌, ◌<◌, ◌++◌, ◌∷◌, [], length, IfOk, OnOk};
ghost use Rattle.json_net.specs.Paths.{key_name, longest_path, step_text, path_text};

use itoa::Buffer;
use std::alloc::Global;
use std::marker::Model;
use stn_model::OutOfMemory;

/// A key of a JSON network.
#[derive(Clone, Copy, Debug, PartialEq, Eq)]
pub enum JsonKey {
    /// `mastn`, the version.
    Mastn,
    /// `horizon`.
    Horizon,
    /// `agents`.
    Agents,
    /// `arcs`.
    Arcs,
    /// `name`, of an agent.
    Name,
    /// `lean`, of an agent.
    Lean,
    /// `points`, of an agent.
    Points,
    /// `act`, the name of an act.
    Act,
    /// `low`, of an act or of two arcs.
    Low,
    /// `high`, of an act or of two arcs.
    High,
    /// `from`, of an arc.
    From,
    /// `to`, of an arc.
    To,
    /// `bound`, of an arc.
    Bound,
}

impl JsonKey {
    /// The key as it stands in a text.
    pub fn name(self) -> &'static str
        ensures { result.now ≡ key_name self }
    {
        match self {
            JsonKey::Mastn => "mastn",
            JsonKey::Horizon => "horizon",
            JsonKey::Agents => "agents",
            JsonKey::Arcs => "arcs",
            JsonKey::Name => "name",
            JsonKey::Lean => "lean",
            JsonKey::Points => "points",
            JsonKey::Act => "act",
            JsonKey::Low => "low",
            JsonKey::High => "high",
            JsonKey::From => "from",
            JsonKey::To => "to",
            JsonKey::Bound => "bound",
        }
    }
}

/// A step from a value to one inside it.
#[derive(Clone, Copy, Debug, PartialEq, Eq)]
pub enum Step {
    /// To the value at a key of an object.
    Key(JsonKey),
    /// To an item of an array, counted from 0.
    Item(u32),
}

/// The most steps of a path: those to a value of an act.
pub const LONGEST_PATH: usize = 5;

/// Where a value stands: the steps that lead to it from the root, at most five.
#[derive(Clone, Copy, Debug, PartialEq, Eq)]
pub struct Path {
    /// The steps, and then `FILLER`.
    steps: [Step; LONGEST_PATH],
    count: usize,
}

/// What stands after the steps of a path.
const FILLER: Step = Step::Item(0);

impl Model for Path {
    ghost use Rattle.std.specs.Prelude.{List, length, take};
    ghost use Rattle.json_net.specs.declared.path.Step.{Step};
    ghost use Rattle.json_net.specs.Filled.{filled, IsPath, fields_back};

    ghost Value = { List Step };

    ghost view = { λ p. take p.count p.steps };

    ghost invariant = { IsPath };

    ghost inverse = { λ xs. record { steps = filled xs; count = length xs } };

    ghost inverse_ok = { fields_back };
}

impl Path {
    /// The path of the root, which has no step.
    pub fn root() -> Path
        ensures { result ≡ [] }
    {
        Path {
            steps: [FILLER; LONGEST_PATH],
            count: 0,
        }
    }

    /// The path with one step more.
    pub fn then(self, step: Step) -> Path
        requires { length self < longest_path }
        ensures { result ≡ self ++ step ∷ [] }
    {
        let mut steps = self.steps;
        steps[self.count] = step;
        Path {
            steps,
            count: self.count + 1,
        }
    }

    /// The steps, in their order from the root.
    pub fn steps(&self) -> &[Step]
        ensures { result.now ≡ self.now }
    {
        &self.steps[..self.count]
    }

    /// The path as an error line has it: `$`, and then for each step `/` with the key or the item's number.
    pub fn text(&self, alloc: Global) -> Result<Vec<u8>, OutOfMemory>
        ensures { IfOk result (λ text. text.items ≡ path_text self.now) }
    {
        let mut text = Vec::from_slice(alloc, b"$".as_slice())?;
        for step in self.steps() {
            add_step(&mut text, *step)?;
        }
        Ok(text)
    }
}

/// Appends `/` and the key or the item's number.
fn add_step(out: &mut Vec<u8>, step: Step) -> Result<(), OutOfMemory>
    ensures { OnOk result (out.new.items ≡ out.old.items ++ step_text step) }
{
    out.push(b'/')?;
    match step {
        Step::Key(key) => out.extend_from_slice(key.name().as_bytes())?,
        Step::Item(number) => {
            let mut digits = Buffer::new();
            out.extend_from_slice(digits.format(number).as_bytes())?;
        }
    }
    Ok(())
}
