//! How far a script has come, and what its next line does to it.
ghost use Rattle.std.specs.Prelude.{◌≡◌, [], None, false, IfOk};
ghost use Rattle.script_text.specs.Scripts.Step.{Goes};
ghost use Rattle.script_text.specs.declared.phase.Phase.TheVariants.{Joint};
ghost use Rattle.script_text.specs.Scripts.{reading_of, with_command, add_joint, add_decoupled, add_clockless, add_executing, tighten, begin_batch, add_arc, close, decouple, execute, does, missing, Takes};

use crate::batch::Batch;
use crate::command::Command;
use crate::line::Line;
use crate::phase::Phase;
use net_text::TextCause;
use std::alloc::Global;
use stn_model::{Constraint, MOST_ARCS, OutOfMemory};

/// How far a script has come.
#[derive(Drop)]
pub struct Stage {
    /// The commands so far, in order.
    pub commands: Vec<Command>,
    /// The arcs of the batch that is begun, if one is.
    pub batch: Option<Vec<Constraint>>,
    /// How far the work has come.
    pub phase: Phase,
    /// How many arcs the network and the script have so far. Those of the horizon do not count.
    pub arcs: u32,
}

/// What comes of a line.
#[derive(Clone, Copy)]
pub enum Next {
    /// The script goes on.
    Goes,
    /// The script is whole.
    Ends,
    /// The line is refused.
    Fails(TextCause),
}

impl Stage {
    /// No line was read, and the network has that many arcs that count.
    pub fn new(alloc: Global, arcs: u32) -> Self
        ensures { reading_of result ≡ record { commands = []; batch = None; phase = Joint; arcs = arcs } }
    {
        Stage {
            commands: Vec::new(alloc),
            batch: None,
            phase: Phase::Joint,
            arcs,
        }
    }

    /// Takes what a line asks for. After a refusal nothing more may be taken.
    pub fn take(&mut self, alloc: Global, line: Line) -> Result<Next, OutOfMemory>
        ensures { IfOk result (λ n. Takes n (reading_of self.new) (does (reading_of self.old) line)) }
    {
        match line {
            Line::Nothing => Ok(Next::Goes),
            Line::Bounds => self.add(Command::Bounds),
            Line::Windows => self.add(Command::Windows),
            Line::Prove { from, to } => self.add(Command::Prove { from, to }),
            Line::Tighten { arc } => self.tighten(arc),
            Line::BeginBatch => Ok(self.begin_batch(alloc)),
            Line::BatchArc { arc } => self.add_arc(arc),
            Line::CloseBatch => self.close(),
            Line::Withdraw { arc } => self.add_joint(Command::Withdraw { arc }),
            Line::Decouple => self.decouple(),
            Line::Choose { point, time } => self.add_clockless(Command::Choose { point, time }),
            Line::Execute => self.execute(),
            Line::Advance { time } => self.add_executing(Command::Advance { time }),
            Line::Do { point } => self.add_executing(Command::Do { point }),
            Line::Schedule => self.add_decoupled(Command::Schedule),
            Line::Done => Ok(Next::Ends),
        }
    }

    /// What is missing where no further line stands.
    pub fn missing(&self) -> TextCause
        ensures { result ≡ missing (reading_of self.now) }
    {
        if self.batch.is_some() {
            return TextCause::BatchOpen;
        }
        TextCause::NoDone
    }

    /// One command more.
    fn add(&mut self, command: Command) -> Result<Next, OutOfMemory>
        ensures { IfOk result (λ n. Takes n (reading_of self.new) (Goes (with_command (reading_of self.old) command))) }
    {
        self.commands.push(command)?;
        Ok(Next::Goes)
    }

    /// One command more, which stands before the decoupling.
    fn add_joint(&mut self, command: Command) -> Result<Next, OutOfMemory>
        ensures { IfOk result (λ n. Takes n (reading_of self.new) (add_joint (reading_of self.old) command)) }
    {
        if self.phase.is_decoupled() {
            return Ok(Next::Fails(TextCause::AfterDecouple));
        }
        self.add(command)
    }

    /// One command more, which stands after the decoupling.
    fn add_decoupled(&mut self, command: Command) -> Result<Next, OutOfMemory>
        ensures { IfOk result (λ n. Takes n (reading_of self.new) (add_decoupled (reading_of self.old) command)) }
    {
        if !self.phase.is_decoupled() {
            return Ok(Next::Fails(TextCause::BeforeDecouple));
        }
        self.add(command)
    }

    /// One command more, which stands after the decoupling and before the clock is started.
    fn add_clockless(&mut self, command: Command) -> Result<Next, OutOfMemory>
        ensures { IfOk result (λ n. Takes n (reading_of self.new) (add_clockless (reading_of self.old) command)) }
    {
        if !self.phase.is_decoupled() {
            return Ok(Next::Fails(TextCause::BeforeDecouple));
        }
        if self.phase.is_executing() {
            return Ok(Next::Fails(TextCause::AfterExecute));
        }
        self.add(command)
    }

    /// One command more, which stands after the clock was started.
    fn add_executing(&mut self, command: Command) -> Result<Next, OutOfMemory>
        ensures { IfOk result (λ n. Takes n (reading_of self.new) (add_executing (reading_of self.old) command)) }
    {
        if !self.phase.is_decoupled() {
            return Ok(Next::Fails(TextCause::BeforeDecouple));
        }
        if !self.phase.is_executing() {
            return Ok(Next::Fails(TextCause::BeforeExecute));
        }
        self.add(command)
    }

    /// A tightening by one arc.
    fn tighten(&mut self, arc: Constraint) -> Result<Next, OutOfMemory>
        ensures { IfOk result (λ n. Takes n (reading_of self.new) (tighten (reading_of self.old) arc)) }
    {
        if self.phase.is_decoupled() {
            return Ok(Next::Fails(TextCause::AfterDecouple));
        }
        if self.arcs >= MOST_ARCS {
            return Ok(Next::Fails(TextCause::TooManyArcs));
        }
        self.arcs += 1;
        self.add(Command::Tighten { arc })
    }

    /// The beginning of a batch.
    fn begin_batch(&mut self, alloc: Global) -> Next
        ensures { Takes result (reading_of self.new) (begin_batch (reading_of self.old)) }
    {
        if self.phase.is_decoupled() {
            return Next::Fails(TextCause::AfterDecouple);
        }
        self.batch = Some(Vec::new(alloc));
        Next::Goes
    }

    /// One arc more of the batch.
    fn add_arc(&mut self, arc: Constraint) -> Result<Next, OutOfMemory>
        ensures { IfOk result (λ n. Takes n (reading_of self.new) (add_arc (reading_of self.old) arc)) }
    {
        let Some(arcs) = &mut self.batch else {
            return Ok(Next::Fails(TextCause::UnknownWord));
        };
        if self.arcs >= MOST_ARCS {
            return Ok(Next::Fails(TextCause::TooManyArcs));
        }
        arcs.push(arc)?;
        self.arcs += 1;
        Ok(Next::Goes)
    }

    /// The end of the batch.
    fn close(&mut self) -> Result<Next, OutOfMemory>
        ensures { IfOk result (λ n. Takes n (reading_of self.new) (close (reading_of self.old))) }
    {
        let Some(arcs) = self.batch.take() else {
            return Ok(Next::Fails(TextCause::UnknownWord));
        };
        if arcs.is_empty() {
            return Ok(Next::Fails(TextCause::EmptyBatch));
        }
        let arcs = Batch::new(arcs);
        self.add(Command::Batch { arcs })
    }

    /// The decoupling of the agents.
    fn decouple(&mut self) -> Result<Next, OutOfMemory>
        ensures { IfOk result (λ n. Takes n (reading_of self.new) (decouple (reading_of self.old))) }
    {
        if self.phase.is_decoupled() {
            return Ok(Next::Fails(TextCause::AfterDecouple));
        }
        self.phase = Phase::Decoupled;
        self.add(Command::Decouple)
    }

    /// The start of the clock.
    fn execute(&mut self) -> Result<Next, OutOfMemory>
        ensures { IfOk result (λ n. Takes n (reading_of self.new) (execute (reading_of self.old))) }
    {
        if !self.phase.is_decoupled() {
            return Ok(Next::Fails(TextCause::BeforeDecouple));
        }
        if self.phase.is_executing() {
            return Ok(Next::Fails(TextCause::AfterExecute));
        }
        self.phase = Phase::Executing;
        self.add(Command::Execute)
    }
}
