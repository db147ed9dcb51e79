//! The answer of `solve`.
ghost use Rattle.std.specs.Prelude.{◌≡◌, ◌++◌, ℕ, ◌≤◌, List, map, true, IfOk, OnOk, length};
ghost use Rattle.stn_model.specs.Net.{arcs_of, point_count};
ghost use Rattle.stn_model.specs.Schedules.{IsConsistent};
ghost use Rattle.joined_answer.specs.Joins.{IsLegalSection, joined_order};
ghost use Rattle.script_text.specs.Possible.{IsScriptOf};
ghost use Rattle.mastn.specs.Commands.{are_built, SaysCommands};
ghost use Rattle.mastn.specs.Limits.{longest_input};
ghost use Rattle.mastn.specs.Solves.{OfScript, Solves, key_of, solved_report, solves};

use crate::answer::{Answer, Outcome, refusal};
use crate::check::conflict_text;
use crate::commands::say_all;
use crate::script::{Asked, read_asked};
use crate::words::Pick;
use agent_worker::Gate;
use elim_step::Picker;
use joined_answer::{Answer as Solved, Joined, solve};
use net_text::{NetRead, TextError, read_net};
use schedule_report::{order_lines, verdict, word_line};
use script_text::Command;
use std::alloc::Global;
use std::sync::Wait;
use std::thread::Threads;
use stn_model::{Network, OutOfMemory};

/// The answer for an input: a network, and a script.
pub fn solve_input<R: Threads + Wait + Sync, G: Gate + Sync>(
    rt: &R,
    alloc: Global,
    pick: Pick,
    bytes: &[u8],
    gate: &G,
) -> Result<Answer, OutOfMemory>
    requires { length bytes.now ≤ longest_input }
    ensures { IfOk result (λ a. solves pick bytes.now a.outcome a.text.items) }
{
    match read_net(alloc, bytes) {
        Ok(read) => solve_read(rt, alloc, pick, bytes, &read, gate),
        Err(TextError::At { line, cause }) => refusal(alloc, Outcome::NetBad, line, cause.word()),
        Err(TextError::OutOfMemory) => Err(OutOfMemory),
    }
}

/// The answer for the network that an input begins with, and for what follows its text.
fn solve_read<R: Threads + Wait + Sync, G: Gate + Sync>(
    rt: &R,
    alloc: Global,
    pick: Pick,
    bytes: &[u8],
    read: &NetRead,
    gate: &G,
) -> Result<Answer, OutOfMemory>
    requires few { length bytes.now ≤ longest_input }
    requires used { read.now.used ≤ length bytes.now }
    requires lines { read.now.lines ≤ read.now.used }
    ensures { IfOk result (λ a. OfScript pick bytes.now read.now a.outcome a.text.items) }
{
    match read_asked(alloc, &read.net, &bytes[read.used..], read.lines + 1)? {
        Asked::Bad { line, cause } => refusal(alloc, Outcome::ScriptBad, line, cause.word()),
        Asked::NotBuilt => refusal(alloc, Outcome::ScriptBad, 0, b"NotBuilt"),
        Asked::Told(script) => solve_net(rt, alloc, pick, &read.net, script.commands(), gate),
    }
}

/// The answer for a network, by the picker that was asked for.
fn solve_net<R: Threads + Wait + Sync, G: Gate + Sync>(
    rt: &R,
    alloc: Global,
    pick: Pick,
    net: &Network,
    commands: &[Command],
    gate: &G,
) -> Result<Answer, OutOfMemory>
    requires built { are_built commands.now ≡ true }
    requires of { IsScriptOf net.now commands.now }
    ensures { IfOk result (λ a. Solves pick net.now commands.now a.outcome a.text.items) }
{
    match pick {
        Pick::Degree => {
            let key = Box::new(alloc, |degree: u32, _number: u32| u64::from(degree))?;
            solve_by(rt, alloc, pick, key, net, commands, gate)
        }
        Pick::Number => {
            let key = Box::new(alloc, |_degree: u32, number: u32| u64::from(number))?;
            solve_by(rt, alloc, pick, key, net, commands, gate)
        }
    }
}

/// The answer for a network, by the key of a degree and a number.
fn solve_by<R: Threads + Wait + Sync, G: Gate + Sync>(
    rt: &R,
    alloc: Global,
    pick: Pick,
    key: Box<dyn Fn(u32, u32) -> u64 + Send + Sync>,
    net: &Network,
    commands: &[Command],
    gate: &G,
) -> Result<Answer, OutOfMemory>
    requires built { are_built commands.now ≡ true }
    requires of { IsScriptOf net.now commands.now }
    requires callable { IsAlwaysCallable key }
    requires keys { (degree number answer : ℕ) → post key degree number answer → answer ≡ key_of pick degree number }
    ensures { IfOk result (λ a. Solves pick net.now commands.now a.outcome a.text.items) }
{
    let picker = Picker::new(key);
    let solved = solve(rt, alloc, net, &picker, gate)?;
    match solved {
        Solved::Consistent(joined) => {
            let text = solved_text(alloc, net, &joined, commands)?;
            Ok(Answer {
                outcome: Outcome::Done,
                text,
            })
        }
        Solved::Inconsistent(cycle) => {
            let text = conflict_text(alloc, net, &cycle)?;
            Ok(Answer {
                outcome: Outcome::Inconsistent,
                text,
            })
        }
    }
}

/// The report of a network that was solved, with what the commands say.
fn solved_text(
    alloc: Global,
    net: &Network,
    joined: &Joined,
    commands: &[Command],
) -> Result<Vec<u8>, OutOfMemory>
    requires network { joined.now.network ≡ net.now }
    requires legal { IsLegalSection net.now joined.now.section }
    requires built { are_built commands.now ≡ true }
    requires of { IsScriptOf net.now commands.now }
    ensures consistent { IfOk result (λ text. IsConsistent (point_count net.now) (arcs_of net.now)) }
    ensures report { IfOk result (λ text. (said : List ℕ) × SaysCommands net.now (map (λ p. p.0) (joined_order joined.now.section)) commands.now said
        × (text.items ≡ solved_report net.now joined.now.section said)) }
{
    let mut text = Vec::new(alloc);
    verdict(true, &mut text)?;
    order_lines(joined.network(), joined.order(), &mut text)?;
    add_said(alloc, net, joined, commands, &mut text)?;
    word_line(b"done", &mut text)?;
    Ok(text)
}

/// Appends what the commands say of the network that was solved, and of the order.
fn add_said(
    alloc: Global,
    net: &Network,
    joined: &Joined,
    commands: &[Command],
    out: &mut Vec<u8>,
) -> Result<(), OutOfMemory>
    requires network { joined.now.network ≡ net.now }
    requires built { are_built commands.now ≡ true }
    requires of { IsScriptOf net.now commands.now }
    ensures { OnOk result ((said : List ℕ) × SaysCommands net.now (map (λ p. p.0) (joined_order joined.now.section)) commands.now said
        × (out.new.items ≡ out.old.items ++ said)) }
{
    // With the network comes that the order is that of the record.
    let _network = joined.network();
    say_all(alloc, joined, commands, out)?;
    Ok(())
}
