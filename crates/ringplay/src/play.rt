//! Playing a script.
ghost use Rattle.std.specs.Prelude.{◌≡◌, ◌∷◌, ◌++◌, [], Some, All, IfOk, OnOk};
ghost use Rattle.group_view.specs.Change.{AreOpeningNames};
ghost use Rattle.ring_script.specs.declared.text.Text.{Text};
ghost use Rattle.ring_script.specs.Load.{IsLoad, IsLoadable};
ghost use Rattle.ring_script.specs.Reading.{IsPlayable};
ghost use Rattle.ring_cluster.specs.Plays.{PlaysSoFar};
ghost use Rattle.ringplay.specs.Due.{HasPlayed};
ghost use Rattle.ringplay.specs.Performed.{SameRing, HasTurns, IsPlayedBy, Tells, commands_on, reported, summed};

use crate::keep::with_journal;
use crate::report::report;
use crate::summing::summary;
use ring_cluster::Cluster;
use ring_io::Gate;
use ring_journal::a_run_is_within;
use ring_names::{CreditSpec, Name, OutOfMemory};
use ring_rules::Event;
use ring_script::{Command, Script, load_script};
use std::alloc::Global;
use std::thread::Threads;

/// What has happened, what is told of it, and the cluster among whose members it happened, if it did in one.
#[derive(Drop)]
pub(crate) struct Played {
    pub(crate) journal: Vec<Event>,
    pub(crate) text: Vec<u8>,
    pub(crate) cluster: Option<Cluster>,
}

/// Plays the script: the commands on its lines in order, and at its end the ring settles once more. The journal is told
/// behind the report, where it is to be kept. The text takes over the memory of `old`, which is the script's own.
pub(crate) fn play<T: Threads + Sync, G: Gate>(
    threads: &T,
    alloc: Global,
    script: Script,
    old: Vec<u8>,
    kept: bool,
    gate: &G,
) -> Result<Played, OutOfMemory>
    requires { IsPlayable script }
    ensures { IfOk result (λ played. Tells kept script.credit script.members played.journal.items
        (λ report. IsPlayedBy reported script played.journal.items report played.cluster) played.text.items) }
{
    let Script {
        members,
        credit,
        lines,
    } = script;
    let names = members.into_vec();
    let lines = lines.into_vec();
    let heard = names.len().saturating_mul(lines.len());
    let cluster = play_lines(threads, alloc, &names, credit, lines, gate)?;
    let journal = cluster.journal()?;
    a_run_is_within();
    let report = report(alloc, old, &cluster, heard)?;
    let text = with_journal(alloc, kept, &names, credit, &journal, report)?;
    Ok(Played {
        journal,
        text,
        cluster: Some(cluster),
    })
}

/// Plays the load script of so many blocks and this seed. The summary is told of it.
pub(crate) fn load<T: Threads + Sync, G: Gate>(
    threads: &T,
    alloc: Global,
    blocks: u32,
    seed: u32,
    gate: &G,
) -> Result<Played, OutOfMemory>
    requires { IsLoadable blocks seed }
    ensures { IfOk result (λ played. (script : Text Command) × IsLoad blocks seed script
        × IsPlayedBy (summed blocks) script played.journal.items played.text.items played.cluster) }
{
    let script = load_script(alloc, blocks, seed)?;
    let Script {
        members,
        credit,
        lines,
    } = script;
    let names = members.into_vec();
    let cluster = play_lines(threads, alloc, &names, credit, lines.into_vec(), gate)?;
    let journal = cluster.journal()?;
    let text = summary(alloc, &cluster, blocks)?;
    Ok(Played {
        journal,
        text,
        cluster: Some(cluster),
    })
}

/// Plays what stands on the lines in a ring that opens with these members and this credit: the commands in order, and at
/// their end the ring settles once more.
fn play_lines<T: Threads + Sync, G: Gate>(
    threads: &T,
    alloc: Global,
    names: &[Name],
    credit: CreditSpec,
    lines: Vec<(u32, Command)>,
    gate: &G,
) -> Result<Cluster, OutOfMemory>
    requires opens { AreOpeningNames names.now }
    requires turns { All (λ line. HasTurns line.1) lines.items }
    ensures { IfOk result (HasPlayed credit names.now (commands_on lines.items ++ Command.Settle ∷ [])) }
{
    let mut cluster = Cluster::opening(alloc, names, credit)?;
    perform(threads, &mut cluster, lines, gate)?;
    cluster.settle(threads, gate)?;
    cluster.is_going();
    Ok(cluster)
}

/// Performs the commands on the lines, in order.
fn perform<T: Threads + Sync, G: Gate>(
    threads: &T,
    cluster: &mut Cluster,
    lines: Vec<(u32, Command)>,
    gate: &G,
) -> Result<(), OutOfMemory>
    requires turns { All (λ line. HasTurns line.1) lines.items }
    requires plays { PlaysSoFar cluster.old }
    ensures ring { SameRing cluster.old cluster.new }
    ensures given { OnOk result ((cluster.new).given ≡ (cluster.old).given ++ commands_on lines.items) }
    ensures plays { PlaysSoFar cluster.new }
{
    for (_, command) in lines {
        perform_one(threads, cluster, command, gate)?;
    }
    Ok(())
}

/// Performs one command: a member takes it, or the ring works for so many turns, or settles.
fn perform_one<T: Threads + Sync, G: Gate>(
    threads: &T,
    cluster: &mut Cluster,
    command: Command,
    gate: &G,
) -> Result<(), OutOfMemory>
    requires turns { HasTurns command }
    requires plays { PlaysSoFar cluster.old }
    ensures ring { SameRing cluster.old cluster.new }
    ensures given { OnOk result ((cluster.new).given ≡ (cluster.old).given ++ command ∷ []) }
    ensures plays { PlaysSoFar cluster.new }
{
    match command {
        Command::Go { turns } => cluster.go(threads, turns, gate),
        Command::Settle => cluster.settle(threads, gate),
        _ => match cluster.command(command) {
            Ok(()) => Ok(()),
            Err((_, OutOfMemory)) => Err(OutOfMemory),
        },
    }
}
