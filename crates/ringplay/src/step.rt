//! Playing a step file.
ghost use Rattle.std.specs.Prelude.{◌≡◌, ◌∷◌, ◌++◌, Some, None, IfOk, OnOk, codes, string_bytes};
ghost use Rattle.ring_script.specs.Reading.{CanOpen, HaveNameablePositions};
ghost use Rattle.ring_rules.specs.Event.{refusal};
ghost use Rattle.ring_cluster.specs.Seen.{state_of};
ghost use Rattle.ring_report.specs.Report.{missing_text as the_missing_text};
ghost use Rattle.ringplay.specs.Step.{happens, enabled_of, kept_text as the_kept_text};
ghost use Rattle.ringplay.specs.Step.{refused_line, if_refused, refused_lines};
ghost use Rattle.ringplay.specs.Step.{HasStepped};
ghost use Rattle.ringplay.specs.Performed.{AreSteppedBy, Tells};

use crate::keep::with_journal;
use crate::play::Played;
use crate::report::push_report;
use ring_cluster::Cluster;
use ring_journal::a_run_is_within;
use ring_names::{OutOfMemory, Reason};
use ring_rules::{Event, Refused};
use ring_script::Steps;
use std::alloc::Global;

/// Takes the steps: each line's event is tried among the members of a cluster, where the earlier ones leave it. A
/// line that is refused changes nothing and is told, and the next one follows. The journal is told behind the report,
/// where it is to be kept.
pub(crate) fn step(alloc: Global, steps: Steps, kept: bool) -> Result<Played, OutOfMemory>
    requires opens { CanOpen steps.members }
    requires positions { HaveNameablePositions steps.lines }
    ensures { IfOk result (λ played. Tells kept steps.credit steps.members played.journal.items
        (λ report. AreSteppedBy steps played.journal.items report played.cluster) played.text.items) }
{
    let Steps {
        members,
        credit,
        lines,
    } = steps;
    let names = members.into_vec();
    let mut cluster = Cluster::opening(alloc, &names, credit)?;
    let mut report = Vec::new(alloc);
    try_lines(alloc, &mut cluster, lines.as_slice(), &mut report)?;
    cluster.is_going();
    a_run_is_within();
    push_report(alloc, &mut report, &cluster)?;
    let journal = cluster.journal()?;
    let text = with_journal(alloc, kept, &names, credit, &journal, report)?;
    Ok(Played {
        journal,
        text,
        cluster: Some(cluster),
    })
}

/// Tries the events on the lines, in order.
fn try_lines(
    alloc: Global,
    cluster: &mut Cluster,
    lines: &[(u32, Event)],
    text: &mut Vec<u8>,
) -> Result<(), OutOfMemory>
    ensures stepped { OnOk result (HasStepped cluster.old cluster.new (enabled_of (state_of cluster.old) lines.now)) }
    ensures told { OnOk result (text.new.items ≡ text.old.items ++ refused_lines (state_of cluster.old) lines.now) }
{
    for (number, event) in lines {
        try_line(alloc, cluster, *number, event, text)?;
    }
    Ok(())
}

/// Tries the event on the line of this number, and tells of it where it is refused.
fn try_line(
    alloc: Global,
    cluster: &mut Cluster,
    number: u32,
    event: &Event,
    text: &mut Vec<u8>,
) -> Result<(), OutOfMemory>
    ensures stepped { OnOk result (HasStepped cluster.old cluster.new (happens (state_of cluster.old) event.now)) }
    ensures told { OnOk result (text.new.items ≡ text.old.items
        ++ if_refused number (refusal (state_of cluster.old) event.now)) }
{
    match cluster.step(event) {
        Ok(()) => Ok(()),
        Err(Refused::NotEnabled(reason)) => push_refused(alloc, text, number, &reason),
        Err(Refused::OutOfMemory) => Err(OutOfMemory),
    }
}

/// That the line of this number is refused.
fn push_refused(
    alloc: Global,
    text: &mut Vec<u8>,
    number: u32,
    reason: &Reason,
) -> Result<(), OutOfMemory>
    ensures { OnOk result (text.new.items ≡ text.old.items ++ refused_line number reason.now) }
{
    let code = reason.code();
    let kept = kept_text(alloc, reason)?;
    let line = format!(in alloc; "line {number} refused {code}{kept}\n")?;
    text.extend_from_slice(line.as_bytes())?;
    Ok(())
}

/// The numbers that a refusal keeps.
fn kept_text(alloc: Global, reason: &Reason) -> Result<String, OutOfMemory>
    ensures { IfOk result (λ text. string_bytes text ≡ the_kept_text reason.now) }
{
    match reason {
        Reason::ViewTooOld { need, have } => Ok(format!(in alloc; " need={need} have={have}")?),
        Reason::NotRetired { got, retired } => Ok(format!(in alloc;
            " got={got} retired={retired}"
        )?),
        Reason::ViewOutOfRange {
            asked,
            held,
            newest,
        } => Ok(format!(in alloc; " asked={asked} held={held} newest={newest}")?),
        Reason::StillMissing { missing } => missing_text(alloc, *missing),
        _ => Ok(String::new(alloc)),
    }
}

/// How many messages a mirror is known to lack.
fn missing_text(alloc: Global, missing: Option<u64>) -> Result<String, OutOfMemory>
    ensures { IfOk result (λ text. string_bytes text ≡ codes " missing=" ++ the_missing_text missing) }
{
    match missing {
        Some(count) => Ok(format!(in alloc; " missing={count}")?),
        None => Ok(String::from_str(alloc, " missing=?")?),
    }
}
