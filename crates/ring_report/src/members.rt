//! What is told of one member: where it stands, its counts, and messages that it has heard.
ghost use Rattle.std.specs.Prelude.{◌≡◌, ◌++◌, OnOk, codes};
ghost use Rattle.std.specs.Fmt.{decimal};
ghost use Rattle.std.specs.List.{flat_map};
ghost use Rattle.group_view.specs.View.{entry_in};
ghost use Rattle.ring_report.specs.Report.{counts_lines, heard_line, member_line, missing_text as the_missing_text, newline};
ghost use Rattle.ring_report.specs.Report.{state_text as the_state_text, stopped_text as the_stopped_text};

use crate::view::{is_synced, mark_in};
use group_view::{Mark, View};
use queue_core::Message;
use ring_names::{Body, MemberId, Name, OutOfMemory};
use ring_rules::{Counts, MemberState};
use std::alloc::Global;

/// What the report says first of a member: the line of this id and name, which says where the member stands, and in
/// this view.
pub fn push_state(
    alloc: Global,
    out: &mut Vec<u8>,
    name: &Name,
    id: MemberId,
    stands: MemberState,
    view: &View,
) -> Result<(), OutOfMemory>
    ensures { OnOk result (out.new.items ≡ out.old.items
        ++ member_line name.now stands (entry_in (view.now).entries id.0)) }
{
    out.extend_from_slice(b"member ")?;
    out.extend_from_slice(name.bytes())?;
    push_state_text(alloc, out, id, stands, view)?;
    out.extend_from_slice(b"\n")?;
    Ok(())
}

/// Where it stands.
fn push_state_text(
    alloc: Global,
    out: &mut Vec<u8>,
    id: MemberId,
    stands: MemberState,
    view: &View,
) -> Result<(), OutOfMemory>
    ensures { OnOk result (out.new.items ≡ out.old.items
        ++ the_state_text stands (entry_in (view.now).entries id.0)) }
{
    match stands {
        MemberState::Waiting => out.extend_from_slice(b" waiting")?,
        MemberState::Up { missing } => {
            if is_synced(view.entries.as_slice(), id) {
                out.extend_from_slice(b" up synced")?;
            } else {
                out.extend_from_slice(b" up missing=")?;
                push_missing(alloc, out, missing)?;
            }
        }
        MemberState::Stopped => {
            out.extend_from_slice(stopped_text(mark_in(view.entries.as_slice(), id)))?;
        }
    }
    Ok(())
}

/// How many messages a mirror lacks, where that is known.
fn push_missing(alloc: Global, out: &mut Vec<u8>, missing: Option<u64>) -> Result<(), OutOfMemory>
    ensures { OnOk result (out.new.items ≡ out.old.items ++ the_missing_text missing) }
{
    let Some(missing) = missing else {
        out.extend_from_slice(b"?")?;
        return Ok(());
    };
    let number = format!(in alloc; "{missing}")?;
    out.extend_from_slice(number.as_bytes())?;
    Ok(())
}

fn stopped_text(mark: Mark) -> &'static [u8]
    ensures { result.now ≡ the_stopped_text mark }
{
    match mark {
        Mark::Live | Mark::Dead => b" stopped",
        Mark::Erased => b" erased",
    }
}

/// What the report says next: how many messages of its own it has published, and how many of them are confirmed.
pub fn push_counts(alloc: Global, out: &mut Vec<u8>, counts: &Counts) -> Result<(), OutOfMemory>
    ensures { OnOk result (out.new.items ≡ out.old.items ++ counts_lines counts.now) }
{
    push_count(
        alloc,
        out,
        "casts",
        counts.casts as u128,
        counts.casts_confirmed as u128,
    )?;
    push_count(
        alloc,
        out,
        "publishes",
        counts.publishes as u128,
        counts.publishes_confirmed as u128,
    )?;
    Ok(())
}

/// How many messages of a kind were published, and how many of them are confirmed.
pub(crate) fn push_count(
    alloc: Global,
    out: &mut Vec<u8>,
    kind: &str,
    published: u128,
    confirmed: u128,
) -> Result<(), OutOfMemory>
    ensures { OnOk result (out.new.items ≡ out.old.items
        ++ (kind.now ++ codes " " ++ decimal published ++ codes " confirmed " ++ decimal confirmed ++ newline)) }
{
    let line = format!(in alloc; "{kind} {published} confirmed {confirmed}\n")?;
    out.extend_from_slice(line.as_bytes())?;
    Ok(())
}

/// The casts among these messages of the origin of this name.
pub(crate) fn push_messages(
    out: &mut Vec<u8>,
    origin: &[u8],
    messages: &[Message],
) -> Result<(), OutOfMemory>
    ensures { OnOk result (out.new.items ≡ out.old.items ++ flat_map (heard_line origin.now) messages.now) }
{
    for message in messages {
        push_message(out, origin, message)?;
    }
    Ok(())
}

fn push_message(out: &mut Vec<u8>, origin: &[u8], message: &Message) -> Result<(), OutOfMemory>
    ensures { OnOk result (out.new.items ≡ out.old.items ++ heard_line origin.now message.now) }
{
    match message {
        Message::Cast(body) => push_cast(out, origin, body),
        Message::Queue(_) => Ok(()),
    }
}

/// The line of a cast that a member has heard, of the origin of this name.
pub fn push_cast(out: &mut Vec<u8>, origin: &[u8], body: &Body) -> Result<(), OutOfMemory>
    ensures { OnOk result (out.new.items ≡ out.old.items ++ heard_line origin.now (Message.Cast body.now)) }
{
    out.extend_from_slice(b"heard ")?;
    out.extend_from_slice(origin)?;
    out.extend_from_slice(b" ")?;
    out.extend_from_slice(body.bytes())?;
    out.extend_from_slice(b"\n")?;
    Ok(())
}
