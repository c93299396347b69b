//! What a view says: the line of the ring, and how an entry stands.
ghost use Rattle.std.specs.Prelude.{◌≡◌, ◌++◌, OnOk, MatchOption, nat_eq};
ghost use Rattle.group_view.specs.View.{entry_in, no_entry};
ghost use Rattle.ring_report.specs.Report.{ring_line, master_name};

use group_view::{Entry, Mark, View};
use ring_names::{MemberId, OutOfMemory};
use std::alloc::Global;

fn has_id(entry: &Entry, id: MemberId) -> bool
    ensures { result ≡ nat_eq entry.now.id.0 id.0 }
{
    entry.id.0 == id.0
}

/// The entry of an id.
fn entry_of(entries: &[Entry], id: MemberId) -> Option<&Entry>
    ensures { MatchOption result (entry_in entries.now id.0 ≡ no_entry) (λ entry. entry.now
        ≡ entry_in entries.now id.0) }
{
    for entry in entries {
        if has_id(entry, id) {
            return Some(entry);
        }
    }
    None
}

/// The name of the entry of an id.
fn name_in(entries: &[Entry], id: MemberId) -> &[u8]
    ensures { result.now ≡ (entry_in entries.now id.0).name }
{
    match entry_of(entries, id) {
        Some(entry) => entry.name.bytes(),
        None => b"",
    }
}

/// Whether the entry of an id is registered as synchronised.
pub(crate) fn is_synced(entries: &[Entry], id: MemberId) -> bool
    ensures { result ≡ (entry_in entries.now id.0).synced }
{
    match entry_of(entries, id) {
        Some(entry) => entry.synced,
        None => false,
    }
}

/// The mark of the entry of an id.
pub(crate) fn mark_in(entries: &[Entry], id: MemberId) -> Mark
    ensures { result ≡ (entry_in entries.now id.0).mark }
{
    match entry_of(entries, id) {
        Some(entry) => entry.mark,
        None => Mark::Erased,
    }
}

/// The name of the master, or `none`.
pub(crate) fn master_of(view: &View) -> &[u8]
    ensures { result.now ≡ master_name (view.now).entries (view.now).master }
{
    match view.master {
        Some(id) => name_in(view.entries.as_slice(), id),
        None => b"none",
    }
}

/// What a report begins with, of the newest view: the line of the ring, with the view, the term and the master.
pub fn push_ring(alloc: Global, out: &mut Vec<u8>, view: &View) -> Result<(), OutOfMemory>
    ensures { OnOk result (out.new.items ≡ out.old.items ++ ring_line view.now) }
{
    let line = format!(in alloc; "ring view={} term={} master=", view.version, view.term)?;
    out.extend_from_slice(line.as_bytes())?;
    out.extend_from_slice(master_of(view))?;
    out.extend_from_slice(b"\n")?;
    Ok(())
}
