//! Whether all was sent on the link on which a member sends.
ghost use Rattle.std.specs.Prelude.{◌≡◌};
ghost use Rattle.gm_member.specs.Telling.{says_changed, is_all_still_sent};

use crate::links::OutLink;
use activity::{Change, Sent, Tables, is_new};
use group_view::MOST_MEMBERS;

/// Whether of the origins of changes the numbers are those last sent.
fn says(sent: &Sent, tables: &Tables, changes: &[Change]) -> bool
    ensures { result ≡ says_changed sent.now tables.now changes.now }
{
    changes.iter().all(|change| !is_new(sent, tables, MOST_MEMBERS as u32, change.origin()))
}

/// Whether all is still sent, once changes have come into the tables.
pub(crate) fn still_all_sent<O>(
    all_is_sent: bool,
    out: &Option<OutLink<O>>,
    tables: &Tables,
    changes: &[Change],
) -> bool
    ensures { result ≡ is_all_still_sent all_is_sent out.now tables.now changes.now }
{
    match out {
        Some(link) => all_is_sent && says(&link.sent, tables, changes),
        None => all_is_sent,
    }
}
