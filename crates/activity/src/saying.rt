//! Whether anything is new on a link.
ghost use Rattle.std.specs.Prelude.{◌≡◌, ◌+◌};
ghost use Rattle.std.specs.List.{list_all, range_with_len, slice_get};
ghost use Rattle.activity.specs.Kept.{KeptRow, kept_of};
ghost use Rattle.activity.specs.LastSent.{sent_of};
ghost use Rattle.activity.specs.Diff.{is_last_sent, tells_new, IsNotAbove};

use crate::sent::Sent;
use crate::tables::Tables;
use ring_names::MemberId;

/// Whether of each of the first ids the numbers are those last sent, so that a packet which isn't the first on its
/// link has no line of them. It takes no memory.
pub fn says_all(sent: &Sent, tables: &Tables, ids: u32) -> bool
    requires { IsNotAbove sent.now tables.now }
    ensures { result
        ≡ list_all (λ p. is_last_sent (kept_of tables.now (p + 1)) (sent_of sent.now (p + 1))) (range_with_len 0 ids) }
{
    for place in 0..tables.rows.len() {
        if row_is_new(sent, tables, ids, place) {
            return false;
        }
    }
    true
}

/// Whether the row at a place is of one of the first ids, and its numbers aren't those last sent.
fn row_is_new(sent: &Sent, tables: &Tables, ids: u32, place: usize) -> bool
    ensures { (r : KeptRow) → slice_get tables.now place ≡ Some r
        → result ≡ tells_new sent.now tables.now ids r.origin.0 }
{
    match tables.rows.get_index(place) {
        Some((origin, _table)) => is_new(sent, tables, ids, *origin),
        None => false,
    }
}

/// Whether an origin is one of the first ids, and its numbers aren't those last sent. It takes no memory.
pub fn is_new(sent: &Sent, tables: &Tables, ids: u32, origin: MemberId) -> bool
    ensures { result ≡ tells_new sent.now tables.now ids origin.0 }
{
    let kept = tables.numbers(origin);
    let last = sent.last(origin);
    1 <= origin.0 && origin.0 <= ids && !(kept.got == last.got && kept.forgot == last.forgot)
}
