//! What a packet says of one origin.
ghost use Rattle.std.specs.Prelude.{◌≡◌, slice_index_or};
ghost use Rattle.ring_rules.specs.Rows.{no_numbers};

/// The numbers of one origin in a packet: the packet brings the origin's messages from `lo` + 1 to
/// `got`, and its sender has forgotten those up to `forgot`, as their acknowledgement has passed.
#[derive(Clone, Copy, PartialEq, Eq, Debug)]
pub struct Numbers {
    /// The number of the message before the first that the packet brings.
    pub lo: u64,
    /// The number of the last message that the sender has received.
    pub got: u64,
    /// The number of the last message that the sender has forgotten.
    pub forgot: u64,
}

/// The numbers of the origin of an id; all 0 where the list has none.
pub fn numbers_at(numbers: &[Numbers], id: usize) -> Numbers
    ensures { result ≡ slice_index_or numbers.now id no_numbers }
{
    match numbers.get(id) {
        Some(found) => *found,
        None => Numbers {
            lo: 0,
            got: 0,
            forgot: 0,
        },
    }
}
