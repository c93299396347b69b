//! What members ask of the registrar, who keeps the group, and what it answers.
ghost use Rattle.std.specs.Prelude.{◌≡◌, IfOk, IfErr, None};
ghost use Rattle.group_view.specs.Request.{deposit_of, handed_over};

use crate::link::{LinkKind, LinkName};
use crate::view::View;
use ring_names::{Items, MemberId, Name, Reason};

/// What a member asks. `I` is the receiving end of a link; `by` is the asker, and a `view` is the version
/// that the asker holds.
#[derive(Drop, Debug)]
pub enum Request<I> {
    /// To mark a member that has stopped, which the asker saw as its neighbour. `has_current` is whether
    /// the asker has a link that it takes from, or one at its door that it may pick or could pick in a
    /// later view.
    Mark {
        by: MemberId,
        dead: MemberId,
        view: u32,
        has_current: bool,
    },
    /// For the newest view.
    Refresh {
        by: MemberId,
    },
    /// To admit a member of this name directly to the right of the asker.
    Admit {
        by: MemberId,
        name: Name,
    },
    /// To erase a dead member, for which the asker answers. `got` is up to which number the asker has received
    /// its messages, and `retired` up to which the asker knows that their acknowledgement has come round.
    Erase {
        by: MemberId,
        origin: MemberId,
        got: u64,
        retired: u64,
        view: u32,
    },
    /// To register the asker as synchronised. `missing` is how many messages of the queue its mirror lacks, and
    /// `None` where it hasn't heard yet how many there are.
    Synced {
        by: MemberId,
        missing: Option<u64>,
    },
    /// That the asker has stopped.
    Stopped {
        by: MemberId,
    },
    /// To hand the receiving end of a link that the asker has opened to another member.
    Deposit {
        by: MemberId,
        to: MemberId,
        view: u32,
        kind: LinkKind,
        link: I,
    },
    /// For the links that others have deposited for the asker.
    Collect {
        by: MemberId,
    },
}

impl<I> Request<I> {
    /// The request to hand the receiving end of a link of this name to its receiver.
    pub fn deposit(name: LinkName, link: I) -> Request<I>
        ensures { result ≡ deposit_of name link }
    {
        Request::Deposit {
            by: name.from,
            to: name.to,
            view: name.view,
            kind: name.kind,
            link,
        }
    }

    /// The name and the receiving end of the link that it hands over, or the request itself where it hands over none.
    pub fn into_link(self) -> Result<(LinkName, I), Request<I>>
        ensures ok { IfOk result (λ d. self ≡ deposit_of d.0 d.1) }
        ensures other { IfErr result (λ r. r ≡ self) }
        ensures none { IfErr result (λ r. handed_over r ≡ None) }
    {
        match self {
            Request::Deposit {
                by,
                to,
                view,
                kind,
                link,
            } => {
                let name = LinkName {
                    from: by,
                    to,
                    view,
                    kind,
                };
                Ok((name, link))
            }
            other => Err(other),
        }
    }
}

/// The receiving end of a link that waits at the registrar, and what it is named by beside its receiver.
#[derive(Drop, Debug)]
pub struct Deposited<I> {
    /// Who sends on the link.
    pub from: MemberId,
    /// The version of the view that its sender had when it was opened.
    pub view: u32,
    /// What the link is for.
    pub kind: LinkKind,
    /// Its receiving end.
    pub link: I,
}

/// What the registrar answers.
#[derive(Drop, Debug)]
pub enum Answer<I> {
    /// The newest view.
    Viewed(View),
    /// The newest view, in which a member is admitted, and the id that it has there.
    Admitted { view: View, id: MemberId },
    /// The links that were deposited for the asker, the oldest first.
    Links(Items<Deposited<I>>),
    /// It is done, and nothing is to be told.
    Noted,
    /// It isn't done, for this reason, and nothing has changed.
    No(Reason),
}
