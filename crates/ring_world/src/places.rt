//! Members by names.
ghost use Rattle.std.specs.Prelude.{◌≡◌, ◌<◌, length, map, position, bytes_eq, suc, option_map, IfSome};
ghost use Rattle.ring_rules.specs.Event.{id_of as the_id};
ghost use Rattle.ring_world.specs.Shows.{member_of, world_of};

use crate::plain_member::PlainMember;
use crate::state::Ring;
use ring_names::Name;

/// The place of the member of that name: its id is one more.
pub(crate) fn place_of(members: &[PlainMember], name: &Name) -> Option<usize>
    ensures place { result ≡ position (λ m. bytes_eq m.name name.now) (map member_of members.now) }
    ensures within { IfSome result (λ place. place < length members.now) }
{
    first_named(members, name)
}

fn first_named(members: &[PlainMember], name: &Name) -> Option<usize>
    ensures place { result ≡ position (λ member. bytes_eq member.name name.now) members.now }
    ensures within { IfSome result (λ place. place < length members.now) }
{
    members.iter().position(|member| member.is_named(name))
}

/// The place of the member of that name in the ring.
#[tactic(auto, using(crate::proofs::code::Found::named_place))]
pub(crate) fn place_in(ring: &Ring, name: &Name) -> Option<usize>
    ensures place { option_map suc result ≡ the_id (world_of ring.now) name.now }
    ensures within { IfSome result (λ place. place < length ring.now.members.items) }
{
    place_of(&ring.members, name)
}
