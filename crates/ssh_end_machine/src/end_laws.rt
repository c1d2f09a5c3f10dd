//! Laws of what an end keeps. Facts for proofs, at no cost.

ghost use Rattle.std.specs.Prelude.{◌≡◌};
ghost use Rattle.ssh_transport.specs.Standing.{Stands};
ghost use Rattle.ssh_end_machine.specs.Following.{FollowsOn};
ghost use Rattle.ssh_end_machine.specs.Login.{side_of};

use crate::end::End;
use crate::role::EndRole;

/// What an end keeps is that of the side of its role. Until it is over its transport stands (`stands`), and authentication follows the
/// transport (`follows`). What it keeps of its user is a server's or a client's at any time (`side`).
pub fn end_stands<R: EndRole>(end: &End<R>)
    ensures stands { Stands R.Exchange.SIDE end.now.machine }
    ensures follows { FollowsOn end.now.machine end.now.layers.authentication }
    ensures side { side_of end.now.layers.authentication ≡ R.Exchange.SIDE }
{
    ssh_transport::laws::transport_stands(&end.transport);
}
