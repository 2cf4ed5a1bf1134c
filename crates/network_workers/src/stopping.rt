//! Where turns on the nodes of a deal end.

ghost use Rattle.std.specs.Prelude.{◌≡◌, ◌<◌, true, false, length};
ghost use Rattle.network_workers.specs.Stopping.{stops_in, Somewhere, Nowhere};

use crate::seats::Seat;
use cloud_points::Work;
use network_core::Stop;

/// Whether turns end behind one of the seat at a place.
pub(crate) fn ends_behind<W: Work>(seats: &[Seat<W>], at: usize, stop: Stop) -> bool
    requires { at < length seats.now }
    ensures { result ≡ stops_in stop seats.now at }
{
    match stop {
        Stop::Last => false,
        Stop::First => seats[at].node.fault().is_some(),
    }
}

/// Whether there is a seat behind which turns end.
pub(crate) fn some_ends<W: Work>(seats: &[Seat<W>], stop: Stop) -> bool
    ensures some { result ≡ true → Somewhere (stops_in stop seats.now) }
    ensures none { result ≡ false → Nowhere (stops_in stop seats.now) }
{
    for at in 0..seats.len() {
        if ends_behind(seats, at, stop) {
            return true;
        }
    }
    false
}
