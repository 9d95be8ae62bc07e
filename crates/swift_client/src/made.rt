//! A store at the end of a TCP connection.
ghost use Rattle.std.specs.Prelude.{◌≡◌, IfOk};
ghost use Rattle.swift_requests.specs.Place.{IsPlace};
ghost use Rattle.swift_client.specs.Silent.{silent_history};

use crate::{SwiftClient, TcpLink};
use gate_base::{Copying, Memory};
use std::alloc::Global;
use std::net::Net;
use std::time::Clock;
use swift_calls::Swift;
use swift_requests::Place;

/// The store at the address that the host of `place` gives, with the account and the token of `place`. The first call
/// makes the connection. `limit` is the limit of time of the link, in seconds.
pub fn over_tcp<R: Net + Clock + Drop>(
    rt: R,
    alloc: Global,
    place: Place,
    limit: u64,
) -> Result<SwiftClient<TcpLink<R>>, Memory>
    requires { IsPlace place }
    ensures history { IfOk result
        (λ store. ⟦<SwiftClient<TcpLink<R>> as Swift>⟧.history store ≡ silent_history 0 0) }
    ensures address { IfOk result (λ store. store.link.address ≡ place.host) }
    ensures limit { IfOk result (λ store. store.link.limit ≡ limit) }
    ensures place { IfOk result (λ store. store.place ≡ place) }
{
    let address = place.host.copy()?;
    let link = TcpLink::new(rt, alloc, address, limit);
    Ok(SwiftClient::new(alloc, link, place))
}
