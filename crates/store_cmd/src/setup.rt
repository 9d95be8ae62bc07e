ghost use Rattle.swift_requests.specs.Place.{IsPlace};
ghost use Rattle.store_cmd.specs.Connection.{AreRefusals};

use crate::refusals::Refusals;
use swift_requests::Place;

/// What a store needs beside its shelf: its place, and the answers where there is no reply.
#[derive(Drop)]
pub(crate) struct Setup {
    pub(crate) place: Place,
    pub(crate) refusals: Refusals,
    ghost valid: { IsPlace place },
    ghost ready: { AreRefusals refusals },
}
