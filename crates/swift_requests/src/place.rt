//! Where an account is, and who may ask for it.
ghost use Rattle.std.specs.Prelude.{◌≡◌, ◌↔◌, IsTrue};
ghost use Rattle.std.specs.List.{list_all};
ghost use Rattle.gate_base.specs.Ascii.{is_visible};
ghost use Rattle.swift_requests.specs.Place.{is_place_text, is_place, HasToken};

use gate_base::{Bytes, Copying, Memory};
use http_answers::only;
use http_wire::Message;

/// An account of a store: the host as `Host` names it, the name of the account, and the token that lets one ask for it
/// (`X-Auth-Token`). Each has 1 to 1024 bytes of visible ASCII; what takes a place asks for this.
#[derive(Drop)]
pub struct Place {
    pub host: Bytes,
    pub account: Bytes,
    pub token: Bytes,
}

impl Copying for Place {
    fn copy(&self) -> Result<Place, Memory> {
        Ok(Place {
            host: self.host.copy()?,
            account: self.account.copy()?,
            token: self.token.copy()?,
        })
    }
}

/// The most bytes of each text of a place.
pub const MOST_PLACE_BYTES: usize = 1024;

/// Whether each text of the place has 1 to 1024 bytes of visible ASCII.
pub fn is_place(place: &Place) -> bool
    ensures { result ≡ is_place place.now }
{
    is_place_text(place.host.as_slice())
        && is_place_text(place.account.as_slice())
        && is_place_text(place.token.as_slice())
}

fn is_place_text(text: &[u8]) -> bool
    ensures { result ≡ is_place_text text.now }
{
    1 <= text.len() && text.len() <= MOST_PLACE_BYTES && are_account_place_bytes(text)
}

fn are_account_place_bytes(text: &[u8]) -> bool
    ensures { result ≡ list_all is_visible text.now }
{
    text.iter().all(|byte| is_account_place_byte(*byte))
}

fn is_account_place_byte(byte: u8) -> bool
    ensures { result ≡ is_visible byte }
{
    b'!' <= byte && byte <= b'~'
}

/// Whether the message has exactly one `X-Auth-Token`, and it is the place's. A store answers 401 where it isn't,
/// before it asks what call the message spells.
#[tactic(auto, using(crate::proofs::PlaceLemmas::has_only, crate::proofs::PlaceLemmas::has_none))]
pub fn has_account_token(place: &Place, message: &Message) -> bool
    ensures { IsTrue result ↔ HasToken place.now message.now }
{
    match only(message.headers.as_slice(), b"x-auth-token") {
        Some(token) => token == place.token.as_slice(),
        None => false,
    }
}
