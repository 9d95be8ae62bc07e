ghost use Rattle.std.specs.Prelude.{◌≡◌};

use gate_base::{Bytes, Copying, Memory};
use std::alloc::AllocError;

/// What the words ask for. `Session`: to serve the connections of the line as this region, where each part of a completed
/// upload but the last has at least so many bytes, a body has at most so many, and requests may ask for more than the strict
/// profile has where it is `extended`. `Serve`: the same, but at most so many connections. `Sign`: to sign a
/// request with the key of this id, for this region. `Presign`: to make a URL of it that holds for so many seconds.
/// `Recover`: to settle the store. `Sweep`: to remove what is left over on it, and to forget the completions from before a moment.
/// `Check`: to count what stands on it. `Trial`: to answer so many requests that this number determines.
#[derive(Debug, Drop)]
pub enum Command {
    Session {
        region: Bytes,
        least_part: u64,
        largest_body: u64,
        extended: bool,
    },
    Serve {
        region: Bytes,
        connections: u64,
        least_part: u64,
        largest_body: u64,
        extended: bool,
    },
    Sign {
        key: Bytes,
        region: Bytes,
    },
    Presign {
        key: Bytes,
        region: Bytes,
        expires: u64,
    },
    Recover,
    Sweep {
        before: u64,
    },
    Check,
    Trial {
        number: u64,
        requests: u64,
    },
}

impl Copying for Command {
    fn copy(&self) -> Result<Command, Memory> {
        match self {
            Command::Session {
                region,
                least_part,
                largest_body,
                extended,
            } => Ok(Command::Session {
                region: region.copy()?,
                least_part: *least_part,
                largest_body: *largest_body,
                extended: *extended,
            }),
            Command::Serve {
                region,
                connections,
                least_part,
                largest_body,
                extended,
            } => Ok(Command::Serve {
                region: region.copy()?,
                connections: *connections,
                least_part: *least_part,
                largest_body: *largest_body,
                extended: *extended,
            }),
            Command::Sign { key, region } => Ok(Command::Sign {
                key: key.copy()?,
                region: region.copy()?,
            }),
            Command::Presign {
                key,
                region,
                expires,
            } => Ok(Command::Presign {
                key: key.copy()?,
                region: region.copy()?,
                expires: *expires,
            }),
            Command::Recover => Ok(Command::Recover),
            Command::Sweep { before } => Ok(Command::Sweep { before: *before }),
            Command::Check => Ok(Command::Check),
            Command::Trial { number, requests } => Ok(Command::Trial {
                number: *number,
                requests: *requests,
            }),
        }
    }
}

/// Why there is no command. `Refused`: the words name none. `Memory`: memory ran out.
#[derive(Clone, Copy, Debug, PartialEq, Eq)]
pub enum WordsFault {
    Refused,
    Memory,
}

impl Copying for WordsFault {
    fn copy(&self) -> Result<WordsFault, Memory>
        ensures { result ≡ Ok self.now }
    {
        Ok(*self)
    }
}

impl From<Memory> for WordsFault {
    ghost use Rattle.std.specs.Prelude.{◌≡◌};
    ghost use Rattle.gateway_cli.specs.declared.command.WordsFault.TheVariants.{Memory as out_of_memory};

    ghost from_gives = { λ _ fault. fault ≡ out_of_memory };

    fn from(_: Memory) -> WordsFault {
        WordsFault::Memory
    }
}

impl From<AllocError> for WordsFault {
    ghost use Rattle.std.specs.Prelude.{◌≡◌};
    ghost use Rattle.gateway_cli.specs.declared.command.WordsFault.TheVariants.{Memory as out_of_memory};

    ghost from_gives = { λ _ fault. fault ≡ out_of_memory };

    fn from(_: AllocError) -> WordsFault {
        WordsFault::Memory
    }
}
