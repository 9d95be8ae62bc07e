//! Kept completions in the machine's running form.
ghost use Rattle.std.specs.Prelude.{◌≡◌, ◌&&◌, bytes_eq, IfOk};
ghost use Rattle.std.specs.Cmp.Lexicographic.{pointwise};
ghost use Rattle.s3_machine.specs.Uploads.{same_listed};
ghost use Rattle.s3_native.specs.Forgetting.{is_older};

use gate_base::{Bytes, Copying, List, Memory};
use s3_machine::{Listed, same_list};
use std::marker::Model;

/// What is kept of a completion. Contracts see it as one of the state.
#[derive(Drop)]
pub(crate) struct NativeKept {
    pub(crate) key: Bytes,
    pub(crate) list: List<Listed>,
    pub(crate) etag: Bytes,
    pub(crate) started: u64,
    pub(crate) moment: u64,
}

impl Model for NativeKept {
    ghost use Rattle.s3_machine.specs.State.{Completion, completion_code};

    ghost Value = { Completion };

    ghost coded = { completion_code };

    ghost use Rattle.s3_native.specs.Native.{kept_of};

    ghost view = { kept_of };
}

impl NativeKept {
    /// Whether it is of this key, with this list.
    pub(crate) fn is_same(&self, key: &[u8], list: &[Listed]) -> bool
        ensures { result ≡ (bytes_eq self.now.key key.now
            && pointwise same_listed self.now.list list.now) }
    {
        self.key.as_slice() == key && same_list(self.list.as_slice(), list)
    }

    /// Whether its moment is before this one.
    pub(crate) fn is_older(&self, before: u64) -> bool
        ensures { result ≡ is_older before self.now }
    {
        self.moment < before
    }

    pub(crate) fn etag(&self) -> Result<Bytes, Memory>
        ensures { IfOk result (λ etag. etag ≡ self.now.etag) }
    {
        self.etag.copy()
    }
}
