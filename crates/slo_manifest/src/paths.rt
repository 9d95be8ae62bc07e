ghost use Rattle.std.specs.Prelude.{◌≡◌, IfOk, string_bytes};
ghost use Rattle.slo_manifest.specs.Path.{path_of, relative, container_in, name_in};

use gate_base::cut;
use std::alloc::{AllocError, Global};

/// The path without the `/` that it may begin with.
fn relative(path: &[u8]) -> &[u8]
    ensures { result.now ≡ relative path.now }
{
    match path {
        [b'/', rest @ ..] => rest,
        _ => path,
    }
}

/// The container and the name that a path has.
pub fn split_segment_path(path: &[u8]) -> (&[u8], &[u8])
    ensures container { result.0.now ≡ container_in path.now }
    ensures name { result.1.now ≡ name_in path.now }
{
    cut(relative(path), b'/')
}

/// `/CONTAINER/NAME`.
pub fn path_of(alloc: Global, container: &str, name: &str) -> Result<String, AllocError>
    ensures { IfOk result (λ path. string_bytes path ≡ path_of container.now name.now) }
{
    format!(in alloc; "/{container}/{name}")
}
