// The paths of a disk in memory.
ghost use Rattle.std.specs.Prelude.{◌≡◌, IfOk};
ghost use Rattle.disk_trait.specs.Calls.{Lists};
ghost use Rattle.disk_memory.specs.Record.{directory_of};

use crate::files::Files;
use disk_trait::PathText;
use std::alloc::{AllocError, Global};

/// All the paths, in byte order.
pub fn paths(alloc: Global, files: &Files) -> Result<Vec<PathText>, AllocError>
    ensures { IfOk result (λ paths. Lists paths.items (directory_of files.now)) }
{
    let mut paths = Vec::new(alloc);
    'paths: for path in files.keys() {
        paths.push(PathText::of(alloc, path.as_str())?)?;
    }
    Ok(paths)
}
