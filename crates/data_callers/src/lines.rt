//! Sources.
ghost use Rattle.std.specs.Prelude.{◌≡◌, ◌≤◌, IfOk, IsTrue};
ghost use Rattle.line_io.specs.Memory.{read_fails};

use line_io::{MemorySource, ReadRefused, Source, read_all};
use std::alloc::Global;

/// No more bytes are read than the caller takes.
pub fn count_read<S: Source>(alloc: Global, source: &mut S, limit: u64) -> Result<u64, ReadRefused>
    ensures { IfOk result (λ count. count ≤ limit) }
{
    let bytes = read_all(alloc, source, limit)?;
    Ok(bytes.len() as u64)
}

/// A read that fails takes no byte.
pub fn read_in_vain(source: &mut MemorySource, buf: &mut [u8])
    requires { IsTrue (read_fails source.old) }
    ensures { source.new.left ≡ source.old.left }
{
    let _refused = source.read(buf);
}
