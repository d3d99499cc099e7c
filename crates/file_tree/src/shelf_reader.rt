//! Reads files from a shelf.

ghost use Rattle.std.specs.Prelude.{◌≡◌, ◌+◌, ◌≤◌, take, IfOk, IfErr};
ghost use Rattle.site_image.specs.declared.TheConstants.{LONGEST_IMAGE};
ghost use Rattle.file_tree.specs.Loading.{HoldsFile, HasLoadCause, IsOutside};

use crate::load_fault::LoadFault;
use std::alloc::Global;
use uip_edge::Shelf;

/// The size of the block by which a file is read, in bytes.
const BLOCK: usize = 4096;

/// Returns the bytes of a file from its start, up to its end or one byte past the limit.
pub fn read_file<H: Shelf>(
    alloc: Global,
    shelf: &mut H,
    name: &[u8],
    limit: usize,
) -> Result<Vec<u8>, LoadFault>
    requires { limit ≤ LONGEST_IMAGE }
    ensures bytes { IfOk result (λ bytes. HoldsFile (H.held shelf.old) name.now (λ content. bytes.items ≡ take (limit + 1) content)) }
    ensures outside { IfErr result IsOutside }
    ensures kept { H.held shelf.new ≡ H.held shelf.old }
    ensures cause { HasLoadCause (H.faults shelf.old) (H.faults shelf.new) (H.held shelf.old) name.now result }
{
    let mut bytes = Vec::new(alloc);
    let mut block = [0u8; BLOCK];
    while bytes.len() <= limit {
        let room = BLOCK.min(limit + 1 - bytes.len());
        let count = match shelf.read(name, bytes.len() as u64, &mut block[..room]) {
            Ok(count) => count,
            Err(_) => return Err(LoadFault::Shelf),
        };
        if count == 0 {
            break;
        }
        bytes.extend_from_slice(&block[..count])?;
    }
    Ok(bytes)
}
