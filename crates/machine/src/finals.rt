// The final nodes of a sheet.
ghost use Rattle.std.specs.Prelude.{◌≡◌, ◌+◌, ◌*◌, ◌≤◌, length};
ghost use Rattle.sheet.specs.Sheet.{link_length, node_length};
ghost use Rattle.machine.specs.Finals.{final_count};

use sheet::tr::{LINK, NODE};
use sheet::words::{WORD, word};

// How many of the nodes have mark 1. Of any bytes: a public function, which asks for no accepted sheet.
pub fn count_finals(sheet: &[u8], links: u32, nodes: u32) -> u32
    requires { link_length * links + node_length * nodes ≤ length sheet.now }
    ensures { (result ≡ final_count sheet.now links nodes) × (result ≤ nodes) }
{
    let mut count = 0u32;
    for v in 0..nodes {
        if word(sheet, LINK * (links as usize) + NODE * (v as usize) + WORD) != 0 {
            count += 1;
        }
    }
    count
}
