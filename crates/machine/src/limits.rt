// The limits of a machine's counts.
ghost use Rattle.std.specs.Prelude.{◌≡◌, ◌≤◌, ◌&&◌, IfOk, cond, leb};
ghost use Rattle.tropical_weight.specs.Limits.{node_limit, link_limit};
ghost use Rattle.sheet.specs.Refusals.{answer};

use sheet::refusal::Refusal;
use tropical_weight::{LINK_LIMIT, NODE_LIMIT};

// Test 5, of the counts alone.
pub fn within_limits(nodes: u32, links: u32) -> Result<(), Refusal>
    ensures number { result ≡ answer tt (cond (leb nodes node_limit && leb links link_limit) 0 5) }
    ensures within { IfOk result (λ t. (nodes ≤ node_limit) × (links ≤ link_limit)) }
{
    if NODE_LIMIT < (nodes as usize) {
        return Err(Refusal::Limits);
    }
    if LINK_LIMIT < (links as usize) {
        return Err(Refusal::Limits);
    }
    Ok(())
}
