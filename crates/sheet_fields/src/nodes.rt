// The nodes of a sheet by number.
ghost use Rattle.std.specs.Prelude.{◌≡◌};
ghost use Rattle.sheet.specs.Sheet.{read_number};
ghost use Rattle.sheet.specs.Machine.{machine as machine_for};
ghost use Rattle.sheet_fields.specs.Nodes.{next_node};
ghost use Rattle.sheet_fields.specs.Fields.{NodeOf};

use sheet::tr::{LINK, NODE, Node, node_at, stated_trailer};

// Node number v of a sheet, or none past the last; on a byte string that is too short for the links and
// nodes that it states there is none. Not one with link_or_end, which asks for room for the links alone.
pub fn node_or_end(sheet: &[u8], v: usize) -> Option<Node>
    ensures value { result ≡ next_node sheet.now v }
    ensures node_of { read_number sheet.now ≡ 0 → NodeOf (machine_for sheet.now) v result }
{
    let t = stated_trailer(sheet)?;
    let links = t.links as usize;
    let nodes = t.nodes as usize;
    if nodes <= v {
        return None;
    }
    if sheet.len() < LINK * links + NODE * nodes + t.form.trailer() {
        return None;
    }
    Some(node_at(sheet, links, v))
}
