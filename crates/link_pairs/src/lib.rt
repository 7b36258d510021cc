// The pairs of links of two sheets that have the same label, in the order of the product's links: the links
// of each are sorted by label, both lists are walked together, so that each link of the first finds its
// partners in the second, and the pairs are sorted by the node that they leave, then by their links.
#![tactic(auto)]

pub mod link_keys;
pub mod pairs;
