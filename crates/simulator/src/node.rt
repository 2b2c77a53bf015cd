//! The names of the two nodes.
use machine::Node;

/// The name of a node, as it is read and printed.
pub fn name_of(node: Node) -> &'static str {
    match node {
        Node::Primary => "primary",
        Node::Standby => "standby",
    }
}
