//! The nodes that a unit's commit goes to.

ghost use Rattle.salt_commit.specs.Messages.{nodes_of};
ghost use Rattle.salt_net.specs.Flags.{are_nodes};
ghost use Rattle.std.specs.Prelude.{length, true, ◌≡◌, ◌≤◌};

use salt_net::Nodes;
use salt_values::Changes;

/// The nodes of the partitions whose share has changes, in order: partition p is node p + 1. A unit may have them.
pub fn nodes_of(shares: &[Changes]) -> Nodes
    requires { length shares.now ≤ 8 }
    ensures nodes { result ≡ nodes_of shares.now }
    ensures may { are_nodes (nodes_of shares.now) ≡ true }
{
    let mut nodes = Nodes::new();
    for number in 0..shares.len() {
        if !shares[number].is_empty() {
            nodes.push(number as u8 + 1);
        }
    }
    nodes
}
