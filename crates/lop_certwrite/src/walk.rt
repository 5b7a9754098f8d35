// From a node of the tree to the next one, by the links to the parents.
ghost use Rattle.std.specs.Prelude.{◌≡◌, ◌<◌, ◌^◌, length};
ghost use Rattle.lop_core.specs.Tree.{AreLinked, node_at};
ghost use Rattle.lop_certwrite.specs.Walk.{IsNext, IsNextUp, is_first_of};

use lop_core::{Core, Standing};

/// The node whose line comes after that of the node: its first child, or else the next on the way up. It is the root
/// where no line is left.
pub fn next_node(core: &Core, node: u32) -> u32
    requires inside { node < length core.now.state.nodes }
    requires linked { AreLinked core.now.state.nodes }
    requires small { length core.now.state.nodes < 2 ^ 32 }
    ensures { IsNext core.now.state.nodes node result }
{
    match core.node(node).standing {
        Standing::Split(first) => first,
        Standing::Idle | Standing::Out(_) => next_up(core, node),
    }
}

/// The second child of the lowest node on the way up whose first child is on it too. Over a whole walk each link is
/// climbed once.
fn next_up(core: &Core, node: u32) -> u32
    requires inside { node < length core.now.state.nodes }
    requires linked { AreLinked core.now.state.nodes }
    requires small { length core.now.state.nodes < 2 ^ 32 }
    ensures { IsNextUp core.now.state.nodes node result }
{
    let mut at = node;
    while at != 0 {
        let parent = core.node(at).parent;
        if is_first(core, parent, at) {
            return at + 1;
        }
        at = parent;
    }
    0
}

/// Whether the child is the first of its parent's.
fn is_first(core: &Core, parent: u32, child: u32) -> bool
    requires { parent < length core.now.state.nodes }
    ensures { result ≡ is_first_of (node_at core.now.state.nodes parent).standing child }
{
    match core.node(parent).standing {
        Standing::Split(first) => first == child,
        Standing::Idle | Standing::Out(_) => false,
    }
}
