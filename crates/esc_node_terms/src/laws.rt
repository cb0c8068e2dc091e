//! What holds of the terms of a graph's nodes. The function states it, and does nothing.

ghost use Rattle.esc_node_terms.specs.Laws.{AreClassesOfNodes, GroupsAgree};

/// Terms stand in one class exactly where they are those of nodes of one class. Classes that hold
/// nothing which the graph and the groups keep apart agree with the literals that are kept so.
pub fn node_laws()
    ensures classes { AreClassesOfNodes }
    ensures agree { GroupsAgree }
{}
