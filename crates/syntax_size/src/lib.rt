//! The weight of a syntax tree: the number of its nodes. These are definitions and a law on them; there is no code to
//! run here.
#![tactic(auto)]

ghost use Rattle.syntax_size.specs.Layers.{NodesWeighMore};

/// That a node weighs one more than its parts together.
pub fn nodes_weigh_more()
    ensures { NodesWeighMore }
{}
