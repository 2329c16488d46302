//! Laws on the members of nodes.
ghost use Rattle.usr_graph.specs.Choice.{ChoicesExtend, SurelyEmptyIsEmpty, RunsExtendNearNumbers};
ghost use Rattle.usr_graph.specs.Members.{OlderNodesKeepTheirMembers};
ghost use Rattle.usr_graph.specs.Names.{BoundsStay};

/// Another node at the end keeps the members of each older one, under every choice.
pub fn law_of_older_nodes()
    ensures { OlderNodesKeepTheirMembers }
{}

/// For each value of all symbols that keeps the values that they have, one choice gives every node the members that it has
/// by that value; so a node without members under any choice has none by that value.
pub fn law_of_choices()
    ensures extend { ChoicesExtend }
    ensures surely_empty { SurelyEmptyIsEmpty }
{}

/// What a run computes of symbols is such a value.
pub fn law_of_runs()
    ensures { RunsExtendNearNumbers }
{}

/// Two bounds on the entities and the indices that are named are such tests: those of a graph stay where what is put in is
/// within them.
pub fn law_of_bounds()
    ensures { BoundsStay }
{}
