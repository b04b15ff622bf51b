// Edges as they are computed, and those of worked programs.
ghost use Rattle.std.specs.Prelude.{◌≡◌, ℕ, true, Decides};
ghost use Rattle.jr_tree.specs.Rows.{Rows};
ghost use Rattle.jr_plain.specs.Search.{among};
ghost use Rattle.jr_plain.specs.Same.{same_pair};
ghost use Rattle.jr_flow_defs.specs.Meaning.{Meaning};
ghost use Rattle.jr_flow_defs.specs.States.{State};
ghost use Rattle.jr_flow_defs.specs.Edges.{body_flow, FlowNode, Naming, ControlEdge, DefUse};
ghost use Rattle.jr_flow_defs.specs.Copied.{IsCopied, CopiesKeepEdges};
ghost use Rattle.jr_flow_defs.specs.Computed.{same_state, same_edge, control_edges, are_edges, def_uses, are_uses};
ghost use Rattle.jr_flow_defs.specs.Graphs.{PathsGoByNumbers, ReachingGoesByNumbers, EdgesGoByNumbers};
ghost use Rattle.jr_flow_defs.specs.Kept.{Same, joined_flow};
ghost use Rattle.jr_flow_defs.specs.WorkedChanges as change;
ghost use Rattle.jr_flow_defs.specs.WorkedChanges.{Before, Inlined, Extracted};
ghost use Rattle.jr_flow_defs.specs.Worked as worked;
ghost use Rattle.jr_flow_defs.specs.Worked.{HasEdges};

/// Where searches of so many rounds are done, the lists that they give have just the edges of a body.
pub fn edges_are_computed()
    ensures control { (p : Rows) (m : Meaning) (body rounds : ℕ) (naming : Naming) → are_edges same_state (body_flow p m body) rounds p body naming ≡ true
        → (x y : FlowNode) → Decides (among same_edge (control_edges same_state (body_flow p m body) rounds p body naming) (x, y)) (ControlEdge p (body_flow p m body) body naming x y) }
    ensures uses { (p : Rows) (m : Meaning) (body rounds : ℕ) → are_uses same_state (body_flow p m body) rounds ≡ true
        → (i j : ℕ) → Decides (among same_pair (def_uses same_state (body_flow p m body) rounds) (i, j)) (DefUse (body_flow p m body) i j) }
{}

/// Paths and what reaches what, by the numbers of the points of a graph: of a body, and of one with a method in place of its call.
pub fn paths_go_by_numbers()
    ensures paths { (p : Rows) (m : Meaning) (body : ℕ) → PathsGoByNumbers (body_flow p m body) body }
    ensures reaching { (p : Rows) (m : Meaning) (body : ℕ) → ReachingGoesByNumbers (body_flow p m body) body }
    ensures edges { (p : Rows) (m : Meaning) (body : ℕ) → EdgesGoByNumbers p (body_flow p m body) body }
    ensures joined_paths { (p : Rows) (m : Meaning) (body call method : ℕ) → PathsGoByNumbers (joined_flow p m body call method) body }
    ensures joined_reaching { (p : Rows) (m : Meaning) (body call method : ℕ) → ReachingGoesByNumbers (joined_flow p m body call method) body }
    ensures joined_edges { (p : Rows) (m : Meaning) (body call method : ℕ) → EdgesGoByNumbers p (joined_flow p m body call method) body }
{}

/// A body whose flow is a copy of another has its edges, by the rows and names of that one.
pub fn copies_keep_edges()
    ensures { (p q : Rows) (m w : Meaning) (old new : ℕ) (move : State → State) (row : ℕ → ℕ) → IsCopied (body_flow p m old) (body_flow q w new) move row
        → CopiesKeepEdges (body_flow p m old) (body_flow q w new) row }
{}

/// The edges of small programs (JLS 11.3, 14.9 to 14.20, 15.7, 15.23, 15.25).
pub fn worked_flow()
    ensures an_if_with_else { HasEdges worked.an_if_with_else }
    ensures a_while_with_break { HasEdges worked.a_while_with_break }
    ensures a_return_through_finally { HasEdges worked.a_return_through_finally }
    ensures a_call_that_throws { HasEdges worked.a_call_that_throws }
    ensures a_finally_that_breaks { HasEdges worked.a_finally_that_breaks }
    ensures a_for_with_continue { HasEdges worked.a_for_with_continue }
    ensures a_do_with_continue { HasEdges worked.a_do_with_continue }
    ensures a_switch_with_a_labeled_break { HasEdges worked.a_switch_with_a_labeled_break }
    ensures a_test_of_two_conditions { HasEdges worked.a_test_of_two_conditions }
    ensures a_finally_for_each_completion { HasEdges worked.a_finally_for_each_completion }
    ensures a_longer_name { HasEdges worked.a_longer_name }
    ensures elements_of_an_array { HasEdges worked.elements_of_an_array }
{}

/// Small changes that keep the edges of control, and some that do not.
pub fn worked_changes()
    ensures inlines_before_a_return { Same (Before change.inlines_before_a_return) (Inlined change.inlines_before_a_return) }
    ensures inlines_past_a_call { Same (Before change.inlines_past_a_call) (Inlined change.inlines_past_a_call) → ⊥ }
    ensures extracts_from_a_try { Same (Before change.extracts_from_a_try) (Extracted change.extracts_from_a_try 14 21) }
    ensures extracts_a_return { Same (Before change.extracts_a_return) (Extracted change.extracts_a_return 14 21) → ⊥ }
{}
