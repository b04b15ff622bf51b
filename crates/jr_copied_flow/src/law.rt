// The flow of bodies that a change leaves alone.
ghost use Rattle.std.specs.Prelude.{◌≡◌, ℕ, ◌+◌, ◌<◌, ◌≤◌, length};
ghost use Rattle.jr_tree.specs.Rows.{Rows, end};
ghost use Rattle.jr_tree.specs.Tree.{IsTree};
ghost use Rattle.jr_flow_defs.specs.Meaning.{Meaning};
ghost use Rattle.jr_flow_laws.specs.Shifted.{IsWholeBody};
ghost use Rattle.jr_change.specs.declared.change.Change.{Change};
ghost use Rattle.jr_locks.specs.Origins.{no_row};
ghost use Rattle.jr_locks.specs.Changed.{IsChanged};
ghost use Rattle.jr_copied_flow.specs.Alone.{IsLeftAlone, KeepsMeaning, KeepsFlowAt};
ghost use Rattle.jr_copied_flow.specs.Segments.{AreInOne, place_of, SaysOfNew};

/// In a changed program under its locks a body that the change leaves alone keeps its edges of control and those from definitions to uses, wherever its copy
/// stands: further down, further up, or where it stood.
pub fn bodies_left_alone_keep_flow()
    ensures flow { (p q : Rows) (change : Change) (m w : Meaning) (body at : ℕ) (move : ℕ → ℕ) → IsChanged p m.targets change q w.targets → IsTree p → IsTree q
        → length p ≤ no_row → IsWholeBody p m body → IsLeftAlone p change body at → KeepsMeaning p q m w change body at move → KeepsFlowAt p q m w change body at }
    ensures whole { (p q : Rows) (change : Change) (m w : Meaning) (body at : ℕ) (move : ℕ → ℕ) → IsChanged p m.targets change q w.targets → IsTree p → IsTree q
        → length p ≤ no_row → IsWholeBody p m body → IsLeftAlone p change body at → KeepsMeaning p q m w change body at move → IsWholeBody q w at }
{}

/// A change leaves a body alone whose rows are copied by one segment and by no other, where the change says of new rows alone what they refer to.
pub fn segments_leave_bodies_alone()
    ensures { (p : Rows) (change : Change) (body : ℕ) → IsTree p → length p ≤ no_row → body < length p → SaysOfNew change
        → (one : AreInOne change.segments.items body (end p body)) → IsLeftAlone p change body (place_of one) }
{}
