// The flow of copied bodies.
ghost use Rattle.std.specs.Prelude.{◌≡◌, ℕ, ◌+◌, ◌<◌, ◌≤◌, length, None};
ghost use Rattle.jr_tree.specs.Rows.{Rows, parent, end};
ghost use Rattle.jr_tree.specs.Tree.{IsTree};
ghost use Rattle.jr_flow_defs.specs.Meaning.{Meaning};
ghost use Rattle.jr_flow_defs.specs.Edges.{body_flow, Naming, ControlEdge, DefUse};
ghost use Rattle.jr_flow_defs.specs.Worked.{HasEdges};
ghost use Rattle.jr_flow_defs.specs.Copied.{IsCopied, HasOriginal};
ghost use Rattle.jr_flow_defs.specs.Kept.{Same, Origin, KeepsControl, KeepsDefinitions, KeepsBody, Never, NoHanding};
ghost use Rattle.jr_flow_laws.specs.Shifted.{moved_state, IsIn, IsWholeBody, AreShiftedRows, AreOrigins};
ghost use Rattle.jr_flow_laws.specs.Nested as nested;
ghost use Rattle.jr_flow_laws.specs.Nested.{labels};

/// A body whose rows stand in another program so many rows on has a flow there that is a copy, place by place.
pub fn copied_bodies_are_copies()
    ensures { (p q : Rows) (m w : Meaning) (body shift : ℕ) (outside : ℕ → ℕ) → IsWholeBody p m body → AreShiftedRows p q m w body shift outside
        → IsCopied (body_flow p m body) (body_flow q w (body + shift)) (moved_state shift) (λ n. n + shift) }
{}

/// It has the same edges of control, where its rows have the names of those of the body, as where they are named by their origins.
pub fn copied_bodies_keep_control()
    ensures same { (p q : Rows) (m w : Meaning) (body shift : ℕ) (outside : ℕ → ℕ) → IsWholeBody p m body → AreShiftedRows p q m w body shift outside
        → (naming other : Naming) → ((n : ℕ) → IsIn p body n → other (n + shift) ≡ naming n)
        → Same (ControlEdge p (body_flow p m body) body naming) (ControlEdge q (body_flow q w (body + shift)) (body + shift) other) }
    ensures kept { (p q : Rows) (m w : Meaning) (body shift : ℕ) (outside : ℕ → ℕ) → IsWholeBody p m body → AreShiftedRows p q m w body shift outside
        → (origin : Origin) → AreOrigins p body shift origin → KeepsControl p q (body_flow p m body) (body_flow q w (body + shift)) body (body + shift) None origin }
{}

/// It has the same edges from definitions to uses, each so many rows on, and so it keeps the body.
pub fn copied_bodies_keep_definitions()
    ensures uses { (p q : Rows) (m w : Meaning) (body shift : ℕ) (outside : ℕ → ℕ) → IsWholeBody p m body → AreShiftedRows p q m w body shift outside
        → (i j : ℕ) → DefUse (body_flow p m body) i j → DefUse (body_flow q w (body + shift)) (i + shift) (j + shift) }
    ensures originals { (p q : Rows) (m w : Meaning) (body shift : ℕ) (outside : ℕ → ℕ) → IsWholeBody p m body → AreShiftedRows p q m w body shift outside
        → (i j : ℕ) → DefUse (body_flow q w (body + shift)) i j → HasOriginal (body_flow p m body) (λ n. n + shift) i j }
    ensures kept { (p q : Rows) (m w : Meaning) (body shift : ℕ) (outside : ℕ → ℕ) → IsWholeBody p m body → AreShiftedRows p q m w body shift outside
        → (origin : Origin) → AreOrigins p body shift origin → KeepsDefinitions (body_flow p m body) (body_flow q w (body + shift)) Never NoHanding origin }
    ensures whole { (p q : Rows) (m w : Meaning) (body shift : ℕ) (outside : ℕ → ℕ) → IsWholeBody p m body → AreShiftedRows p q m w body shift outside
        → (origin : Origin) → AreOrigins p body shift origin → KeepsBody p q (body_flow p m body) (body_flow q w (body + shift)) body (body + shift) None origin }
{}

/// Where the rows of both programs are those of trees, the parents of the copy are told by its ends.
pub fn parents_follow_from_ends()
    ensures { (p q : Rows) (body shift : ℕ) → IsTree p → IsTree q → body < length p → end p body + shift ≤ length q → ((n : ℕ) → IsIn p body n → end q (n + shift) ≡ end p n + shift)
        → (n : ℕ) → IsIn p body n → body < n → parent q (n + shift) ≡ parent p n + shift }
{}

/// Labels and referents alone do not tell the edges: of two bodies with the same ones in the same order, one has a call behind its loop, and the other has it inside.
pub fn labels_do_not_tell_edges()
    ensures labels { labels nested.behind_the_loop.rows ≡ labels nested.in_the_loop.rows }
    ensures referents { nested.behind_the_loop.targets ≡ nested.in_the_loop.targets }
    ensures behind { HasEdges nested.behind_the_loop }
    ensures inside { HasEdges nested.in_the_loop }
{}

/// A body by itself stands in its own program as it stands.
pub fn bodies_stand_where_they_are()
    ensures { (p : Rows) (m : Meaning) (body : ℕ) → IsWholeBody p m body → AreShiftedRows p p m m body 0 (λ n. n) }
{}
