// The laws of the nodes that rows stand for.
ghost use Rattle.std.specs.Prelude.{◌≡◌, ℕ, ◌+◌, ◌++◌, false, List, length};
ghost use Rattle.std.specs.List.{AllByRecursion};
ghost use Rattle.jr_tree.specs.declared.tree.Unit as tree;
ghost use Rattle.jr_tree.specs.Mirror.Exprs as x;
ghost use Rattle.jr_tree.specs.Mirror.Stmts as s;
ghost use Rattle.jr_tree.specs.Mirror.Decls as d;
ghost use Rattle.jr_tree.specs.Shape.{IsShapedExpr, IsShapedStmt, IsShapedBlock, IsShapedMember, IsShapedDecl, IsShapedUnit, IsShaped};
ghost use Rattle.jr_tree.specs.Nodes.{nodes, each, expr_nodes, stmt_nodes, block_nodes, member_nodes, decl_nodes, unit_nodes};
ghost use Rattle.jr_tree.specs.Forest.{Forest};
ghost use Rattle.jr_tree.specs.Exprs.{expr_labels};
ghost use Rattle.jr_tree.specs.Stmts.{stmt_labels, block_labels};
ghost use Rattle.jr_tree.specs.Decls.{member_labels, decl_labels, unit_labels, program_labels};
ghost use Rattle.jr_tree.specs.Rows.{Rows, rows_from, nodes_before};
ghost use Rattle.jr_node_rows.specs.Weight.{weight};

/// The labels of a shaped tree stand for as many nodes as the tree has, and those of a program for as many as the trees of its units have.
pub fn rows_count_the_nodes()
    ensures of_expr { (e : x.Expr) (rest : Forest) → IsShapedExpr e → weight (expr_labels e rest) ≡ length (expr_nodes e) + weight rest }
    ensures of_stmt { (a : s.Stmt) (rest : Forest) → IsShapedStmt a → weight (stmt_labels a rest) ≡ length (stmt_nodes a) + weight rest }
    ensures of_block { (b : s.Block) (rest : Forest) → IsShapedBlock b → weight (block_labels b rest) ≡ length (block_nodes b) + weight rest }
    ensures of_member { (m : d.Member) (rest : Forest) → IsShapedMember m → weight (member_labels m rest) ≡ length (member_nodes m) + weight rest }
    ensures of_decl { (t : d.TypeDecl) (rest : Forest) → IsShapedDecl t → weight (decl_labels false t rest) ≡ length (decl_nodes t) + weight rest }
    ensures of_unit { (u : d.CompilationUnit) (rest : Forest) → IsShapedUnit u → weight (unit_labels u rest) ≡ length (unit_nodes u) + weight rest }
    ensures of_program { (units : List tree.Unit) → AllByRecursion IsShaped units → weight (program_labels units) ≡ length (each nodes units) }
{}

/// Where the rows of a forest stand among others, the nodes before their end are those before their beginning and those of the forest.
pub fn rows_count_their_forest()
    ensures forest { (a c : Rows) (over before at : ℕ) (f : Forest) → nodes_before (a ++ (rows_from over before at f ++ c)) (length a + length (rows_from over before at f))
        ≡ nodes_before (a ++ (rows_from over before at f ++ c)) (length a) + weight f }
{}
