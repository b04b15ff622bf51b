// The laws of the view as plain data and of rows.
ghost use Rattle.jr_tree.specs.Faithful.{IsOneToOne, IsOnto};
ghost use Rattle.jr_tree.specs.Mirror.Exprs as x;
ghost use Rattle.jr_tree.specs.Mirror.Stmts as s;
ghost use Rattle.jr_tree.specs.Mirror.Decls as d;
ghost use Rattle.jr_tree.specs.Local.{EachProgramIsLocal};
ghost use Rattle.jr_tree.specs.Tree.{EachProgramIsTree};

/// Seen as plain data, a tree is neither more nor less than it is: the views are one to one and onto.
pub fn plain_data_is_faithful()
    ensures one_expr { IsOneToOne x.plain_expr }
    ensures every_expr { IsOnto x.plain_expr }
    ensures one_stmt { IsOneToOne s.plain_stmt }
    ensures every_stmt { IsOnto s.plain_stmt }
    ensures one_member { IsOneToOne d.plain_member }
    ensures every_member { IsOnto d.plain_member }
    ensures one_decl { IsOneToOne d.plain_decl }
    ensures every_decl { IsOnto d.plain_decl }
    ensures one_unit { IsOneToOne d.plain_unit }
    ensures every_unit { IsOnto d.plain_unit }
{}

/// The rows of a program are those of one tree: each has its parent before it and ends inside it, and of two rows one holds the other or they are apart.
pub fn programs_are_trees()
    ensures { EachProgramIsTree }
{}

/// In the rows of a program whose units are shaped each row stands below one that takes it: qualifiers below names, members in bodies, bodies in types.
pub fn rows_stand_as_they_may()
    ensures { EachProgramIsLocal }
{}
