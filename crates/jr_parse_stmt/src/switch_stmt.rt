// Choices among groups of statements (JLS 14.11).
ghost use Rattle.std.specs.Prelude.{◌≡◌, map};
ghost use Rattle.jr_tree.specs.Mirror.Stmts.{plain_group, plain_label, plain_stmt};
ghost use Rattle.jr_parse_laws.specs.Parsers.{Reads, kinds, many, with_front};
ghost use Rattle.jr_parse_expr.specs.Exprs.{next_token};
ghost use Rattle.jr_parse_defs.specs.Begins.{starts_label};
ghost use Rattle.jr_parse_defs.specs.Stmts as spec;
ghost use Rattle.jr_parse_stmt.specs.Nests.{Nests, in_room};

use crate::grammar::Grammar;
use crate::simple::condition;
use crate::start::starts_label;
use jr_base::{Items, Keyword, Kind, Symbol};
use jr_parse_expr::{Lead, expr};
use jr_parse_laws::{Cursor, Fault};
use jr_tree::{Group, Stmt, SwitchLabel};
use std::alloc::Global;

impl<F> Grammar<F> {
    /// A label.
    fn label(&self, cursor: &mut Cursor<'_>) -> Result<SwitchLabel, Fault>
        ensures { Reads plain_label (next_token (in_room spec.label_by self.now.room) (kinds cursor.old)) result (kinds cursor.new) }
    {
        match cursor.peek() {
            Some(Kind::Word(Keyword::Case)) => {
                cursor.skip();
                let value = expr(self.alloc, cursor, self.room, Lead::Nothing, 0)?;
                if let Err(fault) = cursor.expect(Symbol::Colon) {
                    drop(value);
                    return Err(fault);
                }
                Ok(SwitchLabel::Case { value })
            }
            Some(Kind::Word(Keyword::Default)) => {
                cursor.skip();
                cursor.expect(Symbol::Colon)?;
                Ok(SwitchLabel::Default)
            }
            _ => Err(Fault::NoTree),
        }
    }

    /// Labels, as long as one begins.
    fn labels(&self, cursor: &mut Cursor<'_>) -> Result<Items<SwitchLabel>, Fault>
        ensures { Reads (λ (all : _). map plain_label all) (many starts_label (next_token (in_room spec.label_by self.now.room)) (kinds cursor.old)) result (kinds cursor.new) }
    {
        let mut all = Items::new(self.alloc);
        'labels: while starts_label(cursor) {
            let next = self.label(cursor)?;
            all.push(next)?;
        }
        Ok(all)
    }
}

impl<F: Fn(Global, &mut Cursor<'_>, usize, bool) -> Result<Stmt, Fault>> Grammar<F> {
    /// Labels and the statements behind them.
    #[tactic(auto, unfolding(jr_parse_defs::specs::Stmts::group))]
    fn group(&self, cursor: &mut Cursor<'_>) -> Result<Group, Fault>
        requires { Nests self.now.room (F.pre self.now.stmt) (F.post self.now.stmt) }
        ensures { Reads plain_group (in_room spec.group self.now.room (kinds cursor.old)) result (kinds cursor.new) }
    {
        let labels = self.labels(cursor)?;
        let stmts = self.stmts(cursor)?;
        Ok(Group { labels, stmts })
    }

    /// Groups, as long as a label begins one.
    fn groups(&self, cursor: &mut Cursor<'_>) -> Result<Items<Group>, Fault>
        requires { Nests self.now.room (F.pre self.now.stmt) (F.post self.now.stmt) }
        ensures { Reads (λ (all : _). map plain_group all) (many starts_label (in_room spec.group self.now.room) (kinds cursor.old)) result (kinds cursor.new) }
    {
        let mut all = Items::new(self.alloc);
        'groups: while starts_label(cursor) {
            let next = self.group(cursor)?;
            all.push(next)?;
        }
        Ok(all)
    }

    /// Behind `switch`
    #[tactic(auto, unfolding(jr_parse_defs::specs::Stmts::switch_stmt))]
    pub fn switch_stmt(&self, cursor: &mut Cursor<'_>) -> Result<Stmt, Fault>
        requires { Nests self.now.room (F.pre self.now.stmt) (F.post self.now.stmt) }
        ensures { Reads plain_stmt (in_room spec.switch_stmt self.now.room (kinds cursor.old)) result (kinds cursor.new) }
    {
        let value = condition(self.alloc, cursor, self.room)?;
        if let Err(fault) = cursor.expect(Symbol::OpenBrace) {
            drop(value);
            return Err(fault);
        }
        let groups = match self.groups(cursor) {
            Ok(groups) => groups,
            Err(fault) => {
                drop(value);
                return Err(fault);
            }
        };
        if let Err(fault) = cursor.expect(Symbol::CloseBrace) {
            drop(value);
            return Err(fault);
        }
        Ok(Stmt::Switch { value, groups })
    }
}
