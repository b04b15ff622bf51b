// Declarations of types (JLS 7.6, 8.1, 9.1). The rules take the reader of members as a parameter, so that each is proved by itself.
ghost use Rattle.std.specs.Prelude.{◌≡◌, map};
ghost use Rattle.jr_tree.specs.Mirror.Decls.{plain_decl, plain_member, plain_members};
ghost use Rattle.jr_parse_laws.specs.Parsers.{Reads, kinds, many};
ghost use Rattle.jr_parse_defs.specs.Begins as begins;
ghost use Rattle.jr_parse_defs.specs.Decls as spec;
ghost use Rattle.jr_parse.specs.Begun as begun;
ghost use Rattle.jr_parse.specs.Nests.{Nests};

use crate::begin::{DeclStart, decl_start, starts_member};
use crate::lists::{is_bare, names_after, parent};
use jr_base::{Items, Keyword, Symbol};
use jr_parse_laws::{Cursor, Fault};
use jr_tree::{Member, Modifier, TypeDecl};
use std::alloc::Global;

/// What the rules read members with.
#[derive(Drop)]
pub struct Grammar<F> {
    pub alloc: Global,
    /// How many levels a member may have.
    pub room: usize,
    /// Reads a member of at most so many levels.
    pub member: F,
}

/// The semicolon in the place of a declaration (JLS 7.6).
fn empty_decl(cursor: &mut Cursor<'_>, mods: Items<Modifier>) -> Result<TypeDecl, Fault>
    ensures { Reads plain_decl (begun.empty_decl mods (kinds cursor.old)) result (kinds cursor.new) }
{
    if is_bare(&mods) {
        cursor.skip();
        return Ok(TypeDecl::Empty);
    }
    Err(Fault::NoTree)
}

impl<F: Fn(Global, &mut Cursor<'_>, usize) -> Result<Member, Fault>> Grammar<F> {
    /// A member.
    fn member(&self, cursor: &mut Cursor<'_>) -> Result<Member, Fault>
        requires { Nests self.now.room (F.pre self.now.member) (F.post self.now.member) }
        ensures { Reads plain_member (spec.member self.now.room (kinds cursor.old)) result (kinds cursor.new) }
    {
        (self.member)(self.alloc, cursor, self.room)
    }

    /// Members, as long as one begins.
    fn all_members(&self, cursor: &mut Cursor<'_>) -> Result<Items<Member>, Fault>
        requires { Nests self.now.room (F.pre self.now.member) (F.post self.now.member) }
        ensures { Reads (λ (all : _). map plain_member all) (many begins.starts_member (spec.member self.now.room) (kinds cursor.old)) result (kinds cursor.new) }
    {
        let mut all = Items::new(self.alloc);
        'members: while starts_member(cursor) {
            let next = self.member(cursor)?;
            all.push(next)?;
        }
        Ok(all)
    }

    /// Members in braces (JLS 8.1.6, 9.1.4).
    fn members(&self, cursor: &mut Cursor<'_>) -> Result<Items<Member>, Fault>
        requires { Nests self.now.room (F.pre self.now.member) (F.post self.now.member) }
        ensures { Reads plain_members (spec.members self.now.room (spec.member self.now.room) (kinds cursor.old)) result (kinds cursor.new) }
    {
        cursor.expect(Symbol::OpenBrace)?;
        let all = self.all_members(cursor)?;
        cursor.expect(Symbol::CloseBrace)?;
        Ok(all)
    }

    /// A class, behind `class` (JLS 8.1).
    #[tactic(auto, unfolding(jr_parse_defs::specs::Decls::class_decl))]
    fn class_decl(&self, cursor: &mut Cursor<'_>, mods: Items<Modifier>) -> Result<TypeDecl, Fault>
        requires { Nests self.now.room (F.pre self.now.member) (F.post self.now.member) }
        ensures { Reads plain_decl (spec.class_decl self.now.room (spec.member self.now.room) mods (kinds cursor.old)) result (kinds cursor.new) }
    {
        let name = cursor.identifier(self.alloc)?;
        let parent = parent(self.alloc, cursor)?;
        let faces = names_after(self.alloc, cursor, Keyword::Implements)?;
        let body = self.members(cursor)?;
        Ok(TypeDecl::Class {
            mods,
            name,
            parent,
            faces,
            body,
        })
    }

    /// An interface, behind `interface` (JLS 9.1).
    #[tactic(auto, unfolding(jr_parse_defs::specs::Decls::interface_decl))]
    fn interface_decl(
        &self,
        cursor: &mut Cursor<'_>,
        mods: Items<Modifier>,
    ) -> Result<TypeDecl, Fault>
        requires { Nests self.now.room (F.pre self.now.member) (F.post self.now.member) }
        ensures { Reads plain_decl (spec.interface_decl self.now.room (spec.member self.now.room) mods (kinds cursor.old)) result (kinds cursor.new) }
    {
        let name = cursor.identifier(self.alloc)?;
        let faces = names_after(self.alloc, cursor, Keyword::Extends)?;
        let body = self.members(cursor)?;
        Ok(TypeDecl::Interface {
            mods,
            name,
            faces,
            body,
        })
    }

    /// A declaration of a type, behind its modifiers.
    pub fn type_decl(
        &self,
        cursor: &mut Cursor<'_>,
        mods: Items<Modifier>,
    ) -> Result<TypeDecl, Fault>
        requires { Nests self.now.room (F.pre self.now.member) (F.post self.now.member) }
        ensures { Reads plain_decl (begun.new_decl self.now.room (spec.member self.now.room) mods (kinds cursor.old)) result (kinds cursor.new) }
    {
        match decl_start(cursor) {
            Some(DeclStart::Class) => {
                cursor.skip();
                self.class_decl(cursor, mods)
            }
            Some(DeclStart::Interface) => {
                cursor.skip();
                self.interface_decl(cursor, mods)
            }
            Some(DeclStart::Semicolon) => empty_decl(cursor, mods),
            None => Err(Fault::NoTree),
        }
    }
}
