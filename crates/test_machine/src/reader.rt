// Reading of a core.

use crate::codes::{
    constant, leaf, of_array, of_call, of_list, of_one, of_three, of_two, of_type, plain_type,
    units,
};
use crate::line::{any_class, count, decl, number};
use crate::report::{report, report_name};
use crate::stacks::{add, one, put, take};
use jr_base::{Const, DeclId, Items, Ty, TypeId};
use jr_core::{Body, Catch, Class, Code, Core, Group, SwitchLabel};
use jr_machine::run;
use std::alloc::Global;

/// The core that was read so far, what stands on the stacks, and what runs of the core came to.
#[derive(Drop)]
pub struct Reader {
    codes: Vec<Code>,
    types: Vec<Ty>,
    groups: Vec<Group>,
    catches: Vec<Catch>,
    labels: Vec<SwitchLabel>,
    constants: Vec<Const>,
    decls: Vec<DeclId>,
    faces: Vec<TypeId>,
    found: Vec<(DeclId, DeclId)>,
    core: Core,
    report: String,
}

impl Reader {
    /// Nothing.
    pub fn new(alloc: Global) -> Reader {
        Reader {
            codes: Vec::new(alloc),
            types: Vec::new(alloc),
            groups: Vec::new(alloc),
            catches: Vec::new(alloc),
            labels: Vec::new(alloc),
            constants: Vec::new(alloc),
            decls: Vec::new(alloc),
            faces: Vec::new(alloc),
            found: Vec::new(alloc),
            core: Core {
                classes: Items::new(alloc),
                bodies: Items::new(alloc),
            },
            report: String::new(alloc),
        }
    }

    /// What the runs came to.
    pub fn into_report(self) -> String {
        let Reader { report, .. } = self;
        report
    }

    fn read_one(&mut self, alloc: Global, line: &[u32]) -> Option<()> {
        let value = one(alloc, &mut self.codes)?;
        put(&mut self.codes, of_one(line, value))
    }

    fn read_two(&mut self, alloc: Global, line: &[u32]) -> Option<()> {
        let right = one(alloc, &mut self.codes)?;
        let left = one(alloc, &mut self.codes)?;
        put(&mut self.codes, of_two(line, left, right))
    }

    fn read_three(&mut self, alloc: Global, line: &[u32]) -> Option<()> {
        let no = one(alloc, &mut self.codes)?;
        let yes = one(alloc, &mut self.codes)?;
        let cond = one(alloc, &mut self.codes)?;
        put(&mut self.codes, of_three(line, cond, yes, no))
    }

    fn read_list(&mut self, alloc: Global, line: &[u32]) -> Option<()> {
        let args = take(alloc, &mut self.codes, count(line, 2))?;
        put(&mut self.codes, of_list(line, args))
    }

    fn read_call(&mut self, alloc: Global, line: &[u32]) -> Option<()> {
        let args = take(alloc, &mut self.codes, count(line, 2))?;
        let on = one(alloc, &mut self.codes)?;
        put(&mut self.codes, of_call(line, on, args))
    }

    fn read_typed(&mut self, alloc: Global, line: &[u32]) -> Option<()> {
        let value = one(alloc, &mut self.codes)?;
        match self.types.pop() {
            Some(ty) => put(&mut self.codes, of_type(line, ty, value)),
            None => None,
        }
    }

    fn read_array(&mut self, alloc: Global, line: &[u32]) -> Option<()> {
        let list = take(alloc, &mut self.codes, count(line, 2))?;
        match self.types.pop() {
            Some(ty) => put(&mut self.codes, of_array(alloc, line, ty, list)),
            None => None,
        }
    }

    fn read_literal(&mut self, alloc: Global, line: &[u32]) -> Option<()> {
        let value = constant(alloc, line)?;
        put(&mut self.codes, Code::Lit { value: Some(value) })
    }

    /// The value of the field that the next body is.
    fn read_constant(&mut self, alloc: Global, line: &[u32]) -> Option<()> {
        let value = constant(alloc, line)?;
        put(&mut self.constants, value)
    }

    /// The array type of the last type, or another type.
    fn read_type(&mut self, alloc: Global, line: &[u32]) -> Option<()> {
        if number(line, 1) == 8 {
            let item = one(alloc, &mut self.types)?;
            return put(&mut self.types, Ty::Array(item));
        }
        put(&mut self.types, plain_type(line))
    }

    /// With a condition, or without one: `FORM FIRST UPDATE`
    fn read_for(&mut self, alloc: Global, line: &[u32]) -> Option<()> {
        let body = one(alloc, &mut self.codes)?;
        let update = take(alloc, &mut self.codes, count(line, 3))?;
        let cond = match number(line, 1) {
            0 => Some(one(alloc, &mut self.codes)?),
            _ => None,
        };
        let first = take(alloc, &mut self.codes, count(line, 2))?;
        put(
            &mut self.codes,
            Code::For {
                first,
                cond,
                update,
                body,
            },
        )
    }

    /// A label of a `switch`: `FORM VALUE`
    fn read_label(&mut self, line: &[u32]) -> Option<()> {
        let label = match number(line, 1) {
            0 => SwitchLabel::Case(number(line, 2).cast_signed()),
            _ => SwitchLabel::Default,
        };
        put(&mut self.labels, label)
    }

    /// `STATEMENTS LABELS`
    fn read_group(&mut self, alloc: Global, line: &[u32]) -> Option<()> {
        let stmts = take(alloc, &mut self.codes, count(line, 1))?;
        let labels = take(alloc, &mut self.labels, count(line, 2))?;
        put(&mut self.groups, Group { labels, stmts })
    }

    /// `GROUPS`
    fn read_switch(&mut self, alloc: Global, line: &[u32]) -> Option<()> {
        let groups = take(alloc, &mut self.groups, count(line, 1))?;
        let value = one(alloc, &mut self.codes)?;
        put(&mut self.codes, Code::Switch { value, groups })
    }

    /// `STATEMENTS CLASS PARAM`
    fn read_catch(&mut self, alloc: Global, line: &[u32]) -> Option<()> {
        let class = TypeId(decl(number(line, 2), number(line, 3)));
        let param = decl(number(line, 4), number(line, 5));
        let body = take(alloc, &mut self.codes, count(line, 1))?;
        put(&mut self.catches, Catch { class, param, body })
    }

    /// Without `finally`, or with it: `FORM STATEMENTS CATCHES STATEMENTS`
    fn read_try(&mut self, alloc: Global, line: &[u32]) -> Option<()> {
        let last = match number(line, 1) {
            0 => None,
            _ => Some(take(alloc, &mut self.codes, count(line, 4))?),
        };
        let catches = take(alloc, &mut self.catches, count(line, 3))?;
        let body = take(alloc, &mut self.codes, count(line, 2))?;
        put(
            &mut self.codes,
            Code::Try {
                body,
                catches,
                last,
            },
        )
    }

    /// A face, a declaration, or what a call of a method runs.
    fn read_decl(&mut self, line: &[u32]) -> Option<()> {
        let decl_read = decl(number(line, 2), number(line, 3));
        match number(line, 1) {
            0 => put(&mut self.faces, TypeId(decl_read)),
            1 => put(&mut self.decls, decl_read),
            _ => put(
                &mut self.found,
                (decl_read, decl(number(line, 4), number(line, 5))),
            ),
        }
    }

    /// `DECL CLASS PARAMS STATEMENTS STATIC NATIVE`
    fn read_body(&mut self, alloc: Global, line: &[u32]) -> Option<()> {
        let code = take(alloc, &mut self.codes, count(line, 6))?;
        let params = take(alloc, &mut self.decls, count(line, 5))?;
        let ty = self.types.pop()?;
        let body = Body {
            decl: decl(number(line, 1), number(line, 2)),
            class: TypeId(decl(number(line, 3), number(line, 4))),
            is_static: number(line, 7) == 1,
            is_native: number(line, 8) == 1,
            ty,
            constant: self.constants.pop(),
            params,
            code,
        };
        add(&mut self.core.bodies, body)
    }

    /// `CLASS PARENT OUTER FACES MEMBERS FOUND`
    fn read_class(&mut self, alloc: Global, line: &[u32]) -> Option<()> {
        let found = take(alloc, &mut self.found, count(line, 9))?;
        let members = take(alloc, &mut self.decls, count(line, 8))?;
        let faces = take(alloc, &mut self.faces, count(line, 7))?;
        let class = Class {
            id: TypeId(decl(number(line, 1), number(line, 2))),
            parent: any_class(number(line, 3), number(line, 4)),
            faces,
            outer: any_class(number(line, 5), number(line, 6)),
            members,
            found,
        };
        add(&mut self.core.classes, class)
    }

    /// The name of the next run, by its characters.
    fn read_name(&mut self, alloc: Global, line: &[u32]) -> Option<()> {
        let units = units(alloc, line)?;
        report_name(&mut self.report, units.units())
    }

    /// A run of the core so far: `METHOD STEPS`
    fn read_run(&mut self, alloc: Global, line: &[u32]) -> Option<()> {
        let method = decl(number(line, 1), number(line, 2));
        match run(alloc, &self.core, method, u64::from(number(line, 3))) {
            Ok(ran) => report(&mut self.report, &ran),
            Err(_) => None,
        }
    }

    fn read_expression(&mut self, alloc: Global, line: &[u32]) -> Option<()> {
        match number(line, 0) {
            0 => self.read_literal(alloc, line),
            1 => self.read_constant(alloc, line),
            2 => put(&mut self.codes, leaf(line)),
            3 => self.read_one(alloc, line),
            4 => self.read_two(alloc, line),
            5 => self.read_three(alloc, line),
            6 => self.read_list(alloc, line),
            7 => self.read_call(alloc, line),
            8 => self.read_typed(alloc, line),
            9 => self.read_array(alloc, line),
            _ => self.read_type(alloc, line),
        }
    }

    fn read_statement(&mut self, alloc: Global, line: &[u32]) -> Option<()> {
        match number(line, 0) {
            11 => self.read_for(alloc, line),
            12 => self.read_label(line),
            13 => self.read_group(alloc, line),
            14 => self.read_switch(alloc, line),
            15 => self.read_catch(alloc, line),
            16 => self.read_try(alloc, line),
            _ => self.read_expression(alloc, line),
        }
    }

    /// Reads the numbers of a line, the first of which is its kind; nothing, where memory is short or operands are missing.
    pub fn read(&mut self, alloc: Global, line: &[u32]) -> Option<()> {
        match number(line, 0) {
            17 => self.read_decl(line),
            18 => self.read_body(alloc, line),
            19 => self.read_class(alloc, line),
            20 => self.read_name(alloc, line),
            21 => self.read_run(alloc, line),
            _ => self.read_statement(alloc, line),
        }
    }
}
