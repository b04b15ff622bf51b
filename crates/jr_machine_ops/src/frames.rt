// Initialization of classes, and frames that are put on (JLS 12.4, 12.5, 15.12.4).
ghost use Rattle.std.specs.Prelude.{◌≡◌, ◌∷◌, ◌++◌, OnOk, IfOk};
ghost use Rattle.std.specs.Option.{option_copied, option_map};
ghost use Rattle.jr_core.specs.Mirror.{plain_body, plain_code};
ghost use Rattle.jr_machine_defs.specs.Initialization.{body_work, members_work, class_work, begin_work, parent_work, begins, static_class, read_class, class_of_body, target_class, assigned_class, created_class, used_class, first_use};
ghost use Rattle.jr_machine_defs.specs.Calls.{slots_of, enters};

use crate::codes::push_codes;
use crate::program::Program;
use crate::subtypes::is_among;
use jr_base::{DeclId, Items, OutOfMemory, TypeId};
use jr_core::{BinaryOp, Body, Class, Code};
use jr_machine_defs::{Frame, Purpose, Slot, Stack, State, Value, Work};
use std::alloc::Global;
use std::mem;

/// Puts the code of a member on top, if it is static or not as asked.
fn push_body<'a>(
    work: &mut Stack<Work<'a>>,
    is_static: bool,
    body: Option<&'a Body>,
) -> Result<(), OutOfMemory>
    ensures { OnOk result (work.new ≡ body_work is_static (option_map (λ b. plain_body b.now) body.entry) ++ work.old) }
{
    match body {
        None => Ok(()),
        Some(body) => {
            if body.is_static == is_static {
                push_codes(work, body.code.as_slice())
            } else {
                Ok(())
            }
        }
    }
}

/// Puts the code of these members on top, the first of them uppermost.
#[tactic(auto, using(crate::proofs::Joining::append_three, crate::proofs::Joining::members_more))]
fn push_members<'a>(
    work: &mut Stack<Work<'a>>,
    program: &Program<'a>,
    is_static: bool,
    members: &[DeclId],
) -> Result<(), OutOfMemory>
    ensures { OnOk result (work.new ≡ members_work program.now is_static members.now ++ work.old) }
{
    let mut left = members.len();
    while left > 0 {
        left -= 1;
        push_body(work, is_static, program.body(members[left]))?;
    }
    Ok(())
}

/// Puts the initializers of a class on top, static ones or others.
pub fn push_class<'a>(
    work: &mut Stack<Work<'a>>,
    program: &Program<'a>,
    is_static: bool,
    class: Option<&Class>,
) -> Result<(), OutOfMemory>
    ensures { OnOk result (work.new ≡ class_work program.now is_static (option_copied class.entry) ++ work.old) }
{
    match class {
        None => Ok(()),
        Some(class) => push_members(work, program, is_static, class.members.as_slice()),
    }
}

/// Puts the initialization of a class on top, if it has not begun.
fn push_begin<'a>(
    work: &mut Stack<Work<'a>>,
    begun: &[TypeId],
    class: Option<TypeId>,
) -> Result<(), OutOfMemory>
    ensures { OnOk result (work.new ≡ begin_work begun.now class ++ work.old) }
{
    match class {
        None => Ok(()),
        Some(class) => {
            if is_among(begun, class) {
                Ok(())
            } else {
                work.push(Work::Begin(class))
            }
        }
    }
}

fn push_parent<'a>(
    work: &mut Stack<Work<'a>>,
    begun: &[TypeId],
    class: Option<&Class>,
) -> Result<(), OutOfMemory>
    ensures { OnOk result (work.new ≡ parent_work begun.now (option_copied class.entry) ++ work.old) }
{
    match class {
        None => Ok(()),
        Some(class) => push_begin(work, begun, class.parent),
    }
}

/// The parameters with the arguments as their values.
fn slots_of<'a>(
    alloc: Global,
    params: &[DeclId],
    mut args: Stack<Value<'a>>,
) -> Result<Items<Slot<'a>>, OutOfMemory>
    ensures { IfOk result (λ slots. slots ≡ slots_of params.now args.entry) }
{
    let mut slots = Items::new(alloc);
    for param in params {
        match args.pop() {
            None => return Ok(slots),
            Some(value) => slots.push(Slot { key: *param, value })?,
        }
    }
    Ok(slots)
}

/// Puts a frame on.
fn put_frame<'a>(state: &mut State<'a>, frame: Frame<'a>) -> Result<(), OutOfMemory>
    ensures { OnOk result (state.new ≡ record state.old { callers = state.old.frame ∷ state.old.callers; frame = frame.entry }) }
{
    let caller = mem::replace(&mut state.frame, frame);
    state.callers.push(caller)
}

/// Puts a frame for this body on.
pub fn enter<'a>(
    state: &mut State<'a>,
    alloc: Global,
    body: &'a Body,
    purpose: Purpose,
    this: Value<'a>,
    args: Stack<Value<'a>>,
) -> Result<(), OutOfMemory>
    ensures { OnOk result (state.new ≡ enters (plain_body body.entry.now) purpose this.entry args.entry state.old) }
{
    let mut work = Stack::new(alloc);
    push_codes(&mut work, body.code.as_slice())?;
    let locals = slots_of(alloc, body.params.as_slice(), args)?;
    put_frame(
        state,
        Frame {
            purpose,
            class: body.class,
            this,
            locals,
            work,
            values: Stack::new(alloc),
        },
    )
}

/// Begins the initialization of a class (JLS 12.4.2).
pub fn begin<'a>(
    state: &mut State<'a>,
    alloc: Global,
    program: &Program<'a>,
    class: TypeId,
) -> Result<(), OutOfMemory>
    ensures { OnOk result (state.new ≡ begins program.now class state.old) }
{
    let mut work = Stack::new(alloc);
    push_class(&mut work, program, true, program.class(class))?;
    push_parent(&mut work, state.begun.as_slice(), program.class(class))?;
    state.begun.push(class)?;
    put_frame(
        state,
        Frame {
            purpose: Purpose::Initializer(class),
            class,
            this: Value::Null,
            locals: Items::new(alloc),
            work,
            values: Stack::new(alloc),
        },
    )
}

fn static_class(body: Option<&Body>) -> Option<TypeId>
    ensures { result ≡ static_class (option_map (λ b. plain_body b.now) body.entry) }
{
    match body {
        None => None,
        Some(body) => if body.is_static {
            Some(body.class)
        } else {
            None
        },
    }
}

/// The class of a static field that is read; none where it is a constant variable (JLS 12.4.1, 13.1).
fn read_class(body: Option<&Body>) -> Option<TypeId>
    ensures { result ≡ read_class (option_map (λ b. plain_body b.now) body.entry) }
{
    match body {
        None => None,
        Some(body) => if body.constant.is_some() {
            None
        } else {
            static_class(Some(body))
        },
    }
}

fn class_of_body(body: Option<&Body>) -> Option<TypeId>
    ensures { result ≡ class_of_body (option_map (λ b. plain_body b.now) body.entry) }
{
    match body {
        None => None,
        Some(body) => Some(body.class),
    }
}

impl<'a> Program<'a> {
    /// The class of a target that is a static field.
    pub fn target_class(&self, target: &Code) -> Option<TypeId>
        ensures { result ≡ target_class self.now (plain_code target.now) }
    {
        match target {
            Code::FieldAt { field, .. } => static_class(self.body(*field)),
            _ => None,
        }
    }

    fn assigned_class(&self, target: &Code, op: Option<BinaryOp>) -> Option<TypeId>
        ensures { result ≡ assigned_class self.now (plain_code target.now) op }
    {
        match op {
            None => self.target_class(target),
            Some(_) => None,
        }
    }

    /// The class that this code initializes before its parts, if it has not begun (JLS 12.4.1, 15.9.4).
    pub fn created_class(&self, code: &Code) -> Option<TypeId>
        ensures { result ≡ created_class self.now (plain_code code.now) }
    {
        match code {
            Code::New { ctor, .. } => class_of_body(self.body(*ctor)),
            _ => None,
        }
    }

    /// The class that the finishing item of this code initializes, if it has not begun (JLS 12.4.1).
    pub fn used_class(&self, code: &Code) -> Option<TypeId>
        ensures { result ≡ used_class self.now (plain_code code.now) }
    {
        match code {
            Code::FieldAt { field, .. } => read_class(self.body(*field)),
            Code::Call { method, .. } => static_class(self.body(*method)),
            Code::Assign { target, op, .. } => self.assigned_class(target.get(), *op),
            _ => None,
        }
    }
}

/// The class, where its initialization has not begun.
pub fn first_use(begun: &[TypeId], class: Option<TypeId>) -> Option<TypeId>
    ensures { result ≡ first_use begun.now class }
{
    match class {
        None => None,
        Some(class) => if is_among(begun, class) {
            None
        } else {
            Some(class)
        },
    }
}
