// What an occurrence refers to (JLS 6.5, 8.8.7.1, 14.15, 15.9, 15.11, 15.12).

ghost use Rattle.std.specs.Prelude.{◌≡◌, ℕ, ◌+◌, ◌<◌, ◌^◌, length, None, IfOk, nat_eq, option_map};
ghost use Rattle.jr_base.specs.declared.text.Text.{Text};
ghost use Rattle.jr_tree.specs.declared.label.Sought.TheVariants as seeking;
ghost use Rattle.jr_tree.specs.Rows as program;
ghost use Rattle.jr_tree.specs.Tree.{IsTree};
ghost use Rattle.jr_defs.specs.Constants.{HasConstantForm};
ghost use Rattle.jr_defs.specs.declared.referent.Referent.TheVariants as referring;
ghost use Rattle.jr_defs.specs.declared.referent.Space.TheVariants as space;
ghost use Rattle.jr_defs.specs.Enclosing.{ConstructorOf};
ghost use Rattle.jr_defs.specs.Lookup.{Arguments, arguments_by, CalledClass, ImportedMethod, Look, MethodCandidate, SuperOf};
ghost use Rattle.jr_defs.specs.Lookup.{Receiver as ReceiverOf};
ghost use Rattle.jr_defs.specs.Members.{MemberNamed, MemberOf};
ghost use Rattle.jr_defs.specs.Overloads.{Choice, ImportedChoice};
ghost use Rattle.jr_defs.specs.Referents.{Table, entries};
ghost use Rattle.jr_defs.specs.Typing.{TypeOf};
ghost use Rattle.jr_defs.specs.Correspondence.{IsCall};
ghost use Rattle.jr_plain.specs.Overloads.{argument_types};
ghost use Rattle.jr_plain.specs.Search.{Finds, Lists};
ghost use Rattle.jr_members.specs.Worlds.{IsWorld};
ghost use Rattle.jr_lookup.specs.Answers as answers;
ghost use Rattle.jr_lookup.specs.Behind as behind;
ghost use Rattle.jr_lookup.specs.Calls as calls;
ghost use Rattle.jr_lookup.specs.Outward.{IsInnermostSuch, IsNumberOf};
ghost use Rattle.jr_lookup.specs.Sights.{IsSight};

use crate::candidates::Candidates;
use crate::instances::instance_round;
use crate::qualified::{Left, Receiver};
use crate::simple::Sight;
use crate::{choose, choose_imported};
use jr_base::OutOfMemory;
use jr_defs::{Referent, RowType};
use jr_members::MemberKind;
use jr_places::{end_at, is_body_of, is_inner, parent_at, sought_at};
use jr_tree::{Label, NameKind, ReceiverKind, Row, Sought, ThisOrSuper};
use std::alloc::Global;

// What a table has for a row.
fn type_at(types: &[Option<RowType>], at: u32) -> Option<RowType>
    ensures { result ≡ behind.type_in types.now at }
{
    match types.get(at as usize) {
        Some(ty) => *ty,
        None => None,
    }
}

// An expression of a type that is known, or nothing.
fn left_by(ty: Option<RowType>) -> Left
    ensures { result ≡ behind.left_by ty }
{
    match ty {
        Some(found) => Left::Value(found),
        None => Left::Nothing,
    }
}

// The arguments of a call begin behind its first child, which is the receiver or the class that a creation names.
fn begins_behind(rows: &[Row], at: u32) -> bool
    ensures { result ≡ behind.begins_behind (program.label rows.now at) }
{
    match rows.get(at as usize) {
        Some(row) => match row.label {
            Label::Call {
                receiver: ReceiverKind::Expression,
            } => true,
            Label::Call {
                receiver: ReceiverKind::Name,
            } => true,
            Label::New => true,
            _ => false,
        },
        None => false,
    }
}

// The first row where an argument of a call may stand.
fn first_argument(rows: &[Row], place: u32) -> u32
    ensures { place + 2 < 2 ^ 32 → result ≡ arguments_by (program.label rows.now place) rows.now place }
{
    let next = place.saturating_add(1);
    if begins_behind(rows, place) {
        end_at(rows, next)
    } else {
        next
    }
}

// The row stands right below the other.
fn is_inside(rows: &[Row], over: u32, at: u32) -> bool
    ensures { result ≡ nat_eq (program.parent rows.now at) over }
{
    parent_at(rows, at) == over
}

// The types of the arguments of a call from a row on, if all are known.
fn arguments_from(
    alloc: Global,
    rows: &[Row],
    types: &[Option<RowType>],
    place: u32,
    first: u32,
) -> Result<Option<Vec<RowType>>, OutOfMemory>
    ensures { length rows.now + 3 < 2 ^ 32 → IsTree rows.now → place < first → IfOk result (λ found. option_map (λ all. all.items) found ≡ argument_types rows.now (behind.type_in types.now) place (length rows.now) first) }
{
    let mut all = Vec::new(alloc);
    let mut child = first;
    for _turn in 0..rows.len() {
        if !is_inside(rows, place, child) {
            return Ok(Some(all));
        }
        match type_at(types, child) {
            Some(ty) => all.push(ty)?,
            None => return Ok(None),
        }
        child = end_at(rows, child);
    }
    Ok(Some(all))
}

impl<'a> Sight<'a> {
    /// What stands before the dot of a row, in its first child.
    pub fn left_of(&self, types: &[Option<RowType>], place: u32) -> Left
        ensures before { (t : Table) → IsSight t self.now → entries self.now.world.under.table.now (place + 1) ≡ t (place + 1) → behind.IsLeftOf self.now.world.under.rows.now t self.now.world.under.places.now place result }
        ensures value { (t : Table) → behind.CanLook t self.now types.now place → behind.HasValue self.now.world.under.rows.now t (HasConstantForm self.now.world.under.rows.now t) place result }
    {
        match self.world.under.first_child(place) {
            Some(child) => self.left_at(types, child),
            None => Left::Nothing,
        }
    }

    // What a row is before a dot.
    fn left_at(&self, types: &[Option<RowType>], at: u32) -> Left
        ensures before { (t : Table) → IsSight t self.now → entries self.now.world.under.table.now at ≡ t at → at < length self.now.world.under.rows.now → behind.IsLeftAt self.now.world.under.rows.now t self.now.world.under.places.now at result }
        ensures value { (t : Table) (o : ℕ) → behind.CanLook t self.now types.now o → o < at → Finds (behind.value_of result) (λ a. TypeOf self.now.world.under.rows.now t (HasConstantForm self.now.world.under.rows.now t) at a) }
    {
        let under = self.world.under;
        match under.referent(at) {
            Referent::Package => Left::Package(under.places.spelled(under.rows, at)),
            _ => self.type_or_value(types, at),
        }
    }

    // What a row that refers to no package is before a dot.
    fn type_or_value(&self, types: &[Option<RowType>], at: u32) -> Left
        ensures before { (t : Table) → entries self.now.world.under.table.now at ≡ t at → (entries self.now.world.under.table.now at ≡ referring.Package → ⊥) → behind.IsLeftAt self.now.world.under.rows.now t self.now.world.under.places.now at result }
        ensures value { (t : Table) (o : ℕ) → behind.CanLook t self.now types.now o → o < at → Finds (behind.value_of result) (λ a. TypeOf self.now.world.under.rows.now t (HasConstantForm self.now.world.under.rows.now t) at a) }
    {
        match self.world.under.referred_type(at) {
            Some(over) => Left::OfType(over),
            None => left_by(type_at(types, at)),
        }
    }

    // The types of the arguments of a call, if all are known.
    fn arguments(
        &self,
        alloc: Global,
        types: &[Option<RowType>],
        place: u32,
    ) -> Result<Option<Vec<RowType>>, OutOfMemory>
        ensures { (t : Table) → behind.CanLook t self.now types.now place → IfOk result (λ found. Finds (option_map (λ all. all.items) found) (λ all. Arguments self.now.world.under.rows.now t (HasConstantForm self.now.world.under.rows.now t) place all)) }
    {
        let rows = self.world.under.rows;
        let first = first_argument(rows, place);
        arguments_from(alloc, rows, types, place, first)
    }

    // The methods of the name that a call chooses among those of a type (JLS 15.12.2).
    fn chosen(
        &self,
        alloc: Global,
        over: u32,
        place: u32,
        receiver: Option<RowType>,
        name: u32,
        arguments: &[RowType],
    ) -> Result<Vec<u32>, OutOfMemory>
        ensures { (t : Table) (x : Text) → IsWorld t self.now.world → answers.CanChoose t self.now.world → IsNumberOf self.now.world.under.rows.now name x → IfOk result (λ rows. Lists rows.items (Choice self.now.world.under.rows.now t over place receiver arguments.now (MemberNamed self.now.world.under.rows.now t space.Method x over))) }
    {
        let methods = self.world.named(alloc, MemberKind::Method, over, name)?;
        choose(
            alloc, self.world, over, place, receiver, arguments, &methods,
        )
    }

    // The methods of the name that a call chooses among those that static imports bring (JLS 15.12.3).
    fn chosen_imported(
        &self,
        alloc: Global,
        place: u32,
        name: u32,
        arguments: &[RowType],
    ) -> Result<Vec<u32>, OutOfMemory>
        ensures { (t : Table) (x : Text) → IsSight t self.now → answers.CanChoose t self.now.world → IsNumberOf self.now.world.under.rows.now name x → IfOk result (λ rows. Lists rows.items (ImportedChoice self.now.world.under.rows.now t place arguments.now (ImportedMethod self.now.world.under.rows.now t x place))) }
    {
        let methods = self.imported(alloc, MemberKind::Method, place, name)?;
        choose_imported(alloc, self.world, place, arguments, &methods)
    }

    // The constructors that a call chooses among those of a class (JLS 15.9.3).
    fn constructed(
        &self,
        alloc: Global,
        class: u32,
        place: u32,
        arguments: &[RowType],
    ) -> Result<Vec<u32>, OutOfMemory>
        ensures { (t : Table) → IsWorld t self.now.world → answers.CanChoose t self.now.world → IfOk result (λ rows. Lists rows.items (Choice self.now.world.under.rows.now t class place None arguments.now (ConstructorOf self.now.world.under.rows.now class))) }
    {
        let constructors = self.world.members.constructors(alloc, class)?;
        choose(
            alloc,
            self.world,
            class,
            place,
            None,
            arguments,
            &constructors,
        )
    }

    /// What a method without a receiver refers to: one of the innermost type that has one of the name, else an imported one.
    pub fn method(
        &self,
        alloc: Global,
        place: u32,
        name: u32,
        arguments: &[RowType],
    ) -> Result<Referent, OutOfMemory>
        ensures { (t : Table) (x : Text) → IsSight t self.now → answers.CanChoose t self.now.world → IsNumberOf self.now.world.under.rows.now name x → IfOk result (λ a. answers.IsAnswerOr (λ d l. MethodCandidate self.now.world.under.rows.now t x place arguments.now d l) referring.Unbound a) }
    {
        let level = self.method_level(alloc, place, name)?;
        match level {
            Some(over) => {
                let rows = self.chosen(alloc, over, place, None, name, arguments)?;
                Ok(Candidates { rows, level }.answer(Referent::Unbound))
            }
            None => {
                let rows = self.chosen_imported(alloc, place, name, arguments)?;
                Ok(Candidates { rows, level }.answer(Referent::Unbound))
            }
        }
    }

    /// What a method of a receiver refers to.
    pub fn method_of(
        &self,
        alloc: Global,
        place: u32,
        receiver: Receiver,
        name: u32,
        arguments: &[RowType],
    ) -> Result<Referent, OutOfMemory>
        ensures { (t : Table) (x : Text) → IsWorld t self.now.world → answers.CanChoose t self.now.world → IsNumberOf self.now.world.under.rows.now name x → IfOk result (λ a. answers.IsAnswerOr (answers.IsFree (Choice self.now.world.under.rows.now t receiver.class place receiver.ty arguments.now (MemberNamed self.now.world.under.rows.now t space.Method x receiver.class))) referring.Unbound a) }
    {
        let rows = self.chosen(alloc, receiver.class, place, receiver.ty, name, arguments)?;
        Ok(Candidates { rows, level: None }.answer(Referent::Unbound))
    }

    // The innermost class round the place that has an inner class as a member gives its objects their enclosing one (JLS 15.9.2).
    fn enclosing_new(
        &self,
        alloc: Global,
        place: u32,
        class: u32,
    ) -> Result<Option<u32>, OutOfMemory>
        ensures { (t : Table) → IsWorld t self.now.world → IfOk result (λ found. Finds found (IsInnermostSuch self.now.world.under.rows.now (λ e. MemberOf self.now.world.under.rows.now t e class) place)) }
    {
        let mut around = self.world.under.places.around(place);
        for _turn in 0..place {
            match around {
                Some(over) => {
                    let is_such = self.world.is_member(alloc, over, class)?;
                    if is_such {
                        return Ok(Some(over));
                    }
                    let next = self.world.under.places.around(over);
                    around = next;
                }
                None => return Ok(None),
            }
        }
        Ok(None)
    }

    // What a creation refers to, where its constructors are found through a level.
    fn created(
        &self,
        alloc: Global,
        place: u32,
        class: u32,
        level: Option<u32>,
        arguments: &[RowType],
    ) -> Result<Referent, OutOfMemory>
        ensures { (t : Table) → IsWorld t self.now.world → answers.CanChoose t self.now.world → IfOk result (λ a. answers.IsAnswerOr (answers.IsThrough (Choice self.now.world.under.rows.now t class place None arguments.now (ConstructorOf self.now.world.under.rows.now class)) level) referring.Unbound a) }
    {
        let rows = self.constructed(alloc, class, place, arguments)?;
        Ok(Candidates { rows, level }.answer(Referent::Unbound))
    }

    /// What a creation of an object of a class refers to: one of its constructors (JLS 15.9.3).
    pub fn creation(
        &self,
        alloc: Global,
        place: u32,
        class: u32,
        arguments: &[RowType],
    ) -> Result<Referent, OutOfMemory>
        ensures { (t : Table) → IsWorld t self.now.world → answers.CanChoose t self.now.world → IfOk result (λ a. answers.IsAnswerOr (λ d l. answers.IsCreated self.now.world.under.rows.now t place class arguments.now d l) referring.Unbound a) }
    {
        if !is_inner(self.world.under.rows, class) {
            return self.created(alloc, place, class, None, arguments);
        }
        let level = self.enclosing_new(alloc, place, class)?;
        match level {
            Some(_) => self.created(alloc, place, class, level, arguments),
            None => Ok(Referent::Unbound),
        }
    }

    // The class whose constructor this(..) or super(..) calls.
    fn called_class(&self, place: u32, which: ThisOrSuper) -> Option<u32>
        ensures { (t : Table) → IsWorld t self.now.world → Finds result (λ c. CalledClass self.now.world.under.rows.now t place which c) }
    {
        match self.world.under.places.around(place) {
            Some(around) => self.class_by(around, which),
            None => None,
        }
    }

    // The class, or its superclass.
    fn class_by(&self, class: u32, which: ThisOrSuper) -> Option<u32>
        ensures { (t : Table) → IsWorld t self.now.world → Finds result (answers.IsClassBy self.now.world.under.rows.now t class which) }
    {
        match which {
            ThisOrSuper::This => Some(class),
            ThisOrSuper::Super => self.world.supers.superclass(class),
        }
    }

    // What a call of a constructor refers to (JLS 8.8.7.1).
    fn constructor(
        &self,
        alloc: Global,
        place: u32,
        which: ThisOrSuper,
        arguments: &[RowType],
    ) -> Result<Referent, OutOfMemory>
        ensures { (t : Table) → IsWorld t self.now.world → answers.CanChoose t self.now.world → IfOk result (λ a. answers.IsAnswerOr (λ d l. answers.IsCalled self.now.world.under.rows.now t place which arguments.now d l) referring.Unbound a) }
    {
        match self.called_class(place, which) {
            Some(class) => {
                let rows = self.constructed(alloc, class, place, arguments)?;
                Ok(Candidates { rows, level: None }.answer(Referent::Unbound))
            }
            None => Ok(Referent::Unbound),
        }
    }

    // The superclass of the innermost class, where that has an instance at the place (JLS 15.11.2).
    fn super_before(&self, place: u32) -> Option<u32>
        ensures { (t : Table) → IsWorld t self.now.world → Finds result (λ s. SuperOf self.now.world.under.rows.now t place s) }
    {
        let under = self.world.under;
        match instance_round(under.rows, under.places, place) {
            Some(around) => self.world.supers.superclass(around),
            None => None,
        }
    }

    // What a field of the superclass refers to.
    fn super_field(&self, alloc: Global, place: u32, name: u32) -> Result<Referent, OutOfMemory>
        ensures { (t : Table) (x : Text) → IsWorld t self.now.world → IsNumberOf self.now.world.under.rows.now name x → IfOk result (λ a. answers.IsAnswerOr (λ d l. answers.IsSuperField self.now.world.under.rows.now t x place d l) referring.Unbound a) }
    {
        match self.super_before(place) {
            Some(over) => {
                let rows = self.world.named(alloc, MemberKind::Field, over, name)?;
                Ok(Candidates { rows, level: None }.answer(Referent::Unbound))
            }
            None => Ok(Referent::Unbound),
        }
    }

    // The receiver before the dot of a place.
    fn receiver_at(&self, types: &[Option<RowType>], place: u32) -> Option<Receiver>
        ensures { (t : Table) → behind.CanLook t self.now types.now place → Finds result (λ r. ReceiverOf self.now.world.under.rows.now t (HasConstantForm self.now.world.under.rows.now t) place r.class r.ty) }
    {
        self.receiver(self.left_of(types, place))
    }

    // What a name behind a dot refers to.
    fn qualified_at(
        &self,
        alloc: Global,
        types: &[Option<RowType>],
        place: u32,
        kind: NameKind,
        name: u32,
    ) -> Result<Referent, OutOfMemory>
        ensures { (t : Table) (x : Text) → calls.CanSee t self.now place → (behind.NeedsValue kind → behind.CanLook t self.now types.now place) → IsNumberOf self.now.world.under.rows.now name x → program.name self.now.world.under.rows.now name ≡ x → IfOk result (λ a. calls.LookedFor self.now.world.under.rows.now t place x (seeking.Qualified kind) a) }
    {
        self.qualified(alloc, self.left_of(types, place), kind, name)
    }

    // What the field of an expression refers to.
    fn field_at(
        &self,
        alloc: Global,
        types: &[Option<RowType>],
        place: u32,
        name: u32,
    ) -> Result<Referent, OutOfMemory>
        ensures { (t : Table) (x : Text) → behind.CanLook t self.now types.now place → IsNumberOf self.now.world.under.rows.now name x → program.name self.now.world.under.rows.now name ≡ x → IfOk result (λ a. calls.LookedFor self.now.world.under.rows.now t place x seeking.FieldOf a) }
    {
        self.field(alloc, self.left_of(types, place), name)
    }

    // What a method behind a dot refers to.
    fn method_at(
        &self,
        alloc: Global,
        types: &[Option<RowType>],
        place: u32,
        name: u32,
        arguments: &[RowType],
    ) -> Result<Referent, OutOfMemory>
        ensures { (t : Table) (x : Text) → behind.CanLook t self.now types.now place → IsNumberOf self.now.world.under.rows.now name x → calls.AreArguments self.now.world.under.rows.now t place arguments.now → IfOk result (λ a. calls.LookedFor self.now.world.under.rows.now t place x seeking.MethodOf a) }
    {
        match self.receiver_at(types, place) {
            Some(receiver) => self.method_of(alloc, place, receiver, name, arguments),
            None => Ok(Referent::Unbound),
        }
    }

    // What a method of the superclass refers to.
    fn super_method(
        &self,
        alloc: Global,
        place: u32,
        name: u32,
        arguments: &[RowType],
    ) -> Result<Referent, OutOfMemory>
        ensures { (t : Table) (x : Text) → IsWorld t self.now.world → answers.CanChoose t self.now.world → IsNumberOf self.now.world.under.rows.now name x → calls.AreArguments self.now.world.under.rows.now t place arguments.now → IfOk result (λ a. calls.LookedFor self.now.world.under.rows.now t place x seeking.SuperMethod a) }
    {
        match self.super_before(place) {
            Some(class) => {
                let receiver = Receiver { class, ty: None };
                self.method_of(alloc, place, receiver, name, arguments)
            }
            None => Ok(Referent::Unbound),
        }
    }

    // What a creation of an object of the class that it names refers to.
    fn named_creation(
        &self,
        alloc: Global,
        place: u32,
        arguments: &[RowType],
    ) -> Result<Referent, OutOfMemory>
        ensures { (t : Table) (x : Text) → IsSight t self.now → answers.CanChoose t self.now.world → entries self.now.world.under.table.now (place + 1) ≡ t (place + 1) → calls.AreArguments self.now.world.under.rows.now t place arguments.now → IfOk result (λ a. calls.LookedFor self.now.world.under.rows.now t place x seeking.Creation a) }
    {
        match self.world.under.named_type(place) {
            Some(class) => self.creation(alloc, place, class, arguments),
            None => Ok(Referent::Unbound),
        }
    }

    // What a call refers to, where the types of its arguments are known.
    fn called(
        &self,
        alloc: Global,
        types: &[Option<RowType>],
        place: u32,
        name: u32,
        sought: Sought,
        arguments: &[RowType],
    ) -> Result<Referent, OutOfMemory>
        ensures { (t : Table) (x : Text) → behind.CanLook t self.now types.now place → IsNumberOf self.now.world.under.rows.now name x → calls.AreArguments self.now.world.under.rows.now t place arguments.now → IsCall sought → IfOk result (λ a. calls.LookedFor self.now.world.under.rows.now t place x sought a) }
    {
        match sought {
            Sought::Method => self.method(alloc, place, name, arguments),
            Sought::MethodOf => self.method_at(alloc, types, place, name, arguments),
            Sought::SuperMethod => self.super_method(alloc, place, name, arguments),
            Sought::Creation => self.named_creation(alloc, place, arguments),
            Sought::ConstructorCall { which } => self.constructor(alloc, place, which, arguments),
            _ => Ok(Referent::Unbound),
        }
    }

    // What a call refers to; where the type of an argument is not known it is not bound.
    fn call(
        &self,
        alloc: Global,
        types: &[Option<RowType>],
        place: u32,
        name: u32,
        sought: Sought,
    ) -> Result<Referent, OutOfMemory>
        ensures { (t : Table) (x : Text) → behind.CanLook t self.now types.now place → IsNumberOf self.now.world.under.rows.now name x → IsCall sought → IfOk result (λ a. calls.LookedFor self.now.world.under.rows.now t place x sought a) }
    {
        match self.arguments(alloc, types, place)? {
            Some(arguments) => self.called(alloc, types, place, name, sought, &arguments),
            None => Ok(Referent::Unbound),
        }
    }

    // The label to which a jump refers; labels do not shadow one another (JLS 14.15).
    fn label(&self, alloc: Global, place: u32, name: u32) -> Result<Referent, OutOfMemory>
        ensures { (t : Table) (x : Text) → IsWorld t self.now.world → place < length self.now.world.under.rows.now → IsNumberOf self.now.world.under.rows.now name x → IfOk result (λ a. answers.IsAnswerOr (λ d l. answers.IsLabelAt self.now.world.under.rows.now t x place d l) referring.Unbound a) }
    {
        let found = self.labels(alloc, place, name)?;
        Ok(found.answer(Referent::Unbound))
    }

    // The class of a constructor, to which its name refers.
    fn own_class(&self, place: u32) -> Referent
        ensures { answers.IsAnswerOr (λ c l. answers.IsOwnClass self.now.world.under.rows.now place c l) referring.Unbound result }
    {
        let rows = self.world.under.rows;
        let body = parent_at(rows, place);
        let class = parent_at(rows, body);
        if is_body_of(rows, class, body) {
            Referent::Declared {
                row: class,
                level: None,
            }
        } else {
            Referent::Unbound
        }
    }

    /// What a row looks for refers to, with this name, given by its number; the types of expressions are those of the rows behind it.
    pub fn look_for(
        &self,
        alloc: Global,
        types: &[Option<RowType>],
        place: u32,
        name: u32,
        sought: Sought,
    ) -> Result<Referent, OutOfMemory>
        ensures { (t : Table) (x : Text) → calls.CanSee t self.now place → (calls.NeedsTypes sought → behind.CanLook t self.now types.now place) → IsNumberOf self.now.world.under.rows.now name x → program.name self.now.world.under.rows.now name ≡ x → IfOk result (λ a. calls.LookedFor self.now.world.under.rows.now t place x sought a) }
    {
        match sought {
            Sought::Nothing => Ok(Referent::Unbound),
            Sought::Simple { kind } => self.simple(alloc, place, kind, name),
            Sought::Qualified { kind } => self.qualified_at(alloc, types, place, kind, name),
            Sought::FieldOf => self.field_at(alloc, types, place, name),
            Sought::SuperField => self.super_field(alloc, place, name),
            Sought::OwnClass => Ok(self.own_class(place)),
            Sought::Label => self.label(alloc, place, name),
            _ => self.call(alloc, types, place, name, sought),
        }
    }

    /// What a row refers to, where all else is as the table says.
    pub fn look(
        &self,
        alloc: Global,
        types: &[Option<RowType>],
        place: u32,
    ) -> Result<Referent, OutOfMemory>
        ensures { (t : Table) → calls.CanSee t self.now place → (calls.NeedsTypes (program.sought_at self.now.world.under.rows.now place) → behind.CanLook t self.now types.now place) → IfOk result (λ a. Look self.now.world.under.rows.now t (HasConstantForm self.now.world.under.rows.now t) place a) }
    {
        let under = self.world.under;
        let name = under.places.name(place);
        let sought = sought_at(under.rows, place);
        self.look_for(alloc, types, place, name, sought)
    }
}
