// Arguments of calls, and what calls refer to as they stand.
ghost use Rattle.std.specs.Prelude.{◌≡◌, ◌+◌, ◌<◌, ◌^◌, true, Some, None, length, nat_eq, option_map, IfOk};
ghost use Rattle.jr_base.specs.declared.text.Text.{Text};
ghost use Rattle.jr_tree.specs.Rows.{label, name as name_of, parent, role_at as role, sought_at as seeks};
ghost use Rattle.jr_tree.specs.declared.label.Sought.TheVariants as sought;
ghost use Rattle.jr_defs.specs.Constants.{HasConstantForm};
ghost use Rattle.jr_defs.specs.declared.referent.Referent.TheVariants as referring;
ghost use Rattle.jr_defs.specs.declared.referent.Space.TheVariants as space;
ghost use Rattle.jr_defs.specs.Enclosing.{ConstructorOf};
ghost use Rattle.jr_defs.specs.Lookup.{CalledClass, SuperOf, arguments_by};
ghost use Rattle.jr_defs.specs.Lookup.{Receiver as ReceiverOf};
ghost use Rattle.jr_defs.specs.Members.{MemberNamed};
ghost use Rattle.jr_defs.specs.Overloads.{Choice};
ghost use Rattle.jr_defs.specs.Types.{class_type as type_of_class};
ghost use Rattle.jr_plain.specs.Lookup.{arguments as arguments_of};
ghost use Rattle.jr_plain.specs.Overloads.{argument_types as types_behind};
ghost use Rattle.jr_plain.specs.Search.{Finds};
ghost use Rattle.jr_plain.specs.Types.{parameters};
ghost use Rattle.jr_supers.specs.Tabled.{is_callable as is_callable_role};
ghost use Rattle.jr_lookup.specs.Answers as answers;
ghost use Rattle.jr_spelling_rules.specs.Candidates as candidate;
ghost use Rattle.jr_spelling_rules.specs.Naming as naming;
ghost use Rattle.jr_spelling_rules.specs.Spelling as rule;
ghost use Rattle.jr_spell.specs.Calling as calling;
ghost use Rattle.jr_spell.specs.Shaping as shaping;
ghost use Rattle.jr_spell.specs.Spellers as tell;
ghost use Rattle.jr_spell.specs.Spelling as spelled;
ghost use Rattle.jr_spell.specs.Standing as standing;

use crate::reference::Reference;
use crate::resolving::Before;
use crate::speller::Speller;
use jr_base::OutOfMemory;
use jr_defs::{Referent, RowType};
use jr_lookup::{Candidates, Receiver, choose, instance_round};
use jr_places::{end_at, parent_at, role_at};
use jr_shapes::TypeName;
use jr_supers::{class_type, is_callable};
use jr_tree::{Row, Sought, ThisOrSuper};
use std::alloc::Global;

/// The arguments of what is sought so begin behind its first child: the receiver, or the class that a creation names.
fn begins_behind(sought: Sought) -> bool
    ensures { result ≡ calling.begins_behind sought }
{
    match sought {
        Sought::MethodOf => true,
        Sought::Creation => true,
        _ => false,
    }
}

// The first row where an argument may stand.
fn first_argument(rows: &[Row], place: u32, sought: Sought) -> u32
    ensures { place + 2 < 2 ^ 32 → sought ≡ seeks rows.now place → result ≡ arguments_by (label rows.now place) rows.now place }
{
    let next = place.saturating_add(1);
    if begins_behind(sought) {
        end_at(rows, next)
    } else {
        next
    }
}

// The row stands right below the other.
fn is_inside(rows: &[Row], over: u32, at: u32) -> bool
    ensures { result ≡ nat_eq (parent rows.now at) over }
{
    parent_at(rows, at) == over
}

impl<'a> Speller<'a> {
    /// The types of the arguments of a call, if all are known.
    pub fn argument_types(
        &self,
        alloc: Global,
        reference: &Reference,
    ) -> Result<Option<Vec<RowType>>, OutOfMemory>
        ensures { tell.IsWholeSpeller self.now → tell.IsSought self.now reference.now → IfOk result (λ found. option_map (λ all. all.items) found ≡ arguments_of (tell.rows_of self.now) (tell.types_of self.now) reference.now.row) }
    {
        let view = self.view;
        let rows = view.sight.world.under.rows;
        let first = first_argument(rows, reference.row, reference.sought);
        self.types_from(alloc, reference.row, first)
    }

    // The types of the arguments of a call from a row on, if all are known.
    fn types_from(
        &self,
        alloc: Global,
        place: u32,
        first: u32,
    ) -> Result<Option<Vec<RowType>>, OutOfMemory>
        ensures { tell.IsWholeSpeller self.now → place < first → IfOk result (λ found. option_map (λ all. all.items) found ≡ types_behind (tell.rows_of self.now) (tell.types_of self.now) place (length (tell.rows_of self.now)) first) }
    {
        let view = self.view;
        let rows = view.sight.world.under.rows;
        let mut all = Vec::new(alloc);
        let mut child = first;
        for _turn in 0..rows.len() {
            if !is_inside(rows, place, child) {
                return Ok(Some(all));
            }
            match self.type_at(child) {
                Some(ty) => all.push(ty)?,
                None => return Ok(None),
            }
            child = end_at(rows, child);
        }
        Ok(Some(all))
    }

    /// The types of the parameters of what a call must refer to.
    pub fn parameter_types(
        &self,
        alloc: Global,
        reference: &Reference,
    ) -> Result<Option<Vec<RowType>>, OutOfMemory>
        ensures { tell.IsWholeSpeller self.now → IfOk result (λ found. option_map (λ all. all.items) found ≡ calling.parameters_of (tell.rows_of self.now) (tell.table_of self.now) reference.now.lock) }
    {
        match reference.target() {
            Some(target) => self.types_of_callable(alloc, target),
            None => Ok(None),
        }
    }

    // The types of the parameters of a method or constructor. What is neither is answered by want of memory.
    fn types_of_callable(
        &self,
        alloc: Global,
        target: u32,
    ) -> Result<Option<Vec<RowType>>, OutOfMemory>
        ensures { tell.IsWholeSpeller self.now → IfOk result (λ found. option_map (λ all. all.items) found ≡ parameters (tell.rows_of self.now) (tell.table_of self.now) target) }
    {
        let view = self.view;
        if !is_callable(role_at(view.sight.world.under.rows, target)) {
            return Err(OutOfMemory);
        }
        match view.sight.world.members.signatures().count(target) {
            Some(count) => self.first_types(alloc, target, count),
            None => Ok(None),
        }
    }

    // The types of all parameters of a method or constructor, which are so many.
    fn first_types(
        &self,
        alloc: Global,
        target: u32,
        count: u32,
    ) -> Result<Option<Vec<RowType>>, OutOfMemory>
        ensures { tell.IsWholeSpeller self.now → is_callable_role (role (tell.rows_of self.now) target) ≡ true → option_map (λ all. length all) (parameters (tell.rows_of self.now) (tell.table_of self.now) target) ≡ Some count → IfOk result (λ found. option_map (λ all. all.items) found ≡ parameters (tell.rows_of self.now) (tell.table_of self.now) target) }
    {
        let view = self.view;
        let signatures = view.sight.world.members.signatures();
        let mut all = Vec::new(alloc);
        for nth in 0..count {
            match signatures.parameter(target, nth) {
                Some(ty) => all.push(ty)?,
                None => return Ok(None),
            }
        }
        Ok(Some(all))
    }

    /// How types are written in casts of the arguments of a call.
    pub fn casts(
        &self,
        alloc: Global,
        place: u32,
        types: &[RowType],
    ) -> Result<Option<Vec<TypeName>>, OutOfMemory>
        ensures { tell.IsWholeSpeller self.now → place < length (tell.rows_of self.now) → IfOk result (λ found. option_map (λ all. all.items) found ≡ rule.written_types (tell.rows_of self.now) (tell.table_of self.now) place types.now) }
    {
        let mut all = Vec::new(alloc);
        for ty in types {
            match self.written_type(alloc, place, *ty)? {
                Some(name) => all.push(name)?,
                None => return Ok(None),
            }
        }
        Ok(Some(all))
    }

    /// What a method with names or nothing before it refers to.
    pub fn named_method(
        &self,
        alloc: Global,
        reference: &Reference,
        arguments: &[RowType],
        before: Before,
    ) -> Result<Referent, OutOfMemory>
        ensures { (b : naming.Before) → tell.IsWholeSpeller self.now → tell.IsSought self.now reference.now → standing.StandsFor self.now before b → IfOk result (λ a. a ≡ shaping.method_found (tell.rows_of self.now) (tell.table_of self.now) reference.now.row b arguments.now (name_of (tell.rows_of self.now) reference.now.name)) }
    {
        match before {
            Before::Nothing => self.method_alone(alloc, reference, arguments),
            Before::OfType(class) => self.method_of_type(alloc, reference, arguments, class),
            Before::Package(_) => Ok(Referent::Unbound),
        }
    }

    // What a method with nothing before it refers to.
    fn method_alone(
        &self,
        alloc: Global,
        reference: &Reference,
        arguments: &[RowType],
    ) -> Result<Referent, OutOfMemory>
        ensures { tell.IsWholeSpeller self.now → tell.IsSought self.now reference.now → IfOk result (λ a. a ≡ shaping.method_found (tell.rows_of self.now) (tell.table_of self.now) reference.now.row naming.at_start arguments.now (name_of (tell.rows_of self.now) reference.now.name)) }
    {
        let view = self.view;
        view.sight
            .method(alloc, reference.row, reference.name, arguments)
    }

    // What a method behind the name of a type refers to.
    fn method_of_type(
        &self,
        alloc: Global,
        reference: &Reference,
        arguments: &[RowType],
        class: u32,
    ) -> Result<Referent, OutOfMemory>
        ensures { tell.IsWholeSpeller self.now → tell.IsSought self.now reference.now → IfOk result (λ a. a ≡ shaping.method_found (tell.rows_of self.now) (tell.table_of self.now) reference.now.row (naming.in_type class) arguments.now (name_of (tell.rows_of self.now) reference.now.name)) }
    {
        self.method_of(alloc, reference, arguments, Receiver { class, ty: None })
    }

    /// What a method of a receiver refers to.
    pub fn method_of(
        &self,
        alloc: Global,
        reference: &Reference,
        arguments: &[RowType],
        receiver: Receiver,
    ) -> Result<Referent, OutOfMemory>
        ensures { tell.IsWholeSpeller self.now → tell.IsSought self.now reference.now → IfOk result (λ a. answers.IsAnswerOr (answers.IsFree (Choice (tell.rows_of self.now) (tell.table_of self.now) receiver.class reference.now.row receiver.ty arguments.now (MemberNamed (tell.rows_of self.now) (tell.table_of self.now) space.Method (name_of (tell.rows_of self.now) reference.now.name) receiver.class))) referring.Unbound a) }
    {
        let view = self.view;
        view.sight
            .method_of(alloc, reference.row, receiver, reference.name, arguments)
    }

    /// What a method of an object of a class refers to.
    pub fn method_of_class(
        &self,
        alloc: Global,
        reference: &Reference,
        arguments: &[RowType],
        class: u32,
    ) -> Result<Referent, OutOfMemory>
        ensures { tell.IsWholeSpeller self.now → tell.IsSought self.now reference.now → IfOk result (λ a. answers.IsAnswerOr (answers.IsFree (Choice (tell.rows_of self.now) (tell.table_of self.now) class reference.now.row (Some (type_of_class class)) arguments.now (MemberNamed (tell.rows_of self.now) (tell.table_of self.now) space.Method (name_of (tell.rows_of self.now) reference.now.name) class))) referring.Unbound a) }
    {
        let ty = class_type(class);
        self.method_of(
            alloc,
            reference,
            arguments,
            Receiver {
                class,
                ty: Some(ty),
            },
        )
    }

    // The superclass of the innermost class, where that has an instance at the place (JLS 15.11.2).
    fn super_class(&self, place: u32) -> Option<u32>
        ensures { tell.IsSeenSpeller self.now → Finds result (λ s. SuperOf (tell.rows_of self.now) (tell.table_of self.now) place s) }
    {
        let view = self.view;
        let under = view.sight.world.under;
        match instance_round(under.rows, under.places, place) {
            Some(around) => view.sight.world.supers.superclass(around),
            None => None,
        }
    }

    // What a method through `super` refers to (JLS 15.12.1).
    fn super_method(
        &self,
        alloc: Global,
        reference: &Reference,
        arguments: &[RowType],
    ) -> Result<Referent, OutOfMemory>
        ensures { tell.IsWholeSpeller self.now → tell.IsSought self.now reference.now → IfOk result (λ a. a ≡ calling.call_found (tell.rows_of self.now) (tell.table_of self.now) (tell.types_of self.now) reference.now.row sought.SuperMethod arguments.now (name_of (tell.rows_of self.now) reference.now.name)) }
    {
        match self.super_class(reference.row) {
            Some(class) => {
                self.method_of(alloc, reference, arguments, Receiver { class, ty: None })
            }
            None => Ok(Referent::Unbound),
        }
    }

    // What stands before the dot of a method of an expression.
    fn receiver_at(&self, place: u32) -> Option<Receiver>
        ensures { tell.IsWholeSpeller self.now → place < length (tell.rows_of self.now) → spelled.HasTypes (tell.rows_of self.now) (tell.table_of self.now) (tell.types_of self.now) → Finds result (λ r. ReceiverOf (tell.rows_of self.now) (tell.table_of self.now) (HasConstantForm (tell.rows_of self.now) (tell.table_of self.now)) place r.class r.ty) }
    {
        let view = self.view;
        let left = view.sight.left_of(view.types, place);
        view.sight.receiver(left)
    }

    // What a method of the expression before the dot refers to.
    fn method_of_value(
        &self,
        alloc: Global,
        reference: &Reference,
        arguments: &[RowType],
    ) -> Result<Referent, OutOfMemory>
        ensures { tell.IsWholeSpeller self.now → tell.IsSought self.now reference.now → spelled.HasTypes (tell.rows_of self.now) (tell.table_of self.now) (tell.types_of self.now) → IfOk result (λ a. a ≡ calling.call_found (tell.rows_of self.now) (tell.table_of self.now) (tell.types_of self.now) reference.now.row sought.MethodOf arguments.now (name_of (tell.rows_of self.now) reference.now.name)) }
    {
        match self.receiver_at(reference.row) {
            Some(receiver) => self.method_of(alloc, reference, arguments, receiver),
            None => Ok(Referent::Unbound),
        }
    }

    // The class, or its superclass.
    fn class_by(&self, class: u32, which: ThisOrSuper) -> Option<u32>
        ensures { tell.IsSeenSpeller self.now → Finds result (answers.IsClassBy (tell.rows_of self.now) (tell.table_of self.now) class which) }
    {
        let view = self.view;
        match which {
            ThisOrSuper::This => Some(class),
            ThisOrSuper::Super => view.sight.world.supers.superclass(class),
        }
    }

    // The class whose constructor is called.
    fn called_class(&self, place: u32, which: ThisOrSuper) -> Option<u32>
        ensures { tell.IsSeenSpeller self.now → Finds result (λ c. CalledClass (tell.rows_of self.now) (tell.table_of self.now) place which c) }
    {
        let view = self.view;
        match view.sight.world.under.places.around(place) {
            Some(around) => self.class_by(around, which),
            None => None,
        }
    }

    // What a call of a constructor of the class refers to.
    fn constructor_of(
        &self,
        alloc: Global,
        place: u32,
        class: u32,
        arguments: &[RowType],
    ) -> Result<Referent, OutOfMemory>
        ensures { tell.IsWholeSpeller self.now → IfOk result (λ a. answers.IsAnswerOr (answers.IsFree (Choice (tell.rows_of self.now) (tell.table_of self.now) class place None arguments.now (ConstructorOf (tell.rows_of self.now) class))) referring.Unbound a) }
    {
        let view = self.view;
        let world = view.sight.world;
        let constructors = world.members.constructors(alloc, class)?;
        let rows = choose(alloc, world, class, place, None, arguments, &constructors)?;
        Ok(Candidates { rows, level: None }.answer(Referent::Unbound))
    }

    // What a call of a constructor refers to (JLS 8.8.7.1).
    fn constructor(
        &self,
        alloc: Global,
        place: u32,
        which: ThisOrSuper,
        arguments: &[RowType],
    ) -> Result<Referent, OutOfMemory>
        ensures { (x : Text) → tell.IsWholeSpeller self.now → IfOk result (λ a. a ≡ calling.call_found (tell.rows_of self.now) (tell.table_of self.now) (tell.types_of self.now) place (sought.ConstructorCall which) arguments.now x) }
    {
        match self.called_class(place, which) {
            Some(class) => self.constructor_of(alloc, place, class, arguments),
            None => Ok(Referent::Unbound),
        }
    }

    // What a creation refers to, the class being that of its lock.
    fn creation(
        &self,
        alloc: Global,
        place: u32,
        arguments: &[RowType],
    ) -> Result<Referent, OutOfMemory>
        ensures { (x : Text) → tell.IsWholeSpeller self.now → IfOk result (λ a. a ≡ calling.call_found (tell.rows_of self.now) (tell.table_of self.now) (tell.types_of self.now) place sought.Creation arguments.now x) }
    {
        let view = self.view;
        match view.sight.world.under.named_type(place) {
            Some(class) => view.sight.creation(alloc, place, class, arguments),
            None => Ok(Referent::Unbound),
        }
    }

    /// What a call refers to as it stands, its arguments having these types.
    pub fn called(
        &self,
        alloc: Global,
        reference: &Reference,
        arguments: &[RowType],
    ) -> Result<Referent, OutOfMemory>
        ensures { tell.IsWholeSpeller self.now → tell.IsSought self.now reference.now → spelled.HasTypes (tell.rows_of self.now) (tell.table_of self.now) (tell.types_of self.now) → candidate.is_call reference.now.sought ≡ true → IfOk result (λ a. a ≡ calling.call_found (tell.rows_of self.now) (tell.table_of self.now) (tell.types_of self.now) reference.now.row reference.now.sought arguments.now (name_of (tell.rows_of self.now) reference.now.name)) }
    {
        match reference.sought {
            Sought::Method => self.method_alone(alloc, reference, arguments),
            Sought::MethodOf => self.method_of_value(alloc, reference, arguments),
            Sought::SuperMethod => self.super_method(alloc, reference, arguments),
            Sought::Creation => self.creation(alloc, reference.row, arguments),
            Sought::ConstructorCall { which } => {
                self.constructor(alloc, reference.row, which, arguments)
            }
            _ => Ok(Referent::Unbound),
        }
    }
}
