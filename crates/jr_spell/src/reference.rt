// References and what stands before them.
ghost use Rattle.std.specs.Prelude.{◌≡◌, ◌<◌, ◌+◌, ◌^◌, ◌||◌, true, false, nat_lt, is_some, IfSome, length};
ghost use Rattle.jr_tree.specs.Rows.{label, parent, sought_at as seeks};
ghost use Rattle.jr_defs.specs.Referents.{entries};
ghost use Rattle.jr_plain.specs.Declarations as plain;
ghost use Rattle.jr_shapes.specs.Parts as part;
ghost use Rattle.jr_spelling_rules.specs.Candidates as candidate;
ghost use Rattle.jr_spelling_rules.specs.Naming.{kind_before as before_kind};
ghost use Rattle.jr_spell.specs.Forming as forming;
ghost use Rattle.jr_spell.specs.Spellers as tell;
ghost use Rattle.jr_spell.specs.Spelling as spelled;

use crate::fitting::{level_of, target_of};
use crate::resolving::kind_before;
use crate::speller::Speller;
use jr_defs::Referent;
use jr_places::{is_static, is_type, parent_at, role_at, sought_at};
use jr_shapes::{end_of, is_qualifier, named_by, receiver_of};
use jr_tree::{Label, NameKind, NamePlace, ReceiverKind, Role, Row, Sought};

/// Which spellings a reference may have besides the one that keeps its shape.
#[derive(Clone, Copy, Debug, PartialEq, Eq)]
pub enum Form {
    /// None.
    Fixed,
    /// A type.
    OfType,
    /// The name of an import.
    Import,
    /// An instance member without a receiver.
    Instance,
    /// A static member without a receiver, or with a type as one.
    Static,
    /// A member of an expression.
    Behind,
    /// A field through `super`.
    Super,
}

/// What stands before the dot of a reference.
#[derive(Clone, Copy, Debug, PartialEq, Eq)]
pub enum Dot {
    /// There is none, or `super` stands there.
    Absent,
    /// Packages and types, which belong to the reference.
    Names,
    /// An expression.
    Value,
}

/// A reference: the row of its last identifier or of the call, with the packages and types before it.
#[derive(Clone, Copy, Debug, PartialEq, Eq)]
pub struct Reference {
    pub row: u32,
    /// What it must refer to.
    pub lock: Referent,
    pub sought: Sought,
    pub form: Form,
    pub dot: Dot,
    /// The number of the name of its target.
    pub name: u32,
}

/// The row is an identifier before a dot of a name, or of a call.
fn is_before_dot(rows: &[Row], at: u32) -> bool
    ensures { result ≡ plain.is_before_dot (label rows.now at) }
{
    match rows.get(at as usize) {
        Some(row) => match row.label {
            Label::Name {
                place: NamePlace::Qualifier,
                ..
            } => true,
            Label::Name {
                place: NamePlace::Receiver,
                ..
            } => true,
            _ => false,
        },
        None => false,
    }
}

/// The call is one of a method or constructor, whose arguments say what it refers to.
pub fn is_call(sought: Sought) -> bool
    ensures { result ≡ candidate.is_call sought }
{
    match sought {
        Sought::Method => true,
        Sought::MethodOf => true,
        Sought::SuperMethod => true,
        Sought::Creation => true,
        Sought::ConstructorCall { .. } => true,
        _ => false,
    }
}

fn stands_alone(sought: Sought) -> bool
    ensures { result ≡ candidate.stands_alone sought }
{
    match sought {
        Sought::Simple { .. } => true,
        Sought::Method => true,
        _ => false,
    }
}

/// Packages and types stand there.
pub fn is_names(dot: Dot) -> bool
    ensures { result ≡ forming.is_names dot }
{
    match dot {
        Dot::Names => true,
        _ => false,
    }
}

/// A call has a name before its dot.
fn is_name_receiver(receiver: ReceiverKind) -> bool
    ensures { result ≡ forming.is_name_receiver receiver }
{
    match receiver {
        ReceiverKind::Name => true,
        _ => false,
    }
}

fn has_name_before(label: &Label) -> bool
    ensures { result ≡ forming.has_name_before label.now }
{
    match label {
        Label::Name { is_qualified, .. } => *is_qualified,
        Label::Call { receiver } => is_name_receiver(*receiver),
        _ => false,
    }
}

/// The row has a name before its dot.
fn is_behind_name(rows: &[Row], at: u32) -> bool
    ensures { result ≡ forming.has_name_before (label rows.now at) }
{
    match rows.get(at as usize) {
        Some(row) => has_name_before(&row.label),
        None => false,
    }
}

fn ends_behind(rows: &[Row], at: u32) -> bool
    ensures { result ≡ nat_lt at (part.end_of rows.now at) }
{
    at < end_of(rows, at)
}

/// Packages or types stand before the dot.
fn has_parts(rows: &[Row], table: &[Referent], at: u32) -> bool
    ensures { at + 1 < 2 ^ 32 → result ≡ forming.has_parts rows.now (entries table.now) at }
{
    let next = at.saturating_add(1);
    is_behind_name(rows, at) && ends_behind(rows, next) && is_qualifier(rows, table, next)
}

/// An expression stands before the dot.
fn has_value_before(rows: &[Row], table: &[Referent], at: u32) -> bool
    ensures { at + 1 < 2 ^ 32 → result ≡ is_some (part.receiver_of rows.now (entries table.now) at) }
{
    if at == u32::MAX {
        return false;
    }
    receiver_of(rows, table, at).is_some()
}

fn is_static_target(rows: &[Row], lock: Referent) -> bool
    ensures { result ≡ forming.is_static_by rows.now (candidate.target lock) }
{
    match target_of(lock) {
        Some(target) => is_static(rows, target),
        None => false,
    }
}

fn is_import(rows: &[Row], at: u32) -> bool
    ensures { result ≡ candidate.is_import_label (label rows.now at) }
{
    match rows.get(at as usize) {
        Some(row) => match row.label {
            Label::Import { .. } => true,
            _ => false,
        },
        None => false,
    }
}

/// What stands before the dot where that is no package or type.
fn dot_by(sought: Sought) -> Dot
    ensures { forming.is_names result ≡ false }
{
    match sought {
        Sought::Qualified { .. } => Dot::Value,
        Sought::MethodOf => Dot::Value,
        Sought::FieldOf => Dot::Value,
        _ => Dot::Absent,
    }
}

impl Reference {
    /// The kind of its last identifier, where it is one of a name.
    pub fn kind(&self) -> NameKind
        ensures { result ≡ candidate.kind_of self.now.sought }
    {
        match self.sought {
            Sought::Simple { kind } => kind,
            Sought::Qualified { kind } => kind,
            _ => NameKind::Variable,
        }
    }

    /// The kind of an identifier before its last one.
    pub fn kind_before(&self) -> NameKind
        ensures { result ≡ before_kind (candidate.kind_of self.now.sought) }
    {
        kind_before(self.kind())
    }

    /// Whether it is written by identifiers alone, where nothing but packages and types stands before its dot.
    pub fn is_by_names(&self) -> bool
        ensures { result ≡ (candidate.stands_alone self.now.sought || forming.is_names self.now.dot) }
    {
        stands_alone(self.sought) || is_names(self.dot)
    }

    /// Whether it is a call.
    pub fn is_call(&self) -> bool
        ensures { result ≡ candidate.is_call self.now.sought }
    {
        is_call(self.sought)
    }

    /// Whether it is an identifier of a name that stands as an expression.
    pub fn is_variable(&self) -> bool
        ensures { result ≡ candidate.is_variable self.now.sought }
    {
        match self.sought {
            Sought::Simple {
                kind: NameKind::Variable,
            } => true,
            Sought::Qualified {
                kind: NameKind::Variable,
            } => true,
            _ => false,
        }
    }

    /// The declaration that it must refer to.
    pub fn target(&self) -> Option<u32>
        ensures { result ≡ candidate.target self.now.lock }
    {
        target_of(self.lock)
    }

    /// The level of its lock.
    pub fn level(&self) -> Option<u32>
        ensures { result ≡ candidate.level_of self.now.lock }
    {
        level_of(self.lock)
    }
}

impl<'a> Speller<'a> {
    // The row refers to a package or type.
    fn is_package_or_type(&self, at: u32) -> bool
        ensures { result ≡ plain.is_package_or_type (tell.rows_of self.now) (tell.table_of self.now at) }
    {
        let view = self.view;
        match view.sight.world.under.referent(at) {
            Referent::Package => true,
            Referent::Declared { row, .. } => is_type(self.rows(), row),
            _ => false,
        }
    }

    // What stands before the dot of a row that is a reference.
    fn dot_of(&self, at: u32, sought: Sought) -> Dot
        ensures { at + 1 < 2 ^ 32 → forming.is_names result ≡ forming.has_parts (tell.rows_of self.now) (tell.table_of self.now) at }
    {
        let view = self.view;
        let under = view.sight.world.under;
        if has_parts(under.rows, under.table, at) {
            Dot::Names
        } else {
            dot_by(sought)
        }
    }

    fn form_of_type(&self, at: u32) -> Form
        ensures { result ≡ forming.type_form (tell.rows_of self.now) at }
    {
        let view = self.view;
        let under = view.sight.world.under;
        if is_import(under.rows, parent_at(under.rows, at)) {
            Form::Import
        } else {
            Form::OfType
        }
    }

    fn form_of_member(&self, at: u32, lock: Referent) -> Form
        ensures { at + 1 < 2 ^ 32 → lock ≡ tell.table_of self.now at → result ≡ forming.member_form (tell.rows_of self.now) (tell.table_of self.now) at }
    {
        let view = self.view;
        let under = view.sight.world.under;
        if has_value_before(under.rows, under.table, at) {
            return Form::Behind;
        }
        if is_static_target(under.rows, lock) {
            Form::Static
        } else {
            Form::Instance
        }
    }

    fn form_of_role(&self, at: u32, lock: Referent, role: Role) -> Form
        ensures { at + 1 < 2 ^ 32 → lock ≡ tell.table_of self.now at → result ≡ forming.role_form (tell.rows_of self.now) (tell.table_of self.now) at role }
    {
        match role {
            Role::Type => self.form_of_type(at),
            Role::Field => self.form_of_member(at, lock),
            _ => Form::Fixed,
        }
    }

    // The form of an identifier of a name.
    fn form_of_name(&self, at: u32, lock: Referent) -> Form
        ensures { at + 1 < 2 ^ 32 → lock ≡ tell.table_of self.now at → result ≡ forming.name_form (tell.rows_of self.now) (tell.table_of self.now) at (candidate.target lock) }
    {
        let view = self.view;
        let under = view.sight.world.under;
        match target_of(lock) {
            Some(target) => self.form_of_role(at, lock, role_at(under.rows, target)),
            None => Form::Fixed,
        }
    }

    fn form_of(&self, at: u32, lock: Referent, sought: Sought) -> Form
        ensures { at + 1 < 2 ^ 32 → lock ≡ tell.table_of self.now at → result ≡ forming.form_by (tell.rows_of self.now) (tell.table_of self.now) at (candidate.target lock) sought }
    {
        match sought {
            Sought::Simple { .. } => self.form_of_name(at, lock),
            Sought::Qualified { .. } => self.form_of_name(at, lock),
            Sought::FieldOf => Form::Behind,
            Sought::SuperField => Form::Super,
            Sought::Method => self.form_of_member(at, lock),
            Sought::MethodOf => self.form_of_member(at, lock),
            _ => Form::Fixed,
        }
    }

    // The number of the name that the identifier gets: that of what it must refer to.
    fn name_of(&self, at: u32, lock: Referent) -> u32
        ensures { tell.IsWholeSpeller self.now → tell.HasTarget (tell.rows_of self.now) lock → at < length (tell.rows_of self.now) → result ≡ tell.number_by (tell.rows_of self.now) at lock }
    {
        let view = self.view;
        let under = view.sight.world.under;
        under.places.name(named_by(under.rows, at, lock))
    }

    fn reference_to(&self, row: u32, lock: Referent, sought: Sought) -> Reference
        ensures row { result.row ≡ row }
        ensures lock { result.lock ≡ lock }
        ensures sought { result.sought ≡ sought }
        ensures whole { tell.IsWholeSpeller self.now → lock ≡ tell.table_of self.now row → sought ≡ seeks (tell.rows_of self.now) row → row < length (tell.rows_of self.now) → tell.IsKnown (tell.rows_of self.now) lock → tell.IsSought self.now result }
    {
        Reference {
            row,
            lock,
            sought,
            form: self.form_of(row, lock, sought),
            dot: self.dot_of(row, sought),
            name: self.name_of(row, lock),
        }
    }

    // A package or type before a dot belongs to the reference behind it.
    fn is_part(&self, row: u32) -> bool
        ensures { result ≡ plain.is_part (tell.rows_of self.now) (tell.table_of self.now) row }
    {
        is_before_dot(self.rows(), row) && self.is_package_or_type(row)
    }

    /// The reference at a row, if it is one that has a lock.
    pub fn reference(&self, row: u32) -> Option<Reference>
        ensures row { IfSome result (λ r. r.row ≡ row) }
        ensures at_row { IfSome result (λ r. tell.IsAtRow self.now r) }
        ensures there { spelled.HasLock (tell.rows_of self.now) (tell.table_of self.now) row → is_some result ≡ true }
        ensures whole { tell.IsWholeSpeller self.now → row < length (tell.rows_of self.now) → tell.IsKnown (tell.rows_of self.now) (tell.table_of self.now row) → IfSome result (λ r. tell.IsSought self.now r) }
    {
        let view = self.view;
        let rows = view.sight.world.under.rows;
        if self.is_part(row) {
            return None;
        }
        let sought = sought_at(rows, row);
        match sought {
            Sought::Nothing => None,
            _ => self.reference_with(row, sought),
        }
    }

    // The reference, where it has a lock.
    fn reference_with(&self, row: u32, sought: Sought) -> Option<Reference>
        ensures row { IfSome result (λ r. r.row ≡ row) }
        ensures lock { IfSome result (λ r. r.lock ≡ tell.table_of self.now row) }
        ensures sought { IfSome result (λ r. r.sought ≡ sought) }
        ensures there { spelled.HasLock (tell.rows_of self.now) (tell.table_of self.now) row → is_some result ≡ true }
        ensures whole { tell.IsWholeSpeller self.now → sought ≡ seeks (tell.rows_of self.now) row → row < length (tell.rows_of self.now) → tell.IsKnown (tell.rows_of self.now) (tell.table_of self.now row) → IfSome result (λ r. tell.IsSought self.now r) }
    {
        let view = self.view;
        let lock = view.sight.world.under.referent(row);
        match lock {
            Referent::Unbound => None,
            Referent::Ambiguous => None,
            _ => Some(self.reference_to(row, lock, sought)),
        }
    }
}
