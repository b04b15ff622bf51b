// The method that is pulled up.
ghost use Rattle.std.specs.Prelude.{◌≡◌, ◌<◌, ◌^◌, length};
ghost use Rattle.jr_marks.specs.Places.{IsOrdered};
ghost use Rattle.jr_pullup.specs.Pulling as spec;

use jr_change::{Project, Reason};
use jr_draft::is_in_prelude;
use jr_marks::Marks;
use jr_places::{declaring_type, end_at, is_body_of, is_class, is_inner, role_at};
use jr_tree::{Role, Row};

/// A method of a class that goes to its superclass, by rows.
#[derive(Clone, Copy)]
pub struct Pulled {
    pub method: u32,
    pub class: u32,
    pub superclass: u32,
    /// The body of the superclass.
    pub body: u32,
}

fn is_method(rows: &[Row], declared: u32) -> bool
    ensures { result ≡ spec.is_method rows.now declared }
{
    match role_at(rows, declared) {
        Role::Method => true,
        _ => false,
    }
}

// The class that declares the method, if the declaration is a method of a class.
fn class_of_method(rows: &[Row], declared: u32) -> Option<u32>
    ensures { result ≡ spec.class_of_method rows.now declared }
{
    let over = declaring_type(rows, declared)?;
    if is_method(rows, declared) && is_class(rows, over) {
        Some(over)
    } else {
        None
    }
}

// The one row stands below the other.
fn is_below(rows: &[Row], at: u32, over: u32) -> bool
    ensures { result ≡ spec.is_below rows.now at over }
{
    over < at && at < end_at(rows, over)
}

// The class is an inner class that stands inside the other one.
fn is_inner_of(rows: &[Row], class: u32, outer: u32) -> bool
    ensures { result ≡ spec.is_inner_of rows.now class outer }
{
    is_inner(rows, class) && is_below(rows, class, outer)
}

// The superclass takes a method of the class.
fn takes(marks: &Marks, class: u32, superclass: u32) -> bool
    ensures { IsOrdered marks.now → result ≡ spec.takes marks.now class superclass }
{
    !is_in_prelude(marks, superclass) && !is_inner_of(marks.rows, class, superclass)
}

// The body of a type.
fn body_of(rows: &[Row], over: u32) -> Option<u32>
    ensures { length rows.now < 2 ^ 32 → result ≡ spec.body_of rows.now over }
{
    for at in over..end_at(rows, over) {
        if is_body_of(rows, over, at) {
            return Some(at);
        }
    }
    None
}

// What goes to the body of a superclass, if that has one.
fn into_body(method: u32, class: u32, superclass: u32, body: Option<u32>) -> Result<Pulled, Reason>
    ensures { result ≡ spec.into_body method class superclass body }
{
    match body {
        Some(body) => Ok(Pulled {
            method,
            class,
            superclass,
            body,
        }),
        None => Err(Reason::BadSuperclass),
    }
}

// What goes to a superclass, if that takes it.
fn into_superclass(
    marks: &Marks,
    method: u32,
    class: u32,
    above: Option<u32>,
) -> Result<Pulled, Reason>
    ensures { IsOrdered marks.now → result ≡ spec.into_superclass marks.now method class above }
{
    let Some(superclass) = above else {
        return Err(Reason::BadSuperclass);
    };
    if takes(marks, class, superclass) {
        into_body(method, class, superclass, body_of(marks.rows, superclass))
    } else {
        Err(Reason::BadSuperclass)
    }
}

// The declaration as a method that goes to the superclass of its class, or the reason why it cannot.
#[tactic(auto, using(crate::proofs::Raising::other_kind_so, crate::proofs::Raising::upwards_so))]
fn pulled_of(old: &Project, declared: u32) -> Result<Pulled, Reason>
    ensures { IsOrdered old.now.marks → spec.IsPulled old.now declared result }
{
    match class_of_method(old.marks.rows, declared) {
        None => Err(Reason::WrongKind),
        Some(class) => {
            let above = old.view.sight.world.supers.superclass(class);
            into_superclass(&old.marks, declared, class, above)
        }
    }
}

impl Pulled {
    /// What is asked for as a method that goes to the superclass of its class, or the reason why it cannot.
    pub fn of(old: &Project, declared: Option<u32>) -> Result<Pulled, Reason>
        ensures { IsOrdered old.now.marks → spec.IsPulledFor old.now declared result }
    {
        match declared {
            None => Err(Reason::WrongKind),
            Some(declared) => pulled_of(old, declared),
        }
    }
}
