// One element of a batch.
ghost use Rattle.std.specs.Prelude.{◌≡◌, option_copied, find, not, string_bytes, string_cmp};
ghost use Rattle.std.specs.List.{list_any};
ghost use Rattle.std.specs.Str.{bytes_eq};
ghost use Rattle.std.specs.BTreeMap.{keys, IsOrdered};
ghost use Rattle.serde_json.specs.View.{view};
ghost use Rattle.jr_request.specs.Batch.{key_of, fields_of, belongs, action_named, action_of, text_at, offset_at};
ghost use Rattle.jr_request.specs.Steps.{IsFaultAt, ReadsField, ReadsFields, ReadsElement, IsOtherKey};

use crate::RequestFault;
use jr_base::{Request, Text};
use serde_json::{Map, Value};
use std::alloc::Global;

// What an element asks for.
#[derive(Clone, Copy)]
pub(crate) enum Action {
    Rename,
    Move,
    Extract,
    Inline,
    PullUp,
}

// A member of an element beside `do`.
#[derive(Clone, Copy)]
pub(crate) enum Field {
    File,
    At,
    From,
    To,
    Name,
    Package,
}

impl Field {
    fn key(self) -> &'static str
        ensures { result.now ≡ key_of self }
    {
        match self {
            Field::File => "file",
            Field::At => "at",
            Field::From => "from",
            Field::To => "to",
            Field::Name => "name",
            Field::Package => "package",
        }
    }
}

impl Action {
    fn named(word: &str) -> Option<Action>
        ensures { result ≡ action_named word.now }
    {
        if word == "rename" {
            Some(Action::Rename)
        } else if word == "move" {
            Some(Action::Move)
        } else if word == "extract" {
            Some(Action::Extract)
        } else if word == "inline" {
            Some(Action::Inline)
        } else if word == "pullup" {
            Some(Action::PullUp)
        } else {
            None
        }
    }

    fn of(element: &Value) -> Option<Action>
        ensures { result ≡ action_of (view element.now) }
    {
        let word = element.get("do").and_then(Value::as_str)?;
        Action::named(word)
    }

    // The fields, in the order in which they are tested.
    fn fields(self) -> &'static [Field]
        ensures { result.now ≡ fields_of self }
    {
        match self {
            Action::Rename => &[Field::File, Field::At, Field::Name],
            Action::Move => &[Field::File, Field::At, Field::Package],
            Action::Extract => &[Field::File, Field::From, Field::To, Field::Name],
            Action::Inline | Action::PullUp => &[Field::File, Field::At],
        }
    }

    fn has(self, key: &str) -> bool
        ensures { result ≡ belongs self key.now }
    {
        key == "do" || self.has_field(key)
    }

    fn has_field(self, key: &str) -> bool
        ensures { result ≡ list_any (λ field. bytes_eq key.now (key_of field)) (fields_of self) }
    {
        self.fields().iter().any(|field| key == field.key())
    }
}

pub(crate) fn bad_field(alloc: Global, number: u32, key: &str) -> RequestFault
    ensures { IsFaultAt number key.now result }
{
    match key.as_bytes().to_vec(alloc) {
        Ok(bytes) => RequestFault::BadField {
            request: number,
            field: Text::new(bytes),
        },
        Err(_) => RequestFault::OutOfMemory,
    }
}

fn text(alloc: Global, element: &Value, number: u32, field: Field) -> Result<Text, RequestFault>
    ensures { ReadsField result number field (text_at (key_of field) (view element.now)) }
{
    match element.get(field.key()).and_then(Value::as_str) {
        None => Err(bad_field(alloc, number, field.key())),
        Some(text) => Ok(Text::new(text.as_bytes().to_vec(alloc)?)),
    }
}

fn offset(alloc: Global, element: &Value, number: u32, field: Field) -> Result<u32, RequestFault>
    ensures { ReadsField result number field (offset_at (key_of field) (view element.now)) }
{
    match element.get(field.key()).and_then(Value::as_u64) {
        Some(at) if at <= 4_294_967_295 => Ok(at as u32),
        _ => Err(bad_field(alloc, number, field.key())),
    }
}

fn rename(alloc: Global, element: &Value, number: u32) -> Result<Request, RequestFault>
    ensures { ReadsFields result number Action.Rename (view element.now) }
{
    let file = text(alloc, element, number, Field::File)?;
    let at = offset(alloc, element, number, Field::At)?;
    let name = text(alloc, element, number, Field::Name)?;
    Ok(Request::Rename { file, at, name })
}

fn move_type(alloc: Global, element: &Value, number: u32) -> Result<Request, RequestFault>
    ensures { ReadsFields result number Action.Move (view element.now) }
{
    let file = text(alloc, element, number, Field::File)?;
    let at = offset(alloc, element, number, Field::At)?;
    let package = text(alloc, element, number, Field::Package)?;
    Ok(Request::Move { file, at, package })
}

fn extract(alloc: Global, element: &Value, number: u32) -> Result<Request, RequestFault>
    ensures { ReadsFields result number Action.Extract (view element.now) }
{
    let file = text(alloc, element, number, Field::File)?;
    let start = offset(alloc, element, number, Field::From)?;
    let end = offset(alloc, element, number, Field::To)?;
    let name = text(alloc, element, number, Field::Name)?;
    Ok(Request::Extract {
        file,
        start,
        end,
        name,
    })
}

fn inline(alloc: Global, element: &Value, number: u32) -> Result<Request, RequestFault>
    ensures { ReadsFields result number Action.Inline (view element.now) }
{
    let file = text(alloc, element, number, Field::File)?;
    let at = offset(alloc, element, number, Field::At)?;
    Ok(Request::Inline { file, at })
}

fn pull_up(alloc: Global, element: &Value, number: u32) -> Result<Request, RequestFault>
    ensures { ReadsFields result number Action.PullUp (view element.now) }
{
    let file = text(alloc, element, number, Field::File)?;
    let at = offset(alloc, element, number, Field::At)?;
    Ok(Request::PullUp { file, at })
}

fn read_fields(
    alloc: Global,
    element: &Value,
    number: u32,
    action: Action,
) -> Result<Request, RequestFault>
    ensures { ReadsFields result number action (view element.now) }
{
    match action {
        Action::Rename => rename(alloc, element, number),
        Action::Move => move_type(alloc, element, number),
        Action::Extract => extract(alloc, element, number),
        Action::Inline => inline(alloc, element, number),
        Action::PullUp => pull_up(alloc, element, number),
    }
}

// The members are in the order of their keys.
fn first_other(members: &Map<String, Value>, action: Action) -> Option<&String>
    ensures first { option_copied result
        ≡ find (λ key. not (belongs action (string_bytes key))) (keys members.now) }
    ensures rise { IsOrdered string_cmp members.now }
{
    members.keys().find(|key| !action.has(key.as_str()))
}

fn other_key(element: &Value, action: Action) -> Option<&String>
    ensures { IsOtherKey action (view element.now) (option_copied result) }
{
    match element.as_object() {
        Some(members) => first_other(members, action),
        None => None,
    }
}

pub(crate) fn read_element(
    alloc: Global,
    element: &Value,
    number: u32,
) -> Result<Request, RequestFault>
    ensures { ReadsElement result number (view element.now) }
{
    let Some(action) = Action::of(element) else {
        return Err(bad_field(alloc, number, "do"));
    };
    let request = read_fields(alloc, element, number, action)?;
    match other_key(element, action) {
        None => Ok(request),
        Some(key) => Err(bad_field(alloc, number, key.as_str())),
    }
}
