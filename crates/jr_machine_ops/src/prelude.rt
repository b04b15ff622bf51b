// The classes and methods of the prelude that the machine knows by itself.
ghost use Rattle.std.specs.Prelude.{◌≡◌};
ghost use Rattle.jr_machine_defs.specs.Prelude.{decl_at, type_at, fault_class, object_class, string_class, to_string_method, length_method, char_at_method, equals_method, print_method};

use jr_base::{CuId, DeclId, NodeAt, NodeId, TypeId};
use jr_machine_defs::Fault;

/// The declaration at this node of a unit of the prelude.
pub const fn decl_at(cu: u32, node: u32) -> DeclId
    ensures { result ≡ decl_at cu node }
{
    DeclId {
        at: NodeAt {
            cu: CuId(cu),
            node: NodeId(node),
        },
        part: 0,
    }
}

/// The class at this node of `java.lang`.
pub const fn type_at(node: u32) -> TypeId
    ensures { result ≡ type_at node }
{
    TypeId(decl_at(0, node))
}

/// The class of an exception that the machine throws.
pub fn fault_class(fault: Fault) -> TypeId
    ensures { result ≡ fault_class fault }
{
    match fault {
        Fault::Arithmetic => type_at(118),
        Fault::NullPointer => type_at(130),
        Fault::ClassCast => type_at(142),
        Fault::ArrayStore => type_at(154),
        Fault::NegativeArraySize => type_at(166),
        Fault::ArrayIndex => type_at(214),
        Fault::StringIndex => type_at(226),
    }
}

/// The class `Object`.
pub fn object_class() -> TypeId
    ensures { result ≡ object_class }
{
    type_at(3)
}

/// The class `String`.
pub fn string_class() -> TypeId
    ensures { result ≡ string_class }
{
    type_at(25)
}

/// The method `toString` of `Object`.
pub fn to_string_method() -> DeclId
    ensures { result ≡ to_string_method }
{
    decl_at(0, 19)
}

/// The method `length` of `String`.
pub fn length_method() -> DeclId
    ensures { result ≡ length_method }
{
    decl_at(0, 28)
}

/// The method `charAt` of `String`.
pub fn char_at_method() -> DeclId
    ensures { result ≡ char_at_method }
{
    decl_at(0, 30)
}

/// The method `equals` of `String`.
pub fn equals_method() -> DeclId
    ensures { result ≡ equals_method }
{
    decl_at(0, 34)
}

/// The method `print(String)` of `PrintStream`.
pub fn print_method() -> DeclId
    ensures { result ≡ print_method }
{
    decl_at(1, 4)
}
