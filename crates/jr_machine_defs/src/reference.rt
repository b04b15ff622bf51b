// Parts of the core, by reference: contracts see what they refer to.
ghost use Rattle.std.specs.Prelude.{◌≡◌};
ghost use Rattle.jr_base.specs.Mirror.{plain_ty};
ghost use Rattle.jr_core.specs.Mirror.{plain_code};

use jr_base::{Ty, Units};
use jr_core::Code;
use std::marker::Model;

/// Code of the core.
#[derive(Drop)]
pub struct CodeRef<'a> {
    code: &'a Code,
}

impl<'a> Model for CodeRef<'a> {
    ghost use Rattle.jr_core.specs.Mirror.{Code, plain_code};
    ghost use Rattle.jr_machine_defs.specs.Codes.{code_of_code};

    ghost Value = { Code };

    ghost coded = { code_of_code };

    ghost view = { λ r. plain_code r.code.now };
}

impl<'a> CodeRef<'a> {
    /// A reference to this code.
    pub fn new(code: &'a Code) -> CodeRef<'a>
        ensures { result ≡ plain_code code.entry.now }
    {
        CodeRef { code }
    }

    /// The code that it refers to.
    pub fn get(&self) -> &'a Code
        ensures { plain_code result.now ≡ self.now }
    {
        self.code
    }
}

/// A type of the core.
#[derive(Drop)]
pub struct TyRef<'a> {
    ty: &'a Ty,
}

impl<'a> Model for TyRef<'a> {
    ghost use Rattle.jr_base.specs.Mirror.{Ty, plain_ty};
    ghost use Rattle.jr_machine_defs.specs.Codes.{code_of_ty};

    ghost Value = { Ty };

    ghost coded = { code_of_ty };

    ghost view = { λ r. plain_ty r.ty.now };
}

impl<'a> TyRef<'a> {
    /// A reference to this type.
    pub fn new(ty: &'a Ty) -> TyRef<'a>
        ensures { result ≡ plain_ty ty.entry.now }
    {
        TyRef { ty }
    }

    /// The type that it refers to.
    pub fn get(&self) -> &'a Ty
        ensures { plain_ty result.now ≡ self.now }
    {
        self.ty
    }
}

/// A constant string of the core.
#[derive(Drop)]
pub struct UnitsRef<'a> {
    units: &'a Units,
}

impl<'a> Model for UnitsRef<'a> {
    ghost use Rattle.std.specs.Prelude.{List, ℕ};

    ghost Value = { List ℕ };

    ghost view = { λ r. r.units.now };
}

impl<'a> UnitsRef<'a> {
    /// A reference to this string.
    pub fn new(units: &'a Units) -> UnitsRef<'a>
        ensures { result ≡ units.entry.now }
    {
        UnitsRef { units }
    }

    /// The units of the string.
    pub fn get(&self) -> &'a [u16]
        ensures { result.now ≡ self.now }
    {
        self.units.units()
    }

    /// The same reference.
    pub fn copy(&self) -> UnitsRef<'a>
        ensures { result ≡ self.now }
    {
        UnitsRef { units: self.units }
    }
}
