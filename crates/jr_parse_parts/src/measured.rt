// Expressions that were read, each with its depth.
ghost use Rattle.std.specs.Prelude.{◌≡◌, ◌<◌, [], ◌∷◌, ◌++◌, suc, max, IfOk};
ghost use Rattle.jr_tree.specs.Mirror.Exprs as x;
ghost use Rattle.jr_tree.specs.Mirror.Exprs.{plain_expr, plain_exprs, plain_any_receiver, plain_list};
ghost use Rattle.jr_tree.specs.Depth.{expr_depth, exprs_depth, any_receiver_depth};

use crate::listed::MeasuredList;
use jr_base::{Boxed, Items, Kind, Symbol, Text};
use jr_tree::{Base, Expr, Name, Receiver, TypeUse};
use std::alloc::{AllocError, Global};

/// An expression and how deep it is.
#[derive(Drop)]
pub struct Measured {
    pub expr: Expr,
    pub height: usize,
    ghost exact: { height ≡ expr_depth (plain_expr expr) },
    ghost some: { 0 < height },
}

/// Expressions with commas between them, and how deep the deepest is.
#[derive(Drop)]
pub struct Arguments {
    pub args: Items<Expr>,
    pub height: usize,
    ghost exact: { height ≡ exprs_depth (plain_exprs args) },
}

/// What stands before the name of a method, if anything does, and how deep it is.
#[derive(Drop)]
pub struct Receiving {
    pub receiver: Option<Receiver>,
    pub height: usize,
    ghost exact: { height ≡ any_receiver_depth (plain_any_receiver receiver) },
}

/// Two values on the heap. As `T` is not known here, nothing of it is written out where it is dropped.
fn two_boxed<T: Drop>(
    alloc: Global,
    first: T,
    second: T,
) -> Result<(Boxed<T>, Boxed<T>), AllocError>
    ensures { IfOk result (λ both. (both.0 ≡ first) × (both.1 ≡ second)) }
{
    let first = Boxed::new(alloc, first)?;
    let second = Boxed::new(alloc, second)?;
    Ok((first, second))
}

/// Three values on the heap.
fn three_boxed<T: Drop>(
    alloc: Global,
    first: T,
    second: T,
    third: T,
) -> Result<(Boxed<T>, Boxed<T>, Boxed<T>), AllocError>
    ensures { IfOk result (λ all. (all.0 ≡ first) × (all.1 ≡ second) × (all.2 ≡ third)) }
{
    let first = Boxed::new(alloc, first)?;
    let (second, third) = two_boxed(alloc, second, third)?;
    Ok((first, second, third))
}

impl Measured {
    /// `target op value`
    pub fn assign(
        alloc: Global,
        target: Measured,
        op: Symbol,
        value: Measured,
    ) -> Result<Measured, AllocError>
        requires target { target.height < usize.MAX }
        requires value { value.height < usize.MAX }
        ensures tree { IfOk result (λ m. plain_expr m.expr ≡ x.Assign (plain_expr target.expr) op (plain_expr value.expr)) }
        ensures height { IfOk result (λ m. m.height ≡ suc (max target.height value.height)) }
    {
        let height = target.height.max(value.height) + 1;
        let (target, value) = two_boxed(alloc, target.expr, value.expr)?;
        Ok(Measured {
            expr: Expr::Assign { target, op, value },
            height,
        })
    }

    /// `cond ? yes : no`
    pub fn cond(
        alloc: Global,
        cond: Measured,
        yes: Measured,
        no: Measured,
    ) -> Result<Measured, AllocError>
        requires cond { cond.height < usize.MAX }
        requires yes { yes.height < usize.MAX }
        requires no { no.height < usize.MAX }
        ensures tree { IfOk result (λ m. plain_expr m.expr ≡ x.Cond (plain_expr cond.expr) (plain_expr yes.expr) (plain_expr no.expr)) }
        ensures height { IfOk result (λ m. m.height ≡ suc (max cond.height (max yes.height no.height))) }
    {
        let height = cond.height.max(yes.height.max(no.height)) + 1;
        let (cond, yes, no) = three_boxed(alloc, cond.expr, yes.expr, no.expr)?;
        Ok(Measured {
            expr: Expr::Cond { cond, yes, no },
            height,
        })
    }

    /// `left op right`
    pub fn binary(
        alloc: Global,
        left: Measured,
        op: Symbol,
        right: Measured,
    ) -> Result<Measured, AllocError>
        requires left { left.height < usize.MAX }
        requires right { right.height < usize.MAX }
        ensures tree { IfOk result (λ m. plain_expr m.expr ≡ x.Binary (plain_expr left.expr) op (plain_expr right.expr)) }
        ensures height { IfOk result (λ m. m.height ≡ suc (max left.height right.height)) }
    {
        let height = left.height.max(right.height) + 1;
        let (left, right) = two_boxed(alloc, left.expr, right.expr)?;
        Ok(Measured {
            expr: Expr::Binary { left, op, right },
            height,
        })
    }

    /// `value instanceof ty`
    pub fn is_a(alloc: Global, value: Measured, ty: TypeUse) -> Result<Measured, AllocError>
        requires { value.height < usize.MAX }
        ensures tree { IfOk result (λ m. plain_expr m.expr ≡ x.IsA (plain_expr value.expr) ty) }
        ensures height { IfOk result (λ m. m.height ≡ suc value.height) }
    {
        Ok(Measured {
            expr: Expr::IsA {
                value: Boxed::new(alloc, value.expr)?,
                ty,
            },
            height: value.height + 1,
        })
    }

    /// `op value`
    pub fn unary(alloc: Global, op: Symbol, value: Measured) -> Result<Measured, AllocError>
        requires { value.height < usize.MAX }
        ensures tree { IfOk result (λ m. plain_expr m.expr ≡ x.Unary op (plain_expr value.expr)) }
        ensures height { IfOk result (λ m. m.height ≡ suc value.height) }
    {
        Ok(Measured {
            expr: Expr::Unary {
                op,
                value: Boxed::new(alloc, value.expr)?,
            },
            height: value.height + 1,
        })
    }

    /// `(ty) value`
    pub fn cast(alloc: Global, ty: TypeUse, value: Measured) -> Result<Measured, AllocError>
        requires { value.height < usize.MAX }
        ensures tree { IfOk result (λ m. plain_expr m.expr ≡ x.Cast ty (plain_expr value.expr)) }
        ensures height { IfOk result (λ m. m.height ≡ suc value.height) }
    {
        Ok(Measured {
            expr: Expr::Cast {
                ty,
                value: Boxed::new(alloc, value.expr)?,
            },
            height: value.height + 1,
        })
    }

    /// `op value`, where `op` is `++` or `--`
    pub fn pre_step(alloc: Global, op: Symbol, value: Measured) -> Result<Measured, AllocError>
        requires { value.height < usize.MAX }
        ensures tree { IfOk result (λ m. plain_expr m.expr ≡ x.PreStep op (plain_expr value.expr)) }
        ensures height { IfOk result (λ m. m.height ≡ suc value.height) }
    {
        Ok(Measured {
            expr: Expr::PreStep {
                op,
                value: Boxed::new(alloc, value.expr)?,
            },
            height: value.height + 1,
        })
    }

    /// `value op`, where `op` is `++` or `--`
    pub fn post_step(alloc: Global, value: Measured, op: Symbol) -> Result<Measured, AllocError>
        requires { value.height < usize.MAX }
        ensures tree { IfOk result (λ m. plain_expr m.expr ≡ x.PostStep (plain_expr value.expr) op) }
        ensures height { IfOk result (λ m. m.height ≡ suc value.height) }
    {
        Ok(Measured {
            expr: Expr::PostStep {
                value: Boxed::new(alloc, value.expr)?,
                op,
            },
            height: value.height + 1,
        })
    }

    /// A literal
    pub fn literal(kind: Kind) -> Measured
        ensures tree { plain_expr result.expr ≡ x.Lit kind }
        ensures height { result.height ≡ 1 }
    {
        Measured {
            expr: Expr::Lit { kind },
            height: 1,
        }
    }

    /// `this` or `name.this`
    pub fn this(name: Option<Name>) -> Measured
        ensures tree { plain_expr result.expr ≡ x.This name }
        ensures height { result.height ≡ 1 }
    {
        Measured {
            expr: Expr::This { name },
            height: 1,
        }
    }

    /// `(inner)`
    pub fn paren(alloc: Global, inner: Measured) -> Result<Measured, AllocError>
        requires { inner.height < usize.MAX }
        ensures tree { IfOk result (λ m. plain_expr m.expr ≡ x.Paren (plain_expr inner.expr)) }
        ensures height { IfOk result (λ m. m.height ≡ suc inner.height) }
    {
        Ok(Measured {
            expr: Expr::Paren {
                inner: Boxed::new(alloc, inner.expr)?,
            },
            height: inner.height + 1,
        })
    }

    /// A name that stands as an expression
    pub fn name(name: Name) -> Measured
        ensures tree { plain_expr result.expr ≡ x.NameExpr name }
        ensures height { result.height ≡ 1 }
    {
        Measured {
            expr: Expr::NameExpr { name },
            height: 1,
        }
    }

    /// `object.name`
    pub fn select(alloc: Global, object: Measured, name: Text) -> Result<Measured, AllocError>
        requires { object.height < usize.MAX }
        ensures tree { IfOk result (λ m. plain_expr m.expr ≡ x.Select (plain_expr object.expr) name) }
        ensures height { IfOk result (λ m. m.height ≡ suc object.height) }
    {
        Ok(Measured {
            expr: Expr::Select {
                object: Boxed::new(alloc, object.expr)?,
                name,
            },
            height: object.height + 1,
        })
    }

    /// `super.name`
    pub fn super_select(name: Text) -> Measured
        ensures tree { plain_expr result.expr ≡ x.SuperSelect name }
        ensures height { result.height ≡ 1 }
    {
        Measured {
            expr: Expr::SuperSelect { name },
            height: 1,
        }
    }

    /// `array[at]`
    pub fn index(alloc: Global, array: Measured, at: Measured) -> Result<Measured, AllocError>
        requires array { array.height < usize.MAX }
        requires at { at.height < usize.MAX }
        ensures tree { IfOk result (λ m. plain_expr m.expr ≡ x.Index (plain_expr array.expr) (plain_expr at.expr)) }
        ensures height { IfOk result (λ m. m.height ≡ suc (max array.height at.height)) }
    {
        let height = array.height.max(at.height) + 1;
        let (array, at) = two_boxed(alloc, array.expr, at.expr)?;
        Ok(Measured {
            expr: Expr::Index { array, at },
            height,
        })
    }

    /// `receiver.name(args)` or `name(args)`
    pub fn call(receiver: Receiving, name: Text, args: Arguments) -> Measured
        requires receiver { receiver.height < usize.MAX }
        requires args { args.height < usize.MAX }
        ensures tree { plain_expr result.expr ≡ x.Call (plain_any_receiver receiver.receiver) name (plain_exprs args.args) }
        ensures height { result.height ≡ suc (max receiver.height args.height) }
    {
        Measured {
            expr: Expr::Call {
                receiver: receiver.receiver,
                name,
                args: args.args,
            },
            height: receiver.height.max(args.height) + 1,
        }
    }

    /// `new name(args)`
    pub fn new(name: Name, args: Arguments) -> Measured
        requires { args.height < usize.MAX }
        ensures tree { plain_expr result.expr ≡ x.New name (plain_exprs args.args) }
        ensures height { result.height ≡ suc args.height }
    {
        Measured {
            expr: Expr::New {
                name,
                args: args.args,
            },
            height: args.height + 1,
        }
    }

    /// `new base[dim]..[]..`, with `more` empty pairs of brackets
    pub fn sized_array(base: Base, dims: Arguments, more: usize) -> Measured
        requires { dims.height < usize.MAX }
        ensures tree { plain_expr result.expr ≡ x.NewArray base (plain_exprs dims.args) more x.no_list }
        ensures height { result.height ≡ suc dims.height }
    {
        Measured {
            expr: Expr::NewArray {
                base,
                dims: dims.args,
                more,
                init: None,
            },
            height: dims.height + 1,
        }
    }

    /// `new base[].. { .. }`, with no sizes and `more` pairs of brackets
    pub fn listed_array(base: Base, dims: Arguments, more: usize, list: MeasuredList) -> Measured
        requires dims { dims.height < usize.MAX }
        requires list { list.height < usize.MAX }
        ensures tree { plain_expr result.expr ≡ x.NewArray base (plain_exprs dims.args) more (x.a_list (plain_list list.list)) }
        ensures height { result.height ≡ suc (max dims.height list.height) }
    {
        Measured {
            expr: Expr::NewArray {
                base,
                dims: dims.args,
                more,
                init: Some(list.list),
            },
            height: dims.height.max(list.height) + 1,
        }
    }
}

impl Arguments {
    /// No expressions.
    pub fn none(alloc: Global) -> Arguments
        ensures args { result.args ≡ [] }
        ensures height { result.height ≡ 0 }
    {
        Arguments {
            args: Items::new(alloc),
            height: 0,
        }
    }

    /// These, and then one more.
    pub fn with(self, arg: Measured) -> Result<Arguments, AllocError>
        ensures args { IfOk result (λ all. all.args ≡ self.args ++ arg.expr ∷ []) }
        ensures height { IfOk result (λ all. all.height ≡ max self.height arg.height) }
    {
        let mut args = self.args;
        args.push(arg.expr)?;
        Ok(Arguments {
            args,
            height: self.height.max(arg.height),
        })
    }
}

impl Receiving {
    /// `super`
    pub fn parent() -> Receiving
        ensures receiver { plain_any_receiver result.receiver ≡ x.a_receiver x.Super }
        ensures height { result.height ≡ 0 }
    {
        Receiving {
            receiver: Some(Receiver::Super),
            height: 0,
        }
    }

    /// An expression
    pub fn object(alloc: Global, object: Measured) -> Result<Receiving, AllocError>
        ensures receiver { IfOk result (λ r. plain_any_receiver r.receiver ≡ x.a_receiver (x.Of (plain_expr object.expr))) }
        ensures height { IfOk result (λ r. r.height ≡ object.height) }
    {
        Ok(Receiving {
            receiver: Some(Receiver::Of {
                object: Boxed::new(alloc, object.expr)?,
            }),
            height: object.height,
        })
    }
}
