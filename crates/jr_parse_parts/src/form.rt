// The outermost form of an expression, and which symbols are operators (JLS 15).
ghost use Rattle.std.specs.Prelude.{◌≡◌, ◌≤◌};
ghost use Rattle.jr_tree.specs.Levels as levels;
ghost use Rattle.jr_tree.specs.Mirror.Exprs.{plain_expr};
ghost use Rattle.jr_tree.specs.Shape as shape;

use jr_base::Symbol;
use jr_tree::Expr;

/// How tightly a binary operator binds, from 2 to 11; 0 where the symbol is none.
pub fn binary_level(symbol: Symbol) -> u8
    ensures value { result ≡ levels.binary_level symbol }
    ensures small { result ≤ 11 }
{
    match symbol {
        Symbol::OrOr => 2,
        Symbol::AndAnd => 3,
        Symbol::Or => 4,
        Symbol::Caret => 5,
        Symbol::And => 6,
        Symbol::Equal | Symbol::NotEqual => 7,
        Symbol::Less | Symbol::Greater | Symbol::LessEqual | Symbol::GreaterEqual => 8,
        Symbol::ShiftLeft | Symbol::ShiftRight | Symbol::ShiftRightUnsigned => 9,
        Symbol::Plus | Symbol::Minus => 10,
        Symbol::Star | Symbol::Slash | Symbol::Percent => 11,
        _ => 0,
    }
}

/// Whether the symbol is an operator of an assignment.
pub fn is_assignment(symbol: Symbol) -> bool
    ensures { result ≡ levels.is_assignment symbol }
{
    matches!(
        symbol,
        Symbol::Assign
            | Symbol::PlusAssign
            | Symbol::MinusAssign
            | Symbol::StarAssign
            | Symbol::SlashAssign
            | Symbol::AndAssign
            | Symbol::OrAssign
            | Symbol::CaretAssign
            | Symbol::PercentAssign
            | Symbol::ShiftLeftAssign
            | Symbol::ShiftRightAssign
            | Symbol::ShiftRightUnsignedAssign
    )
}

/// How tightly the expression binds, from 0 for an assignment to 14 for a primary.
pub fn level(expr: &Expr) -> u8
    ensures { result ≡ shape.level (plain_expr expr.now) }
{
    match expr {
        Expr::Assign { .. } => 0,
        Expr::Cond { .. } => 1,
        Expr::Binary { op, .. } => binary_level(*op),
        Expr::IsA { .. } => 8,
        Expr::Unary { .. } | Expr::Cast { .. } | Expr::PreStep { .. } => 12,
        Expr::PostStep { .. } => 13,
        _ => 14,
    }
}

/// Whether an assignment can assign to it (JLS 15.26).
pub fn is_target(expr: &Expr) -> bool
    ensures { result ≡ shape.is_target (plain_expr expr.now) }
{
    matches!(
        expr,
        Expr::NameExpr { .. } | Expr::Select { .. } | Expr::SuperSelect { .. } | Expr::Index { .. }
    )
}

/// Whether it can stand as a statement (JLS 14.8).
pub fn is_statement(expr: &Expr) -> bool
    ensures { result ≡ shape.is_statement (plain_expr expr.now) }
{
    matches!(
        expr,
        Expr::Assign { .. }
            | Expr::PreStep { .. }
            | Expr::PostStep { .. }
            | Expr::Call { .. }
            | Expr::New { .. }
    )
}

/// Whether it is the creation of an array.
pub fn is_new_array(expr: &Expr) -> bool
    ensures { result ≡ shape.is_new_array (plain_expr expr.now) }
{
    matches!(expr, Expr::NewArray { .. })
}
