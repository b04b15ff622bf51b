// Numbers after promotion (JLS 5.6).

/// A number after unary numeric promotion (JLS 5.6.1).
#[derive(Clone, Copy, Debug, PartialEq, Eq)]
pub enum Number {
    Int(i32),
    Long(i64),
}

/// Two numbers after binary numeric promotion (JLS 5.6.2).
#[derive(Clone, Copy, Debug, PartialEq, Eq)]
pub enum Pair {
    Ints(i32, i32),
    Longs(i64, i64),
}
