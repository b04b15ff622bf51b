// The laws of reading expressions.
ghost use Rattle.jr_parse_expr.specs.Laws.{IsWritten, IsExprComplete, IsExprSound, IsEffectComplete, IsEffectSound, IsInitComplete, IsInitSound, IsExprStuck, IsEffectStuck, IsInitStuck, HasOneReading};

/// Reading an expression, one that stands as a statement, or an initializer answers exactly the tree that is written so, and ends where it does not go on
/// (JLS 15, 14.8, 10.6). So an expression has one reading. Where one of them stops with a fault, what stands before begins a tree and
/// none goes on with the fault's token, or only a deeper one.
pub fn expressions_have_one_reading()
    ensures written { IsWritten }
    ensures complete { IsExprComplete }
    ensures sound { IsExprSound }
    ensures effects_complete { IsEffectComplete }
    ensures effects_sound { IsEffectSound }
    ensures inits_complete { IsInitComplete }
    ensures inits_sound { IsInitSound }
    ensures stuck { IsExprStuck }
    ensures effects_stuck { IsEffectStuck }
    ensures inits_stuck { IsInitStuck }
    ensures one_reading { HasOneReading }
{}
