// Code as work.
ghost use Rattle.std.specs.Prelude.{◌≡◌, ◌∷◌, ◌++◌, OnOk};
ghost use Rattle.jr_core.specs.Mirror.{plain_code, plain_codes};
ghost use Rattle.jr_machine_defs.specs.Parts.{evals};
ghost use Rattle.jr_machine_defs.specs.declared.work.Work.TheVariants as w;

use jr_base::OutOfMemory;
use jr_core::Code;
use jr_machine_defs::{CodeRef, Stack, Work};

/// Puts code on top.
pub fn push_eval<'a>(work: &mut Stack<Work<'a>>, code: &'a Code) -> Result<(), OutOfMemory>
    ensures { OnOk result (work.new ≡ w.Eval (plain_code code.entry.now) ∷ work.old) }
{
    work.push(Work::Eval(CodeRef::new(code)))
}

/// Puts these on top, the first of them uppermost.
pub fn push_codes<'a>(work: &mut Stack<Work<'a>>, codes: &'a [Code]) -> Result<(), OutOfMemory>
    ensures { OnOk result (work.new ≡ evals (plain_codes codes.entry.now) ++ work.old) }
{
    let mut left = codes.len();
    while left > 0 {
        left -= 1;
        push_eval(work, &codes[left])?;
    }
    Ok(())
}
