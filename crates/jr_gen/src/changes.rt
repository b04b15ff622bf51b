// The requests on the generated workspace.
ghost use Rattle.std.specs.Prelude.{◌≡◌, ◌≤◌, IfOk, OnOk};
ghost use Rattle.jr_gen.specs.Requests.{requests_of, ArePlaces};

use jr_base::{OutOfMemory, Request, Text};
use std::alloc::Global;

/// Rename of the parameter `y` of C0 to `x`, move of C0 to the package `h`, and extraction of
/// `b = b * 3;` of C0 as `triple`, each on the result of the one before.
pub fn requests(alloc: Global, n: u32) -> Result<Vec<Request>, OutOfMemory>
    requires least { 1 ≤ n }
    requires most { n ≤ 4000 }
    ensures list { IfOk result (λ requests. requests.items ≡ requests_of) }
    ensures places { OnOk result ArePlaces }
{
    let _ = n;
    let mut requests = Vec::new(alloc);
    requests.push(Request::Rename {
        file: text(alloc, "g/C0.java")?,
        at: PARAMETER,
        name: text(alloc, "x")?,
    })?;
    requests.push(Request::Move {
        file: text(alloc, "g/C0.java")?,
        at: CLASS,
        package: text(alloc, "h")?,
    })?;
    requests.push(Request::Extract {
        file: text(alloc, "h/C0.java")?,
        start: STATEMENT_START,
        end: STATEMENT_END,
        name: text(alloc, "triple")?,
    })?;
    Ok(requests)
}

// Where the class's name, the statement and the parameter stand in the text of C0.
const CLASS: u32 = 25;

const STATEMENT_START: u32 = 100;

const STATEMENT_END: u32 = 110;

const PARAMETER: u32 = 144;

fn text(alloc: Global, text: &str) -> Result<Text, OutOfMemory>
    ensures { IfOk result (λ copy. copy ≡ text.now) }
{
    Ok(Text::new(text.as_bytes().to_vec(alloc)?))
}
