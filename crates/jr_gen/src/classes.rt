// Classes of which each calls the one before.
ghost use Rattle.std.specs.Prelude.{◌≡◌, ◌≤◌, IfOk, string_bytes};
ghost use Rattle.jr_gen.specs.Workspace.{path_of, returned_by, head_of, step_of, tail_of, text_of, workspace_of};

use jr_base::{Files, OutOfMemory, Path, PathFault};
use std::alloc::Global;

/// The files `g/C0.java` to `g/C(n-1).java`.
pub fn workspace(alloc: Global, n: u32) -> Result<Files, OutOfMemory>
    requires least { 1 ≤ n }
    requires most { n ≤ 4000 }
    ensures { IfOk result (λ files. files ≡ workspace_of n) }
{
    let mut files = Files::new(alloc);
    for number in 0..n {
        let path = class_path(alloc, number)?;
        let text = class_text(alloc, number)?;
        files.insert(path, text)?;
    }
    Ok(files)
}

fn class_path(alloc: Global, number: u32) -> Result<Path, OutOfMemory>
    ensures { IfOk result (λ path. path ≡ path_of number) }
{
    let name = format!(in alloc; "g/C{number}.java")?;
    match Path::parse(alloc, name.as_bytes()) {
        Ok(path) => Ok(path),
        Err(fault) => match fault {
            PathFault::OutOfMemory => Err(OutOfMemory),
            _ => unreachable!(),
        },
    }
}

// What the method `step` of the class gives back.
fn returned(alloc: Global, number: u32) -> Result<String, OutOfMemory>
    ensures { IfOk result (λ text. string_bytes text ≡ returned_by number) }
{
    if number == 0 {
        return Ok(String::from_str(alloc, "b")?);
    }
    let before = number - 1;
    Ok(format!(in alloc; "C{before}.step(b)")?)
}

#[tactic(auto, unfolding(crate::specs::Workspace::head_of))]
fn head(alloc: Global, number: u32) -> Result<String, OutOfMemory>
    ensures { IfOk result (λ text. string_bytes text ≡ head_of number) }
{
    Ok(format!(in alloc; "package g;\n\npublic class C{number} {{\n  int x = {number};\n")?)
}

#[tactic(auto, unfolding(crate::specs::Workspace::step_of))]
fn step(alloc: Global, number: u32, value: &str) -> Result<String, OutOfMemory>
    ensures { IfOk result (λ text. string_bytes text ≡ step_of number value.now) }
{
    Ok(format!(in alloc;
        "  public static int step(int a) {{\n    int b = a + {number};\n    b = b * 3;\n    return {value};\n  }}\n"
    )?)
}

#[tactic(auto, unfolding(crate::specs::Workspace::tail_of))]
fn tail(alloc: Global, number: u32) -> Result<String, OutOfMemory>
    ensures { IfOk result (λ text. string_bytes text ≡ tail_of number) }
{
    Ok(format!(in alloc;
        "  int next(int y) {{\n    return x + y;\n  }}\n  public static void main(String[] args) {{\n    System.out.println(step({number}) + new C{number}().next(1));\n  }}\n}}\n"
    )?)
}

fn class_text(alloc: Global, number: u32) -> Result<Vec<u8>, OutOfMemory>
    ensures { IfOk result (λ text. text.items ≡ text_of number) }
{
    let mut text = head(alloc, number)?.into_bytes();
    let value = returned(alloc, number)?;
    text.extend_from_slice(step(alloc, number, value.as_str())?.as_bytes())?;
    text.extend_from_slice(tail(alloc, number)?.as_bytes())?;
    Ok(text)
}
