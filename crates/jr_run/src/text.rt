// What a run printed, as text.
ghost use Rattle.std.specs.Prelude.{◌≡◌, IfOk};
ghost use Rattle.jr_run.specs.Texts.{lines, utf8_text};
ghost use Rattle.jr_run.specs.Texts as tell;

use jr_base::OutOfMemory;
use std::alloc::Global;

// 16-bit units as UTF-8.
fn utf8_of(alloc: Global, units: &[u16]) -> Result<Vec<u8>, OutOfMemory>
    ensures { IfOk result (λ text. text.items ≡ utf8_text units.now) }
{
    let text = String::from_utf16_lossy(alloc, units)?;
    Ok(text.into_bytes())
}

// The text is empty, or its last byte is LF.
fn ends_line(text: &[u8]) -> bool
    ensures { result ≡ tell.ends_line text.now }
{
    match text.last().copied() {
        Some(byte) => byte == b'\n',
        None => true,
    }
}

/// The units as UTF-8, with LF at the end where there is none.
pub fn printed_lines(alloc: Global, units: &[u16]) -> Result<Vec<u8>, OutOfMemory>
    ensures { IfOk result (λ text. text.items ≡ lines (utf8_text units.now)) }
{
    let mut text = utf8_of(alloc, units)?;
    if !ends_line(&text) {
        text.push(b'\n')?;
    }
    Ok(text)
}
