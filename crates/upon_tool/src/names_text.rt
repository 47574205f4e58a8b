// The texts in which it is shown what a template needs: lines, or JSON.
ghost use Rattle.std.specs.Prelude.{◌≡◌, ◌++◌, IfOk, OnOk};
ghost use Rattle.upon_needs.specs.Names.{texts};
ghost use Rattle.upon_tool.specs.Names.{in_line, lines_of, needs_lines, needs_text, one_line};

use std::alloc::{AllocError, Global};
use upon_calls::names::object_text;
use upon_needs::needs::Needs;

/// Returns what a template needs as one object of JSON in a line, or as lines. It fails if there is no memory.
pub fn needs_text(alloc: Global, needs: &Needs<'_>, as_json: bool) -> Result<Vec<u8>, AllocError>
    ensures { IfOk result (λ text. text.items ≡ needs_text as_json needs.now) }
{
    if as_json {
        let mut text = object_text(alloc, needs)?;
        text.push('\n')?;
        Ok(text.into_bytes())
    } else {
        lines(alloc, needs)
    }
}

// A line for each name, after its kind; and one more if the whole context counts.
fn lines(alloc: Global, needs: &Needs<'_>) -> Result<Vec<u8>, AllocError>
    ensures { IfOk result (λ text. text.items ≡ needs_lines needs.now) }
{
    let mut text = Vec::new(alloc);
    push_lines(&mut text, b"name ", needs.names())?;
    push_lines(&mut text, b"template ", needs.templates())?;
    push_lines(&mut text, b"missing ", needs.missing())?;
    if !needs.is_whole() {
        return Ok(text);
    }
    text.extend_from_slice(b"whole\n")?;
    Ok(text)
}

// Appends a line for each name, with its kind before it.
fn push_lines(text: &mut Vec<u8>, kind: &[u8], names: &[&str]) -> Result<(), AllocError>
    ensures { OnOk result (text.new.items ≡ text.old.items ++ lines_of kind.now (texts names.now)) }
{
    for name in names {
        text.extend_from_slice(kind)?;
        push_name(text, name)?;
        text.push(b'\n')?;
    }
    Ok(())
}

// Appends a name in one line.
fn push_name(text: &mut Vec<u8>, name: &str) -> Result<(), AllocError>
    ensures { OnOk result (text.new.items ≡ text.old.items ++ one_line name.now) }
{
    let bytes = name.as_bytes();
    for byte in bytes {
        push_byte(text, *byte)?;
    }
    Ok(())
}

// Appends a byte of a name: a line break as `\n`, and a backslash as two.
fn push_byte(text: &mut Vec<u8>, byte: u8) -> Result<(), AllocError>
    ensures { OnOk result (text.new.items ≡ text.old.items ++ in_line byte) }
{
    match byte {
        b'\n' => text.extend_from_slice(b"\\n")?,
        b'\\' => text.extend_from_slice(b"\\\\")?,
        _ => text.push(byte)?,
    }
    Ok(())
}
