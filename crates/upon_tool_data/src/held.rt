// Values that are read of files in memory: of each there is just one text that it may be of.
ghost use Rattle.std.specs.Prelude.{◌≡◌, Some, false, IfErr, IfOk, string_bytes};
ghost use Rattle.upon_types.specs.View.{view};
ghost use Rattle.upon_data.specs.Format.{IsValueIn};
ghost use Rattle.upon_tool_data.specs.Sources.{is_standard};
ghost use Rattle.upon_tool_data.specs.Words.{format_for};
ghost use Rattle.upon_tool_data.specs.Held.{IsHeldValue};
ghost use Rattle.upon_tool_io.specs.Memory.{bytes_under, IsNoHeldText};

use crate::fault::ContextFault;
use crate::files::read_value;
use crate::sources::read_source;
use std::io::Read;
use upon_data::format::Format;
use upon_tool_io::files::ReadFault;
use upon_tool_io::memory::Memory;
use upon_types::value::Value;

/// Returns the text of a file in memory.
///
/// The error says that there is no such file, or that its bytes are no text, or there is no memory.
pub fn held_text<I: Read>(memory: &Memory, name: &str, input: &mut I) -> Result<String, ReadFault>
    requires { is_standard name.now ≡ false }
    ensures text { IfOk result (λ text. bytes_under name.now memory.now.files.items ≡ Some (string_bytes text)) }
    ensures none { IfErr result (IsNoHeldText memory.now.files.items name.now) }
{
    read_source(memory, name, input)
}

/// Returns the value of a file in memory: that of its text in its format, and of no other.
///
/// The error says why there is none.
pub fn held_value<'a, I: Read>(
    memory: &Memory,
    name: &'a str,
    given: Option<Format>,
    input: &mut I,
) -> Result<Value, ContextFault<'a>>
    requires { is_standard name.now ≡ false }
    ensures { IfOk result (λ v. IsHeldValue memory.now.files.items name.entry.now (format_for given name.entry.now)
        (view v)) }
{
    read_value(memory, name, given, input)
}
