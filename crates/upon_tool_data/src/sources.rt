// The texts that are read: files by their names, and standard input.
ghost use Rattle.std.specs.Prelude.{◌≡◌, false, IfErr, IfOk, string_bytes};
ghost use Rattle.upon_tool_data.specs.Sources.{IsTextOf, IsNoTextOf, is_standard};

use std::io::Read;
use upon_tool_io::files::{ReadFault, read_file, read_text};
use upon_tool_io::sources::Sources;

/// The name that stands for standard input or output.
pub const STANDARD: &str = "-";

/// Returns the text of a file, or of standard input.
///
/// The error says why it is not read, or is `NotText` if it is not UTF-8.
pub fn read_source<R: Sources + AllocGlobal, I: Read>(
    rt: &R,
    name: &str,
    input: &mut I,
) -> Result<String, ReadFault>
    // The text of standard input is what it has left, if that is known; that of a file is one that it may hold.
    ensures text { IfOk result (λ text. IsTextOf (R.world rt.now) name.now (I.remaining input.old)
        (string_bytes text)) }
    // If there is none, there may be this reason.
    ensures unread { IfErr result (IsNoTextOf (R.world rt.now) name.now (I.remaining input.old)) }
    // For a file the input is not read.
    ensures kept { is_standard name.now ≡ false → I.remaining input.new ≡ I.remaining input.old }
{
    if name == STANDARD {
        read_text(rt.alloc(), input)
    } else {
        read_file(rt, rt.alloc(), name)
    }
}
