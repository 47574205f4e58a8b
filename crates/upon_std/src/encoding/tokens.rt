// Values as tokens of other languages.
ghost use Rattle.std.specs.Prelude.{IfOk};
ghost use Rattle.upon_types.specs.View.{view};
ghost use Rattle.upon_std.specs.Encoding.Tokens.{IsWritten};

use std::alloc::{AllocError, Global};
use upon_fmt::fmt::{Format, Formatter};
use upon_types::value::Value;

// What a formatter writes for a value, or the message of its refusal.
pub(crate) fn written_by<F: Format>(
    alloc: Global,
    format: &F,
    value: &Value,
) -> Result<Result<String, String>, AllocError>
    ensures { IfOk result (λ made. IsWritten made (F.formats format.now (view value.now))) }
{
    let mut f = Formatter::new(alloc);
    let end = format.format(&mut f, value);
    let Some(text) = f.into_text() else {
        return Err(AllocError);
    };
    match end {
        Ok(()) => Ok(Ok(text)),
        Err(error) => {
            match error.message() {
                Some(message) => Ok(Err(message)),
                None => Ok(Err(String::from_str(alloc, "format error")?)),
            }
        }
    }
}
