// The value that a template is rendered on.
ghost use Rattle.std.specs.Prelude.{◌≡◌, IfErr, IfOk};
ghost use Rattle.upon_types.specs.View.{view};
ghost use Rattle.upon_tool_data.specs.Context.{IsContext, RefusesContext};

use crate::environment::environment;
use crate::fault::ContextFault;
use crate::files::add_files;
use crate::settings::{Writing, set_each};
use crate::words::{DataWords, format_asked};
use std::io::Read;
use upon_tool_io::sources::Sources;
use upon_types::value::Value;

/// Returns the map that the words of a call say: the environment, if it is asked for; over it the files of `--data`,
/// one after the other, of which the entries of a later one win, and which are put at their keys if these are given;
/// then the values of `--set-json`, and then those of `--set`, one after the other, each at its path. The files that
/// are read are closed, and their texts let go.
///
/// The error says which file or word gives no context. [`check`](crate::words::check) finds before anything is read
/// what is wrong with the words alone, but for values that are no JSON.
pub fn context<'a, R: Sources + AllocGlobal, I: Read>(
    rt: &R,
    words: &DataWords<'a, '_>,
    input: &mut I,
) -> Result<Value, ContextFault<'a>>
    ensures read { IfOk result
        (λ v. IsContext (R.world rt.now) words.now.env words.now.files.now words.now.format words.now.values.now
        words.now.texts.now (I.remaining input.old) (view v) (I.remaining input.new)) }
    ensures refused { IfErr result (RefusesContext (R.world rt.now)
        words.now.env words.now.files.now words.now.format words.now.values.now
        words.now.texts.now (I.remaining input.old)) }
{
    let alloc = rt.alloc();
    let mut data = environment(rt, words.env)?;
    let given = format_asked(words.format);
    add_files(rt, words.files, given, &mut data, input)?;
    set_each(alloc, Writing::Json, words.values, &mut data)?;
    set_each(alloc, Writing::Text, words.texts, &mut data)?;
    Ok(data.into_value())
}
