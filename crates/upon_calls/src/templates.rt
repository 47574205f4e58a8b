// The templates of a call.
ghost use Rattle.std.specs.Prelude.{◌≡◌, None, Some, IfErr, IfOk};
ghost use Rattle.upon_types.specs.View.{view};
ghost use Rattle.upon_calls.specs.Failure.{RefusedIf};
ghost use Rattle.upon_calls.specs.Templates.{lent_pairs, sources_in};
ghost use Rattle.upon_calls.specs.declared.failure.Argument.TheVariants.{Templates};

use crate::arguments::{refused, text_in};
use crate::failure::{Argument, Failure};
use std::alloc::Global;
use upon_types::value::Value;

/// Returns the names and the sources of templates, in the order of their names.
pub(crate) fn sources_of<'v>(
    alloc: Global,
    templates: &'v Value,
) -> Result<Vec<(&'v str, &'v str)>, Failure>
    ensures read { IfOk result (λ sources. sources_in (view templates.entry.now) ≡ Some (lent_pairs sources.items)) }
    ensures refused { IfErr result (RefusedIf Templates (sources_in (view templates.entry.now) ≡ None)) }
{
    let Value::Map(entries) = templates else {
        let reason = String::from_str(alloc, "no object");
        return Err(refused(Argument::Templates, reason));
    };
    let mut sources = Vec::new(alloc);
    for (name, source) in entries.iter() {
        let Some(source) = text_in(source) else {
            let reason = format!(in alloc; "\"{name}\" wants a text");
            return Err(refused(Argument::Templates, reason));
        };
        sources.push((name.as_str(), source))?;
    }
    Ok(sources)
}
