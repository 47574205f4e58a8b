// The variables of the environment, as data.
ghost use Rattle.std.specs.Prelude.{◌≡◌, true, IfErr, IfOk};
ghost use Rattle.upon_data.specs.Parts.{data_entries};
ghost use Rattle.upon_types.specs.Val.{no_entries};
ghost use Rattle.upon_tool_io.specs.World.{variables_of};
ghost use Rattle.upon_tool_data.specs.Environment.{with_variables, AreVariables, HasEnvironment, RefusesEnvironment};

use crate::fault::ContextFault;
use std::alloc::{AllocError, Global};
use upon_data::parts::Data;
use upon_tool_io::files::ReadFault;
use upon_tool_io::sources::Sources;
use upon_types::value::Value;

// The key of the variables.
const ENV: &str = "env";

// What is said to be no UTF-8.
const ENVIRONMENT: &str = "the environment";

/// Returns data with the variables of the environment, a map of texts at the key `env`; or data without entries, if
/// they are not asked for.
pub(crate) fn environment<'a, R: Sources + AllocGlobal>(
    rt: &R,
    is_asked: bool,
) -> Result<Data, ContextFault<'a>>
    ensures read { IfOk result (λ read. HasEnvironment (R.world rt.now) is_asked (data_entries read)) }
    ensures refused { IfErr result (RefusesEnvironment (R.world rt.now) is_asked) }
{
    let alloc = rt.alloc();
    let mut data = Data::new(alloc);
    if is_asked {
        let variables = variables(rt)?;
        data.put_at(alloc, ENV, variables.into_value())?;
    }
    Ok(data)
}

// The variables of the environment, each a text at its name.
fn variables<'a, R: Sources + AllocGlobal>(rt: &R) -> Result<Data, ContextFault<'a>>
    ensures read { IfOk result (λ variables. AreVariables (R.world rt.now) (data_entries variables)) }
    ensures refused { IfErr result (RefusesEnvironment (R.world rt.now) true) }
{
    let alloc = rt.alloc();
    match rt.variables(alloc) {
        Ok(found) => Ok(as_data(alloc, found)?),
        Err(ReadFault::NotText) => Err(ContextFault::NotText(ENVIRONMENT)),
        Err(_) => Err(ContextFault::OutOfMemory),
    }
}

// Variables, each a text at its name.
fn as_data(alloc: Global, found: Vec<(String, String)>) -> Result<Data, AllocError>
    ensures { IfOk result
        (λ variables. data_entries variables ≡ with_variables (variables_of found.items) no_entries) }
{
    let mut variables = Data::new(alloc);
    for variable in found {
        let (name, text) = variable;
        variables.put_at(alloc, name.as_str(), Value::String(text))?;
    }
    Ok(variables)
}
