// What is wrong with a call, by the functions that there are.
ghost use Rattle.std.specs.Prelude.{◌≡◌, IfOk};
ghost use Rattle.upon_functions.specs.Says.{Says};
ghost use Rattle.upon_types.specs.Answers.{Answer};
ghost use Rattle.upon_tool_messages.specs.Judged.{arguments_wanted, call_fault, function_named, number_wanted};

use std::alloc::{AllocError, Global};
use upon_functions::function::{CallError, Function};
use upon_std::table::StandardFunction;
use upon_types::value::{Value, ValueCow};

/// What templates may call.
#[derive(Clone, Copy)]
pub struct Declared<'k> {
    /// The functions.
    pub functions: &'k [StandardFunction],
    /// Whether there is the formatter `verbatim`, which takes one argument.
    pub has_verbatim: bool,
    /// The names of what else there is, which may take any arguments.
    pub others: &'k [&'k str],
}

// The name of the formatter.
const VERBATIM: &str = "verbatim";

impl<'k> Declared<'k> {
    ghost use Rattle.std.specs.Prelude.{◌≡◌, IfOk};
    ghost use Rattle.upon_needs.specs.Names.{texts};
    ghost use Rattle.upon_tool_messages.specs.Judged.{callable_names};

    /// Returns the names of all that templates may call. It fails if there is no memory.
    pub fn names(&self, alloc: Global) -> Result<Vec<&'k str>, AllocError>
        ensures { IfOk result (λ names. texts names.items ≡ callable_names self.now) }
    {
        let mut names = Vec::from_slice(alloc, self.others)?;
        if self.has_verbatim {
            names.push(VERBATIM)?;
        }
        for function in self.functions {
            names.push(function.name())?;
        }
        Ok(names)
    }
}

/// What is wrong with a call.
#[derive(Clone, Copy, Debug, PartialEq, Eq)]
pub enum CallFault {
    /// Nothing has the name.
    Unknown,
    /// The function expects another number of arguments, this one.
    Arguments(usize),
    /// A formatter gets another number of arguments than one.
    FormatterArguments,
}

/// Returns what is wrong with a call of what has a name, with so many arguments, if something is: on whatever values
/// it is made, it fails. It fails if there is no memory.
pub fn fault_of(
    alloc: Global,
    declared: &Declared<'_>,
    name: &str,
    arguments: usize,
) -> Result<Option<CallFault>, AllocError>
    ensures { IfOk result (λ fault. fault ≡ call_fault declared.now name.now arguments) }
{
    if declared.others.contains(&name) {
        return Ok(None);
    }
    if declared.has_verbatim && name == VERBATIM {
        return Ok(if arguments == 1 {
            None
        } else {
            Some(CallFault::FormatterArguments)
        });
    }
    match function_of(declared.functions, name) {
        Some(function) => Ok(expected(alloc, function, arguments)?.map(CallFault::Arguments)),
        None => Ok(Some(CallFault::Unknown)),
    }
}

// The first function of a name, if there is one.
fn function_of(functions: &[StandardFunction], name: &str) -> Option<StandardFunction>
    ensures { result ≡ function_named functions.now name.now }
{
    for function in functions {
        if function.name() == name {
            return Some(*function);
        }
    }
    None
}

// How many arguments a function expects, if not this number: it looks at that first, whatever the arguments are.
fn expected(
    alloc: Global,
    function: StandardFunction,
    arguments: usize,
) -> Result<Option<usize>, AllocError>
    ensures { IfOk result (λ number. number ≡ arguments_wanted function arguments) }
{
    let mut nothing = Vec::new(alloc);
    for _ in 0..arguments {
        nothing.push(ValueCow::Owned(Value::None))?;
    }
    wanted_by(function.call(alloc, nothing.as_slice()))
}

// How many arguments are expected, if a call fails by their number.
fn wanted_by(called: Result<Value, CallError>) -> Result<Option<usize>, AllocError>
    ensures { (answer : Answer) → Says called answer → IfOk result (λ number. number ≡ number_wanted answer) }
{
    match called {
        Err(CallError::Arity(expected)) => Ok(Some(expected)),
        Err(CallError::Memory) => Err(AllocError),
        Err(CallError::Arg(..)) => Ok(None),
        Err(CallError::Fault(_)) => Ok(None),
        Ok(_) => Ok(None),
    }
}
