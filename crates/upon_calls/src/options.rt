// The options of a call.
ghost use Rattle.std.specs.Prelude.{◌≡◌, ⊤, None, Some, IfErr, IfOk, OnOk, true, false};
ghost use Rattle.upon_types.specs.View.{view};
ghost use Rattle.upon_calls.specs.Asked.{agreed, asked_by, depth_at, escape_at, flag_at, has_keys, is_check_key, is_option_key, is_known, number_at, Asks, AsksNothing, HasLimits, HasNoLimits, IsAsked, IsUnasked};
ghost use Rattle.upon_calls.specs.Failure.{RefusedIf};
ghost use Rattle.upon_calls.specs.declared.failure.Argument.TheVariants.{Options as OptionsRefused};
ghost use Rattle.upon_calls.specs.declared.options.Known.TheVariants.{Rendering};

use crate::arguments::{refused, value_of};
use crate::escaping::Language;
use crate::failure::{Argument, Failure};
use crate::pairs::syntax_of;
use std::alloc::Global;
use upon_delimiters::syntax::Syntax;
use upon_engine::within::Limits;
use upon_types::value::{Value, look};

/// What a call asks for beside its templates.
#[derive(Drop)]
pub struct Options {
    /// The language into which values are written, if it is one.
    pub escape: Option<Language>,
    /// The delimiters of the templates.
    pub syntax: Syntax,
    /// How deep includes may go.
    pub depth: usize,
    /// Whether templates may call the standard functions.
    pub functions: bool,
    /// How far a rendering may go.
    pub limits: Limits,
}

/// Which keys options may have.
#[derive(Clone, Copy, Debug, PartialEq, Eq)]
pub(crate) enum Known {
    /// Those of a rendering.
    Rendering,
    /// Those of a rendering, and what a check on contexts has beside.
    OnContexts,
}

/// Returns the options that a text of JSON asks for.
pub(crate) fn options_in(alloc: Global, text: &str) -> Result<Options, Failure>
    ensures asked { IfOk result (λ o. IsAsked text.now (asked_by o)) }
    ensures refused { IfErr result (RefusedIf OptionsRefused (IsUnasked text.now)) }
{
    let value = value_of(alloc, Argument::Options, text)?;
    options_of(alloc, Known::Rendering, &value)
}

/// Returns the options that a value asks for, whose keys may be these.
pub(crate) fn options_of(alloc: Global, known: Known, value: &Value) -> Result<Options, Failure>
    ensures asked { IfOk result (λ o. Asks known (view value.now) (asked_by o)) }
    ensures refused { IfErr result (RefusedIf OptionsRefused (AsksNothing known (view value.now))) }
{
    check_keys(alloc, known, value)?;
    let escape = escape_of(alloc, value)?;
    let syntax = syntax_of(alloc, value)?;
    let depth = depth_of(alloc, value)?;
    let functions = flag_at(alloc, value, "functions")?;
    let limits = limits_of(alloc, value)?;
    Ok(Options {
        escape,
        syntax,
        depth,
        functions,
        limits,
    })
}

// Whether a key is one of an option.
fn is_key(key: &str) -> bool
    ensures { result ≡ is_option_key key.now }
{
    key == "escape"
        || key == "html"
        || key == "syntax"
        || key == "functions"
        || key == "max_include_depth"
        || key == "max_steps"
        || key == "max_output"
        || key == "max_memory"
}

// Whether a key is one of an option that a check on contexts has beside.
fn is_check_key(key: &str) -> bool
    ensures { result ≡ is_check_key key.now }
{
    key == "samples" || key == "schema" || key == "pages"
}

// Whether a key is one of these.
fn is_known(known: Known, key: &str) -> bool
    ensures { result ≡ is_known known key.now }
{
    match known {
        Known::Rendering => is_key(key),
        Known::OnContexts => is_key(key) || is_check_key(key),
    }
}

// Refuses a key that is none of an option.
fn check_keys(alloc: Global, known: Known, value: &Value) -> Result<(), Failure>
    ensures keys { OnOk result (has_keys known (view value.now) ≡ true) }
    ensures refused { IfErr result (RefusedIf OptionsRefused (has_keys known (view value.now) ≡ false)) }
{
    let Value::Map(entries) = value else {
        return Ok(());
    };
    for (key, _) in entries.iter() {
        if !is_known(known, key) {
            let reason = format!(in alloc; "unknown key \"{key}\"");
            return Err(refused(Argument::Options, reason));
        }
    }
    Ok(())
}

// The language into which values are written.
fn escape_of(alloc: Global, value: &Value) -> Result<Option<Language>, Failure>
    ensures read { IfOk result (λ language. escape_at (view value.now) ≡ Some language) }
    ensures refused { IfErr result (RefusedIf OptionsRefused (escape_at (view value.now) ≡ None)) }
{
    let html = flag_at(alloc, value, "html")?;
    match look::entry(value, "escape") {
        None => Ok(if html { Some(Language::Html) } else { None }),
        Some(Value::String(word)) => match agreed(html, Language::of_word(word)) {
            Some(language) => Ok(Some(language)),
            None => Err(wants(
                alloc,
                "escape",
                "\"html\", \"json\", \"shell\" or \"yaml\", and no other one beside \"html\": true",
            )),
        },
        Some(_) => Err(wants(alloc, "escape", "a text")),
    }
}

// The language on which both options agree.
fn agreed(html: bool, language: Option<Language>) -> Option<Language>
    ensures { result ≡ agreed html language }
{
    match language {
        None => None,
        Some(Language::Html) => Some(Language::Html),
        Some(language) => { if html { None } else { Some(language) } }
    }
}

// How deep includes may go.
fn depth_of(alloc: Global, value: &Value) -> Result<usize, Failure>
    ensures read { IfOk result (λ depth. depth_at (view value.now) ≡ Some depth) }
    ensures refused { IfErr result (RefusedIf OptionsRefused (depth_at (view value.now) ≡ None)) }
{
    match number_at(alloc, value, "max_include_depth")? {
        Some(depth) => Ok(depth),
        None => Ok(64),
    }
}

// How far a rendering may go.
fn limits_of(alloc: Global, value: &Value) -> Result<Limits, Failure>
    ensures read { IfOk result (HasLimits (view value.now)) }
    ensures refused { IfErr result (RefusedIf OptionsRefused (HasNoLimits (view value.now))) }
{
    let steps = number_at(alloc, value, "max_steps")?;
    let output = number_at(alloc, value, "max_output")?;
    let values = number_at(alloc, value, "max_memory")?;
    Ok(Limits {
        steps,
        output,
        values,
    })
}

// The truth value at a key, which is false where nothing is.
fn flag_at(alloc: Global, value: &Value, key: &str) -> Result<bool, Failure>
    ensures read { IfOk result (λ flag. flag_at key.now (view value.now) ≡ Some flag) }
    ensures refused { IfErr result (RefusedIf OptionsRefused (flag_at key.now (view value.now) ≡ None)) }
{
    match look::entry(value, key) {
        None => Ok(false),
        Some(Value::Bool(truth)) => Ok(*truth),
        Some(_) => Err(wants(alloc, key, "true or false")),
    }
}

// The number at a key, if one is there.
fn number_at(alloc: Global, value: &Value, key: &str) -> Result<Option<usize>, Failure>
    ensures read { IfOk result (λ number. number_at key.now (view value.now) ≡ Some number) }
    ensures refused { IfErr result (RefusedIf OptionsRefused (number_at key.now (view value.now) ≡ None)) }
{
    match look::entry(value, key) {
        None => Ok(None),
        Some(Value::Integer(number)) => match usize::try_from(*number) {
            Ok(number) => Ok(Some(number)),
            Err(_) => Err(wants(alloc, key, "an integer from 0 on")),
        },
        Some(_) => Err(wants(alloc, key, "an integer from 0 on")),
    }
}

/// Returns the refusal of the options for a key whose value is another than it wants.
#[cold]
pub(crate) fn wants(alloc: Global, key: &str, wanted: &str) -> Failure
    ensures { RefusedIf OptionsRefused ⊤ result }
{
    let reason = format!(in alloc; "\"{key}\" wants {wanted}");
    refused(Argument::Options, reason)
}
