// The faults of paths and loops that find nothing, each at its span in the source.
ghost use Rattle.upon_types.specs.Cause.{cause_text};
ghost use Rattle.upon_types.specs.Error.{fault_of};
ghost use Rattle.upon_types.specs.Fault.{fault_with_picture, OrMemory};
ghost use Rattle.upon_types.specs.Span.{LiesIn};
ghost use Rattle.upon_types.specs.View.{view};
ghost use Rattle.upon_lookup.specs.LookupFaults.{wrong, not_in_scope, out_of_bounds, no_index_access, no_key_access, index_into, not_iterable};

use std::alloc::Global;
use upon_types::error::cause::Cause;
use upon_types::error::{Error, ErrorKind};
use upon_types::types::Span;
use upon_types::value::Value;

/// Creates the fault of rendering with this text, which is none of the engine's own, at this span.
pub fn wrong(alloc: Global, source: &str, reason: &str, at: Span) -> Error
    requires { LiesIn source.now at }
    ensures { OrMemory (fault_with_picture source.now (wrong reason.now at)) (fault_of result) }
{
    Error::from_parts(alloc, ErrorKind::Render, Some(reason), Some((source, at)))
}

/// Creates the fault of rendering of this cause at this span.
pub fn caused(alloc: Global, source: &str, cause: Cause, at: Span) -> Error
    requires { LiesIn source.now at }
    ensures { OrMemory (fault_with_picture source.now (wrong (cause_text cause) at)) (fault_of result) }
{
    Error::from_cause(alloc, ErrorKind::Render, cause, Some((source, at)))
}

/// Returns the fault of a path whose first member nothing binds.
pub fn not_in_scope(alloc: Global, source: &str, at: Span) -> Error
    requires { LiesIn source.now at }
    ensures { OrMemory (fault_with_picture source.now (not_in_scope at)) (fault_of result) }
{
    caused(alloc, source, Cause::NotInScope, at)
}

/// Returns the fault of a list that has no item at an index.
pub fn out_of_bounds(alloc: Global, source: &str, len: usize, at: Span) -> Error
    requires { LiesIn source.now at }
    ensures { OrMemory (fault_with_picture source.now (out_of_bounds len at)) (fault_of result) }
{
    caused(alloc, source, Cause::OutOfBounds(len), at)
}

/// Returns the fault of a value of this kind, which has no items by index.
pub fn no_index_access(alloc: Global, source: &str, value: &Value, at: Span) -> Error
    requires { LiesIn source.now at }
    ensures { OrMemory (fault_with_picture source.now (no_index_access (view value.now) at)) (fault_of result) }
{
    caused(alloc, source, Cause::NoIndexAccess(value.kind()), at)
}

/// Returns the fault of a value of this kind, which has no values by key.
pub fn no_key_access(alloc: Global, source: &str, value: &Value, at: Span) -> Error
    requires { LiesIn source.now at }
    ensures { OrMemory (fault_with_picture source.now (no_key_access (view value.now) at)) (fault_of result) }
{
    caused(alloc, source, Cause::NoKeyAccess(value.kind()), at)
}

/// Returns the fault of a path into a loop's state, past a value of this kind.
pub fn index_into(alloc: Global, source: &str, value: &Value, at: Span) -> Error
    requires { LiesIn source.now at }
    ensures { OrMemory (fault_with_picture source.now (index_into (view value.now) at)) (fault_of result) }
{
    caused(alloc, source, Cause::IndexInto(value.kind()), at)
}

/// Returns the fault of a loop over a value of this kind.
pub fn not_iterable(alloc: Global, source: &str, value: &Value, at: Span) -> Error
    requires { LiesIn source.now at }
    ensures { OrMemory (fault_with_picture source.now (not_iterable (view value.now) at)) (fault_of result) }
{
    caused(alloc, source, Cause::NotIterable(value.kind()), at)
}
