// The signatures of each standard function.
ghost use Rattle.std.specs.Prelude.{◌≡◌, map, IfOk};
ghost use Rattle.upon_shape_check.specs.Callables.{signature_view};
ghost use Rattle.upon_std_shapes.specs.Signatures.{comparing_signatures, texts_signatures, lists_signatures, basic_signatures, orders_signatures, parts_signatures, writing_signatures, standard_signatures};

use crate::form::{Form, ITEMS, ORDERED};
use crate::rows::{and_of_any, for_each, only};
use std::alloc::{AllocError, Global};
use upon_shape_check::declared::Signature;
use upon_std::basic::comparing::Comparing;
use upon_std::basic::lists::Lists;
use upon_std::basic::table::StandardFunction as Basic;
use upon_std::basic::texts::Texts;
use upon_std::cutting::parts::Parts;
use upon_std::encoding::writing::Writing;
use upon_std::ordering::orders::Orders;
use upon_std::table::StandardFunction;

// Returns what a standard function takes and gives.
pub(crate) fn signatures_of(
    alloc: Global,
    function: StandardFunction,
) -> Result<Vec<Signature>, AllocError>
    ensures { IfOk result (λ rows. map signature_view rows.items ≡ standard_signatures function) }
{
    match function {
        StandardFunction::Basic(function) => of_basic(alloc, function),
        StandardFunction::Orders(function) => of_orders(alloc, function),
        StandardFunction::Parts(function) => of_parts(alloc, function),
        StandardFunction::Writing(function) => of_writing(alloc, function),
    }
}

// Returns the signatures of one of the functions of the first group.
fn of_basic(alloc: Global, function: Basic) -> Result<Vec<Signature>, AllocError>
    ensures { IfOk result (λ rows. map signature_view rows.items ≡ basic_signatures function) }
{
    match function {
        Basic::Comparing(function) => of_comparing(alloc, function),
        Basic::Integers(_) => Ok(Vec::new(alloc)),
        Basic::Texts(function) => of_texts(alloc, function),
        Basic::Lists(function) => of_lists(alloc, function),
    }
}

// Returns the signatures of one of the functions that compare and choose.
fn of_comparing(alloc: Global, function: Comparing) -> Result<Vec<Signature>, AllocError>
    ensures { IfOk result (λ rows. map signature_view rows.items ≡ comparing_signatures function) }
{
    match function {
        Comparing::Equal | Comparing::NotEqual | Comparing::And | Comparing::Or => {
            only(alloc, &[Form::Any, Form::Any], Form::Truth)
        }
        Comparing::Ordered(_) => for_each(alloc, &ORDERED, &[Form::One, Form::One], Form::Truth),
        Comparing::Not => only(alloc, &[Form::Any], Form::Truth),
        Comparing::Default => for_each(alloc, &ITEMS, &[Form::OneOrNone, Form::One], Form::One),
        Comparing::Choose => {
            for_each(alloc, &ITEMS, &[Form::Any, Form::One, Form::One], Form::One)
        }
    }
}

// Returns the signatures of one of the functions of texts.
fn of_texts(alloc: Global, function: Texts) -> Result<Vec<Signature>, AllocError>
    ensures { IfOk result (λ rows. map signature_view rows.items ≡ texts_signatures function) }
{
    match function {
        Texts::Trim | Texts::Lower | Texts::Upper => only(alloc, &[Form::Text], Form::Text),
        Texts::StartsWith | Texts::EndsWith | Texts::Contains => {
            only(alloc, &[Form::Text, Form::Text], Form::Truth)
        }
        Texts::Repeat => Ok(Vec::new(alloc)),
    }
}

// Returns the signatures of one of the functions of lists and maps.
fn of_lists(alloc: Global, function: Lists) -> Result<Vec<Signature>, AllocError>
    ensures { IfOk result (λ rows. map signature_view rows.items ≡ lists_signatures function) }
{
    match function {
        Lists::Length => Ok(Vec::new(alloc)),
        Lists::First | Lists::Last => for_each(alloc, &ITEMS, &[Form::List], Form::OneOrNone),
        Lists::Reverse => for_each(alloc, &ITEMS, &[Form::List], Form::List),
        Lists::Join => only(alloc, &[Form::Texts, Form::Text], Form::Text),
        Lists::Keys => only(alloc, &[Form::Map], Form::Texts),
        Lists::Values => for_each(alloc, &ITEMS, &[Form::Map], Form::List),
        Lists::Get => for_each(
            alloc,
            &ITEMS,
            &[Form::Map, Form::Text, Form::One],
            Form::One,
        ),
    }
}

// Returns the signatures of one of the functions that sort and group.
fn of_orders(alloc: Global, function: Orders) -> Result<Vec<Signature>, AllocError>
    ensures { IfOk result (λ rows. map signature_view rows.items ≡ orders_signatures function) }
{
    match function {
        Orders::Sort => for_each(alloc, &ORDERED, &[Form::List], Form::List),
        Orders::SortBy => Ok(Vec::new(alloc)),
        Orders::Unique => for_each(alloc, &ITEMS, &[Form::List], Form::List),
        Orders::GroupBy => {
            let rows = for_each(alloc, &ITEMS, &[Form::Maps, Form::Text], Form::GroupsOfMaps)?;
            and_of_any(alloc, rows, &[Form::List, Form::Text], Form::Groups)
        }
    }
}

// Returns the signatures of one of the functions of parts.
fn of_parts(alloc: Global, function: Parts) -> Result<Vec<Signature>, AllocError>
    ensures { IfOk result (λ rows. map signature_view rows.items ≡ parts_signatures function) }
{
    match function {
        Parts::Concat => for_each(alloc, &ITEMS, &[Form::List, Form::List], Form::List),
        Parts::Pluck => {
            let rows = for_each(alloc, &ITEMS, &[Form::Maps, Form::Text], Form::ListOrNone)?;
            and_of_any(alloc, rows, &[Form::List, Form::Text], Form::List)
        }
        Parts::Where => {
            for_each(
                alloc,
                &ITEMS,
                &[Form::List, Form::Text, Form::Any],
                Form::List,
            )
        }
        Parts::Lines => only(alloc, &[Form::Text], Form::Texts),
        Parts::Range | Parts::Slice | Parts::Sum | Parts::Split | Parts::Replace | Parts::Indent =>
            Ok(Vec::new(alloc)),
    }
}

// Returns the signatures of one of the functions that write.
fn of_writing(alloc: Global, function: Writing) -> Result<Vec<Signature>, AllocError>
    ensures { IfOk result (λ rows. map signature_view rows.items ≡ writing_signatures function) }
{
    match function {
        Writing::Json => only(alloc, &[Form::Any], Form::Text),
        Writing::Yaml | Writing::Url | Writing::Base64 => only(alloc, &[Form::Text], Form::Text),
        Writing::Shell
        | Writing::Truncate
        | Writing::PadLeft
        | Writing::PadRight
        | Writing::Center => Ok(Vec::new(alloc)),
    }
}
