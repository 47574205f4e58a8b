// The names that are near to a name: those that it becomes by few letters put in, left out, exchanged or swapped.
ghost use Rattle.std.specs.Prelude.{◌≡◌, ◌&&◌, ℕ, IfOk, nat_le, length};
ghost use Rattle.std.specs.List.{list_all};
ghost use Rattle.std.specs.Str.{chars};
ghost use Rattle.upon_near.specs.Nearest.{is_least, is_no_nearer, is_short, near_distance, nearest, reach};

use std::alloc::{AllocError, Global};
use strsim::osa_distance;

/// Returns the nearest of some names, in their order and at most two. None of them is there if no name is near. It
/// fails if there is no memory.
pub fn nearest<'n>(alloc: Global, name: &str, names: &[&'n str]) -> Result<Vec<&'n str>, AllocError>
    ensures { IfOk result (λ near. near.items ≡ nearest name.now names.now) }
{
    let least = least_distance(alloc, name, names)?;
    let mut near = Vec::new(alloc);
    for other in names {
        if is_least(near_distance(alloc, name, other)?, least) {
            near.push(*other)?;
        }
    }
    near.truncate(2);
    Ok(near)
}

// The least distance of the names that are near, if one is.
fn least_distance(alloc: Global, name: &str, names: &[&str]) -> Result<Option<usize>, AllocError>
    ensures { IfOk result (λ least. (distance : ℕ)
        → list_all (λ other. is_no_nearer distance (near_distance name.now other.now)) names.now
        ≡ is_no_nearer distance least) }
{
    let mut least = None;
    for other in names {
        least = lesser(least, near_distance(alloc, name, other)?);
    }
    Ok(least)
}

// The lesser of two distances, of which each may not be there.
fn lesser(distance: Option<usize>, other: Option<usize>) -> Option<usize>
    ensures { (d : ℕ) → is_no_nearer d result ≡ (is_no_nearer d distance && is_no_nearer d other) }
{
    match (distance, other) {
        (Some(distance), Some(other)) => Some(distance.min(other)),
        (Some(distance), None) => Some(distance),
        (None, other) => other,
    }
}

// Whether a name at this distance is near, and not farther than the least distance.
fn is_least(distance: Option<usize>, least: Option<usize>) -> bool
    ensures { result ≡ is_least distance (λ d. is_no_nearer d least) }
{
    match (distance, least) {
        (Some(distance), Some(least)) => distance <= least,
        (Some(_), None) => true,
        (None, _) => false,
    }
}

// The distance of a name that is near.
fn near_distance(alloc: Global, name: &str, other: &str) -> Result<Option<usize>, AllocError>
    ensures { IfOk result (λ distance. distance ≡ near_distance name.now other.now) }
{
    if !is_short(name) || !is_short(other) {
        return Ok(None);
    }
    let distance = osa_distance(alloc, name, other)?;
    Ok(if distance <= reach(name) {
        Some(distance)
    } else {
        None
    })
}

// The greatest distance of a name that is near: a third of the letters, and at least one.
fn reach(name: &str) -> usize
    ensures { result ≡ reach name.now }
{
    (letters(name) / 3).max(1)
}

// How many letters a name has.
fn letters(name: &str) -> usize
    ensures { result ≡ length (chars name.now) }
{
    name.chars().count()
}

// How many bytes a name has at most that is compared with others, which takes time by the lengths of both.
const LONGEST: usize = 100;

// Whether a name is short enough to be compared with others.
fn is_short(name: &str) -> bool
    ensures { result ≡ is_short name.now }
{
    name.len() <= LONGEST
}
