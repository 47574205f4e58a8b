// The contexts that a check is made on: one for each file of data that has no key.
ghost use Rattle.std.specs.Prelude.{◌≡◌, ◌∷◌, IfOk, map};
ghost use Rattle.upon_types.specs.View.{view};
ghost use Rattle.upon_tool_data.specs.Words.{has_key};
ghost use Rattle.upon_tool_data.specs.Samples.{each_or_one, sample_files, with_key, without_key, AreSamples};

use crate::context::context;
use crate::fault::ContextFault;
use crate::words::{DataWords, asks_again, key_and_file};
use std::alloc::{AllocError, Global};
use std::io::Read;
use upon_tool_io::sources::Sources;
use upon_types::value::Value;

/// Returns the contexts that the words of a call say, one for each word of `--data` without a key: the one that
/// [`context`](crate::context::context) returns for this word and those that have keys, with all other words. Without
/// such a word there is one context.
///
/// The error says which file or word gives no context; it is `InputTwice` if standard input would be put at a key of
/// several contexts.
pub fn samples<'a, R: Sources + AllocGlobal, I: Read>(
    rt: &R,
    words: &DataWords<'a, '_>,
    input: &mut I,
) -> Result<Vec<Value>, ContextFault<'a>>
    ensures { IfOk result (λ all. AreSamples (R.world rt.now) words.now (sample_files words.now.files.now)
        (I.remaining input.old) (map view all.items) (I.remaining input.new)) }
{
    let alloc = rt.alloc();
    let (alone, keyed) = parted(alloc, words.files)?;
    if alone.len() > 1 && asks_again(true, keyed.as_slice()) {
        return Err(ContextFault::InputTwice);
    }
    let groups = groups_of(alloc, alone.as_slice(), keyed)?;
    read_each(rt, words, groups.as_slice(), input)
}

// The contexts by the words of files of each.
fn read_each<'a, R: Sources + AllocGlobal, I: Read>(
    rt: &R,
    words: &DataWords<'a, '_>,
    groups: &[Vec<&'a str>],
    input: &mut I,
) -> Result<Vec<Value>, ContextFault<'a>>
    ensures { IfOk result (λ all. AreSamples (R.world rt.now) words.now (map (λ group. group.items) groups.now)
        (I.remaining input.old) (map view all.items) (I.remaining input.new)) }
{
    let mut all = Vec::new(rt.alloc());
    for group in groups {
        let files = group.as_slice();
        let one = DataWords { files, ..*words };
        all.push(context(rt, &one, input)?)?;
    }
    Ok(all)
}

// The words of the files of each context, by those without a key and those with one.
fn groups_of<'a>(
    alloc: Global,
    alone: &[&'a str],
    keyed: Vec<&'a str>,
) -> Result<Vec<Vec<&'a str>>, AllocError>
    ensures { IfOk result
        (λ groups. map (λ group. group.items) groups.items ≡ each_or_one alone.now keyed.entry.items) }
{
    if !alone.is_empty() {
        return each_with(alloc, alone, keyed.as_slice());
    }
    let mut groups = Vec::with_capacity(alloc, 1)?;
    groups.push(keyed)?;
    Ok(groups)
}

// Each of some words, and others after it.
fn each_with<'a>(
    alloc: Global,
    words: &[&'a str],
    others: &[&'a str],
) -> Result<Vec<Vec<&'a str>>, AllocError>
    ensures { IfOk result
        (λ groups. map (λ group. group.items) groups.items ≡ map (λ word. word ∷ others.now) words.now) }
{
    let mut groups = Vec::with_capacity(alloc, words.len())?;
    for word in words {
        let mut group = Vec::with_capacity(alloc, others.len().saturating_add(1))?;
        group.push(*word)?;
        group.extend_from_slice(others)?;
        groups.push(group)?;
    }
    Ok(groups)
}

// The words without a key, and those with one.
fn parted<'a>(alloc: Global, words: &[&'a str]) -> Result<(Vec<&'a str>, Vec<&'a str>), AllocError>
    ensures alone { IfOk result (λ parted. parted.0.items ≡ without_key words.now) }
    ensures keyed { IfOk result (λ parted. parted.1.items ≡ with_key words.now) }
{
    let mut alone = Vec::new(alloc);
    let mut keyed = Vec::new(alloc);
    for word in words {
        if has_key(word) {
            keyed.push(*word)?;
        } else {
            alone.push(*word)?;
        }
    }
    Ok((alone, keyed))
}

// Whether a word has a key.
fn has_key(word: &str) -> bool
    ensures { result ≡ has_key word.now }
{
    key_and_file(word).0.is_some()
}
