//! Names cut at their dots and brackets.

ghost use Rattle.std.specs.Prelude.{◌≡◌, ◌<◌, ◌∷◌, false, None, option_map, option_copied, length, IfOk, IfSome};
ghost use Rattle.script_lang.specs.Texts as texts;
ghost use Rattle.access_policy.specs.Cutting.{parts_left};
ghost use Rattle.access_policy.specs.Names as spec;

use crate::MAX_INDEX;
use ipb_base::NoMemory;
use script_lang::decimal_between;
use std::alloc::Global;
use std::marker::Model;

/// An id of a name, and its index where it has one.
#[derive(Drop)]
pub(crate) struct NamePart<'a> {
    id: &'a str,
    index: Option<u32>,
}

impl<'a> Model for NamePart<'a> {
    ghost use Rattle.access_policy.specs.Names.{NameItem};

    ghost Value = { NameItem };

    ghost view = { λ part. record { id = part.id.now; index = part.index } };
}

impl<'a> NamePart<'a> {
    /// The id, without its index.
    pub(crate) fn id(&self) -> &str
        ensures { result.now ≡ self.now.id }
    {
        self.id
    }

    pub(crate) fn index(&self) -> Option<u32>
        ensures { result ≡ self.now.index }
    {
        self.index
    }
}

/// What stands before and after the first such byte.
pub(crate) fn cut_at(cut: char, text: &str) -> Option<(&str, &str)>
    requires ascii { cut < 128 }
    ensures { option_map (λ parts. (parts.0.now, parts.1.now)) result ≡ texts.cut_at cut text.now }
{
    text.split_once(cut)
}

/// What stands before the first dot, and what stands behind it, if there is one.
pub(crate) fn first_part(text: &str) -> (&str, Option<&str>)
    ensures parts { spec.parts_of text.now ≡ result.0.now ∷ parts_left (option_copied result.1) }
    ensures shorter { IfSome result.1 (λ behind. length behind.now < length text.now) }
{
    match cut_at('.', text) {
        Some((part, behind)) => (part, Some(behind)),
        None => (text, None),
    }
}

/// The index that digits write.
pub(crate) fn index_in(digits: &str) -> Option<u32>
    ensures { result ≡ spec.index_in digits.now }
{
    decimal_between(0, MAX_INDEX, digits.as_bytes())
}

/// What stands before the first bracket, and what stands in brackets behind it, up to the end.
#[tactic(auto, unfolding(crate::specs::Names::in_brackets))]
pub(crate) fn bracketed(text: &str) -> Option<(&str, &str)>
    ensures { option_map (λ parts. (parts.0.now, parts.1.now)) result ≡ spec.in_brackets text.now }
{
    let (id, behind) = cut_at('[', text)?;
    let (inside, after) = cut_at(']', behind)?;
    if !after.is_empty() {
        return None;
    }
    Some((id, inside))
}

/// An id with an index, as it stands between dots.
#[tactic(auto, unfolding(crate::specs::Names::item_with_index))]
fn indexed(text: &str) -> Option<NamePart<'_>>
    ensures { result ≡ spec.item_with_index text.now }
{
    let (id, inside) = bracketed(text)?;
    let index = index_in(inside)?;
    Some(NamePart {
        id,
        index: Some(index),
    })
}

/// Whether a text ends with a bracket, as one with an index does. Most do not, and are not searched for one.
fn is_closed(text: &str) -> bool
    ensures { result ≡ false → spec.item_with_index text.now ≡ None }
{
    let bytes = text.as_bytes();
    !bytes.is_empty() && bytes[bytes.len() - 1] == b']'
}

/// What stands between dots.
pub(crate) fn name_part(text: &str) -> NamePart<'_>
    ensures { result ≡ spec.item_of text.now }
{
    if !is_closed(text) {
        return NamePart {
            id: text,
            index: None,
        };
    }
    match indexed(text) {
        Some(part) => part,
        None => NamePart {
            id: text,
            index: None,
        },
    }
}

/// The ids of a name with their indexes.
pub(crate) fn cut_name(alloc: Global, name: &str) -> Result<Vec<NamePart<'_>>, NoMemory>
    ensures { IfOk result (λ parts. parts.items ≡ spec.items_of name.now) }
{
    let mut parts = Vec::new(alloc);
    let mut left = Some(name);
    'part: while let Some(text) = left {
        let (part, behind) = first_part(text);
        parts.push(name_part(part))?;
        left = behind;
    }
    Ok(parts)
}
