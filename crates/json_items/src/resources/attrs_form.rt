//! Attributes: texts by their names.

ghost use Rattle.std.specs.Prelude.{◌≡◌, [], codes, true, IfOk, IfErr, OnOk};
ghost use Rattle.std.specs.List.{list_all};
ghost use Rattle.serde_json.specs.Find.{get};
ghost use Rattle.ticket_items.specs.Attrs.{IsInOrder, with_attr};
ghost use Rattle.ticket_items.specs.Names as names;
ghost use Rattle.json_items.specs.Attributes as attributes;
ghost use Rattle.json_items.specs.Validation.{Reads};
ghost use Rattle.json_source.specs.Read.{attrs_form, attrs_of, lent_pairs};

use crate::members::found_members::find_or;
use crate::{Form, Validation};
use json_source::Source;
use std::alloc::Global;
use std::marker::Model;
use ticket_items::{Attrs, Name, Refusal, Text, is_name, is_text};

/// Whether each first part is a name.
fn are_names(pairs: &[(&str, &str)]) -> bool
    ensures { result ≡ list_all (λ p. names.is_name p.0.now) pairs.now }
{
    pairs.iter().all(|(name, _)| is_name(name))
}

/// Whether each second part is a text of our profile.
fn are_texts(pairs: &[(&str, &str)]) -> bool
    ensures { result ≡ list_all (λ p. names.is_text p.1.now) pairs.now }
{
    pairs.iter().all(|(_, text)| is_text(text))
}

/// Sets the text of a name. Refuses `Memory` alone.
fn set_attr(alloc: Global, attrs: &mut Attrs, name: &str, text: &str) -> Result<(), Refusal>
    requires name { names.is_name name.now ≡ true }
    requires text { names.is_text text.now ≡ true }
    ensures ok { OnOk result (attrs.new ≡ with_attr name.now text.now attrs.old) }
    ensures memory { IfErr result (λ e. e ≡ Refusal.Memory) }
{
    let name = Name::from_valid(alloc, name)?;
    let text = Text::from_valid(alloc, text)?;
    attrs.set(name, text)?;
    Ok(())
}

/// The attributes that the pairs are, which stand in the byte order of their names. Refuses
/// `Memory` alone.
fn build_attrs(alloc: Global, pairs: &[(&str, &str)]) -> Result<Attrs, Refusal>
    requires ordered { IsInOrder (lent_pairs pairs.now) }
    requires names { list_all (λ p. names.is_name p.0.now) pairs.now ≡ true }
    requires texts { list_all (λ p. names.is_text p.1.now) pairs.now ≡ true }
    ensures ok { IfOk result (λ attrs. attrs ≡ lent_pairs pairs.now) }
    ensures memory { IfErr result (λ e. e ≡ Refusal.Memory) }
{
    let mut attrs = Attrs::with_capacity(alloc, pairs.len())?;
    for (name, text) in pairs {
        set_attr(alloc, &mut attrs, name, text)?;
    }
    Ok(attrs)
}

impl Form for Attrs {
    ghost form = { attrs_form };

    ghost has_names = { attributes.attrs_have_names };

    ghost has_texts = { attributes.attrs_have_texts };

    #[tactic(auto, using(crate::proofs::Tests::all_mapped))]
    fn find<S: Source>(alloc: Global, value: &S) -> Result<Validation<Attrs>, Refusal> {
        let pairs = value.texts(alloc)?;
        if !are_names(pairs.as_slice()) {
            return Ok(Err(Refusal::BadId));
        }
        if !are_texts(pairs.as_slice()) {
            return Ok(Err(Refusal::BadText));
        }
        Ok(Ok(build_attrs(alloc, pairs.as_slice())?))
    }
}

/// What is found of the attributes under `Attr`, none where nothing stands there. Refuses
/// `NotProfile` where something else does, and `Memory`.
pub fn find_attrs<S: Source>(alloc: Global, value: &S) -> Result<Validation<Attrs>, Refusal>
    ensures { Reads attributes.attrs_have_names attributes.attrs_have_texts result
        (attrs_of (get (codes "Attr") (S.content value.now))) }
{
    find_or(alloc, value, "Attr", Attrs::new(alloc))
}
