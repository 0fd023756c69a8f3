//! Lists, each item by its form.

ghost use Rattle.std.specs.Prelude.{Bool, List, Option, map, option_and_then, OnOk};
ghost use Rattle.std.specs.List.{list_all};
ghost use Rattle.serde_json.specs.Find.{get};
ghost use Rattle.serde_json.specs.View.{items_of};
ghost use Rattle.json_items.specs.Validation.{Finds, Reads, first_fault};
ghost use Rattle.json_items.specs.Listed.{items_read, list_form, one_more};

use crate::members::found_members::first_of_two;
use crate::{Form, FormIn, Validation};
use json_source::Source;
use std::alloc::{AllocError, Global};
use ticket_items::{Items, Refusal};

/// Appends what was found to a list that was found.
pub fn push_found<T: Drop>(
    found: &mut Validation<Items<T>>,
    next: Validation<T>,
) -> Result<(), AllocError>
    ensures { OnOk result ((names : T → Bool) (texts : T → Bool) (read : Option (List T))
        (next_read : Option T)
        → Finds (first_fault (list_all names) (list_all texts)) found.old read
        → Finds (first_fault names texts) next next_read
        → Finds (first_fault (list_all names) (list_all texts)) found.new
        (one_more read next_read)) }
{
    match next {
        Ok(item) => {
            if let Ok(items) = found {
                items.push(item)?;
            }
        }
        Err(refusal) => {
            let first = match found {
                Ok(_) => refusal,
                Err(before) => first_of_two(*before, Some(refusal)),
            };
            *found = Err(first);
        }
    }
    Ok(())
}

/// What is found of each item in a setting. Refuses what the first refused item is refused for, and
/// `Memory`.
fn find_each<W, T: FormIn<W>, S: Source>(
    alloc: Global,
    items: &[S],
    setting: &W,
) -> Result<Validation<Items<T>>, Refusal>
    ensures { Reads (list_all T.names_valid) (list_all T.texts_valid) result
        (items_read (T.form_in setting.now) (items_of (map S.content items.now))) }
{
    let mut found = Ok(Items::new(Vec::with_capacity(alloc, items.len())?));
    for item in items {
        let next = T::find_in(alloc, item, setting)?;
        push_found(&mut found, next)?;
    }
    Ok(found)
}

/// What is found of the list under a name, in a setting. Refuses `NotProfile` where no list of the
/// form stands there, and `Memory`.
pub fn find_list_in<W, T: FormIn<W>, S: Source>(
    alloc: Global,
    value: &S,
    name: &str,
    setting: &W,
) -> Result<Validation<Items<T>>, Refusal>
    // Proved: What is found of a list, of one more item of it, and of a text as an id is what its
    // form says.
    // By `push_found`, `id_in`.
    ensures { Reads (list_all T.names_valid) (list_all T.texts_valid) result
        (option_and_then (list_form (T.form_in setting.now)) (get name.now (S.content value.now))) }
{
    let list = value.member(name).ok_or(Refusal::NotProfile)?;
    let items = list.items().ok_or(Refusal::NotProfile)?;
    find_each(alloc, items, setting)
}

impl<T: Form> Form for Items<T> {
    ghost form = { list_form T.form };

    ghost has_names = { list_all T.has_names };

    ghost has_texts = { list_all T.has_texts };

    fn find<S: Source>(alloc: Global, value: &S) -> Result<Validation<Items<T>>, Refusal> {
        let items = value.items().ok_or(Refusal::NotProfile)?;
        find_each(alloc, items, &())
    }
}
