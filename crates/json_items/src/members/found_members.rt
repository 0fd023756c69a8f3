//! What is found in the members of an object.

ghost use Rattle.std.specs.Prelude.{◌≡◌, Bool, None, Option, Some, option_and_then};
ghost use Rattle.std.specs.List.{list_all};
ghost use Rattle.std.specs.Option.{option_map_or};
ghost use Rattle.serde_json.specs.Find.{get};
ghost use Rattle.json_items.specs.Validation.{Answers, Finds, Reads, both_read, first_fault};
ghost use Rattle.json_items.specs.Validation.{checked_draft, first_of_two, on_both};
ghost use Rattle.json_items.specs.Listed.{pool_form};
ghost use Rattle.json_items.specs.Members.{four_form, three_form, two_form};

use crate::{Form, Validation};
use json_source::Source;
use std::alloc::Global;
use ticket_items::{Items, Refusal};

/// What is found under a name. Refuses `NotProfile` where nothing of the form stands there, and
/// `Memory`.
pub fn find_under<T: Form, S: Source>(
    alloc: Global,
    value: &S,
    name: &str,
) -> Result<Validation<T>, Refusal>
    // Proved: What is found under names is what the form of each says.
    // By `find_pool`, `find_attrs`, `find_two`, `find_three`, `find_four`, `find_five`,
    // `text_under`, `number_under`.
    ensures { Reads T.has_names T.has_texts result
        (option_and_then T.form (get name.now (S.content value.now))) }
{
    let member = value.member(name).ok_or(Refusal::NotProfile)?;
    T::find(alloc, member)
}

/// What is found under a name, and `absent`, which is valid, where nothing stands there. Refuses
/// `NotProfile` where something else does, and `Memory`.
pub fn find_or<T: Form, S: Source>(
    alloc: Global,
    value: &S,
    name: &str,
    absent: T,
) -> Result<Validation<T>, Refusal>
    requires { first_fault T.has_names T.has_texts absent ≡ None }
    ensures { Reads T.has_names T.has_texts result
        (option_map_or T.form (get name.now (S.content value.now)) (Some absent)) }
{
    match value.member(name) {
        Some(member) => T::find(alloc, member),
        None => Ok(Ok(absent)),
    }
}

/// The first of two faults of names or texts.
pub fn first_of_two(one: Refusal, other: Option<Refusal>) -> Refusal
    ensures { result ≡ option_map_or (first_of_two one) other one }
{
    match other {
        Some(Refusal::BadId) => Refusal::BadId,
        _ => one,
    }
}

/// Two that were found, together.
pub fn zip<A: Drop, B: Drop>(one: Validation<A>, other: Validation<B>) -> Validation<(A, B)>
    // Proved: Of two things that were found the first fault stays.
    ensures { (names : A → Bool) (texts : A → Bool) (read : Option A)
        → (other_names : B → Bool) (other_texts : B → Bool) (other_read : Option B)
        → Finds (first_fault names texts) one read
        → Finds (first_fault other_names other_texts) other other_read
        → Finds (first_fault (on_both names other_names) (on_both texts other_texts))
        result (both_read read other_read) }
{
    let one = match one {
        Ok(one) => one,
        Err(refusal) => return Err(first_of_two(refusal, other.err())),
    };
    let other = other?;
    Ok((one, other))
}

/// What is found under two names. Refuses `NotProfile` where nothing of its form stands under one
/// of them, and `Memory`.
pub fn find_two<A: Form, B: Form, S: Source>(
    alloc: Global,
    value: &S,
    name: &str,
    other_name: &str,
) -> Result<Validation<(A, B)>, Refusal>
    ensures { Reads (on_both A.has_names B.has_names) (on_both A.has_texts B.has_texts) result
        (two_form name.now A.form other_name.now B.form (S.content value.now)) }
{
    let one = find_under(alloc, value, name)?;
    let other = find_under(alloc, value, other_name)?;
    Ok(zip(one, other))
}

/// What is found under three names. Refuses `NotProfile` where nothing of its form stands under one
/// of them, and `Memory`.
pub fn find_three<A: Form, B: Form, C: Form, S: Source>(
    alloc: Global,
    value: &S,
    first: &str,
    second: &str,
    third: &str,
) -> Result<Validation<((A, B), C)>, Refusal>
    ensures { Reads (on_both (on_both A.has_names B.has_names) C.has_names)
        (on_both (on_both A.has_texts B.has_texts) C.has_texts) result
        (three_form first.now A.form second.now B.form third.now C.form (S.content value.now)) }
{
    let pair = find_two(alloc, value, first, second)?;
    let last = find_under(alloc, value, third)?;
    Ok(zip(pair, last))
}

/// What is found under four names. Refuses `NotProfile` where nothing of its form stands under one
/// of them, and `Memory`.
pub fn find_four<A: Form, B: Form, C: Form, D: Form, S: Source>(
    alloc: Global,
    value: &S,
    first: &str,
    second: &str,
    third: &str,
    fourth: &str,
) -> Result<Validation<(((A, B), C), D)>, Refusal>
    ensures { Reads (on_both (on_both (on_both A.has_names B.has_names) C.has_names) D.has_names)
        (on_both (on_both (on_both A.has_texts B.has_texts) C.has_texts) D.has_texts) result
        (four_form first.now A.form second.now B.form third.now C.form fourth.now D.form
        (S.content value.now)) }
{
    let three = find_three(alloc, value, first, second, third)?;
    let last = find_under(alloc, value, fourth)?;
    Ok(zip(three, last))
}

/// What is found under five names. Refuses `NotProfile` where nothing of its form stands under one
/// of them, and `Memory`.
pub fn find_five<A: Form, B: Form, C: Form, D: Form, E: Form, S: Source>(
    alloc: Global,
    value: &S,
    first: &str,
    second: &str,
    third: &str,
    fourth: &str,
    fifth: &str,
) -> Result<Validation<((((A, B), C), D), E)>, Refusal>
    ensures { Reads (on_both (on_both (on_both (on_both A.has_names B.has_names) C.has_names)
        D.has_names) E.has_names)
        (on_both (on_both (on_both (on_both A.has_texts B.has_texts) C.has_texts)
        D.has_texts) E.has_texts) result
        (both_read (four_form first.now A.form second.now B.form third.now C.form fourth.now D.form
        (S.content value.now))
        (option_and_then E.form (get fifth.now (S.content value.now)))) }
{
    let four = find_four(alloc, value, first, second, third, fourth)?;
    let last = find_under(alloc, value, fifth)?;
    Ok(zip(four, last))
}

/// What is found in the list under a name, an empty one where nothing stands there. Refuses
/// `NotProfile` where something else does, and `Memory`.
pub fn find_pool<T: Form, S: Source>(
    alloc: Global,
    value: &S,
    name: &str,
) -> Result<Validation<Items<T>>, Refusal>
    ensures { Reads (list_all T.has_names) (list_all T.has_texts) result
        (pool_form T.form (get name.now (S.content value.now))) }
{
    find_or(alloc, value, name, Items::new(Vec::new(alloc)))
}

/// The whole that a value is. Refuses the first of `NotProfile`, `BadId` and `BadText` that stands
/// in it, and `Memory`.
pub fn read_whole_in<T: Form, S: Source>(alloc: Global, value: &S) -> Result<T, Refusal>
    // Proved: A value that is wanted whole is answered, or refused as `NotProfile` where nothing
    // of its form is there, or for the first of `BadId` and `BadText`.
    ensures { Answers result
        (checked_draft (first_fault T.has_names T.has_texts) (T.form (S.content value.now))) }
{
    T::find(alloc, value)?
}
