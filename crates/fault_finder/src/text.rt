//! Reading a text.

ghost use Rattle.std.specs.Prelude.{◌≡◌, ◌<◌, false, length, true, OnOk};

use crate::located::LocatedValue;
use json::{Reader, Scratch, Token};
use std::alloc::{AllocError, AllocFailed, Global};
use std::collections::BTreeMap;

/// How deep lists and objects may nest.
const MAX_DEPTH: usize = 127;

/// Why a text isn't read.
#[derive(Clone, Copy)]
pub(crate) enum ReadFault {
    /// It is no JSON, or beyond what is read of it, from this byte on.
    At(usize, &'static str),
    /// Memory ran out.
    Memory,
}

impl From<AllocError> for ReadFault {
    fn from(_error: AllocError) -> ReadFault {
        ReadFault::Memory
    }
}

impl<T: Drop> From<AllocFailed<T>> for ReadFault {
    fn from(_error: AllocFailed<T>) -> ReadFault {
        ReadFault::Memory
    }
}

const NOT_JSON: &str = "from here on it isn't JSON";

/// A number, where a float of 64 bits may be it.
fn number(at: usize, digits: &str) -> Result<LocatedValue<'_>, ReadFault> {
    let nearest: Option<f64> = fast_float::parse(digits.as_bytes()).ok();
    match nearest {
        Some(float) if float.is_finite() => Ok(LocatedValue::Number(at, digits)),
        _ => Err(ReadFault::At(at, "the number is beyond a 64-bit float")),
    }
}

/// The next value.
#[cycle(read)]
fn read<'a>(
    alloc: Global,
    reader: &mut Reader<'a>,
    depth: usize,
) -> Result<LocatedValue<'a>, ReadFault>
    ensures shorter { OnOk result (length reader.new < length reader.old) }
{
    let at = reader.offset();
    let Some(token) = reader.next() else {
        return Err(ReadFault::At(at, NOT_JSON));
    };
    match token {
        Token::String(text) => Ok(LocatedValue::Text(at, text)),
        Token::Number(digits) => number(at, digits),
        Token::Bool(truth) => Ok(LocatedValue::Truth(at, truth)),
        Token::Null => Ok(LocatedValue::Null(at)),
        Token::EndObject | Token::EndArray | Token::Key(_) | Token::Bad => {
            Err(ReadFault::At(at, NOT_JSON))
        }
        Token::BeginArray => match depth.checked_sub(1) {
            Some(left) => Ok(LocatedValue::List(at, read_items(alloc, reader, left)?)),
            None => Err(ReadFault::At(at, "lists and objects nest deeper than 127")),
        },
        Token::BeginObject => match depth.checked_sub(1) {
            Some(left) => Ok(LocatedValue::Object(at, read_members(alloc, reader, left)?)),
            None => Err(ReadFault::At(at, "lists and objects nest deeper than 127")),
        },
    }
}

/// Whether the list ends here, the end of which is then passed.
fn ends(reader: &mut Reader<'_>) -> bool
    ensures shorter { result ≡ true → length reader.new < length reader.old }
    ensures same { result ≡ false → reader.new ≡ reader.old }
{
    reader.take_end_array()
}

/// The items of a list, up to its end.
#[cycle(read)]
fn read_items<'a>(
    alloc: Global,
    reader: &mut Reader<'a>,
    depth: usize,
) -> Result<Vec<LocatedValue<'a>>, ReadFault>
    ensures shorter { OnOk result (length reader.new < length reader.old) }
{
    let mut items = Vec::new(alloc);
    while !ends(reader) {
        items.push(read(alloc, reader, depth)?)?;
    }
    Ok(items)
}

/// The next name, or none where the object ends.
fn name<'a>(reader: &mut Reader<'a>) -> Result<Option<&'a str>, ReadFault>
    ensures shorter { OnOk result (length reader.new < length reader.old) }
{
    let at = reader.offset();
    match reader.next_key() {
        Ok(name) => Ok(name),
        Err(_) => Err(ReadFault::At(at, NOT_JSON)),
    }
}

/// Puts a value under a name, in place of one that stands there.
fn put<'a>(
    members: &mut Vec<(&'a str, LocatedValue<'a>)>,
    places: &mut BTreeMap<&'a str, usize>,
    name: &'a str,
    value: LocatedValue<'a>,
) -> Result<(), ReadFault> {
    let place = members.len();
    match places.insert(name, place)? {
        None => members.push((name, value))?,
        Some(before) => {
            places.insert(name, before)?;
            if let Some(member) = members.get_mut(before) {
                *member = (name, value);
            }
        }
    }
    Ok(())
}

/// The members of an object, up to its end.
#[cycle(read)]
fn read_members<'a>(
    alloc: Global,
    reader: &mut Reader<'a>,
    depth: usize,
) -> Result<Vec<(&'a str, LocatedValue<'a>)>, ReadFault>
    ensures shorter { OnOk result (length reader.new < length reader.old) }
{
    let mut members = Vec::new(alloc);
    let mut places = BTreeMap::new(alloc);
    while let Some(key) = name(reader)? {
        let value = read(alloc, reader, depth)?;
        put(&mut members, &mut places, key, value)?;
    }
    Ok(members)
}

/// The value that a text is.
pub(crate) fn located_value<'a>(
    alloc: Global,
    text: &'a str,
    scratch: &'a mut Scratch,
) -> Result<LocatedValue<'a>, ReadFault> {
    let mut reader = Reader::new(text, scratch)?;
    let value = read(alloc, &mut reader, MAX_DEPTH)?;
    let at = reader.offset();
    if reader.next().is_some() {
        return Err(ReadFault::At(at, NOT_JSON));
    }
    Ok(value)
}
