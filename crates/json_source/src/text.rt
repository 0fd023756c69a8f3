//! Reading a text.

ghost use Rattle.std.specs.Prelude.{◌≡◌, ◌⊎◌, ◌<◌, length, option_map, None, Some};
ghost use Rattle.std.specs.Prelude.{IfErr, IfOk, IsErrOf, MatchResult, OnOk};
ghost use Rattle.std.specs.Str.{IsUtf8};
ghost use Rattle.json.specs.Json.{items, members, read_key, value};
ghost use Rattle.json.specs.Value.{items_view, members_view};
ghost use Rattle.serde_json.specs.Data.{no_members};
ghost use Rattle.serde_json.specs.Read.{converted, of_items, of_json, of_members, read};
ghost use Rattle.json_source.specs.Tree.{items_data, members_data, tree_data};

use crate::number::number_in;
use json::{Reader, Scratch, Token, Value as Tree};
use std::alloc::Global;
use ticket_items::Refusal;

/// How deep arrays and objects may nest.
const MAX_DEPTH: usize = 127;

/// The name of the next member, none at the end of its object.
fn next_name<'a>(reader: &mut Reader<'a>) -> Result<Option<&'a str>, Refusal>
    ensures value { MatchResult result
        (λ k. read_key reader.old ≡ Some (option_map (λ s. s.now) k, reader.new))
        (λ _. read_key reader.old ≡ None) }
    ensures refused { IfErr result (λ e. e ≡ Refusal.NotJson) }
{
    match reader.next_key() {
        Ok(name) => Ok(name),
        Err(_) => Err(Refusal::NotJson),
    }
}

/// The tree that a reader comes to, in which arrays and objects nest no deeper than so. Its numbers
/// are in range, and its lists have room for just what stands in them.
#[cycle(read)]
fn read_tree<'a>(alloc: Global, reader: &mut Reader<'a>, depth: usize) -> Result<Tree<'a>, Refusal>
    ensures ok { IfOk result (λ t. converted of_json (value depth reader.old)
        ≡ Some (tree_data t, reader.new)) }
    ensures shorter { OnOk result (length reader.new < length reader.old) }
    ensures not_json { IsErrOf result Refusal.NotJson
        → converted of_json (value depth reader.old) ≡ None }
    ensures kinds { IfErr result (λ e. (e ≡ Refusal.NotJson) ⊎ (e ≡ Refusal.Memory)) }
{
    let token = reader.next().ok_or(Refusal::NotJson)?;
    match token {
        Token::String(text) => Ok(Tree::String(text)),
        Token::Number(text) => match number_in(text) {
            Some(_) => Ok(Tree::Number(text)),
            None => Err(Refusal::NotJson),
        },
        Token::Bool(truth) => Ok(Tree::Bool(truth)),
        Token::Null => Ok(Tree::Null),
        Token::EndObject | Token::EndArray | Token::Key(_) | Token::Bad => Err(Refusal::NotJson),
        Token::BeginArray => {
            if depth == 0 {
                return Err(Refusal::NotJson);
            }
            let items = read_items(alloc, reader, depth - 1)?;
            Ok(Tree::Array(items))
        }
        Token::BeginObject => {
            if depth == 0 {
                return Err(Refusal::NotJson);
            }
            let members = read_members(alloc, reader, depth - 1)?;
            Ok(Tree::Object(members))
        }
    }
}

/// The items of an array that a reader stands in.
#[cycle(read)]
fn read_items<'a>(
    alloc: Global,
    reader: &mut Reader<'a>,
    depth: usize,
) -> Result<Vec<Tree<'a>>, Refusal>
    ensures ok { IfOk result
        (λ v. converted of_items (items (value depth) (length reader.old) reader.old)
        ≡ Some (items_data (items_view v.items), reader.new)) }
    ensures shorter { OnOk result (length reader.new < length reader.old) }
    ensures not_json { IsErrOf result Refusal.NotJson
        → converted of_items (items (value depth) (length reader.old) reader.old) ≡ None }
    ensures kinds { IfErr result (λ e. (e ≡ Refusal.NotJson) ⊎ (e ≡ Refusal.Memory)) }
{
    let mut found = Vec::new(alloc);
    'items: while !reader.take_end_array() {
        let item = read_tree(alloc, reader, depth)?;
        found.push(item)?;
    }
    found.shrink_to_fit();
    Ok(found)
}

/// The members of an object that a reader stands in.
#[cycle(read)]
fn read_members<'a>(
    alloc: Global,
    reader: &mut Reader<'a>,
    depth: usize,
) -> Result<Vec<(&'a str, Tree<'a>)>, Refusal>
    ensures ok { IfOk result
        (λ v. converted (λ ms. of_members ms no_members)
        (members (value depth) (length reader.old) reader.old)
        ≡ Some (members_data (members_view v.items) no_members, reader.new)) }
    ensures shorter { OnOk result (length reader.new < length reader.old) }
    ensures not_json { IsErrOf result Refusal.NotJson
        → converted (λ ms. of_members ms no_members)
        (members (value depth) (length reader.old) reader.old) ≡ None }
    ensures kinds { IfErr result (λ e. (e ≡ Refusal.NotJson) ⊎ (e ≡ Refusal.Memory)) }
{
    let mut found = Vec::new(alloc);
    'members: while let Some(name) = next_name(reader)? {
        let member = read_tree(alloc, reader, depth)?;
        found.push((name, member))?;
    }
    found.shrink_to_fit();
    Ok(found)
}

/// The tree of a text, or `NotJson`, and `Memory`.
fn whole_tree<'a>(
    alloc: Global,
    text: &'a str,
    scratch: &'a mut Scratch,
) -> Result<Tree<'a>, Refusal>
    ensures ok { IfOk result (λ t. read text.now ≡ Some (tree_data t)) }
    ensures not_json { IsErrOf result Refusal.NotJson → read text.now ≡ None }
    ensures kinds { IfErr result (λ e. (e ≡ Refusal.NotJson) ⊎ (e ≡ Refusal.Memory)) }
{
    let mut reader = Reader::new(text, scratch)?;
    let tree = read_tree(alloc, &mut reader, MAX_DEPTH)?;
    if reader.next().is_some() {
        return Err(Refusal::NotJson);
    }
    Ok(tree)
}

/// The tree of the JSON value that the bytes are. Refuses `NotJson` where they aren't UTF-8, are no
/// JSON, nest deeper than 127 levels, or hold a number that is no float; and `Memory`.
pub fn tree_of<'a>(
    alloc: Global,
    bytes: &'a [u8],
    scratch: &'a mut Scratch,
) -> Result<Tree<'a>, Refusal>
    // Proved: Bytes are read as a tree with the data that `serde_json` reads, and refused just
    // where it reads none.
    // By `ok`, `not_json`, `kinds`.
    ensures ok { IfOk result (λ t. IsUtf8 bytes.now × (read bytes.now ≡ Some (tree_data t))) }
    ensures not_json { IsErrOf result Refusal.NotJson → IsUtf8 bytes.now → read bytes.now ≡ None }
    ensures kinds { IfErr result (λ e. (e ≡ Refusal.NotJson) ⊎ (e ≡ Refusal.Memory)) }
{
    let Ok(text) = std::str::from_utf8(bytes) else {
        return Err(Refusal::NotJson);
    };
    whole_tree(alloc, text, scratch)
}
