//! What is written in a message: how it is made, compared with what is read, and printed.

ghost use Rattle.std.specs.Prelude.{◌≡◌, map, IfOk, OnOk};
ghost use Rattle.serde_json.specs.Data as json_data;
ghost use Rattle.json_text.specs.Printed.{AreMembersPrinted, IsPrinted};
ghost use Rattle.jmf_message.specs.Form as forms;
ghost use Rattle.jmf_message.specs.Items.{AreOrdered, IsOrdered, item_data, members_data};
ghost use Rattle.jmf_message.specs.Family as said;

use json::Writer;
use json_items::{AnyText, text_under};
use json_source::Source;
use json_text::PrintForm;
use std::alloc::{AllocError, Global};

/// A text, a whole number, or an object of named items.
#[derive(Drop)]
pub enum Item {
    Text(AnyText),
    Number(u64),
    Object(Vec<(&'static str, Item)>),
}

/// The item that is this text.
pub fn text(alloc: Global, text: &str) -> Result<Item, AllocError>
    ensures { IfOk result (λ item. item_data item ≡ json_data.string text.now) }
{
    Ok(Item::Text(AnyText::new(alloc, text)?))
}

/// The item that is this number.
pub fn number(number: u64) -> Item
    ensures { item_data result ≡ json_data.number (json_data.unsigned number) }
{
    Item::Number(number)
}

/// The object of these members.
pub fn object(members: Vec<(&'static str, Item)>) -> Item
    ensures { item_data result ≡ json_data.object (members_data members.entry.items) }
{
    Item::Object(members)
}

/// Whether texts stand under these names.
pub fn are_texts<S: Source>(value: &S, names: &[&str]) -> bool
    ensures { result ≡ forms.are_texts (map (λ n. n.now) names.now) (S.content value.now) }
{
    for name in names {
        if text_under(value, name).is_none() {
            return false;
        }
    }
    true
}

/// Whether a value is an object of texts under these names alone.
pub fn is_of_texts<S: Source>(value: &S, names: &[&str]) -> bool
    ensures { result ≡ forms.is_of_texts (map (λ n. n.now) names.now) (S.content value.now) }
{
    value.has_only(names) && are_texts(value, names)
}

/// Whether a value is what is written.
#[cycle(saying)]
pub fn says<S: Source>(value: &S, item: &Item) -> bool
    ensures { result ≡ said.says (item_data item.now) (S.content value.now) }
{
    match item {
        Item::Text(text) => value.text().is_some_and(|found| found == text.as_str()),
        Item::Number(number) => value.whole_number() == Some(*number),
        Item::Object(members) => says_all(value, members.as_slice()),
    }
}

/// Whether what is written stands under each name.
#[cycle(saying)]
fn says_all<S: Source>(value: &S, members: &[(&str, Item)]) -> bool
    ensures { result ≡ said.says_all (members_data members.now) (S.content value.now) }
{
    for (name, item) in members {
        let Some(found) = value.member(name) else {
            return false;
        };
        if !says(found, item) {
            return false;
        }
    }
    true
}

/// Prints it. The members of each object stand in the byte order of their names.
#[cycle(printing)]
pub fn print_item(out: &mut Writer, item: &Item) -> Result<(), AllocError>
    requires { IsOrdered (item_data item.now) }
    ensures { OnOk result (IsPrinted (item_data item.now) out.old out.new) }
{
    match item {
        Item::Text(text) => text.print(out),
        Item::Number(number) => number.print(out),
        Item::Object(members) => {
            out.begin_object()?;
            print_members(out, members.as_slice())?;
            out.end_object()
        }
    }
}

/// Prints members one after another.
#[cycle(printing)]
fn print_members(out: &mut Writer, members: &[(&str, Item)]) -> Result<(), AllocError>
    requires { AreOrdered (members_data members.now) }
    ensures { OnOk result (AreMembersPrinted (members_data members.now) out.old out.new) }
{
    for (name, item) in members {
        out.key(name)?;
        print_item(out, item)?;
    }
    Ok(())
}
