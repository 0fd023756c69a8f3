//! The document that a state is stored as: its format, and the controller under its kind.

ghost use Rattle.std.specs.Prelude.{◌≡◌, IfErr, codes};
ghost use Rattle.json_source.specs.Read.{Gives, number_under};
ghost use Rattle.controller_form.specs.States.StateFormat as format;

use json_items::{check_members, number_under};
use json_source::Source;
use ticket_tree::Refusal;

/// The number of the format that is written.
pub const WRITTEN: u64 = 2;

/// How a state is stored. Each format is read, and only the second is written.
#[derive(Clone, Copy)]
pub enum Format {
    /// An entry of a worker has its part for good.
    First,
    /// An entry has the id of its spawn, and may have given its part up.
    Second,
}

/// The time under `At`, in seconds since 1970. Refuses `NotProfile`.
pub fn at_under<S: Source>(value: &S) -> Result<u64, Refusal>
    ensures read { Gives (λ at. at) result (number_under (codes "At") (S.content value.now)) }
    ensures refused { IfErr result (λ e. e ≡ Refusal.NotProfile) }
{
    number_under(value, "At").ok_or(Refusal::NotProfile)
}

/// The format of a number.
fn format_numbered(number: u64) -> Option<Format>
    ensures { result ≡ format.format_numbered number }
{
    match number {
        1 => Some(Format::First),
        2 => Some(Format::Second),
        _ => None,
    }
}

/// The format of a value. Refuses `NotProfile` where no whole number stands under `Format`, and
/// `BadState` where that of no format does. Needs no memory.
pub fn format_of<S: Source>(value: &S) -> Result<Format, Refusal>
    ensures { result ≡ format.format_of (S.content value.now) }
{
    let number = number_under(value, "Format").ok_or(Refusal::NotProfile)?;
    format_numbered(number).ok_or(Refusal::BadState)
}

/// What stands under a kind of controller. Refuses `NotProfile` where nothing does, or something
/// else than that and the format stands beside it.
pub fn controller_under<'a, S: Source>(value: &'a S, kind: &str) -> Result<&'a S, Refusal>
    ensures read { Gives (λ v. S.content v.now) result
        (format.controller_under kind.now (S.content value.now)) }
    ensures refused { IfErr result (λ e. e ≡ Refusal.NotProfile) }
{
    check_members(value, &["Format", kind])?;
    value.member(kind).ok_or(Refusal::NotProfile)
}
