ghost use Rattle.std.specs.Prelude.{◌≡◌};
ghost use Rattle.std.specs.List.{list_all};
ghost use Rattle.ticket_items.specs.Names.{is_digit};
ghost use Rattle.ticket_items.specs.SpawnId as spawns;

use crate::duplicate::Duplicate;
use crate::id::Id;
use crate::refusal::Refusal;
use crate::rules::is_digit;
use std::alloc::{AllocError, Global};
use std::marker::Model;

/// The number of a spawn: 1 to 999,999,999. Its text is `S` and the number (our own; JDF 1.5, 4.4
/// has a SpawnID of any characters).
#[derive(Clone, Copy, Debug, PartialEq, Eq, PartialOrd, Ord, Hash)]
pub struct SpawnId {
    number: u32,
}

impl Model for SpawnId {
    ghost use Rattle.std.specs.Prelude.{◌≡◌, ℕ, true};
    ghost use Rattle.ticket_items.specs.SpawnId.{is_spawn_number};

    ghost Value = { ℕ };

    ghost view = { λ a. a.number };

    ghost invariant = { λ a. is_spawn_number a.number ≡ true };

    ghost inverse = { λ n. record { number = n } };
}

/// Whether a number is one of 1 to 999,999,999.
fn is_spawn_number(number: u32) -> bool
    ensures { result ≡ spawns.is_spawn_number number }
{
    1 <= number && number <= 999_999_999
}

fn are_digits(bytes: &[u8]) -> bool
    ensures { result ≡ list_all is_digit bytes.now }
{
    bytes.iter().all(|byte| is_digit(*byte))
}

/// Whether decimal digits write a number, of which the first isn't 0.
fn is_numeral(digits: &[u8]) -> bool
    ensures { result ≡ spawns.is_numeral digits.now }
{
    match digits.split_first() {
        None => false,
        Some((first, _)) => b'0' < *first && are_digits(digits),
    }
}

/// The number of a spawn that decimal digits write.
fn number_in(digits: &str) -> Option<u32>
    ensures { result ≡ spawns.number_in digits.now }
{
    if !is_numeral(digits.as_bytes()) {
        return None;
    }
    match digits.parse::<u32>() {
        Err(_) => None,
        Ok(number) => {
            if !is_spawn_number(number) {
                return None;
            }
            Some(number)
        }
    }
}

/// The number of the spawn that a text names.
fn spawn_of(text: &str) -> Option<u32>
    ensures { result ≡ spawns.spawn_of text.now }
{
    match text.strip_prefix("S") {
        None => None,
        Some(digits) => number_in(digits),
    }
}

impl SpawnId {
    ghost use Rattle.std.specs.Prelude.{◌≡◌, ℕ, true, false, None, Some, IfOk, MatchResult};
    ghost use Rattle.ticket_items.specs.SpawnId.{is_spawn_number, spawn_of, spawn_text};

    /// The spawn of a number. Refuses `TooManySpawns` where it isn't one of 1 to 999,999,999. Needs
    /// no memory.
    pub fn new(number: u32) -> Result<SpawnId, Refusal>
        // Proved: A spawn's number is just one of 1 to 999,999,999.
        // By `ok`, `refused`; `SpawnId::number`: `value`, `valid`.
        ensures ok { is_spawn_number number ≡ true → result ≡ Ok number }
        ensures refused { is_spawn_number number ≡ false → result ≡ Err Refusal.TooManySpawns }
    {
        if !is_spawn_number(number) {
            return Err(Refusal::TooManySpawns);
        }
        Ok(SpawnId { number })
    }

    /// The spawn that a text names: `S`, and the number without leading zeros. Refuses `BadId`
    /// where it names none. Needs no memory.
    pub fn parse(text: &str) -> Result<SpawnId, Refusal>
        // Proved: A text names a spawn just if it is `S` and its number.
        // By `ok`, `named`, `read`; `SpawnId::to_id`: `id`, `valid`.
        ensures ok { IfOk result (λ s. (text.now ≡ spawn_text s) × (is_spawn_number s ≡ true)) }
        ensures named { (n : ℕ) → is_spawn_number n ≡ true → text.now ≡ spawn_text n
            → result ≡ Ok n }
        ensures read { MatchResult result
            (λ s. spawn_of text.now ≡ Some s)
            (λ e. (e ≡ Refusal.BadId) × (spawn_of text.now ≡ None)) }
    {
        match spawn_of(text) {
            None => Err(Refusal::BadId),
            Some(number) => Ok(SpawnId { number }),
        }
    }

    /// Its number.
    pub fn number(self) -> u32
        ensures value { result ≡ self }
        ensures valid { is_spawn_number self ≡ true }
    {
        self.number
    }

    /// The id that is its text.
    pub fn to_id(self, alloc: Global) -> Result<Id, AllocError>
        ensures id { IfOk result (λ id. id ≡ spawn_text self) }
        ensures valid { is_spawn_number self ≡ true }
    {
        let text = format!(in alloc; "S{}", self.number)?;
        Id::from_valid(alloc, text.as_str())
    }
}

impl Duplicate for SpawnId {
    ghost use Rattle.std.proofs.Common.{rules};

    ghost equal = { Prim.search rules };
}
