//! Reading one member of an object.

ghost use Rattle.std.specs.Prelude.{◌≡◌, IfErr, map};
ghost use Rattle.std.specs.Option.{option_map};
ghost use Rattle.json_source.specs.Read as form;

use json_source::Source;
use ticket_items::Refusal;

/// Refuses `NotProfile` unless the value is an object with no other members than these.
pub fn check_members<S: Source>(value: &S, names: &[&str]) -> Result<(), Refusal>
    // Proved: It is told whether an object has members of these names alone, and never refused for
    // want of memory.
    // By `read`, `refused`.
    ensures read { form.Gives (λ u. u) result
        (form.some_if (form.has_only (map (λ n. n.now) names.now) (S.content value.now))) }
    ensures refused { IfErr result (λ e. e ≡ Refusal.NotProfile) }
{
    if value.has_only(names) {
        Ok(())
    } else {
        Err(Refusal::NotProfile)
    }
}

/// The text under a name.
pub fn text_under<'a, S: Source>(value: &'a S, name: &str) -> Option<&'a str>
    ensures { option_map (λ s. s.now) result ≡ form.text_under name.now (S.content value.now) }
{
    value.member(name)?.text()
}

/// The whole number under a name: of 0 to 2^64 - 1, written without sign, fraction and exponent.
pub fn number_under<S: Source>(value: &S, name: &str) -> Option<u64>
    ensures { result ≡ form.number_under name.now (S.content value.now) }
{
    value.member(name)?.whole_number()
}
