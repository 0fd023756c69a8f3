ghost use Rattle.std.specs.Prelude.{Bool, Option};
ghost use Rattle.serde_json.specs.Data.{Data};
ghost use Rattle.json_items.specs.Validation.{Reads};

use json_source::Source;
use std::alloc::Global;
use ticket_items::Refusal;

/// A value that was found, or the first of `BadId` and `BadText` that stands in it.
pub type Validation<T> = Result<T, Refusal>;

/// A type that JSON data is read as.
pub trait Form: Drop {
    /// What data is, by its members and their kinds alone: its ids, names and texts may be any
    /// bytes.
    ghost form: { Data → Option Self };

    /// Whether its ids and names are valid.
    ghost has_names: { Self → Bool };

    /// Whether its texts are valid.
    ghost has_texts: { Self → Bool };

    /// What is found of it in a value. Refuses `NotProfile`, and `Memory`.
    fn find<S: Source>(alloc: Global, value: &S) -> Result<Validation<Self>, Refusal>
        // Proved: What is found of a value is what its form says: the value, in which nothing is
        // wrong, or the first of `BadId` and `BadText` that stands in it; or `NotProfile`, where
        // nothing of the form is there.
        // By `FormIn::find_in`.
        ensures { Reads has_names has_texts result (form (S.content value.now)) };
}

/// A type that JSON data is read as in a setting, which tells what the data alone doesn't: the
/// format of what is stored, or the shop of an event.
pub trait FormIn<W>: Drop {
    /// What data is in a setting, by its members and their kinds alone: its ids, names and texts
    /// may be any bytes.
    ghost form_in: { W → Data → Option Self };

    /// Whether its ids and names are valid.
    ghost names_valid: { Self → Bool };

    /// Whether its texts are valid.
    ghost texts_valid: { Self → Bool };

    /// What is found of it in a value. Refuses `NotProfile`, and `Memory`.
    fn find_in<S: Source>(
        alloc: Global,
        value: &S,
        setting: &W,
    ) -> Result<Validation<Self>, Refusal>
        ensures { Reads names_valid texts_valid result
            (form_in setting.now (S.content value.now)) };
}

impl<T: Form> FormIn<()> for T {
    ghost form_in = { λ _. T.form };

    ghost names_valid = { T.has_names };

    ghost texts_valid = { T.has_texts };

    fn find_in<S: Source>(
        alloc: Global,
        value: &S,
        _setting: &(),
    ) -> Result<Validation<T>, Refusal> {
        T::find(alloc, value)
    }
}
