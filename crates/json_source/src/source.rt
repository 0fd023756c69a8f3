ghost use Rattle.std.specs.Prelude.{◌≡◌, map, IfOk};
ghost use Rattle.std.specs.Option.{option_map};
ghost use Rattle.serde_json.specs.Data.{Data};
ghost use Rattle.serde_json.specs.Find.{as_array, as_bool, as_str, get};
ghost use Rattle.serde_json.specs.View.{items_of};
ghost use Rattle.ticket_items.specs.Attrs.{IsInOrder};
ghost use Rattle.json_source.specs.Read as read;
ghost use Rattle.json_source.specs.Read.{Gives, attrs_form, lent_pairs};

use std::alloc::Global;
use ticket_items::Refusal;

/// JSON data that is looked into.
pub trait Source: Drop {
    /// The data.
    ghost content: { Self → Data };

    /// The text that it is.
    fn text(&self) -> Option<&str>
        // Proved: What stands in a value or a tree is what its data has.
        // By `Source::truth`, `Source::whole_number`, `Source::items`, `Source::member`,
        // `Source::has_only`; `Source::texts`: `texts`, `order`.
        ensures { option_map (λ text. text.now) result ≡ as_str (content self.now) };

    /// The truth value that it is.
    fn truth(&self) -> Option<bool>
        ensures { result ≡ as_bool (content self.now) };

    /// The whole number that it is: of 0 to 2^64 - 1, written without sign, fraction and exponent.
    fn whole_number(&self) -> Option<u64>
        ensures { result ≡ read.number_of (content self.now) };

    /// The items of the array that it is.
    fn items(&self) -> Option<&[Self]>
        ensures { option_map (λ items. items_of (map content items.now)) result
            ≡ as_array (content self.now) };

    /// What stands under a name in the object that it is. Of a name that stands twice it is the
    /// last.
    fn member(&self, name: &str) -> Option<&Self>
        ensures { option_map (λ found. content found.now) result
            ≡ get name.now (content self.now) };

    /// Whether it is an object with no other members than these.
    fn has_only(&self, names: &[&str]) -> bool
        ensures { result ≡ read.has_only (map (λ n. n.now) names.now) (content self.now) };

    /// The texts of the object that it is, in the byte order of their names. Refuses `NotProfile`
    /// where it is no object of texts, and `Memory`.
    fn texts(&self, alloc: Global) -> Result<Vec<(&str, &str)>, Refusal>
        ensures texts { Gives (λ pairs. lent_pairs pairs.items) result
            (attrs_form (content self.now)) }
        ensures order { IfOk result (λ pairs. IsInOrder (lent_pairs pairs.items)) };
}
