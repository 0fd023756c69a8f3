use crate::rule::Member;

/// A value of a text, and where it begins, in bytes from the text's first. Of a name that stands
/// twice in an object it has the last value alone, as the readers do.
#[derive(Drop)]
pub(crate) enum LocatedValue<'a> {
    Null(usize),
    Truth(usize, bool),
    Number(usize, &'a str),
    Text(usize, &'a str),
    List(usize, Vec<LocatedValue<'a>>),
    Object(usize, Vec<(&'a str, LocatedValue<'a>)>),
}

impl<'a> LocatedValue<'a> {
    /// Where it begins.
    pub(crate) fn at(&self) -> usize {
        match self {
            LocatedValue::Null(at)
            | LocatedValue::Truth(at, _)
            | LocatedValue::Number(at, _)
            | LocatedValue::Text(at, _)
            | LocatedValue::List(at, _)
            | LocatedValue::Object(at, _) => *at,
        }
    }

    /// The text that it is.
    pub(crate) fn text(&self) -> Option<&'a str> {
        match self {
            LocatedValue::Text(_, text) => Some(text),
            _ => None,
        }
    }

    /// The whole number that it is.
    pub(crate) fn whole(&self) -> Option<u64> {
        match self {
            LocatedValue::Number(_, digits) => fast_float::parse_u64(digits.as_bytes()).ok(),
            _ => None,
        }
    }

    /// The items of the list that it is.
    pub(crate) fn items(&self) -> &[LocatedValue<'a>] {
        match self {
            LocatedValue::List(_, items) => items.as_slice(),
            _ => &[],
        }
    }

    /// The members of the object that it is.
    pub(crate) fn members(&self) -> &[(&'a str, LocatedValue<'a>)] {
        match self {
            LocatedValue::Object(_, members) => members.as_slice(),
            _ => &[],
        }
    }

    /// What stands under a name in the object that it is.
    pub(crate) fn member(&self, name: &str) -> Option<&LocatedValue<'a>> {
        member_in(self.members(), name)
    }

    /// The text under a name.
    pub(crate) fn text_under(&self, name: &str) -> Option<&'a str> {
        self.member(name)?.text()
    }

    /// The items of the list under a name.
    pub(crate) fn items_under(&self, name: &str) -> &[LocatedValue<'a>] {
        for (other, value) in self.members() {
            if *other == name {
                return value.items();
            }
        }
        &[]
    }

    /// What it is, in words.
    pub(crate) fn what(&self) -> &'static str {
        match self {
            LocatedValue::Null(_) => "null",
            LocatedValue::Truth(_, true) => "true",
            LocatedValue::Truth(_, false) => "false",
            LocatedValue::Number(_, _) => "a number",
            LocatedValue::Text(_, _) => "a text",
            LocatedValue::List(_, _) => "a list",
            LocatedValue::Object(_, _) => "an object",
        }
    }
}

/// What stands under a name among members.
pub(crate) fn member_in<'v, 'a>(
    members: &'v [(&'a str, LocatedValue<'a>)],
    name: &str,
) -> Option<&'v LocatedValue<'a>> {
    for (other, value) in members {
        if *other == name {
            return Some(value);
        }
    }
    None
}

/// The rule of a name among members.
pub(crate) fn rule_in<'v>(members: &'v [Member], name: &str) -> Option<&'v Member> {
    for member in members {
        if member.name() == name {
            return Some(member);
        }
    }
    None
}
