//! Parts of requests.

ghost use Rattle.std.specs.Prelude.{◌≡◌, IfOk};
ghost use Rattle.json.specs.Value.{value_view};
ghost use Rattle.etcd_wire.specs.Request as form;

use json::Value;
use std::alloc::{AllocError, Global};

/// A list of one.
pub(crate) fn one<'a>(alloc: Global, item: Value<'a>) -> Result<Value<'a>, AllocError>
    ensures { IfOk result (λ v. value_view v ≡ form.one (value_view item.entry)) }
{
    let mut items = Vec::new(alloc);
    items.push(item)?;
    Ok(Value::Array(items))
}

/// An object of one member.
pub(crate) fn single<'a>(
    alloc: Global,
    name: &'a str,
    value: Value<'a>,
) -> Result<Value<'a>, AllocError>
    ensures { IfOk result (λ v. value_view v ≡ form.single name.now (value_view value.entry)) }
{
    let mut members = Vec::new(alloc);
    members.push((name, value))?;
    Ok(Value::Object(members))
}

/// An object of two.
pub(crate) fn pair<'a>(
    alloc: Global,
    first: (&'a str, Value<'a>),
    second: (&'a str, Value<'a>),
) -> Result<Value<'a>, AllocError>
    ensures { IfOk result (λ v. value_view v
        ≡ form.pair first.entry.0.now (value_view first.entry.1)
        second.entry.0.now (value_view second.entry.1)) }
{
    let mut members = Vec::new(alloc);
    members.push(first)?;
    members.push(second)?;
    Ok(Value::Object(members))
}

/// An object of three.
pub(crate) fn triple<'a>(
    alloc: Global,
    first: (&'a str, Value<'a>),
    second: (&'a str, Value<'a>),
    third: (&'a str, Value<'a>),
) -> Result<Value<'a>, AllocError>
    ensures { IfOk result (λ v. value_view v
        ≡ form.triple first.entry.0.now (value_view first.entry.1)
        second.entry.0.now (value_view second.entry.1)
        third.entry.0.now (value_view third.entry.1)) }
{
    let mut members = Vec::new(alloc);
    members.push(first)?;
    members.push(second)?;
    members.push(third)?;
    Ok(Value::Object(members))
}
