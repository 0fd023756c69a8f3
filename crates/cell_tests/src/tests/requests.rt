use etcd_wire::{range_request, swap_request, touch_request};
use std::test::Fail;

const KEY: &[u8] = b"/jdf/mis";

const RANGE: &str = r#"{"key":"L2pkZi9taXM="}"#;

const SWAP: &str =
    r#"{"compare":[{"target":"MOD","key":"L2pkZi9taXM=","mod_revision":"2"}],"success":[{"request_put":{"key":"L2pkZi9taXM=","value":"dHdv"}}],"failure":[{"request_range":{"key":"L2pkZi9taXM="}}]}"#;

/// A touch of nothing.
const BEGIN: &str =
    r#"{"compare":[{"target":"MOD","key":"L2pkZi9taXM=","mod_revision":"0"}],"success":[{"request_put":{"key":"L2pkZi9taXM=","value":""}}],"failure":[{"request_range":{"key":"L2pkZi9taXM="}}]}"#;

const TOUCH: &str =
    r#"{"compare":[{"target":"MOD","key":"L2pkZi9taXM=","mod_revision":"924"}],"success":[{"request_put":{"key":"L2pkZi9taXM=","ignore_value":true}}],"failure":[{"request_range":{"key":"L2pkZi9taXM="}}]}"#;

#[test]
fn a_key_is_asked_for(rt: HostRuntime) -> Result<(), Fail> {
    let body = range_request(rt.alloc(), KEY)?;
    assert_eq!(rt; body.as_slice(), RANGE.as_bytes());
    Ok(())
}

#[test]
fn a_swap_names_its_revision(rt: HostRuntime) -> Result<(), Fail> {
    let body = swap_request(rt.alloc(), KEY, 2, b"two")?;
    assert_eq!(rt; body.as_slice(), SWAP.as_bytes());
    Ok(())
}

#[test]
fn a_touch_leaves_the_value(rt: HostRuntime) -> Result<(), Fail> {
    let body = touch_request(rt.alloc(), KEY, 924)?;
    assert_eq!(rt; body.as_slice(), TOUCH.as_bytes());
    Ok(())
}

#[test]
fn a_touch_of_nothing_puts_no_bytes(rt: HostRuntime) -> Result<(), Fail> {
    let body = touch_request(rt.alloc(), KEY, 0)?;
    assert_eq!(rt; body.as_slice(), BEGIN.as_bytes());
    Ok(())
}
