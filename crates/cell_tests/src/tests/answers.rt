use cells::SwapResult;
use etcd_wire::{NoAnswer, held_of, swapped_of};
use std::test::Fail;

const ABSENT: &str =
    r#"{"header":{"cluster_id":"324952591200643719","member_id":"3319814642761637952","revision":"1","raft_term":"2"}}"#;

const PRESENT: &str =
    r#"{"header":{"cluster_id":"324952591200643719","member_id":"3319814642761637952","revision":"2","raft_term":"2"},"kvs":[{"key":"L2pkZi9taXM=","create_revision":"2","mod_revision":"2","version":"1","value":"aGVsbG8="}],"count":"1"}"#;

const EMPTY: &str =
    r#"{"header":{"cluster_id":"324952591200643719","member_id":"3319814642761637952","revision":"2","raft_term":"2"},"kvs":[{"key":"L2pkZi9taXM=","create_revision":"2","mod_revision":"2","version":"1"}],"count":"1"}"#;

const MADE: &str =
    r#"{"header":{"cluster_id":"324952591200643719","member_id":"3319814642761637952","revision":"3","raft_term":"2"},"succeeded":true,"responses":[{"response_put":{"header":{"revision":"3"}}}]}"#;

const OTHER: &str =
    r#"{"header":{"cluster_id":"324952591200643719","member_id":"3319814642761637952","revision":"3","raft_term":"2"},"responses":[{"response_range":{"header":{"revision":"3"},"kvs":[{"key":"L2pkZi9taXM=","create_revision":"2","mod_revision":"3","version":"2","value":"dHdv"}],"count":"1"}}]}"#;

const TIMED_OUT: &str =
    r#"{"error":"etcdserver: request timed out","message":"etcdserver: request timed out","code":14}"#;

const NO_KEY: &str =
    r#"{"error":"etcdserver: key is not provided","message":"etcdserver: key is not provided","code":3}"#;

#[test]
fn nothing_is_under_the_key(rt: HostRuntime) -> Result<(), Fail> {
    assert!(rt; held_of(rt.alloc(), 200, ABSENT.as_bytes())?.is_none());
    Ok(())
}

#[test]
fn a_value_has_its_revision(rt: HostRuntime) -> Result<(), Fail> {
    for (body, bytes) in [(PRESENT, "hello"), (EMPTY, "")] {
        match held_of(rt.alloc(), 200, body.as_bytes())? {
            Some(version) => {
                assert_eq!(rt; version.revision(), 2);
                assert_eq!(rt; version.bytes(), bytes.as_bytes());
            }
            None => assert!(rt; false, "{bytes}"),
        }
    }
    Ok(())
}

#[test]
fn a_swap_is_made_or_another_came_first(rt: HostRuntime) -> Result<(), Fail> {
    for (body, answer) in [
        (MADE, SwapResult::Made(3)),
        (OTHER, SwapResult::Other),
        (ABSENT, SwapResult::Other),
    ] {
        assert_eq!(rt; swapped_of(rt.alloc(), 200, body.as_bytes())?, answer);
    }
    Ok(())
}

#[test]
fn nothing_else_tells_anything(rt: HostRuntime) -> Result<(), Fail> {
    for (status, body) in [
        (503, TIMED_OUT),
        (400, NO_KEY),
        (500, MADE),
        (503, PRESENT),
        (200, TIMED_OUT),
        (200, ""),
        (200, "{}"),
        (200, r#"{"header":{"revision":3},"succeeded":true}"#),
        (200, r#"{"header":{"revision":"+3"},"succeeded":true}"#),
        (200, r#"{"header":{"revision":"3"},"succeeded":true"#),
        (404, "404 page not found\n"),
    ] {
        let body = body.as_bytes();
        assert_eq!(rt; swapped_of(rt.alloc(), status, body)?, SwapResult::Unknown);
        assert_eq!(rt;
            held_of(rt.alloc(), status, body).err(),
            Some(NoAnswer::Unknown)
        );
    }
    Ok(())
}

#[test]
fn a_value_that_is_no_base64_is_none(rt: HostRuntime) {
    for value in ["YWI", "_-8=", "aGVsbG8"] {
        let body = format!(in rt.alloc();
            r#"{{"header":{{"revision":"2"}},"kvs":[{{"mod_revision":"2","value":"{value}"}}]}}"#
        );
        if let Ok(body) = body {
            let found = held_of(rt.alloc(), 200, body.as_bytes());
            assert_eq!(rt; found.err(), Some(NoAnswer::Unknown), "{value}");
        }
    }
}
