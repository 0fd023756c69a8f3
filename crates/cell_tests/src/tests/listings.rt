use etcd_wire::{NoAnswer, listed_of, listing_request};
use std::test::Fail;

const FOLDER: &[u8] = b"toarnbif";

const ASKED: &str = r#"{"key":"dG9hcm5iaWYv","range_end":"dG9hcm5iaWYw","keys_only":true}"#;

const NONE: &str =
    r#"{"header":{"cluster_id":"400972118177689836","member_id":"7004211706760791668","revision":"1","raft_term":"2"}}"#;

/// What was told beside keys that are in no such folder: `toarnbif`, `toarnbie`, `toarnbif0`.
const TWO: &str =
    r#"{"header":{"cluster_id":"400972118177689836","member_id":"7004211706760791668","revision":"7","raft_term":"2"},"kvs":[{"key":"dG9hcm5iaWYvbWlz","create_revision":"3","mod_revision":"7","version":"2"},{"key":"dG9hcm5iaWYvcHJlc3Mvam9i","create_revision":"2","mod_revision":"2","version":"1"}],"count":"2"}"#;

#[test]
fn the_keys_of_a_folder_are_asked_for(rt: HostRuntime) -> Result<(), Fail> {
    let body = listing_request(rt.alloc(), FOLDER)?;
    assert_eq!(rt; body.as_slice(), ASKED.as_bytes());
    Ok(())
}

#[test]
fn each_key_has_its_revision(rt: HostRuntime) -> Result<(), Fail> {
    let listed = listed_of(rt.alloc(), 200, TWO.as_bytes())?;
    assert_eq!(rt; listed.len(), 2);
    for (found, (key, revision)) in listed
        .iter()
        .zip([("toarnbif/mis", 7), ("toarnbif/press/job", 2)])
    {
        assert_eq!(rt; found.key(), key.as_bytes());
        assert_eq!(rt; found.revision(), revision);
    }
    Ok(())
}

#[test]
fn an_empty_folder_has_no_keys(rt: HostRuntime) -> Result<(), Fail> {
    assert!(rt; listed_of(rt.alloc(), 200, NONE.as_bytes())?.is_empty());
    Ok(())
}

#[test]
fn nothing_else_tells_keys(rt: HostRuntime) {
    for (status, body) in [
        (503, TWO),
        (200, ""),
        (200, "{}"),
        (200, r#"{"header":{"revision":"3"},"kvs":{}}"#),
        (200, r#"{"header":{"revision":"3"},"kvs":[{"key":"YQ=="}]}"#),
        (
            200,
            r#"{"header":{"revision":"3"},"kvs":[{"mod_revision":"2"}]}"#,
        ),
        (
            200,
            r#"{"header":{"revision":"3"},"kvs":[{"key":"YQ","mod_revision":"2"}]}"#,
        ),
    ] {
        let told = listed_of(rt.alloc(), status, body.as_bytes());
        assert_eq!(rt; told.err(), Some(NoAnswer::Unknown), "{body}");
    }
}
