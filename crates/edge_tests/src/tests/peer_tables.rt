use peers_file::{Destination, PeerTable, peers_of};
use std::alloc::{AllocError, Global};
use std::test::Fail;
use ticket_items::Refusal;

/// A press, all presses, those of the second hall, and the others.
const TABLE: &str =
    r#"{"*":"http://rest/","press":"http://one/","press*":"http://all/","press-2*":"http://hall/"}"#;

/// Where the messages for a name go, and nothing for a name that nobody knows.
fn host_of<'a>(table: &'a PeerTable, name: &str) -> &'a str {
    match table.url_of(name) {
        Some(destination) => destination.authority(),
        None => "",
    }
}

/// How many of these names lead to the host beside them, and are known where there is one, up to
/// the first that doesn't.
fn lead(table: &PeerTable, rows: &[(&str, &str)]) -> usize {
    for (number, row) in rows.iter().enumerate() {
        let (name, host) = *row;
        if host_of(table, name) != host || table.knows(name) == host.is_empty() {
            return number;
        }
    }
    rows.len()
}

static FRONTS: [(&'static str, &'static str); 6] = [
    ("press", "one"),
    ("press-1", "all"),
    ("press-2", "hall"),
    ("press-20.b", "hall"),
    ("pres", "rest"),
    ("Press", "rest"),
];

#[test]
fn the_longest_front_wins(rt: HostRuntime) -> Result<(), Fail> {
    let table = peers_of(rt.alloc(), TABLE.as_bytes())?;
    assert_eq!(rt; lead(&table, &FRONTS), FRONTS.len());
    Ok(())
}

static NAMES: [(&'static str, &'static str); 6] = [
    ("bind", "bind"),
    ("binder", ""),
    ("bin", ""),
    ("press", "press"),
    ("pres", ""),
    ("", ""),
];

#[test]
fn a_name_that_nobody_knows_has_no_url(rt: HostRuntime) -> Result<(), Fail> {
    let text = r#"{"bind":"http://bind/","press*":"http://press/"}"#;
    let table = peers_of(rt.alloc(), text.as_bytes())?;
    assert_eq!(rt; lead(&table, &NAMES), NAMES.len());
    Ok(())
}

/// Why bytes are no table.
fn refusal_of(alloc: Global, text: &str) -> Option<Refusal> {
    peers_of(alloc, text.as_bytes()).err()
}

/// Tables of which one row is wrong.
static WRONG: [&'static str; 7] = [
    r#"["http://h/"]"#,
    r#"{"a":"http://h/","b":7}"#,
    r#"{"a":"http://h/","b":"https://h/"}"#,
    r#"{"a":"http://h/","1":"http://h/"}"#,
    r#"{"a":"http://h/","b*c":"http://h/"}"#,
    r#"{"a":"http://h/","b**":"http://h/"}"#,
    r#"{"a":"http://h/","":"http://h/"}"#,
];

#[test]
fn a_table_with_one_wrong_row_is_none(rt: HostRuntime) {
    assert_eq!(rt; refusal_of(rt.alloc(), "{}"), None);
    assert_eq!(rt;
        refusal_of(rt.alloc(), r#"{"a":"http://h/"#),
        Some(Refusal::NotJson)
    );
    for text in WRONG.iter() {
        assert_eq!(rt;
            refusal_of(rt.alloc(), text),
            Some(Refusal::NotProfile),
            "{text}"
        );
    }
}

/// Whether a text is a URL of this head's `Host`, port and path.
fn leads_to(
    alloc: Global,
    text: &str,
    authority: &str,
    port: u16,
    path: &str,
) -> Result<bool, AllocError> {
    let Some(found) = Destination::of(alloc, text)? else {
        return Ok(false);
    };
    Ok(found.authority() == authority && found.port() == port && found.path() == path)
}

static URLS: [(&'static str, &'static str, u16, &'static str); 4] = [
    ("http://press.test", "press.test", 80, "/"),
    ("http://Press.Test:80/jmf", "press.test", 80, "/jmf"),
    (
        "HTTP://10.0.0.7:8080/a/../jmf",
        "10.0.0.7:8080",
        8080,
        "/jmf",
    ),
    (
        "http://[0:0::1]:81/two words",
        "[::1]:81",
        81,
        "/two%20words",
    ),
];

static NO_URLS: [&'static str; 9] = [
    "https://press.test/jmf",
    "ftp://press.test/jmf",
    "press.test:80/jmf",
    "/jmf",
    "",
    "http://user@press.test/jmf",
    "http://press.test/jmf?a=b",
    "http://press.test/jmf#a",
    "http://press.test:65536/jmf",
];

/// Whether a text is a URL that a message can be sent to.
fn is_url(alloc: Global, text: &str) -> Result<bool, AllocError> {
    Ok(Destination::of(alloc, text)?.is_some())
}

#[test]
fn a_url_tells_the_host_the_port_and_the_path(rt: HostRuntime) -> Result<(), Fail> {
    for row in URLS.iter() {
        let (text, authority, port, path) = *row;
        assert!(rt;
            leads_to(rt.alloc(), text, authority, port, path)?,
            "{text}"
        );
    }
    for text in NO_URLS.iter() {
        assert!(rt; !is_url(rt.alloc(), text)?, "{text}");
    }
    Ok(())
}
