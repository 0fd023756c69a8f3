use etcd_place::{EtcdFolder, EtcdPlace, is_etcd};
use std::test::Fail;

#[test]
fn a_place_names_a_gateway_and_a_value(rt: HostRuntime) {
    for (text, gateway, name) in [
        ("etcd://127.0.0.1:2379/mis", "127.0.0.1:2379", "mis"),
        ("etcd://[::1]:2379/shop/press", "[::1]:2379", "shop/press"),
        (
            "etcd://a.example:65535/a/b/c/d/e/f/g/h",
            "a.example:65535",
            "a/b/c/d/e/f/g/h",
        ),
    ] {
        match EtcdPlace::of(text) {
            Some(place) => {
                assert_eq!(rt; place.gateway(), gateway);
                assert_eq!(rt; place.name(), name);
            }
            None => assert!(rt; false, "{text}"),
        }
    }
}

#[test]
fn a_value_is_under_the_key_of_its_name(rt: HostRuntime) -> Result<(), Fail> {
    match EtcdPlace::of("etcd://127.0.0.1:2379/shop/mis") {
        Some(place) => {
            let key = place.key(rt.alloc())?;
            assert_eq!(rt; key.as_slice(), "toarnbif/shop/mis".as_bytes());
        }
        None => assert!(rt; false),
    }
    Ok(())
}

#[test]
fn what_is_no_place(rt: HostRuntime) {
    for text in [
        "etcd://",
        "etcd://127.0.0.1:2379",
        "etcd://127.0.0.1:2379/",
        "etcd://127.0.0.1/mis",
        "etcd://127.0.0.1:0/mis",
        "etcd://127.0.0.1:65536/mis",
        "etcd://:2379/mis",
        "etcd://u@127.0.0.1:2379/mis",
        "etcd://::1:2379/mis",
        "etcd://127.0.0.1:2379/a.b",
        "etcd://127.0.0.1:2379/a//b",
        "etcd://127.0.0.1:2379/a/",
        "etcd://127.0.0.1:2379/a?b",
        "etcd://127.0.0.1:2379/a/b/c/d/e/f/g/h/i",
    ] {
        assert!(rt; is_etcd(text), "{text}");
        assert!(rt; EtcdPlace::of(text).is_none(), "{text}");
    }
    for text in ["mis", "./etcd://h:1/mis", "ETCD://h:1/mis"] {
        assert!(rt; !is_etcd(text), "{text}");
        assert!(rt; EtcdPlace::of(text).is_none(), "{text}");
    }
}

#[test]
fn a_folder_is_what_keys_begin_with(rt: HostRuntime) -> Result<(), Fail> {
    for (text, key) in [
        ("etcd://127.0.0.1:2379", "toarnbif"),
        ("etcd://127.0.0.1:2379/shop/press", "toarnbif/shop/press"),
    ] {
        match EtcdFolder::of(text) {
            Some(folder) => {
                let begins = folder.key(rt.alloc())?;
                assert_eq!(rt; begins.as_slice(), key.as_bytes());
            }
            None => assert!(rt; false, "{text}"),
        }
    }
    for text in [
        "etcd://127.0.0.1:2379/",
        "etcd://127.0.0.1:2379/a.b",
        "etcd://h/shop",
    ] {
        assert!(rt; EtcdFolder::of(text).is_none(), "{text}");
    }
    Ok(())
}
