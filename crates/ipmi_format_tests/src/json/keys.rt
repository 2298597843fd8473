//! The keys that a label may not have.
use ipmi_json::is_object_key;
use std::process::Abort;

/// Asserts that each of these is the key of an object, or that none is.
fn assert_keys(rt: &impl Abort, keys: &[&str], wanted: bool) {
    for key in keys {
        assert!(rt; is_object_key(key) == wanted, "{key}");
    }
}

// Two of the other keys are of objects inside an object.
#[test]
fn only_keys_of_objects_are_taken(rt: HostRuntime) {
    assert_keys(
        &rt,
        &["object", "event_words", "records_fault", "count"],
        true,
    );
    assert_keys(
        &rt,
        &[
            "asset_tag",
            "type_name",
            "image",
            "",
            "event_word",
            "Object",
        ],
        false,
    );
}
