//! Reading and writing an image, once with ample memory, and once with requests refused.
use super::images::{ANSWERS, REWRITTEN, SAVED, assert_answers_of_image};
use super::rewritten::assert_text;
use ipmi_image::{Image, ImageFault, image_text};
use std::alloc::AllocError;
use std::process::Abort;

/// Asserts that bytes are `REWRITTEN`.
fn assert_rewritten_text(rt: &impl Abort, bytes: &[u8]) {
    assert_text(rt, bytes, REWRITTEN, "SAVED");
}

/// Asserts that an image is `SAVED`. It takes no memory.
fn assert_image(rt: &impl Abort, image: Image) {
    assert_answers_of_image(rt, image, ANSWERS);
}

/// Asserts that bytes are `REWRITTEN`, unless memory was refused.
fn assert_rewritten_text_or_refused(rt: &impl Abort, written: Result<Vec<u8>, AllocError>) {
    if let Ok(bytes) = written {
        assert_rewritten_text(rt, &bytes);
    }
}

// With ample memory `SAVED`, which has a line of each kind, is read and written.
#[test]
fn not_always_out_of_memory(rt: HostRuntime) {
    let image = Image::read(rt.alloc(), SAVED.as_bytes()).expect(&rt, "memory");
    let written = image_text(rt.alloc(), &image).expect(&rt, "memory");
    assert_rewritten_text(&rt, &written);
    assert_image(&rt, image);
}

// With memory refused the image is read whole and has its text, or reading or writing fails when out of memory.
#[test]
fn memory_may_be_refused(rt: HostRuntime) {
    match Image::read(rt.alloc(), SAVED.as_bytes()) {
        Ok(image) => {
            assert_rewritten_text_or_refused(&rt, image_text(rt.alloc(), &image));
            assert_image(&rt, image);
        }
        Err(fault) => assert!(rt; fault == ImageFault::Memory, "{fault}"),
    }
}
