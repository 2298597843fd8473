//! A capture, once with ample memory, and once with requests refused.
use super::captures::{Came, SAVED};
use ipmi_capture::capture;
use ipmi_image::{Image, ImageController, image_text};
use std::alloc::{AllocError, Global};

/// The text of the image captured from a controller over this one.
fn captured_text(alloc: Global, image: Image) -> Result<Vec<u8>, AllocError> {
    let mut ctl = ImageController::new(image);
    let mut came = Came::default();
    let captured = capture(alloc, &mut ctl, 254, 0, &mut came);
    drop(ctl);
    image_text(alloc, &captured?.image)
}

// With ample memory the capture is whole.
#[test]
fn not_always_out_of_memory(rt: HostRuntime) {
    let image = Image::read(rt.alloc(), SAVED.as_bytes()).expect(&rt, "memory");
    let text = captured_text(rt.alloc(), image).expect(&rt, "memory");
    assert!(&rt; text.as_slice() == SAVED.as_bytes());
}

// With memory refused the capture is whole, or fails when out of memory.
#[test]
fn memory_may_be_refused(rt: HostRuntime) {
    let Ok(image) = Image::read(rt.alloc(), SAVED.as_bytes()) else {
        return;
    };
    if let Ok(text) = captured_text(rt.alloc(), image) {
        assert!(&rt; text.as_slice() == SAVED.as_bytes());
    }
}
