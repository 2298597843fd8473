//! Laws of images. Each law is the contract of an empty function.
ghost use Rattle.ipmi_image.specs.Prelude.{EachFaultHasACause, ImagesGiveStores, OnlyAppendKeepsReservations, RewritingKeepsStores};

/// The store of an image's bytes is well formed.
pub fn images_give_stores()
    ensures { ImagesGiveStores }
{}

/// The text of an image's store is read as the same store. So rewriting a rewritten image gives the same text.
#[tactic(auto, using(crate::proofs::AgainLemmas::store_of_image_image_text_of))]
pub fn rewriting_keeps_stores()
    ensures { RewritingKeepsStores }
{}

/// A mood that replaces the image of a `Scripted` cancels both reservations, unless it is `Append`.
pub fn only_append_keeps_reservations()
    ensures { OnlyAppendKeepsReservations }
{}

/// Each fault of an image has a cause.
#[tactic(auto, using(crate::proofs::CauseLemmas::image_has_cause))]
pub fn each_fault_has_a_cause()
    ensures { EachFaultHasACause }
{}
