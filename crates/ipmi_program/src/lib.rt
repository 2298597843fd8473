//! The frame of a program around a command: it reads the words and the image, flushes the output, and says why a run failed or an image is faulty.
#![tactic(auto)]

mod answer;
mod causes;
mod input;
mod labels;
mod printing;
mod with_lacks;
mod wording;

pub use answer::answer_buffered;
pub use causes::cause_words;
pub use input::{InputFault, MOST_BYTES, input_name, read_image, read_input, read_words, words_of};
pub use labels::{labels_of, wrong_label};
pub use printing::flush;
pub use with_lacks::{WithLacks, captured, others_stay};
pub use wording::{Wording, table_of};
