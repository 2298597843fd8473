//! Words are copies, and keep their order.
use ipmi_command_line::{Word, Words};
use std::process::Abort;

fn push(rt: &impl Abort, words: &mut Words, word: &str) {
    words.push(word).expect(rt, "memory");
}

/// Asserts the word at a place.
fn assert_word(rt: &impl Abort, words: &Words, place: usize, wanted: &str) {
    let word = words.as_slice().get(place).expect(rt, "a word");
    let got = word.as_str();
    assert!(rt; got == wanted, "word {place}: got {got}");
}

#[test]
fn words_are_in_order(rt: HostRuntime) {
    let mut words = Words::new(rt.alloc());
    assert!(rt; words.as_slice().is_empty(), "before the first word");
    for word in ["ipmitool", "", "hex"] {
        push(&rt, &mut words, word);
    }
    let len = words.as_slice().len();
    assert!(rt; len == 3, "{len} words");
    assert_word(&rt, &words, 0, "ipmitool");
    assert_word(&rt, &words, 1, "");
    assert_word(&rt, &words, 2, "hex");
}

#[test]
fn a_word_is_a_copy(rt: HostRuntime) {
    let word = Word::new(rt.alloc(), "Fan 1").expect(&rt, "memory");
    let got = word.as_str();
    assert!(rt; got == "Fan 1", "got {got}");
}
