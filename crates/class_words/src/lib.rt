// A table of classes in a record of words: one word a class, from a word on.
#![tactic(auto)]

ghost use Rattle.std.specs.Prelude.{true, ◌≡◌, ◌+◌, ◌≤◌, length, take, drop};
ghost use Rattle.std.proofs.lemmas.List.Edits.{sets};
ghost use Rattle.class_words.specs.Words.{classes_legal};

// Kept: no plainer: with the 24 words as the slice each call would need a law of its part, where those of a record speak of all its words.

// Whether each of the words is a byte.
pub fn classes_legal(words: &[u64], at: usize) -> bool
    requires { at + 24 ≤ length words.now }
    ensures { result ≡ classes_legal at words.now }
{
    let mut legal = true;
    // Kept: vector code, in 3.6 ns; `all`, with its way out, takes 9.7; tried as a fold: the check leaves its result open, where the loop has an invariant of a line.
    for code in 0..24 {
        legal &= words[at + code] < 256;
    }
    legal
}

pub fn classes_in(words: &[u64], at: usize) -> [u8; 24]
    requires { (at + 24 ≤ length words.now) × (classes_legal at words.now ≡ true) }
    ensures { result ≡ take 24 (drop at words.now) }
{
    let mut classes = [0u8; 24];
    for code in 0..24 {
        classes[code] = words[at + code] as u8;
    }
    classes
}

pub fn classes_out(words: &mut [u64], at: usize, classes: [u8; 24])
    requires { at + 24 ≤ length words.old }
    ensures { words.new ≡ sets words.old at classes }
{
    for code in 0..24 {
        words[at + code] = classes[code] as u64;
    }
}
