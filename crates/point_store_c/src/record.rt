// A store's record as a lent slice of words: what stands in each, and which words no store has.
ghost use Rattle.std.specs.Prelude.{◌≡◌, ◌≤◌, ◌<◌, length, get_or};
ghost use Rattle.std.proofs.lemmas.List.Edits.{sets};
ghost use Rattle.point_store_c.specs.Records.{head_words, store_out, legal_record, read_with, store_in, recorded};

use class_words::{classes_in, classes_legal, classes_out};
use interval_store_manager::IntervalStoreManager;
use store_definitions::Store;
use store_rows::no_record;

// Kept: that a slice has so many words is one comparison in each contract, 39 in four, 41 in three, 47 in five: a record would be longer.
pub const RECORD_WORDS: usize = 39;
// From here on one word a class of the table.
const CLASS_WORDS: usize = 15;

// Whether the record has its words, each flag is 0 or 1, the sequence number has 32 bits and each class is a byte.
#[tactic(auto, unfolding(crate::specs::Records::legal_record))]
fn record_legal(words: &[u64]) -> bool
    ensures { result ≡ legal_record words.now }
{
    if words.len() < RECORD_WORDS {
        return false;
    }
    let classes = classes_legal(words, CLASS_WORDS);
    (words[3] < 2) & ((words[4] < 2) & ((words[5] < 2) & ((words[8] < 0x1_0000_0000) & classes)))
}

// The store that a record holds; an illegal one is read as the record of zeros, which every call refuses as ill-formed.
// Kept: an Option would give eighteen calls a second way to refuse, and adjust's would also lend that no pair came before.
#[tactic(auto, using(crate::proofs::RecordLaws::legal), unfolding(crate::specs::Records::store_in))]
pub fn store_in(words: &[u64]) -> Store
    ensures { result ≡ store_in words.now }
{
    if record_legal(words) {
        let classes = classes_in(words, CLASS_WORDS);
        return store_read(words, classes);
    }
    no_record()
}

// Of a legal record, beside its classes.
fn store_read(words: &[u64], classes: [u8; 24]) -> Store
    requires { (39 ≤ length words.now) × (get_or words.now 8 0 < 4294967296) }
    ensures { result ≡ read_with words.now classes }
{
    Store {
        dimensions: words[0] as usize,
        shingle_size: words[1] as usize,
        capacity: words[2] as usize,
        internal_shingling: words[3] == 1,
        internal_rotation: words[4] == 1,
        store_labels: words[5] == 1,
        store_length: words[6] as usize,
        start_free_region: words[7] as usize,
        next_sequence_index: words[8] as u32,
        index_manager: IntervalStoreManager {
            capacity: words[9] as usize,
            last_in_use: words[10] as usize,
        },
        label_manager: IntervalStoreManager {
            capacity: words[11] as usize,
            last_in_use: words[12] as usize,
        },
        attribute_manager: IntervalStoreManager {
            capacity: words[13] as usize,
            last_in_use: words[14] as usize,
        },
        classes,
    }
}

// The words before the classes.
// Kept: an array of the fields copied in one go would be as long, and not say which word is which.
fn head_write(words: &mut [u64], s: Store)
    requires { 39 ≤ length words.old }
    ensures { words.new ≡ sets words.old 0 (head_words s) }
{
    words[0] = s.dimensions as u64;
    words[1] = s.shingle_size as u64;
    words[2] = s.capacity as u64;
    words[3] = s.internal_shingling as u64;
    words[4] = s.internal_rotation as u64;
    words[5] = s.store_labels as u64;
    words[6] = s.store_length as u64;
    words[7] = s.start_free_region as u64;
    words[8] = s.next_sequence_index as u64;
    words[9] = s.index_manager.capacity as u64;
    words[10] = s.index_manager.last_in_use as u64;
    words[11] = s.label_manager.capacity as u64;
    words[12] = s.label_manager.last_in_use as u64;
    words[13] = s.attribute_manager.capacity as u64;
    words[14] = s.attribute_manager.last_in_use as u64;
}

#[tactic(auto, unfolding(crate::specs::Records::store_out))]
pub fn record_write(words: &mut [u64], s: Store)
    requires { 39 ≤ length words.old }
    ensures { words.new ≡ store_out words.old s }
{
    head_write(words, s);
    let classes = s.classes;
    classes_out(words, CLASS_WORDS, classes);
}

// The words before the classes, since no call but opening changes a class. An illegal record was read as one of capacity 0, which
// every call leaves, and is left as it was.
#[tactic(auto, unfolding(crate::specs::Records::recorded))]
pub fn store_out(words: &mut [u64], s: Store)
    ensures { words.new ≡ recorded words.old s }
{
    if (RECORD_WORDS <= words.len()) & (0 < s.capacity) {
        head_write(words, s);
    }
}
