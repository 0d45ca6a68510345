// The page, exported: its text goes to a lent slice, its length to a lent number.
ghost use Rattle.std.specs.Prelude.{[], ◌∷◌, ◌≡◌};
ghost use Rattle.page.specs.Page.{page_spec};
ghost use Rattle.store_definitions.specs.Lent.{held};
ghost use Rattle.store_definitions.specs.Memory.{point_store};
ghost use Rattle.point_store_c.specs.ExportedPage.{paged, exported_page};
ghost use Rattle.point_store_c.specs.Records.{store_in};

use crate::answers::number_out;
use crate::record::store_in;
use store_definitions::Tables;

#[unsafe(no_mangle)]
pub extern "C" fn ps_page(
    words: &[u64],
    store: &[u32],
    last_known_shingle: &[u32],
    reference_count: &[u16],
    location: &[u16],
    index_starts: &[u16],
    index_ends: &[u16],
    labels: &[u8],
    label_attributes: &[u16],
    label_count: &[u16],
    label_starts: &[u16],
    label_ends: &[u16],
    attributes: &[u8],
    attribute_count: &[u32],
    attribute_starts: &[u16],
    attribute_ends: &[u16],
    text: &mut [u8],
    page_length: &mut u64,
) -> u64
    ensures { paged result (page_length.new ∷ []) text.new ≡ exported_page (page_length.old ∷ []) (page_spec (point_store (store_in words.now) (held store.now last_known_shingle.now reference_count.now location.now index_starts.now index_ends.now labels.now label_attributes.now label_count.now label_starts.now label_ends.now attributes.now attribute_count.now attribute_starts.now attribute_ends.now)) text.old) }
{
    let s = store_in(words);
    let tables = Tables::new(
        reference_count,
        location,
        index_starts,
        index_ends,
        labels,
        label_attributes,
        label_count,
        label_starts,
        label_ends,
        attributes,
        attribute_count,
        attribute_starts,
        attribute_ends,
    );
    let answer = page::page(s, store, last_known_shingle, tables, text);
    number_out(answer, page_length)
}
