// One pass over the places in order: the words of each point are moved while its block's end is still being found, and its place is
// written as it goes.
ghost use Rattle.std.specs.Prelude.{◌≡◌, ◌+◌, ◌*◌, ◌<◌, length};
ghost use Rattle.placement.specs.Alignment.{alignment};
ghost use Rattle.placement.specs.Compaction.{compacted};
ghost use Rattle.placement.specs.Scanned.{advanced};
ghost use Rattle.placement_rows.specs.Compactable.{layout};
ghost use Rattle.placement_rows.specs.OnePass.{run_of, Carried, Copyable, Ready, Scannable, met, scan, state};

use super::NO_INDEX;
use super::shape::Shape;
use super::words::copy_down;
use terms::FloatBits;

// The write position, and the end of what was read.
// Kept: both divided by base are carried along; with a division at each point compaction took 780 ns for 643 at 256 points (PERFORMANCE.md).
#[derive(Clone, Copy)]
pub struct Progress {
    pub free: usize,
    pub read: usize,
    pub free_place: usize,
    pub read_place: usize,
}

// What is written for a point: zeros, and the words from `from` up to its end. It then stands at `place`.
#[derive(Clone, Copy)]
pub struct Run {
    pub zeros: usize,
    pub from: usize,
    pub place: usize,
}

// The subtraction wraps where the write position is above the dimensions.
fn zeros_before(dimensions: usize, free: usize, start: usize) -> usize
    requires { 0 < dimensions }
    ensures { result ≡ alignment dimensions free start }
{
    let difference = std::num::wrapping_sub_usize(dimensions, free);
    std::num::wrapping_add_usize(difference, start) % dimensions
}

fn next_run(shape: Shape, place: usize, done: Progress) -> Run
    requires { Ready shape.dimensions shape.base place done.free done.read × Carried shape.base done }
    ensures { result ≡ run_of shape.dimensions shape.base shape.rotation place done.free done.read }
{
    let start = place * shape.base;
    if start <= done.read {
        return Run {
            zeros: 0,
            from: done.read,
            place: done.free_place - (done.read_place - place),
        };
    }
    if shape.rotation {
        let zeros = zeros_before(shape.dimensions, done.free, start);
        return Run {
            zeros,
            from: start,
            place: (done.free + zeros) / shape.base,
        };
    }
    Run {
        zeros: 0,
        from: start,
        place: done.free_place,
    }
}

// Answers where writing ended.
fn copy_run(
    store: &mut [FloatBits],
    location: &mut [u16],
    shape: Shape,
    run: Run,
    end: usize,
    index: usize,
    free: usize,
) -> usize
    requires { Copyable shape.dimensions shape.base run end index free (length store.old) (length location.old) }
    ensures { state store.new location.new result end ≡ advanced 0 shape.dimensions shape.base run.zeros run.from end index (state store.old location.old free 0) }
{
    let from = run.from;
    let at = free + run.zeros;
    store[free..at].fill(0);
    copy_down(store, at, from, end - from);
    location[index] = run.place as u16;
    at + (end - from)
}

fn take_point(
    store: &mut [FloatBits],
    location: &mut [u16],
    shape: Shape,
    shingle_size: usize,
    place: usize,
    index: usize,
    done: Progress,
) -> Progress
    requires { (shape.dimensions ≡ shingle_size * shape.base) × ((Ready shape.dimensions shape.base place done.free done.read × Carried shape.base done) × Copyable shape.dimensions shape.base (run_of shape.dimensions shape.base shape.rotation place done.free done.read) (place * shape.base + shape.dimensions) index done.free (length store.old) (length location.old)) }
    ensures { (scan store.new location.new result ≡ met shape.dimensions shape.base shape.rotation place index (scan store.old location.old done)) × Carried shape.base result }
{
    let run = next_run(shape, place, done);
    let end = place * shape.base + shape.dimensions;
    let free = copy_run(store, location, shape, run, end, index, done.free);
    Progress {
        free,
        read: end,
        free_place: run.place + shingle_size,
        read_place: place + shingle_size,
    }
}

// Answers the new free start. `index_at` is the table from place to index.
pub fn scan_places(
    store: &mut [FloatBits],
    location: &mut [u16],
    index_at: &[u16],
    shape: Shape,
    start_free_region: usize,
) -> usize
    requires { Scannable shape.dimensions shape.base location.old index_at.now start_free_region (length store.old) }
    ensures { layout store.new location.new result ≡ compacted 0 shape.dimensions shape.base shape.rotation store.old location.old start_free_region }
{
    let places = start_free_region / shape.base;
    let shingle_size = shape.dimensions / shape.base;
    let mut done = Progress {
        free: 0,
        read: 0,
        free_place: 0,
        read_place: 0,
    };
    for place in 0..places {
        let index = index_at[place];
        if index != NO_INDEX {
            done = take_point(
                store,
                location,
                shape,
                shingle_size,
                place,
                index as usize,
                done,
            );
        }
    }
    done.free
}
