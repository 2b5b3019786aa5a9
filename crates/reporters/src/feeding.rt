//! An entry is offered to each reporter in order; one that asks to stop or refuses it is dropped.
ghost use Rattle.std.specs.Prelude.{◌≡◌, true, false, map};
ghost use Rattle.reporters.specs.Feeding.{AreFed, Stays, steady_count};

use crate::reporter::{Entry, Go, Reporter};
use std::alloc::Global;

/// Offers the entry to a reporter, and says whether that stays.
fn offer(alloc: Global, reporter: &mut Box<dyn Reporter + Send>, entry: &Entry) -> bool
    ensures stays { result ≡ true → Stays entry.now (known reporter.old) (known reporter.new) }
    ensures goes { result ≡ false → (known reporter.old).steady ≡ false }
{
    match reporter.take(alloc, entry) {
        Ok(Go::More) => true,
        Ok(Go::Stop) => false,
        Err(_) => false,
    }
}

/// Offers the entry to each reporter in order. One is dropped exactly where its `take` answered `Stop` or an error in this call; the
/// others stay in order. It takes no memory but in `take`.
pub fn feed_all(alloc: Global, reporters: &mut Vec<Box<dyn Reporter + Send>>, entry: &Entry)
    ensures fed { AreFed entry.now (map (λ one. known one) reporters.old.items) (map (λ one. known one) reporters.new.items) }
    ensures steady { steady_count (map (λ one. known one) reporters.new.items) ≡ steady_count (map (λ one. known one) reporters.old.items) }
{
    let mut place = 0;
    while place < reporters.len() {
        if offer(alloc, &mut reporters[place], entry) {
            place += 1;
        } else {
            reporters.remove(place);
        }
    }
}
