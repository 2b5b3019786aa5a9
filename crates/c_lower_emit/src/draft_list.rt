//! Drafts in a row. Most have no exit left that is open, and a redirection passes over these: the places of the others are kept beside
//! the drafts. A test of a chain of `&&` keeps `Fails` open to the chain's end, while `Holds` is led on at once, and a statement before a
//! `break` keeps `Breaks` open to the loop's end, while `Next` is led on at once; so it is remembered from where to where no draft has
//! `Holds`, none has `Fails`, and none has `Next`. A chain within a chain, and a list of statements within a list, takes the place of what
//! was remembered of the outer one, which is looked at from its front once more behind it.
ghost use Rattle.std.specs.Prelude.{
  ◌≡◌,
  ℕ,
  ◌<◌,
  ◌≤◌,
  ◌++◌,
  ◌∷◌,
  [],
  Bool,
  List,
  length,
  take,
  drop,
  filter,
  slice_range,
  All,
  OnOk,
  OnErr,
};
ghost use Rattle.c_lower_emit.specs.declared.drafts.Draft.{Draft};
ghost use Rattle.c_lower_emit.specs.declared.drafts.Label.{Label};
ghost use Rattle.c_lower_emit.specs.declared.drafts.Label.TheVariants.{At};
ghost use Rattle.c_lower_emit.specs.Drafts.{as_they_are, next_at, led_between};
ghost use Rattle.c_lower_emit.specs.OpenPlaces.{open_places, is_open_at, led_at_each};
ghost use Rattle.c_lower_emit.specs.Stretches.{Lacks, LeadsAway};

use crate::drafts::{AS_THEY_ARE, Draft, Label, Ways};
use std::alloc::{AllocError, Global};
use std::marker::Model;

/// The drafts from one place to another, which is not among them.
#[derive(Clone, Copy)]
struct Stretch {
    from: usize,
    past: usize,
}

/// Drafts, and the places of those that have an exit that is still open, in rising order; and three stretches, of drafts without an exit
/// `Holds`, of drafts without `Fails`, and of drafts without `Next`.
#[derive(Drop)]
pub struct DraftList {
    drafts: Vec<Draft>,
    open_at: Vec<usize>,
    without_holds: Stretch,
    without_fails: Stretch,
    without_next: Stretch,
}

impl Model for DraftList {
    ghost use Rattle.std.specs.Prelude.{◌≡◌, List};
    ghost use Rattle.c_lower_emit.specs.declared.drafts.Draft.{Draft};
    ghost use Rattle.c_lower_emit.specs.OpenPlaces.{open_places};
    ghost use Rattle.c_lower_emit.specs.Stretches.{is_holds, is_fails, is_next, Lacks};

    ghost Value = { List Draft };

    ghost view = { λ l. l.drafts.items };

    ghost invariant = { λ l. record {
      listed : l.open_at.items ≡ open_places 0 l.drafts.items;
      holds : Lacks is_holds l.without_holds.from l.without_holds.past l.drafts.items;
      fails : Lacks is_fails l.without_fails.from l.without_fails.past l.drafts.items;
      next : Lacks is_next l.without_next.from l.without_next.past l.drafts.items;
    } };
}

/// No drafts.
const NONE: Stretch = Stretch { from: 0, past: 0 };

impl Stretch {
    /// Those before the place.
    fn before(self, place: usize) -> Stretch
        ensures from { result.from ≡ self.from }
        ensures within { result.past ≤ self.past }
        ensures before { result.past ≤ place }
    {
        Stretch {
            past: self.past.min(place),
            ..self
        }
    }

    /// The stretch, where it goes on up to the place at least; else none of the drafts, at that place.
    fn up_to(self, place: usize) -> Stretch
        ensures from { result.from ≤ place }
        ensures past { place ≤ result.past }
        ensures within { (size : ℕ) → self.past ≤ size → place ≤ size → result.past ≤ size }
        ensures lacks { (exit : Label → Bool) → (drafts : List Draft) → place ≤ length drafts → Lacks exit self.from self.past drafts
            → Lacks exit result.from result.past drafts }
    {
        if self.from <= place && place <= self.past {
            self
        } else {
            Stretch {
                from: place,
                past: place,
            }
        }
    }
}

/// How many of the drafts before the place have an exit that is still open. It takes one step for each of the others that has one.
fn open_before(places: &[usize], place: usize) -> usize
    ensures { (drafts : List Draft) → places.now ≡ open_places 0 drafts → place ≤ length drafts
        → result ≡ length (open_places 0 (take place drafts)) }
{
    for index in (0..places.len()).rev() {
        if places[index] < place {
            return index + 1;
        }
    }
    0
}

/// Replaces each exit of the drafts at the places.
fn redirect_each(drafts: &mut Vec<Draft>, places: &[usize], ways: Ways)
    requires { All (λ place. place < length drafts.old.items) places.now }
    ensures drafts { drafts.new.items ≡ led_at_each ways places.now drafts.old.items }
    ensures long { length drafts.new.items ≡ length drafts.old.items }
{
    for place in places {
        drafts[*place].redirect(ways);
    }
}

/// Brings to the front those of the places whose drafts have an exit that is still open, in their order, and tells how many they are.
fn keep_open(drafts: &[Draft], places: &mut [usize]) -> usize
    requires { All (λ place. place < length drafts.now) places.old }
    ensures within { result ≤ length places.new }
    ensures kept { take result places.new ≡ filter (is_open_at drafts.now) places.old }
{
    let mut kept = 0;
    for index in 0..places.len() {
        let place = places[index];
        if drafts[place].is_open() {
            places[kept] = place;
            kept += 1;
        }
    }
    kept
}

/// Replaces each exit of the drafts at the places from the one numbered `first` to the one numbered `behind`, and of all from `first` on
/// keeps those that still are places of drafts with an open exit.
fn redirect_open(
    drafts: &mut Vec<Draft>,
    places: &mut Vec<usize>,
    first: usize,
    behind: usize,
    ways: Ways,
)
    requires order { first ≤ behind }
    requires within { behind ≤ length places.old.items }
    requires below { All (λ place. place < length drafts.old.items) places.old.items }
    ensures drafts { drafts.new.items ≡ led_at_each ways (slice_range places.old.items first behind) drafts.old.items }
    ensures places { places.new.items
        ≡ take first places.old.items ++ filter (is_open_at drafts.new.items) (drop first places.old.items) }
{
    redirect_each(drafts, &places[first..behind], ways);
    let kept = keep_open(drafts, &mut places[first..]);
    places.truncate(first + kept);
}

/// Replaces each exit of the drafts from one place to another. `open_at` has the places of those with an open exit, before the call
/// and after it. Its cost is the number of these from the first place on.
fn redirect_between(
    drafts: &mut Vec<Draft>,
    open_at: &mut Vec<usize>,
    from: usize,
    past: usize,
    ways: Ways,
)
    requires order { from ≤ past }
    requires within { past ≤ length drafts.old.items }
    requires listed { open_at.old.items ≡ open_places 0 drafts.old.items }
    ensures drafts { drafts.new.items ≡ led_between from past ways drafts.old.items }
    ensures listed { open_at.new.items ≡ open_places 0 drafts.new.items }
{
    let first = open_before(open_at, from);
    let behind = open_before(open_at, past);
    redirect_open(drafts, open_at, first, behind, ways);
}

/// Leads an exit of the drafts from one place to another elsewhere, and gives a stretch of drafts that lack it then. Those of `without`
/// lack it already: where they go on up to the first place, only the drafts behind them are looked at.
fn lead_rest(
    drafts: &mut Vec<Draft>,
    open_at: &mut Vec<usize>,
    without: Stretch,
    from: usize,
    past: usize,
    ways: Ways,
) -> Stretch
    requires order { from ≤ past }
    requires within { past ≤ length drafts.old.items }
    requires without { without.past ≤ length drafts.old.items }
    requires listed { open_at.old.items ≡ open_places 0 drafts.old.items }
    ensures drafts { (exit : Label → Bool) → LeadsAway exit ways → Lacks exit without.from without.past drafts.old.items
        → drafts.new.items ≡ led_between from past ways drafts.old.items }
    ensures listed { open_at.new.items ≡ open_places 0 drafts.new.items }
    ensures without { (exit : Label → Bool) → LeadsAway exit ways → Lacks exit without.from without.past drafts.old.items
        → Lacks exit result.from result.past drafts.new.items }
{
    let known = without.up_to(from);
    let past = past.max(known.past);
    redirect_between(drafts, open_at, known.past, past, ways);
    Stretch { past, ..known }
}

impl DraftList {
    /// No drafts.
    pub fn new(alloc: Global) -> DraftList
        ensures { result ≡ [] }
    {
        DraftList {
            drafts: Vec::new(alloc),
            open_at: Vec::new(alloc),
            without_holds: NONE,
            without_fails: NONE,
            without_next: NONE,
        }
    }

    /// The drafts.
    pub fn into_vec(self) -> Vec<Draft>
        ensures { result.items ≡ self }
    {
        self.drafts
    }

    /// How many drafts there are.
    pub fn len(&self) -> usize
        ensures { result ≡ length self.now }
    {
        self.drafts.len()
    }

    /// With one more draft. Where memory is wanting, nothing has changed.
    pub fn push(&mut self, draft: Draft) -> Result<(), AllocError>
        ensures more { OnOk result (self.new ≡ self.old ++ draft ∷ []) }
        ensures same { OnErr result (self.new ≡ self.old) }
    {
        let place = self.drafts.len();
        let is_open = draft.is_open();
        self.open_at.reserve(1)?;
        self.drafts.push(draft)?;
        if is_open {
            self.open_at.push(place).unwrap();
        }
        Ok(())
    }

    /// Replaces each exit of the drafts from one place to another. Its cost is the number of the drafts from the first place on that have
    /// an exit that is still open, however many others there are.
    pub fn redirect(&mut self, from: usize, past: usize, ways: Ways)
        ensures { from ≤ past → past ≤ length self.old → self.new ≡ led_between from past ways self.old }
    {
        let past = past.min(self.drafts.len());
        let from = from.min(past);
        redirect_between(&mut self.drafts, &mut self.open_at, from, past, ways);
        self.without_holds = self.without_holds.before(from);
        self.without_fails = self.without_fails.before(from);
        self.without_next = self.without_next.before(from);
    }

    /// Leads the tests from a place on to the other place where they hold. Its cost is the number of drafts with an open exit from that
    /// place on. Where the last such call began there, too, only those count from the first one on that was added or redirected since.
    pub fn lead_holds(&mut self, from: usize, to: u32)
        ensures { from ≤ length self.old
            → self.new ≡ led_between from (length self.old) (record as_they_are { holds = At to }) self.old }
    {
        let ways = Ways {
            holds: Label::At(to),
            ..AS_THEY_ARE
        };
        let past = self.drafts.len();
        let from = from.min(past);
        self.without_holds = lead_rest(
            &mut self.drafts,
            &mut self.open_at,
            self.without_holds,
            from,
            past,
            ways,
        );
    }

    /// The same, where they don't hold.
    pub fn lead_fails(&mut self, from: usize, to: u32)
        ensures { from ≤ length self.old
            → self.new ≡ led_between from (length self.old) (record as_they_are { fails = At to }) self.old }
    {
        let ways = Ways {
            fails: Label::At(to),
            ..AS_THEY_ARE
        };
        let past = self.drafts.len();
        let from = from.min(past);
        self.without_fails = lead_rest(
            &mut self.drafts,
            &mut self.open_at,
            self.without_fails,
            from,
            past,
            ways,
        );
    }

    /// The pieces from one place to another go on where what follows begins. Its cost is the number of drafts with an open exit from the
    /// first place on. Where the last such call began there, too, only those count from the place on up to which that call led them, or
    /// from the first one on that was redirected since.
    pub fn lead_next(&mut self, from: usize, past: usize, begin: Label)
        ensures { from ≤ past → past ≤ length self.old → self.new ≡ led_between from past (next_at begin) self.old }
    {
        // Where the exits lead there already, or none is meant, nothing changes: no draft is looked at, and what is remembered stays.
        if let Label::Next = begin {
            return;
        }
        if past <= from {
            return;
        }
        let ways = Ways {
            next: begin,
            ..AS_THEY_ARE
        };
        let past = past.min(self.drafts.len());
        let from = from.min(past);
        self.without_next = lead_rest(
            &mut self.drafts,
            &mut self.open_at,
            self.without_next,
            from,
            past,
            ways,
        );
        // What the exits lead to may be `Holds` or `Fails`.
        self.without_holds = self.without_holds.before(from);
        self.without_fails = self.without_fails.before(from);
    }
}
