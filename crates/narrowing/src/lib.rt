// The largest set of places that a rule lets stand.
#![tactic(auto)]

ghost use Rattle.std.specs.Prelude.{◌≡◌, ℕ, Bool};
ghost use Rattle.sets.specs.Sets.{member};
ghost use Rattle.narrowing.specs.Narrowing.{Lawful, Narrowed, Round};

use sets;

/// Says yes or no to a place, given a set of places. Whoever makes one shows that a larger set never turns a yes into a no.
pub trait Rule {
    ghost says: { Self → (ℕ → Bool) → ℕ → Bool };

    // a larger set never turns a yes into a no
    ghost lawful: { (s : Self) → Lawful (says s) };

    /// The answer for one place.
    fn ask(&self, place: usize, set: &[u64]) -> bool
        ensures { result ≡ says self.now (member set.now) place };
}

// Strikes each member that gets a no, and says whether there was one.
fn round<R: Rule>(rule: &R, set: &mut [u64]) -> bool
    ensures { Round (R.says rule.now) set.old set.new result }
{
    let mut struck = false;
    // The set loses members while it is gone through, so no iterator can hold it.
    let mut from = 0;
    while let Some(place) = sets::next(set, from) {
        if !rule.ask(place, set) {
            sets::remove(set, place);
            struck = true;
        }
        from = place + 1;
    }
    struck
}

/// Leaves of the set its largest part each member of which gets a yes from that part (`Narrowed`), for every lawful rule.
pub fn narrow<R: Rule>(rule: &R, set: &mut [u64])
    ensures { Narrowed (R.says rule.now) (member set.old) (member set.new) }
{
    while round(rule, set) {}
}
