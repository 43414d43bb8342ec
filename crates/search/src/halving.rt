// Halving: where a test of numbers stops holding. The library halves slices; the tests here read the bytes of a file where they lie.
ghost use Rattle.std.specs.Prelude.{ℕ, ◌≤◌, ◌<◌, ◌+◌, ◌≡◌, Bool};
ghost use Rattle.search.specs.Cut.{Cut, Falls};

use std::ops::Range;

// Of the numbers below n, those before `start` pass a test that falls, and none from `end` on does. At each turn half of those in between
// fall away, until no more than `few` are left.
pub fn halved<F: Fn(usize) -> bool>(n: usize, few: usize, passes: F) -> Range<usize>
    requires { (i : ℕ) → i < n → F.pre passes i }
    ensures cut { (p : ℕ → Bool) → Falls n p → ((i : ℕ) (r : Bool) → i < n → F.post passes i r → r ≡ p i) → Cut n p result.start result.end }
    ensures left { result.end ≤ result.start + few }
{
    let mut low = 0;
    let mut high = n;
    while few < high - low {
        let middle = low + (high - low) / 2;
        if passes(middle) {
            low = middle + 1;
        } else {
            high = middle;
        }
    }
    low..high
}

// How many of the numbers below n pass a test that falls.
pub fn passing<F: Fn(usize) -> bool>(n: usize, passes: F) -> usize
    requires { (i : ℕ) → i < n → F.pre passes i }
    ensures { (p : ℕ → Bool) → Falls n p → ((i : ℕ) (r : Bool) → i < n → F.post passes i r → r ≡ p i) → Cut n p result result }
{
    halved(n, 0, passes).start
}

#[cfg(test)]
mod tests {
    use super::*;

    // That half falls away at each turn no contract says. One that goes number by number, from either end, would not end in time.
    #[test]
    fn the_end_is_found(rt: HostRuntime) {
        let cases = [
            (0, 0),
            (1, 0),
            (1, 1),
            (9, 4),
            (9, 9),
            (usize::MAX, usize::MAX / 3),
        ];
        for (n, passed) in cases {
            assert_eq!(rt; passing(n, |i| i < passed), passed, "of {n}");
            let left = halved(n, 3, |i| i < passed);
            assert!(rt; left.start <= passed && passed <= left.end, "of {n}");
            assert!(rt; left.end <= left.start + 3, "of {n}");
        }
    }
}
