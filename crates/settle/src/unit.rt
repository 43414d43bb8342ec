// Units that are usual. Only speed hangs on them: a division by a number that is known when it is compiled is a multiplication.
const SMALL_UNIT: u64 = 100_000;

const MIDDLE_UNIT: u64 = 100_000_000;

const LARGE_UNIT: u64 = 100_000_000_000;

// What f answers to the unit. f is compiled for each usual unit by itself.
pub(crate) fn by_unit<R, F: FnMut(u64) -> R>(unit: u64, f: &mut F) -> R
    requires { F.pre f.old unit }
    ensures { F.step f.old unit result f.new }
{
    match unit {
        SMALL_UNIT => f(SMALL_UNIT),
        MIDDLE_UNIT => f(MIDDLE_UNIT),
        LARGE_UNIT => f(LARGE_UNIT),
        _ => f(unit),
    }
}
