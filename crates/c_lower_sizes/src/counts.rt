//! Counts up to a limit, so that no sum overflows.
ghost use Rattle.std.specs.Prelude.{◌≡◌, ◌+◌};
ghost use Rattle.c_lower_sizes.specs.Sizes.{at_hand_uses, made_uses, truth_uses};
ghost use Rattle.c_lower_sizes.specs.Counts.{capped, AreCounts};

/// The greatest count, which stands for every number that is no smaller: it is more than any procedure may have.
pub const MOST_COUNTED: u32 = 1000;

/// The count, up to the limit.
pub fn capped(count: u32) -> u32
    ensures { result ≡ capped count }
{
    count.min(MOST_COUNTED)
}

/// The sum of two counts.
pub fn plus(one: u32, other: u32) -> u32
    ensures { result ≡ capped (one + other) }
{
    capped(one.saturating_add(other))
}

/// How many there are in a list of this length.
pub fn count_of(length: usize) -> u32
    ensures { result ≡ capped length }
{
    if length <= MOST_COUNTED as usize {
        length as u32
    } else {
        MOST_COUNTED
    }
}

/// How many nodes an expression has in each of its uses: for its value, into a slot, as a test.
#[derive(Clone, Copy)]
pub struct UseCounts {
    pub value: u32,
    pub into: u32,
    pub test: u32,
}

/// Those of a number or a variable.
pub fn at_hand() -> UseCounts
    ensures { AreCounts at_hand_uses result }
{
    UseCounts {
        value: 0,
        into: 1,
        test: 1,
    }
}

/// Those of a value that a command makes, with so many nodes before the command.
pub fn made(before: u32) -> UseCounts
    ensures { AreCounts (made_uses before) result }
{
    UseCounts {
        value: plus(before, 1),
        into: plus(before, 1),
        test: plus(before, 2),
    }
}

/// Those of a test of so many nodes.
pub fn truth(test: u32) -> UseCounts
    ensures { AreCounts (truth_uses test) result }
{
    UseCounts {
        value: plus(test, 2),
        into: plus(test, 2),
        test: capped(test),
    }
}
