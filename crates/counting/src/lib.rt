//! Counts a period in ticks or in SYNCs: 01, "The waiting line".

#![tactic(auto)]

ghost use Rattle.std.specs.Prelude.{◌≡◌, cond};
ghost use Rattle.counting.specs.Periods.{one_more};

// The count, and whether the period ended with it. Both always mean something, so this is no Option.
#[derive(Clone, Copy)]
pub struct Count {
    pub count: u32,
    pub ends: bool,
}

// Counts one more; at the end of the period the count starts again. The first test keeps the sum from overflowing.
pub fn counted(period: u32, count: u32) -> Count
    ensures { result ≡ one_more period count }
{
    if period <= count {
        return Count {
            count: 0,
            ends: false,
        };
    }
    let next = count + 1;
    if next < period {
        return Count {
            count: next,
            ends: false,
        };
    }
    Count {
        count: 0,
        ends: true,
    }
}

pub fn restarted(restart: bool, count: u32) -> u32
    ensures { result ≡ cond restart 0 count }
{
    if restart { 0 } else { count }
}
