// Series and carry (document 01): one day's powers, after the clock change, made into whole watt hours with a carry.
#![tactic(auto)]

ghost use Rattle.std.specs.Prelude.{◌≡◌, ◌+◌, ◌++◌, ◌≤◌, length, take, drop};
ghost use Rattle.calendar_days.specs.Days.{positions, value_count_under};
ghost use Rattle.carry_quotients.specs.Inside.{SmallPowers, RangeCarried};
ghost use Rattle.carry_day.specs.Inside.{DayCarried, first_end, second_start};

use calendar_days::Clock;
use carry_quotients::Carried;

// The day's powers after the clock change, as two ranges of the 96: those of the first come first, then those of the second. Where the
// clock does not change, the first has all of them, and the second none.
#[tactic(auto, unfolding(calendar_days::specs::Days::positions))]
pub fn ranges_of(powers: &[u32], clock: Clock) -> (&[u32], &[u32])
    requires { length powers.now ≡ 96 }
    ensures first { result.0.now ≡ take (first_end clock) powers.now }
    ensures second { result.1.now ≡ drop (second_start clock) powers.now }
    ensures joined { result.0.now ++ result.1.now ≡ positions clock powers.now }
    ensures count { length result.0.now + length result.1.now ≡ value_count_under clock }
    ensures first_short { length result.0.now ≤ 96 }
    ensures second_short { length result.1.now ≤ 96 }
{
    match clock {
        Clock::Unchanged => (powers, &powers[96..]),
        Clock::Forward => (&powers[..8], &powers[12..]),
        Clock::Back => (&powers[..12], &powers[8..]),
    }
}

// Stores the figures of a range, in parts where the yearly use is small enough.
// Kept: yearly use and carry as two arguments, and the bounds, for the reason at `carry_quotients::carry_by_quotients`, here and below; powers
// and clock one by one, since document 01 has the 96 powers themselves handed to the clock-change and carry step ("Forms by place").
fn carry_range(powers: &[u32], yearly: u32, carry: u32, out: &mut [u32]) -> Carried
    requires small_powers { SmallPowers powers.now yearly carry }
    requires in_day { length powers.now ≤ 96 }
    requires room { length powers.now ≤ length out.old }
    ensures { RangeCarried powers.now yearly carry out.old result out.new }
{
    if yearly <= 500_000 {
        carry_parts::carry_by_parts(powers, yearly, carry, out)
    } else {
        carry_quotients::carry_by_quotients(powers, yearly, carry, out)
    }
}

// Stores the figures of a day with a clock change: its two ranges, one after the other.
fn carry_changed_day(
    powers: &[u32],
    clock: Clock,
    yearly: u32,
    carry: u32,
    out: &mut [u32],
) -> Carried
    requires small_powers { SmallPowers powers.now yearly carry }
    requires powers_len { length powers.now ≡ 96 }
    requires room { value_count_under clock ≤ length out.old }
    ensures { DayCarried powers.now clock yearly carry out.old result out.new }
{
    let (first, second) = ranges_of(powers, clock);
    let before = carry_range(first, yearly, carry, out);
    let after = carry_range(second, yearly, before.carry, &mut out[first.len()..]);
    Carried {
        total: before.total + after.total,
        carry: after.carry,
    }
}

// Stores the day's figures at the start of the output. A day without a clock change is one range, whose length the compiler knows.
pub fn carry_day(
    powers: [u32; 96],
    clock: Clock,
    yearly: u32,
    carry: u32,
    out: &mut [u32],
) -> Carried
    requires small_powers { SmallPowers powers yearly carry }
    requires room { value_count_under clock ≤ length out.old }
    ensures { DayCarried powers clock yearly carry out.old result out.new }
{
    match clock {
        Clock::Unchanged => carry_range(&powers, yearly, carry, out),
        Clock::Forward | Clock::Back => carry_changed_day(&powers, clock, yearly, carry, out),
    }
}
