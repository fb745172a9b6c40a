// Over and under deliveries (document 02, (c)): for each reading period the metered energy less the balanced one, in the lent output.
// No series is stored: a period's energy is the sum of its days'.
#![tactic(auto)]

mod readings;

ghost use Rattle.std.specs.Prelude.{◌≡◌, ◌++◌, ◌^◌, ◌≤◌, ◌<◌, length, drop};
ghost use Rattle.refusal.specs.Questions.{Pass, answered};
ghost use Rattle.calendar_period.specs.Period.{period_check};
ghost use Rattle.calendar_reading_periods.specs.Inside.{periods_of};
ghost use Rattle.carry.specs.Carry.{largest_use};
ghost use Rattle.call_deliveries.specs.Deliveries.{asked, difference, behind_span, Delivers};
ghost use Rattle.call_deliveries.specs.Inside.{differences_from};

use calendar_reading_periods::Periods;
pub use readings::Readings;
use refusal::Refusal;
use series::Basis;

// What is asked behind the whole span, questions 17, 18, 9, 10 and 12, and the reading periods.
// Kept: that the span passed is asked here, as `Periods::new` asks it, which takes the span's two dates and no `Period`.
fn behind_span<'a>(readings: Readings<'a>, room: usize) -> Result<Periods<'a>, Refusal>
    requires { period_check readings.first readings.last ≡ Pass }
    ensures { result ≡ answered
        (behind_span readings.entry.first readings.entry.last readings.entry.starts.now
        (length readings.entry.metered.now) readings.entry.holidays.now readings.entry.yearly room)
        (periods_of readings.entry.last readings.entry.starts.now) }
{
    let starts = readings.starts;
    calendar_reading_periods::readings_question(starts.len(), readings.metered.len())?;
    let periods = Periods::new(readings.first, readings.last, starts)?;
    calendar_holidays::holidays_question(readings.holidays)?;
    call_request::use_question(readings.yearly)?;
    refusal::room_question(starts.len(), room)?;
    Ok(periods)
}

// Metered kWh less balanced Wh, in Wh.
fn difference_of(metered: u32, balanced: u64) -> i64
    requires { balanced < 2 ^ 63 }
    ensures { result ≡ difference metered balanced }
{
    let metered = 1_000 * metered as u64;
    metered as i64 - balanced as i64
}

// Fills the first entries of the output with the differences and keeps those beyond. The carry runs through from 0.
// Kept: places by number, of the output since a proof knows the length alone of what is written through a zip with iter_mut, and of the
// metered values by the same number; the use beside the basis, as in `series`.
fn fill(basis: &Basis, periods: Periods, metered: &[u32], yearly: u32, out: &mut [i64])
    requires yearly_small { yearly ≤ largest_use }
    requires same { length metered.now ≡ length periods }
    requires room { length periods ≤ length out.old }
    ensures { out.new ≡ differences_from basis.now yearly metered.now periods.entry 0 ++ drop (length metered.now) out.old }
{
    let mut carry: u32 = 0;
    for (i, period) in periods.enumerate() {
        let balanced = series_totals::total_days(basis, period, yearly, carry);
        out[i] = difference_of(metered[i], balanced.total);
        carry = balanced.carry;
    }
}

// Fills the output from its start with a difference for each reading period and keeps what is beyond; a refusal changes nothing.
pub fn differences(readings: Readings, out: &mut [i64]) -> Result<(), Refusal>
    ensures { Delivers (asked readings.entry out.old) result out.new }
{
    let opening = call_open::open_period(
        readings.file,
        readings.group,
        readings.first,
        readings.last,
    )?;
    let periods = behind_span(readings, out.len())?;
    let values = file_read::table_at(readings.file, opening.at);
    let basis = Basis::new(&values, readings.group, readings.holidays);
    fill(&basis, periods, readings.metered, readings.yearly, out);
    Ok(())
}
