// One day's powers: the table that a day uses, and the power of each of its 96 values.
#![tactic(auto)]

ghost use Rattle.std.specs.Prelude.{◌≡◌, ◌≤◌, ◌<◌};
ghost use Rattle.day_powers.specs.DayTable.{day_table_index, day_table_at};
ghost use Rattle.day_powers.specs.Inside.{DayTableInside, powers_by};

use calendar_days::{DayType, Season};

// Which of the nine day tables of a group, from 0: seasons and day types are declared in the file's order.
pub fn day_table_index(season: Season, day_type: DayType) -> usize
    ensures { (result ≡ day_table_index season day_type) × (result < 9) }
{
    season as usize * 3 + day_type as usize
}

// The powers of a day table's 96 values, for one factor. `values` are a group's.
// Kept: the table by its number, as `day_table_index` gives it and the file counts its tables; places by number, since of what is written
// through a zip with iter_mut a proof knows the length alone.
pub fn powers_of(values: &[u16], table: usize, f: u32) -> [u32; 96]
    requires day_table_inside { DayTableInside table values.now }
    requires f_bound { f ≤ 20_000 }
    ensures { result ≡ powers_by f (day_table_at table values.now) }
{
    let start = table * 96;
    let mut powers = [0; 96];
    for (i, power) in powers.iter_mut().enumerate() {
        *power = dynamisation::power(values[start + i] as u32, f);
    }
    powers
}
