// The calls of documents 01 and 02 for other languages: numbers and slices in, structs of numbers out. A slice goes as a pointer and a
// length. Each has the contract of the call that it makes, by the numbers of its answer.
// Kept: a call's parts are arguments one by one, since C hands them so.
#![tactic(auto)]

ghost use Rattle.std.specs.Prelude.{◌≡◌, length};
ghost use Rattle.refusal.specs.Questions.{reported};
ghost use Rattle.file_group.specs.Group.{check};
ghost use Rattle.file_locate.specs.Locating.{located_part};
ghost use Rattle.file_read.specs.Reading.{read_check, table_after};
ghost use Rattle.file_compare.specs.Comparing.{comparison, reported as reported_comparison};
ghost use Rattle.file_write_check.specs.WriteCheck.{write_check};
ghost use Rattle.file_write.specs.Buffer.{buffer_after};
ghost use Rattle.call_holidays.specs.Holidays.{holidays_answer, list_after, reported as reported_holidays};
ghost use Rattle.call_day.specs.Enquiry.{day_enquiry, reported as reported_day};
ghost use Rattle.call_request.specs.Request.{request};
ghost use Rattle.call_expand.specs.Expanding.{Reports};
ghost use Rattle.call_deliveries.specs.Deliveries.{deliveries, Reports as DeliveriesReports};
ghost use Rattle.call_page.specs.Page.{Reports as PageReports};
ghost use Rattle.program_response.specs.Responding.{response_to, page_after as response_after, reported as reported_response};

use call_day::DayReport;
use call_deliveries::Readings;
use call_expansion::ExpansionReport;
use call_holidays::HolidaysReport;
use call_request::Request;
use file_compare::ComparisonReport;
use file_locate::LocatedPart;
use program_response::ResponseReport;
use refusal::CheckReport;

// Questions 1 to 6.
#[unsafe(no_mangle)]
pub extern "C" fn slp_check(file: &[u8], group: u8) -> CheckReport
    ensures { result ≡ reported (check file.now group) }
{
    CheckReport::from(file_group::check(file, group))
}

// Where a group's value bytes stand in the file.
#[unsafe(no_mangle)]
pub extern "C" fn slp_locate(file: &[u8], group: u8) -> LocatedPart
    ensures { result ≡ located_part file.now group }
{
    file_locate::located_part(file, group)
}

// Reads a group's values into a table.
#[unsafe(no_mangle)]
pub extern "C" fn slp_read(file: &[u8], group: u8, table: &mut [u16]) -> CheckReport
    ensures value { result ≡ reported (read_check file.now group (length table.old)) }
    ensures table_after { table.new ≡ table_after file.now group table.old }
{
    CheckReport::from(file_read::read(file, group, table))
}

// Writes a profile file into a buffer.
#[unsafe(no_mangle)]
pub extern "C" fn slp_write(codes: &[u8], values: &[u16], buffer: &mut [u8]) -> CheckReport
    ensures value { result ≡ reported (write_check codes.now values.now (length buffer.old)) }
    ensures buffer_after { buffer.new ≡ buffer_after codes.now values.now buffer.old }
{
    CheckReport::from(file_write::write(codes, values, buffer))
}

// Compares two groups.
#[unsafe(no_mangle)]
pub extern "C" fn slp_compare(file: &[u8], first: u8, second: u8) -> ComparisonReport
    ensures { result ≡ reported_comparison (comparison file.now first second) }
{
    ComparisonReport::from(file_compare::compare(file, first, second))
}

// The holidays of a year, into a list.
#[unsafe(no_mangle)]
pub extern "C" fn slp_holidays(year: u32, choice: u8, list: &mut [u32]) -> HolidaysReport
    ensures value { result ≡ reported_holidays (holidays_answer year choice (length list.old)) }
    ensures list_after { list.new ≡ list_after year choice list.old }
{
    HolidaysReport::from(call_holidays::list_holidays(year, choice, list))
}

// The day enquiry.
#[unsafe(no_mangle)]
pub extern "C" fn slp_day(date: u32, holidays: &[u32]) -> DayReport
    ensures { result ≡ reported_day (day_enquiry date holidays.now) }
{
    DayReport::from(call_day::enquire(date, holidays))
}

// Expanding.
#[unsafe(no_mangle)]
pub extern "C" fn slp_expand(
    file: &[u8],
    group: u8,
    first: u32,
    last: u32,
    holidays: &[u32],
    yearly: u32,
    carry: u32,
    out: &mut [u32],
) -> ExpansionReport
    ensures { Reports
        (request file.now group first last holidays.now yearly carry out.old) result out.new }
{
    let request = Request {
        file,
        group,
        first,
        last,
        holidays,
        yearly,
        carry,
    };
    ExpansionReport::from(call_expand::expand(request, out))
}

// Over and under deliveries.
#[unsafe(no_mangle)]
pub extern "C" fn slp_deliveries(
    file: &[u8],
    group: u8,
    first: u32,
    last: u32,
    starts: &[u32],
    metered: &[u32],
    holidays: &[u32],
    yearly: u32,
    out: &mut [i64],
) -> CheckReport
    ensures { DeliveriesReports
        (deliveries file.now group first last starts.now metered.now holidays.now yearly out.old)
        result out.new }
{
    let readings = Readings {
        file,
        group,
        first,
        last,
        starts,
        metered,
        holidays,
        yearly,
    };
    CheckReport::from(call_deliveries::differences(readings, out))
}

// The day page.
#[unsafe(no_mangle)]
pub extern "C" fn slp_page(
    file: &[u8],
    group: u8,
    first: u32,
    last: u32,
    holidays: &[u32],
    yearly: u32,
    carry: u32,
    page: &mut [u8],
) -> ExpansionReport
    ensures { PageReports
        (request file.now group first last holidays.now yearly carry page.old) result page.new }
{
    let request = Request {
        file,
        group,
        first,
        last,
        holidays,
        yearly,
        carry,
    };
    ExpansionReport::from(call_page::day_page(request, page))
}

// What the program prints for an input.
#[unsafe(no_mangle)]
pub extern "C" fn slp_respond(input: &[u8], page: &mut [u8]) -> ResponseReport
    ensures value { result ≡ reported_response (response_to input.now page.old) }
    ensures page_after { page.new ≡ response_after input.now page.old }
{
    ResponseReport::from(program_response::respond(input, page))
}
