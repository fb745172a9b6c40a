// What the program answers to an input (document 01, "The program"), on a lent page.
#![tactic(auto)]

ghost use Rattle.std.specs.Prelude.{◌≡◌};
ghost use Rattle.program_response.specs.Responding.{response_to, page_after, reported};

use refusal::Refusal;
use text::Page;

// The room that is enough for every input.
pub const PAGE_LENGTH: usize = 65_536;

// The answer in numbers: number and place, 0 when the text was written, and its length, 0 when refused.
// Kept: C has a report by this name for this call and one for the holidays, as `call_holidays::HolidaysReport` says.
#[repr(C)]
#[derive(Clone, Copy, Default)]
pub struct ResponseReport {
    pub number: u32,
    pub place: usize,
    pub length: usize,
}

impl From<Result<usize, Refusal>> for ResponseReport {
    ghost from_gives = { λ answer report. report ≡ reported answer };

    fn from(answer: Result<usize, Refusal>) -> ResponseReport {
        match answer {
            Ok(length) => ResponseReport {
                length,
                ..ResponseReport::default()
            },
            Err(refusal) => ResponseReport {
                number: refusal.number(),
                place: refusal.place(),
                ..ResponseReport::default()
            },
        }
    }
}

// Puts what the program prints for an input at the start of the page, where it has room for it, and keeps what is beyond. Answers how
// many bytes were put, or that there is too little room for them.
pub fn respond(input: &[u8], page: &mut [u8]) -> Result<usize, Refusal>
    ensures value { result ≡ response_to input.now page.old }
    ensures result_value { reported result ≡ reported (response_to input.now page.old) }
    ensures page_after { page.new ≡ page_after input.now page.old }
{
    let mut lines = [0; PAGE_LENGTH];
    let mut text = Page {
        bytes: &mut lines,
        at: 0,
    };
    program_text::put_text(input, &mut text);
    let length = text.at;
    refusal::room_question(length, page.len())?;
    page[..length].copy_from_slice(&lines[..length]);
    Ok(length)
}
